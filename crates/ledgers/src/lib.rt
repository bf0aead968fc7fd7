// Ledgers: the numbers of a group [N1], and the bytes that name some of its ledgers [N6].
#![tactic(auto)]

ghost use Rattle.std.specs.Prelude.{◌≡◌, ◌^◌, leb};
ghost use Rattle.ledgers.specs.Ledgers.{has, how_many, is_group, is_ledger_of, place_of, unlawful, without};

use frame::LedgerNo;

// The most ledgers of a group.
pub const MOST: u8 = 8;

// Whether a group can have so many ledgers.
pub fn is_group(group: u8) -> bool
    ensures { result ≡ is_group group }
{
    (1..=MOST).contains(&group)
}

// Whether a number is that of a ledger of the group. The group and the number come apart, here and below: the struct that has both stands
// above, in `ledger` [X4].
pub fn is_ledger_of(group: u8, ledger: LedgerNo) -> bool
    ensures { result ≡ is_ledger_of group ledger.0 }
{
    is_group(group) && (1..=group).contains(&ledger.0)
}

// The place of a ledger's bit in a byte, and of its time among eight: ledgers 1 to 8 have one.
pub fn place_of(ledger: LedgerNo) -> Option<u8>
    ensures { result ≡ place_of ledger.0 }
{
    match ledger.0 {
        k @ 1..=MOST => Some(k - 1),
        _ => None,
    }
}

// Whether a ledger is among the ledgers of a byte.
pub fn among(ledgers: u8, ledger: LedgerNo) -> bool
    ensures { result ≡ has ledgers ledger.0 }
{
    match place_of(ledger) {
        Some(i) => (ledgers >> i) % 2 == 1,
        None => false,
    }
}

// The other ledgers of a byte.
pub fn others(ledgers: u8, ledger: LedgerNo) -> u8
    ensures { result ≡ without ledgers ledger.0 }
{
    match place_of(ledger) {
        Some(i) => ledgers & !(1 << i),
        None => ledgers,
    }
}

// [R3, X1] How many ledgers there are in a byte.
pub fn how_many(ledgers: u8) -> u32
    ensures { result ≡ how_many ledgers }
{
    ledgers.count_ones()
}

// Whether a byte names a ledger beyond the group. Only a group of fewer than eight leaves a bit for one.
fn is_beyond(group: u8, destinations: u8) -> bool
    ensures { result ≡ leb (2 ^ group) destinations }
{
    group < MOST && destinations >> group != 0
}

// [A5] Whether destinations name nobody, name one beyond the group, or leave this ledger out.
#[tactic(auto, unfolding(crate::specs::Ledgers::unlawful))]
pub fn is_unlawful(group: u8, own: LedgerNo, destinations: u8) -> bool
    ensures { result ≡ unlawful group own.0 destinations }
{
    destinations == 0 || is_beyond(group, destinations) || !among(destinations, own)
}
