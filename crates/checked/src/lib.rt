// What soundness asks of the held payments together [S2 to S8, S10, S11].
#![tactic(auto)]

ghost use Rattle.std.specs.Prelude.{◌≡◌, take};
ghost use Rattle.std.specs.List.{list_all};
ghost use Rattle.right.specs.Right.{apart, right};
ghost use Rattle.checked.specs.Checked.{below_all, comes_after, held_all, held_pairs, held_right, posted_below, unused_all};

use frame::{LedgerNo, Time};
use held::HELD;
use payment::{Payment, Stamp};

// Whether each held payment is right. A count above the number of places stands for all of them.
fn held_all(payments: [Payment; HELD], count: u16, group: u8, own: LedgerNo, clock: Time) -> bool
    ensures { result ≡ held_all payments count (right group own.0 clock.0) }
{
    payments
        .iter()
        .take(usize::from(count))
        .all(|p| right::is_right(*p, group, own, clock))
}

// Whether each unused place is all zero.
fn unused_all(payments: [Payment; HELD], count: u16) -> bool
    ensures { result ≡ unused_all payments count }
{
    payments
        .iter()
        .skip(usize::from(count))
        .all(|p| right::is_unused(*p))
}

// Whether a payment is apart from each of the first n.
fn apart_from_first(payments: [Payment; HELD], n: usize, p: Payment) -> bool
    ensures { result ≡ list_all (apart p) (take n payments) }
{
    payments.iter().take(n).all(|q| right::is_apart(p, *q))
}

// Whether each two held payments are apart: each from all before it.
fn held_pairs(payments: [Payment; HELD], count: u16) -> bool
    ensures { result ≡ held_pairs payments count apart }
{
    payments
        .iter()
        .enumerate()
        .take(usize::from(count))
        .all(|(i, p)| apart_from_first(payments, i, *p))
}

// [S10, S11] Whether a payment that is not posted comes after a posted stamp.
fn comes_after(p: Payment, own: LedgerNo, stamp: Stamp) -> bool
    ensures { result ≡ comes_after own.0 stamp p }
{
    match p.phase {
        payment::STAMPED => stamp.is_below(p.stamp()),
        payment::PROPOSED => stamp.is_below(payment::proposal(p.times, own)),
        _ => true,
    }
}

// Whether every payment comes after this one, where it is posted.
fn below_all(payments: [Payment; HELD], own: LedgerNo, p: Payment) -> bool
    ensures { result ≡ below_all payments own.0 p }
{
    if p.phase != payment::POSTED {
        return true;
    }
    let stamp = p.stamp();
    payments.iter().all(|q| comes_after(*q, own, stamp))
}

// Whether every payment comes after each that is posted.
fn posted_below(payments: [Payment; HELD], own: LedgerNo) -> bool
    ensures { result ≡ posted_below payments own.0 }
{
    payments.iter().all(|p| below_all(payments, own, *p))
}

// [S2 to S8, S10, S11] Whether the held payments are right: each, each two, the unused places, and what is posted. They come in with
// parts of the ledger, since the struct with its methods [X4] is declared above, in `ledger`.
pub fn held_right(
    payments: [Payment; HELD],
    count: u16,
    group: u8,
    own: LedgerNo,
    clock: Time,
) -> bool
    ensures { result ≡ held_right payments count group own.0 clock.0 }
{
    held_all(payments, count, group, own, clock)
        && (held_pairs(payments, count)
            && (unused_all(payments, count) && posted_below(payments, own)))
}
