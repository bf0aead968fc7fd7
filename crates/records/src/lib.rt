// The drill's records: how long one is, whether it ends the run, and what one can do [D2 to D4, D8].
#![tactic(auto)]

ghost use Rattle.std.specs.Prelude.{◌≡◌};
ghost use Rattle.records.specs.Records.{kind_of, record_size, row_of, row_total, stops};

use frame::LedgerNo;

// What a record's first byte says of it.
#[derive(Clone, Copy, PartialEq, Eq)]
pub enum Kind {
    SetUp,
    Multicast,
    Propose,
}

// What a record did.
#[derive(Clone, Copy)]
pub enum Did {
    // The ledgers were started afresh.
    SetUp {
        count: u8,
    },
    Step {
        target: u8,
        // The number that is printed [D7]: `lines::line` takes any.
        answer: u8,
        // How many numbers were written into the posting list, which is the caller's.
        postings: usize,
    },
    // The record is one that ends the run.
    Stop,
}

impl Kind {
    // What a first byte stands for, where it stands for a kind. It is no `TryFrom`: what another byte means, each caller says itself.
    pub fn of(byte: u8) -> Option<Kind>
        ensures { result ≡ kind_of byte }
    {
        match byte {
            16 => Some(Kind::SetUp),
            17 => Some(Kind::Multicast),
            18 => Some(Kind::Propose),
            _ => None,
        }
    }

    // How many bytes a record of this kind has.
    fn total(self) -> usize
        ensures { result ≡ row_total (row_of self) }
    {
        match self {
            Kind::SetUp => 2,
            Kind::Multicast => 7,
            Kind::Propose => 10,
        }
    }
}

// How many bytes a record has that begins with this byte, where it stands for a kind.
pub fn total(kind: u8) -> Option<usize>
    ensures { result ≡ record_size kind }
{
    Some(Kind::of(kind)?.total())
}

// Whether the record at the start of the bytes ends the run of a group of so many ledgers.
pub fn ends(count: u8, bytes: &[u8]) -> bool
    ensures { result ≡ stops count bytes.now }
{
    // No record has fewer than two bytes.
    let [first, second, ..] = *bytes else {
        return true;
    };
    let Some(kind) = Kind::of(first) else {
        return true;
    };
    if bytes.len() < kind.total() {
        return true;
    }
    match kind {
        Kind::SetUp => !ledgers::is_group(second),
        Kind::Multicast | Kind::Propose => !ledgers::is_ledger_of(count, LedgerNo(second)),
    }
}
