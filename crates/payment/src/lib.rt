// One payment's record [K4, K5]: its destinations, the times they proposed, which of them were heard, and its phase.
#![tactic(auto)]

ghost use Rattle.std.specs.Prelude.{◌≡◌, max};
ghost use Rattle.payment.specs.Payments.{greatest, has_proposal, hear, new_payment, proposal, stamp_of, time_in};
ghost use Rattle.payment.specs.Stamps.{below};

use frame::{LedgerNo, PaymentNo, Time};

// Phases. They are numbers and no enum: any state may be handed in, also one with another number here, and the step answers it [A1].
pub const WAITING: u8 = 0;

pub const PROPOSED: u8 = 1;

pub const STAMPED: u8 = 2;

pub const POSTED: u8 = 3;

// [N3] The last time.
pub const LAST_TIME: u16 = 60000;

// The derived order is that of stamps [N5]: so the time stands first.
#[derive(Clone, Copy, PartialEq, Eq, PartialOrd, Ord)]
pub struct Stamp {
    pub time: Time,
    pub ledger: LedgerNo,
}

// What is kept for one payment.
#[derive(Clone, Copy, PartialEq, Eq)]
pub struct Payment {
    pub number: PaymentNo,
    // [N6] One bit for each ledger.
    pub destinations: u8,
    // The destinations whose time is kept, with the same bits. A state that is handed in may have any bits here [A1].
    pub heard: u8,
    // Ledger k's time stands at place k - 1; 0 where it was not heard, as in a place that is not in use [S4, K6].
    pub times: [Time; 8],
    pub phase: u8,
}

impl Stamp {
    #[tactic(auto, unfolding(crate::specs::Stamps::below))]
    pub fn is_below(self, other: Stamp) -> bool
        ensures { result ≡ below self other }
    {
        self < other
    }
}

// The later of two times.
pub fn later(a: Time, b: Time) -> Time
    ensures { result ≡ record { 0 = max a.0 b.0 } }
{
    a.max(b)
}

// The time kept from a ledger; 0 where there is no such ledger, as the definition says.
pub fn time_in(times: [Time; 8], ledger: LedgerNo) -> Time
    ensures { result ≡ time_in times ledger.0 }
{
    match ledgers::place_of(ledger) {
        Some(i) => times[usize::from(i)],
        None => Time(0),
    }
}

// [N4] A ledger's proposal, as a stamp.
pub fn proposal(times: [Time; 8], ledger: LedgerNo) -> Stamp
    ensures { result ≡ proposal times ledger.0 }
{
    Stamp {
        time: time_in(times, ledger),
        ledger,
    }
}

// Below every proposal, since no ledger is 0: what `pick` gives where none was heard, as the definition `greatest` does.
const NO_STAMP: Stamp = Stamp {
    time: Time(0),
    ledger: LedgerNo(0),
};

// [R31, X3] Stamp picking: the greatest of the proposals heard. One pass, with the test in it and no `..=`: behind a `filter`, a step that
// compares many stamps takes near twice the instructions.
fn pick(times: [Time; 8], heard: u8) -> Stamp
    ensures { result ≡ greatest times heard 8 }
{
    (1..ledgers::MOST + 1)
        .map(LedgerNo)
        .fold(NO_STAMP, |best, k| {
            if ledgers::among(heard, k) {
                best.max(proposal(times, k))
            } else {
                best
            }
        })
}

// A payment that is taken in: nothing heard, waiting.
pub fn new_payment(number: PaymentNo, destinations: u8) -> Payment
    ensures { result ≡ new_payment number.0 destinations }
{
    Payment {
        number,
        destinations,
        heard: 0,
        times: [Time(0); 8],
        phase: WAITING,
    }
}

impl Payment {
    pub fn stamp(self) -> Stamp
        ensures { result ≡ stamp_of self }
    {
        pick(self.times, self.heard)
    }

    // The payment with a ledger's time kept. The two come apart, here and below, as a frame has them.
    pub fn hear(mut self, ledger: LedgerNo, time: Time) -> Payment
        ensures { result ≡ hear self ledger.0 time }
    {
        if let Some(i) = ledgers::place_of(ledger) {
            self.heard |= 1 << i;
            self.times[usize::from(i)] = time;
        }
        self
    }

    // Whether a ledger's time is held for the payment as a proposal.
    pub fn has_proposal(self, ledger: LedgerNo, time: Time) -> bool
        ensures { result ≡ has_proposal self ledger.0 time.0 }
    {
        ledgers::among(self.heard, ledger) && time_in(self.times, ledger) == time
    }
}
