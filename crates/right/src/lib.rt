// What soundness asks of one held payment, of two, and of an unused place [S2 to S8].
#![tactic(auto)]

ghost use Rattle.std.specs.Prelude.{◌≡◌};
ghost use Rattle.right.specs.Right.{apart, heard_right, not_above_clock, phase_right, right, time_right, times_differ, unused};

use frame::{LedgerNo, PaymentNo, Time};
use payment::{LAST_TIME, POSTED, PROPOSED, Payment, STAMPED, WAITING};

// Whether what is kept from one ledger is as it should be.
fn time_right(p: Payment, ledger: LedgerNo) -> bool
    ensures { result ≡ time_right p ledger.0 }
{
    let time = payment::time_in(p.times, ledger).0;
    if ledgers::among(p.heard, ledger) {
        ledgers::among(p.destinations, ledger) && (1..=LAST_TIME).contains(&time)
    } else {
        time == 0
    }
}

// The numbers go up to one below `MOST + 1`, here and in `times_differ`: `..=MOST` carries a flag beside the number, and with it a step
// on a full ledger takes half as long again.
fn heard_right(p: Payment) -> bool
    ensures { result ≡ heard_right p }
{
    (1..ledgers::MOST + 1)
        .map(LedgerNo)
        .all(|k| time_right(p, k))
}

#[tactic(auto, unfolding(crate::specs::Right::not_above_clock))]
fn not_above_clock(p: Payment, own: LedgerNo, clock: Time) -> bool
    ensures { result ≡ not_above_clock own.0 clock.0 p }
{
    let own_above = ledgers::among(p.heard, own) && clock < payment::time_in(p.times, own);
    let stamp_above = matches!(p.phase, STAMPED | POSTED) && clock < p.stamp().time;
    !own_above && !stamp_above
}

#[tactic(auto, unfolding(crate::specs::Right::phase_right))]
fn phase_right(p: Payment, own: LedgerNo) -> bool
    ensures { result ≡ phase_right own.0 p }
{
    let own_heard = ledgers::among(p.heard, own);
    match p.phase {
        WAITING => !own_heard && p.heard != 0,
        PROPOSED => own_heard && p.heard != p.destinations,
        STAMPED | POSTED => p.heard == p.destinations,
        // Any other number is no phase.
        _ => false,
    }
}

// Whether a held payment is as it should be, by itself, in the ledger that these parts are of: the struct stands above, in `ledger` [X4].
pub fn is_right(p: Payment, group: u8, own: LedgerNo, clock: Time) -> bool
    ensures { result ≡ right group own.0 clock.0 p }
{
    p.number != PaymentNo(0)
        && !ledgers::is_unlawful(group, own, p.destinations)
        && heard_right(p)
        && not_above_clock(p, own, clock)
        && phase_right(p, own)
}

// Whether a place is unused: all zero.
pub fn is_unused(p: Payment) -> bool
    ensures { result ≡ unused p }
{
    p == payment::new_payment(PaymentNo(0), 0)
}

// Whether no ledger's time is kept for both payments. It looks at proposals alone: a stamp is one of them.
fn times_differ(p: Payment, q: Payment) -> bool
    ensures { result ≡ times_differ p q }
{
    (1..ledgers::MOST + 1).map(LedgerNo).all(|k| {
        !(ledgers::among(p.heard, k) && q.has_proposal(k, payment::time_in(p.times, k)))
    })
}

// Whether two held payments can be held together.
pub fn is_apart(p: Payment, q: Payment) -> bool
    ensures { result ≡ apart p q }
{
    p.number != q.number && times_differ(p, q)
}
