// The payments that a ledger holds, each at its place.
#![tactic(auto)]

ghost use Rattle.std.specs.Prelude.{◌≡◌};
ghost use Rattle.held.specs.Held.{found_at, held_for_another};

use frame::{LedgerNo, PaymentNo, Time};
use payment::Payment;

// [K2] How many payments a ledger holds at most: the one place that says so.
pub const HELD: usize = 32;

// The place of the payment of a number, where it is held.
pub fn find(payments: [Payment; HELD], number: PaymentNo) -> Option<usize>
    ensures { result ≡ found_at payments number.0 }
{
    payments.iter().position(|p| p.number == number)
}

// Whether a ledger's time is held for another payment than that of a number. It looks at proposals alone: a stamp is one of them. The
// ledger and its time come apart, as a frame has them.
pub fn held_for_another(
    payments: [Payment; HELD],
    number: PaymentNo,
    ledger: LedgerNo,
    time: Time,
) -> bool
    ensures { result ≡ held_for_another payments number.0 ledger.0 time.0 }
{
    payments
        .iter()
        .any(|p| p.number != number && p.has_proposal(ledger, time))
}
