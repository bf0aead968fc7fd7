// What a ledger sends for a frame that it takes [R13, R14, R22].
#![tactic(auto)]

ghost use Rattle.std.specs.Prelude.{◌≡◌};
ghost use Rattle.sending.specs.Sending.{recipients, written};

use frame::{Frame, LedgerNo, PROPOSE, Time};
use refusals::Incoming;

// Writes this ledger's PROPOSE with a time, where there are recipients, and gives the recipients: the other destinations of a MULTICAST.
pub fn send(own: LedgerNo, time: Time, f: Incoming, outgoing: &mut [u8]) -> u8
    ensures recipients { result ≡ recipients own.0 f }
    ensures written { outgoing.new ≡ written own time f outgoing.old }
{
    if f.kind == PROPOSE {
        return 0;
    }
    let recipients = ledgers::others(f.destinations, own);
    if recipients != 0 {
        let propose = Frame::Propose {
            payment: f.payment,
            destinations: f.destinations,
            source: own,
            time,
        };
        // A buffer that is too short is left as it was [F7].
        let _ = frame::write(propose, outgoing);
    }
    recipients
}
