// Rules 1 to 4 [R11 to R44].
ghost use Rattle.std.specs.Prelude.{◌≡◌, length, unwrap_or, ◌≤◌, ◌<◌};
ghost use Rattle.refusals.specs.Refusals.{received};
ghost use Rattle.held.specs.Held.{limit};
ghost use Rattle.ledger.specs.Step.{MayTake, after_hearing, kept_at, left, multicast_rule, new_own_time, outcome};
ghost use Rattle.ledger.specs.Step.{post_rule, propose_rule, stamp_rule, taken};

use crate::{Ledger, Step};
use frame::{Frame, LedgerNo, Time};
use held::HELD;
use payment::Payment;
use refusals::{Incoming, Judged};

impl Ledger {
    // The frame's payment is kept at its place; a new one goes behind those held, and is counted.
    fn keep(mut self, place: Option<usize>, p: Payment) -> Ledger
        requires { (unwrap_or place self.count < limit) × (self.count ≤ limit) }
        ensures { result ≡ kept_at self place p }
    {
        match place {
            Some(i) => self.payments[i] = p,
            None => {
                self.payments[usize::from(self.count)] = p;
                self.count += 1;
            }
        }
        self
    }

    // Rule 3 [R31, R32]: a payment that has heard all is stamped, and a clock that is behind its stamp is put forward.
    fn stamp(mut self, place: usize) -> Ledger
        requires { place < limit }
        ensures { result ≡ stamp_rule self place }
    {
        let mut p = self.payments[place];
        if p.heard == p.destinations {
            let clock = payment::later(self.clock, p.stamp().time);
            p.phase = payment::STAMPED;
            self.clock = clock;
            self.payments[place] = p;
        }
        self
    }

    // Rule 4 [R41 to R44]: all that are free are posted; with the ledger comes their number.
    fn post(mut self, list: &mut [u32]) -> (Ledger, usize)
        requires { limit ≤ length list.old }
        ensures { left result list.new ≡ post_rule self list.old }
    {
        let done = posting::post(self.payments, self.own, list);
        // An array goes into a field by a name of its own: straight, the borrows of it have no proof.
        let after = done.payments;
        self.payments = after;
        (self, done.count)
    }
}

// A ledger, and a frame that no refusal applies to at it.
#[derive(Clone, Copy)]
pub(crate) struct Accepted {
    pub ledger: Ledger,
    pub judged: Judged,
    ghost may: { MayTake ledger judged },
}

impl Accepted {
    // The ledger's next own time.
    fn own_time(self) -> Time
        ensures { result ≡ new_own_time self.ledger }
    {
        Time(self.ledger.clock.0 + 1)
    }

    // Rule 1 [R11, R12]: the payment is proposed, at the next time of the clock.
    fn multicast(self) -> Ledger
        ensures { result ≡ multicast_rule self.ledger (received self.judged.frame) }
    {
        let mut ledger = self.ledger;
        ledger.clock = self.own_time();
        let mut heard = self.judged.payment.hear(ledger.own, ledger.clock);
        heard.phase = payment::PROPOSED;
        ledger.keep(self.judged.place, heard)
    }

    // Rule 2 [R21, R22]: the source's time is kept.
    fn propose(self, source: LedgerNo, time: Time) -> Ledger
        requires { ((received self.judged.frame).source ≡ source) × ((received self.judged.frame).time ≡ time) }
        ensures { result ≡ propose_rule self.ledger (received self.judged.frame) }
    {
        self.ledger
            .keep(self.judged.place, self.judged.payment.hear(source, time))
    }

    // Rules 1 and 2.
    fn after_hearing(self) -> Ledger
        ensures { result ≡ after_hearing self.ledger (received self.judged.frame) }
    {
        match self.judged.frame {
            Frame::Multicast { .. } => self.multicast(),
            Frame::Propose { source, time, .. } => self.propose(source, time),
        }
    }

    // Rules 1 to 4.
    pub(crate) fn take(self, outgoing: &mut [u8], postings: &mut [u32]) -> Step
        requires { limit ≤ length postings.old }
        ensures { outcome result outgoing.new postings.new ≡ taken self.ledger (received self.judged.frame) outgoing.old postings.old }
    {
        let place = self.judged.place.unwrap_or(usize::from(self.ledger.count));
        let recipients = sending::send(
            self.ledger.own,
            self.own_time(),
            Incoming::from(self.judged.frame),
            outgoing,
        );
        let (state, posted) = self.after_hearing().stamp(place).post(postings);
        Step {
            state,
            answer: Ok(()),
            recipients,
            copies: ledgers::how_many(recipients),
            postings: posted,
        }
    }
}
