// A ledger of a cash desk: what it keeps, when that is sound, the set-up, and the step for one incoming frame.
#![tactic(auto)]

mod rules;
mod sound;

ghost use Rattle.std.specs.Prelude.{◌≡◌};
ghost use Rattle.ledger.specs.State.{fresh, set_up, told};
ghost use Rattle.ledger.specs.Step.{outcome, refusing, step};

use frame::{LedgerNo, PaymentNo, Time};
use held::HELD;
use payment::Payment;
use refusals::Refusal;
use rules::Accepted;

// [K1] What a ledger keeps.
#[derive(Clone, Copy)]
pub struct Ledger {
    // N: the ledgers are 1 to this.
    pub group: u8,
    // This ledger's number.
    pub own: LedgerNo,
    // From 0 to 60,000.
    pub clock: Time,
    // How many payments are held: they stand at the first places. A state that is handed in may have any number here [A1].
    pub count: u16,
    pub payments: [Payment; HELD],
}

#[derive(Clone, Copy)]
pub struct SetUp {
    pub state: Ledger,
    pub answer: Result<(), Refusal>,
}

// [R2] What a step hands back.
#[derive(Clone, Copy)]
pub struct Step {
    pub state: Ledger,
    pub answer: Result<(), Refusal>,
    // The ledgers that the outgoing frame goes to, as a byte.
    pub recipients: u8,
    // [R3] One for each recipient.
    pub copies: u32,
    // How many numbers were written into the posting list, which is the caller's.
    pub postings: usize,
}

// [U2] The state that is all zero, and not sound.
pub fn nothing() -> Ledger
    ensures { result ≡ fresh 0 0 }
{
    Ledger {
        group: 0,
        own: LedgerNo(0),
        clock: Time(0),
        count: 0,
        payments: [payment::new_payment(PaymentNo(0), 0); HELD],
    }
}

impl Ledger {
    // [U1, U2, X4] Set-up of ledger `own` of a group, whatever the state was before.
    pub fn set_up(mut self, group: u8, own: LedgerNo) -> SetUp
        ensures { told result ≡ set_up group own.0 }
    {
        self = nothing();
        if !ledgers::is_ledger_of(group, own) {
            return SetUp {
                state: self,
                answer: Err(Refusal::Unsound),
            };
        }
        self.group = group;
        self.own = own;
        SetUp {
            state: self,
            answer: Ok(()),
        }
    }

    // [T3] A refusal: the same state, nobody to send to, nothing posted.
    fn refuse(self, refusal: Refusal) -> Step
        ensures { result ≡ refusing self refusal }
    {
        Step {
            state: self,
            answer: Err(refusal),
            recipients: 0,
            copies: 0,
            postings: 0,
        }
    }

    // [R1, T1, X4] The step for one incoming frame.
    pub fn step(mut self, frame: &[u8], outgoing: &mut [u8], postings: &mut [u32]) -> Step
        ensures { outcome result outgoing.new postings.new ≡ step self frame.now outgoing.old postings.old }
    {
        if !self.is_sound() {
            return self.refuse(Refusal::Unsound);
        }
        if (outgoing.len() < frame::PROPOSE_TOTAL) | (postings.len() < HELD) {
            return self.refuse(Refusal::TooShort);
        }
        match refusals::judge(
            self.group,
            self.own,
            self.clock,
            self.count,
            self.payments,
            frame,
        ) {
            Ok(judged) => Accepted {
                ledger: self,
                judged,
            }
            .take(outgoing, postings),
            Err(refused) => self.refuse(refused.refusal),
        }
    }
}
