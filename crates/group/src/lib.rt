// The drill's ledgers, and what a record does to them [D2 to D5, D8].
#![tactic(auto)]

ghost use Rattle.std.specs.Prelude.{◌≡◌, ◌∷◌, ◌+◌, ◌-◌, ◌≤◌, drop, length, take, true};
ghost use Rattle.ledgers.specs.Ledgers.{is_ledger_of};
ghost use Rattle.group.specs.Groups.{no_group, outcome, started, stepped, turn};

use frame::{LedgerNo, MULTICAST, MULTICAST_TOTAL, PROPOSE, PROPOSE_TOTAL};
use ledger::Ledger;
use records::{Did, Kind};

// The most ledgers of a group. A constant cannot call `From`.
pub const LEDGERS: usize = ledgers::MOST as usize;

// N, and the ledgers 1 to N at the first places; N is 0 before any set-up, so that no target is in the group then [D8]. A group that is
// handed in may have any N, and is answered.
#[derive(Clone, Copy)]
pub struct Group {
    pub count: u8,
    pub ledgers: [Ledger; LEDGERS],
}

#[derive(Clone, Copy)]
pub struct Turn {
    pub group: Group,
    pub did: Did,
}

// Before any set-up.
pub fn nothing() -> Group
    ensures { result ≡ no_group }
{
    Group {
        count: 0,
        ledgers: [ledger::nothing(); LEDGERS],
    }
}

// So many ledgers afresh; the other places are all zero.
fn start(count: u8) -> Group
    ensures { result ≡ started count }
{
    let mut ledgers = [ledger::nothing(); LEDGERS];
    // A place is a small number: the cast loses nothing, and `TryFrom` would add a branch that is never taken.
    for (i, ledger) in ledgers.iter_mut().enumerate() {
        *ledger = ledger.set_up(count, LedgerNo(i as u8 + 1)).state;
    }
    Group { count, ledgers }
}

// The frame in a step record: its kind, and the body bytes behind the target.
fn frame_in<const TOTAL: usize>(kind: u8, bytes: &[u8]) -> [u8; TOTAL]
    requires { (1 ≤ TOTAL) × (TOTAL + 1 ≤ length bytes.now) }
    ensures { result ≡ kind ∷ take (TOTAL - 1) (drop 2 bytes.now) }
{
    let mut frame = [kind; TOTAL];
    // A part can be lent of a slice, and not of an array whose length is a parameter.
    let parts = &mut frame[..];
    parts[1..].copy_from_slice(&bytes[2..TOTAL + 1]);
    frame
}

impl Group {
    // The target ledger is handed a frame; what it sends is dropped.
    fn step(mut self, target: u8, frame: &[u8], postings: &mut [u32]) -> Turn
        requires { is_ledger_of self.count target ≡ true }
        ensures { outcome result postings.new ≡ stepped self target frame.now postings.old }
    {
        let at = usize::from(target - 1);
        let mut outgoing = [0; PROPOSE_TOTAL];
        let done = self.ledgers[at].step(frame, &mut outgoing, postings);
        self.ledgers[at] = done.state;
        Turn {
            group: self,
            did: Did::Step {
                target,
                answer: refusals::number(done.answer),
                postings: done.postings,
            },
        }
    }

    // What the record at the start of the bytes does.
    pub fn turn(self, bytes: &[u8], postings: &mut [u32]) -> Turn
        ensures { outcome result postings.new ≡ turn self bytes.now postings.old }
    {
        if records::ends(self.count, bytes) {
            return Turn {
                group: self,
                did: Did::Stop,
            };
        }
        let kind = bytes[0];
        let second = bytes[1];
        match Kind::of(kind) {
            Some(Kind::SetUp) => Turn {
                group: start(second),
                did: Did::SetUp { count: second },
            },
            Some(Kind::Multicast) => self.step(
                second,
                &frame_in::<MULTICAST_TOTAL>(MULTICAST, bytes),
                postings,
            ),
            Some(Kind::Propose) => self.step(
                second,
                &frame_in::<PROPOSE_TOTAL>(PROPOSE, bytes),
                postings,
            ),
            // It would have ended the run.
            None => unreachable!(),
        }
    }
}
