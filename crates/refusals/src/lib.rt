// The rows of the table that judge a frame [A3 to A11], in their order.
#![tactic(auto)]

ghost use Rattle.std.specs.Prelude.{◌≡◌, None};
ghost use Rattle.refusals.specs.declared.Refusal.{Refusal};
ghost use Rattle.refusals.specs.Refusals.{answer_no, bad_source, bad_time, clock_at_end, conflict, first_given, is_held, judge};
ghost use Rattle.refusals.specs.Refusals.{looked_up, payment_in, received, repeats, rows, told};

use frame::{Frame, LedgerNo, NotAFrame, PaymentNo, Time};
use held::HELD;
use payment::{LAST_TIME, Payment};

// The refusals of the table [A1 to A11], in its order.
#[derive(Clone, Copy, PartialEq, Eq)]
pub enum Refusal {
    // The state is not sound; at a set-up, its numbers are none of a group.
    Unsound,
    // A buffer is too short.
    TooShort,
    NotAFrame,
    PaymentZero,
    Unlawful,
    BadSource,
    BadTime,
    Conflict,
    Repeat,
    Full,
    ClockAtEnd,
}

// [P5] The number of an answer in the table: 0 where a frame is taken. It is no `From`: neither a `Result` nor a number is a type of ours.
pub fn number(answer: Result<(), Refusal>) -> u8
    ensures { result ≡ answer_no answer }
{
    match answer {
        Ok(()) => 0,
        Err(Refusal::Unsound) => 1,
        Err(Refusal::TooShort) => 2,
        Err(Refusal::NotAFrame) => 3,
        Err(Refusal::PaymentZero) => 4,
        Err(Refusal::Unlawful) => 5,
        Err(Refusal::BadSource) => 6,
        Err(Refusal::BadTime) => 7,
        Err(Refusal::Conflict) => 8,
        Err(Refusal::Repeat) => 9,
        Err(Refusal::Full) => 10,
        Err(Refusal::ClockAtEnd) => 11,
    }
}

// A frame's values, flat, as the rows of the table and what is sent read them; a MULTICAST has source 0 and time 0.
#[derive(Clone, Copy)]
pub struct Incoming {
    pub kind: u8,
    pub payment: PaymentNo,
    pub destinations: u8,
    pub source: LedgerNo,
    pub time: Time,
}

impl From<Frame> for Incoming {
    ghost from_gives = { λ frame f. f ≡ received frame };

    fn from(frame: Frame) -> Incoming {
        match frame {
            Frame::Multicast {
                payment,
                destinations,
            } => Incoming {
                kind: frame::MULTICAST,
                payment,
                destinations,
                source: LedgerNo(0),
                time: Time(0),
            },
            Frame::Propose {
                payment,
                destinations,
                source,
                time,
            } => Incoming {
                kind: frame::PROPOSE,
                payment,
                destinations,
                source,
                time,
            },
        }
    }
}

// A frame with its payment: the held one at its place, or a new one.
#[derive(Clone, Copy)]
pub struct Judged {
    pub frame: Frame,
    pub place: Option<usize>,
    pub payment: Payment,
}

// A refusal; beside it the frame with its payment, where the bytes are a frame.
#[derive(Clone, Copy)]
pub struct Refused {
    pub refusal: Refusal,
    pub judged: Option<Judged>,
}

impl From<NotAFrame> for Refused {
    ghost from_gives = { λ none refused. refused ≡ record { refusal = Refusal.NotAFrame; judged = None } };

    fn from(_: NotAFrame) -> Refused {
        Refused {
            refusal: Refusal::NotAFrame,
            judged: None,
        }
    }
}

fn payment(frame: Frame) -> PaymentNo
    ensures { result ≡ (received frame).payment }
{
    match frame {
        Frame::Multicast { payment, .. } | Frame::Propose { payment, .. } => payment,
    }
}

fn destinations(frame: Frame) -> u8
    ensures { result ≡ (received frame).destinations }
{
    match frame {
        Frame::Multicast { destinations, .. } | Frame::Propose { destinations, .. } => destinations,
    }
}

// [A6] Whether the source of a PROPOSE cannot be.
fn bad_source(group: u8, own: LedgerNo, frame: Frame) -> bool
    ensures { result ≡ bad_source group own.0 (received frame) }
{
    match frame {
        Frame::Multicast { .. } => false,
        Frame::Propose {
            destinations,
            source,
            ..
        } => {
            !(1..=group).contains(&source.0)
                || !ledgers::among(destinations, source)
                || source == own
        }
    }
}

// [A7] Whether the time of a PROPOSE is none.
fn bad_time(frame: Frame) -> bool
    ensures { result ≡ bad_time (received frame) }
{
    match frame {
        Frame::Multicast { .. } => false,
        Frame::Propose { time, .. } => !(1..=LAST_TIME).contains(&time.0),
    }
}

// [A8] Whether a frame goes against what is held.
fn conflict(payments: [Payment; HELD], frame: Frame, p: Payment) -> bool
    requires { p ≡ payment_in payments (received frame) }
    ensures { result ≡ conflict payments (received frame) }
{
    let other_destinations = p.destinations != destinations(frame);
    match frame {
        Frame::Multicast { .. } => other_destinations,
        Frame::Propose {
            payment,
            source,
            time,
            ..
        } => {
            // By the number inside: between two `Time`s the sign is a call that the proof names, and an edit of it would show nothing.
            let another_time = ledgers::among(p.heard, source)
                & (payment::time_in(p.times, source).0 != time.0);
            let for_another = held::held_for_another(payments, payment, source, time);
            other_destinations | (another_time | for_another)
        }
    }
}

// [A9] Whether a frame brings nothing new to a payment.
fn repeats(p: Payment, frame: Frame) -> bool
    ensures { result ≡ repeats p (received frame) }
{
    match frame {
        Frame::Multicast { .. } => p.phase != payment::WAITING,
        Frame::Propose { source, time, .. } => p.has_proposal(source, time),
    }
}

// [A11] Whether the clock has no next time for a MULTICAST.
fn clock_at_end(clock: Time, frame: Frame) -> bool
    ensures { result ≡ clock_at_end clock.0 (received frame) }
{
    match frame {
        Frame::Multicast { .. } => clock.0 == LAST_TIME,
        Frame::Propose { .. } => false,
    }
}

// [A4 to A11] The first refusal that applies. A payment that is not held comes in as the new one, of which neither row 8 nor row 9
// says anything.
fn check(
    group: u8,
    own: LedgerNo,
    clock: Time,
    count: u16,
    payments: [Payment; HELD],
    judged: Judged,
) -> Result<(), Refusal>
    requires { judged ≡ looked_up payments judged.frame }
    ensures { answer_no result ≡ first_given (rows group own.0 clock.0 count payments (received judged.frame)) }
{
    let frame = judged.frame;
    let p = judged.payment;
    // By the number inside, as in `conflict`: the edit `number_one_refused` turns this test.
    if payment(frame).0 == 0 {
        return Err(Refusal::PaymentZero);
    }
    if ledgers::is_unlawful(group, own, destinations(frame)) {
        return Err(Refusal::Unlawful);
    }
    if bad_source(group, own, frame) {
        return Err(Refusal::BadSource);
    }
    if bad_time(frame) {
        return Err(Refusal::BadTime);
    }
    if conflict(payments, frame, p) {
        return Err(Refusal::Conflict);
    }
    if repeats(p, frame) {
        return Err(Refusal::Repeat);
    }
    if judged.place.is_none() & (usize::from(count) == HELD) {
        return Err(Refusal::Full);
    }
    if clock_at_end(clock, frame) {
        return Err(Refusal::ClockAtEnd);
    }
    Ok(())
}

fn look_up(payments: [Payment; HELD], frame: Frame) -> Judged
    ensures { result ≡ looked_up payments frame }
{
    let place = held::find(payments, payment(frame));
    let payment = match place {
        Some(i) => payments[i],
        None => payment::new_payment(payment(frame), destinations(frame)),
    };
    Judged {
        frame,
        place,
        payment,
    }
}

// Judges a frame, by what the ledger keeps: part by part, since the struct with its methods [X4] is declared above, in `ledger`.
pub fn judge(
    group: u8,
    own: LedgerNo,
    clock: Time,
    count: u16,
    payments: [Payment; HELD],
    bytes: &[u8],
) -> Result<Judged, Refused>
    ensures { told result ≡ judge group own.0 clock.0 count payments bytes.now }
{
    let frame = frame::read(bytes)?;
    let judged = look_up(payments, frame);
    match check(group, own, clock, count, payments, judged) {
        Ok(()) => Ok(judged),
        Err(refusal) => Err(Refused {
            refusal,
            judged: Some(judged),
        }),
    }
}
