// Calls of ledger 1 of 2.
use frame::{Frame, LedgerNo, MULTICAST_TOTAL, PROPOSE_TOTAL, PaymentNo, Time};
use held::HELD;
use ledger::{Ledger, Step};

// Destinations: ledger 1 alone, and ledgers 1 and 2.
pub(crate) const ALONE: u8 = 1;

pub(crate) const BOTH: u8 = 3;

// What a call handed back, and the buffers as it left them.
#[derive(Clone, Copy)]
pub(crate) struct Called<const ROOM: usize> {
    pub step: Step,
    pub outgoing: [u8; ROOM],
    pub list: [u32; HELD],
}

pub(crate) fn fresh() -> Ledger {
    ledger::nothing().set_up(2, LedgerNo(1)).state
}

// One call, with an outgoing buffer of so many bytes and a list that is long enough, both zeroed.
fn call<const ROOM: usize>(state: Ledger, bytes: &[u8]) -> Called<ROOM> {
    let mut outgoing = [0; ROOM];
    let mut list = [0; HELD];
    let step = state.step(bytes, &mut outgoing, &mut list);
    Called {
        step,
        outgoing,
        list,
    }
}

// The bytes of a frame, in as many as its kind has.
fn bytes_of<const TOTAL: usize>(sent: Frame) -> [u8; TOTAL] {
    let mut bytes = [0; TOTAL];
    // It fits: the buffer is as long as the frame.
    let _ = frame::write(sent, &mut bytes);
    bytes
}

fn copy(payment: u32, destinations: u8) -> [u8; MULTICAST_TOTAL] {
    bytes_of(Frame::Multicast {
        payment: PaymentNo(payment),
        destinations,
    })
}

pub(crate) fn multicast(state: Ledger, payment: u32, destinations: u8) -> Called<PROPOSE_TOTAL> {
    call(state, &copy(payment, destinations))
}

// The last of so many MULTICASTs of different payments, at a fresh ledger.
pub(crate) fn multicasts(count: u32) -> Called<PROPOSE_TOTAL> {
    let mut last = multicast(fresh(), 1, BOTH);
    for n in 2..=count {
        last = multicast(last.step.state, n, BOTH);
    }
    last
}

// A MULTICAST with an outgoing buffer one byte too short.
pub(crate) fn short(state: Ledger, payment: u32, destinations: u8) -> Step {
    call::<8>(state, &copy(payment, destinations)).step
}

// A PROPOSE of ledger 2, to both.
pub(crate) fn propose(state: Ledger, payment: u32, time: u16) -> Called<PROPOSE_TOTAL> {
    let bytes: [u8; PROPOSE_TOTAL] = bytes_of(Frame::Propose {
        payment: PaymentNo(payment),
        destinations: BOTH,
        source: LedgerNo(2),
        time: Time(time),
    });
    call(state, &bytes)
}

// The time in an outgoing frame, where there is one.
pub(crate) fn own_time(outgoing: [u8; PROPOSE_TOTAL]) -> Option<Time> {
    match frame::read(&outgoing) {
        Ok(Frame::Propose { time, .. }) => Some(time),
        _ => None,
    }
}
