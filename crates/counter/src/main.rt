// Runs case K [CK] over the proved ledger, and cases A to C [CA to CC] once more, by the code itself. All at ledger 1 of 2.
// What cannot be written is lost, without a word.
#![tactic(auto)]

mod calls;

use calls::{ALONE, BOTH};
use frame::Time;
use held::HELD;
use ledger::Step;
use refusals::number;
use std::io::Print;

// A: a MULTICAST is answered with this ledger's PROPOSE. B: the same again is a repeat.
fn a_and_b(rt: &impl Print) {
    let a = calls::multicast(calls::fresh(), 7, BOTH);
    let step = a.step;
    let _ = println!(rt;
        "A answer {} recipients {} copies {} clock {}",
        number(step.answer),
        step.recipients,
        step.copies,
        step.state.clock.0
    );
    let _ = print!(rt; "A bytes");
    for b in a.outgoing {
        let _ = print!(rt; " {b:02x}");
    }
    let _ = println!(rt);
    let b = calls::multicast(step.state, 7, BOTH);
    let _ = println!(rt; "B answer {}", number(b.step.answer));
}

// C: a payment to this ledger alone is posted at once, and no frame is sent.
fn c(rt: &impl Print) {
    let c = calls::multicast(calls::fresh(), 7, ALONE);
    let step = c.step;
    let _ = println!(rt;
        "C answer {} postings {} first {} copies {} clock {}",
        number(step.answer),
        step.postings,
        c.list[0],
        step.copies,
        step.state.clock.0
    );
}

// K: the last time is given. The clock gets below it by following the stamp of a payment of ledger 2.
fn last_time(rt: &impl Print) {
    let waiting = calls::propose(calls::fresh(), 5, 59999).step.state;
    let before = calls::multicast(waiting, 5, BOTH).step.state;
    let last = calls::multicast(before, 7, BOTH);
    // No time would be printed as 0.
    let Time(time) = calls::own_time(last.outgoing).unwrap_or(Time(0));
    let _ = println!(rt; "K clock {} own time {time}", before.clock.0);
}

// A line of K: what is tried, with which number, and its answer.
fn answered(rt: &impl Print, words: &str, n: usize, step: Step) {
    let _ = println!(rt; "K {words} {n} answer {}", number(step.answer));
}

// K: an outgoing buffer of 8 bytes is too short, one of 9 is not.
fn outgoing(rt: &impl Print) {
    answered(rt, "outgoing", 8, calls::short(calls::fresh(), 7, BOTH));
    answered(
        rt,
        "outgoing",
        9,
        calls::multicast(calls::fresh(), 7, BOTH).step,
    );
}

// K: as many payments are taken as a ledger holds, and one more is refused.
fn most(rt: &impl Print) {
    // The number fits: `TryFrom` would add a branch that is never taken.
    let most = HELD as u32;
    answered(rt, "payment", HELD, calls::multicasts(most).step);
    answered(rt, "payment", HELD + 1, calls::multicasts(most + 1).step);
}

fn main(rt: HostRuntime) {
    a_and_b(&rt);
    c(&rt);
    last_time(&rt);
    outgoing(&rt);
    most(&rt);
}
