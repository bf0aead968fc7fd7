// The drill: reads records from standard input, does each to its ledgers, and prints what came of it.
#![tactic(auto)]

mod bytes;

ghost use Rattle.std.specs.Prelude.{◌≤◌, ◌≡◌, drop, length, take};
ghost use Rattle.std.specs.Option.{IfNone, IfSome};
ghost use Rattle.drill.specs.Stream.{Moves, Prints};

use bytes::Hand;
use day::Day;
use std::io::{self, Eprint, Input, Print};

// Every line fits in this.
const LINE: usize = 1024;

// A call of the system that moves so much costs little beside what is done with it.
const BUFFER: usize = 65536;

// What was done with the bytes at hand: the day after it, how many were read, and how many bytes are to be printed.
#[derive(Clone, Copy)]
struct Pass {
    day: Day,
    read: usize,
    // How many bytes stand at the front of the output, which is the caller's.
    printed: usize,
}

// Reads one record, where the run is not over, a record is there that does not wait, and its line has room. The input and whether more may
// come are apart from the hand that has both, since what is left to read is a part of the bytes at hand.
fn read_one(day: Day, input: &[u8], last: bool, out: &mut [u8]) -> Option<Pass>
    ensures within { IfSome result (λ pass. (1 ≤ pass.read) × (pass.read ≤ length input.now) × (pass.printed ≤ length out.old)) }
    ensures prints { IfSome result (λ pass. Prints day input.now last (take pass.printed out.new) pass.day (drop pass.read input.now)) }
    ensures nothing { IfNone result (Moves day input.now last (length out.old) 0 × (out.new ≡ out.old)) }
{
    if day.over || input.is_empty() || out.len() < LINE || bytes::waits(input, last) {
        return None;
    }
    let done = day.read(input, out);
    Some(Pass {
        day: done.day,
        read: bytes::taken(input),
        printed: done.written,
    })
}

// Reads the records at hand, until one cannot be read.
fn read_all(begun: Day, input: &[u8], last: bool, out: &mut [u8]) -> Pass
    ensures within { (result.read ≤ length input.now) × (result.printed ≤ length out.old) }
    ensures prints { Prints begun input.now last (take result.printed out.new) result.day (drop result.read input.now) }
    ensures moves { Moves begun input.now last (length out.old) result.read }
{
    let mut day = begun;
    // Both are promised, so they are added up.
    let mut read = 0;
    let mut printed = 0;
    while let Some(one) = read_one(day, &input[read..], last, &mut out[printed..]) {
        day = one.day;
        read += one.read;
        printed += one.printed;
    }
    Pass { day, read, printed }
}

// Reads the records at hand, and prints what came of them: the day after it, and how many bytes were read. Nothing where the run does not
// go on: a record ended it, or the output takes no more.
fn print_all(rt: &impl Print, begun: Day, input: &[u8], last: bool, out: &mut [u8]) -> Option<Pass>
    ensures { IfSome result (λ pass. pass.read ≤ length input.now) }
{
    let done = read_all(begun, input, last, out);
    let wrote = rt.write_all(&out[..done.printed]).is_ok();
    (wrote && !done.day.over).then_some(done)
}

// Prints the last line.
fn end(rt: &impl Print, day: Day, out: &mut [u8]) {
    let n = day.close(out);
    if n <= out.len() {
        let _ = rt.write_all(&out[..n]);
    }
}

// Reads to the end of the input, of the run, or of the output. An input that cannot be read has no end, and so no last line.
fn run(rt: &(impl Input + Print), input: &mut [u8], out: &mut [u8]) -> io::Result<()> {
    let mut reader = rt.reader();
    let mut day = day::begin();
    let mut hand = Hand::new(input);
    // A proved loop has to end: no run uses up so many turns.
    for _ in 0..u64::MAX {
        let Some(done) = print_all(rt, day, hand.bytes(), hand.last, out) else {
            return Ok(());
        };
        if hand.last && done.read == hand.bytes().len() {
            end(rt, done.day, out);
            return Ok(());
        }
        hand.advance(&mut reader, done.read)?;
        day = done.day;
    }
    Ok(())
}

fn main(rt: HostRuntime) {
    let mut input = [0; BUFFER];
    let mut out = [0; BUFFER];
    if run(&rt, &mut input, &mut out).is_err() {
        let _ = rt.eprintln("drill: the input cannot be read");
    }
}
