// The lines that the drill prints [D6 to D10].
#![tactic(auto)]

ghost use Rattle.std.specs.Prelude.{◌≡◌, [], ◌∷◌, map, ◌+◌, ◌≤◌, length};
ghost use Rattle.held.specs.Held.{limit};
ghost use Rattle.lines.specs.Decimal.{decimal};
ghost use Rattle.lines.specs.Lines.{answer, ending, line_of, posting, printed, spaced, target, wrote, writing};
ghost use Rattle.lines.specs.Standing.{Adds};

use held::HELD;
use records::Did;

// A line as far as it is written: it stands at the buffer's first places. What no longer fits is only counted. How long it may be already,
// so that the count stays a number, differs from method to method.
#[derive(Drop)]
struct Writer<'a> {
    out: &'a mut [u8],
    length: usize,
}

impl<'a> Writer<'a> {
    // Not by `get_mut`: a proof does not learn what a write through it leaves.
    fn put(&mut self, byte: u8)
        requires { self.old.length ≤ 4096 }
        ensures { Adds self.old (byte ∷ []) self.new }
    {
        if self.length < self.out.len() {
            self.out[self.length] = byte;
        }
        self.length += 1;
    }

    fn text(&mut self, bytes: &[u8])
        requires { self.old.length + length bytes.now ≤ 2048 }
        ensures { Adds self.old bytes.now self.new }
    {
        for &byte in bytes {
            self.put(byte);
        }
    }

    // A number in decimal: what stands before its last digit, and then that digit. Not by `write!`: what it promises is the text where it
    // gives `Ok`, and nothing where it does not. A digit fits a byte, so the casts lose nothing.
    fn number(&mut self, n: u64)
        requires { self.old.length ≤ 2048 }
        ensures { Adds self.old (decimal n) self.new }
    {
        if n < 10 {
            self.put(b'0' + n as u8);
        } else {
            self.number(n / 10);
            self.put(b'0' + (n % 10) as u8);
        }
    }

    // An item: a space, a letter, and a number.
    fn item(&mut self, letter: u8, n: u64)
        requires { self.old.length ≤ 2000 }
        ensures { Adds self.old (32 ∷ letter ∷ decimal n) self.new }
    {
        self.put(b' ');
        self.put(letter);
        self.number(n);
    }

    fn postings(&mut self, list: &[u32])
        requires start { self.old.length ≤ 1000 }
        requires few { length list.now ≤ limit }
        ensures { Adds self.old (spaced (map posting list.now)) self.new }
    {
        for &number in list {
            self.item(b'P', u64::from(number));
        }
    }

    // Ends the line, and gives its length.
    fn close(&mut self) -> usize
        requires { self.old.length ≤ 4000 }
        ensures adds { Adds self.old (10 ∷ []) self.new }
        ensures length { result ≡ self.new.length }
    {
        self.put(b'\n');
        self.length
    }
}

// A line of a word and a number.
fn named(out: &mut [u8], word: &[u8], n: u64) -> usize
    requires { length word.now ≤ 8 }
    ensures { wrote result out.new ≡ writing (line_of word.now (decimal n ∷ [])) out.old }
{
    let mut line = Writer { out, length: 0 };
    line.text(word);
    line.put(b' ');
    line.number(n);
    line.close()
}

// The line of a step.
fn step(out: &mut [u8], ledger: u8, given: u8, posted: &[u32]) -> usize
    requires { length posted.now ≤ limit }
    ensures { wrote result out.new ≡ writing (line_of (target ledger) (answer given ∷ map posting posted.now)) out.old }
{
    let mut line = Writer { out, length: 0 };
    line.put(b'L');
    line.number(u64::from(ledger));
    line.item(b'A', u64::from(given));
    line.postings(posted);
    line.close()
}

// Writes what is printed of a record, and gives the line's length.
pub fn line(did: Did, offset: u64, list: &[u32], out: &mut [u8]) -> usize
    ensures { wrote result out.new ≡ writing (printed did offset list.now) out.old }
{
    match did {
        Did::SetUp { count } => named(out, b"GROUP", u64::from(count)),
        Did::Step {
            target,
            answer,
            postings,
        } => step(
            out,
            target,
            answer,
            &list[..postings.min(HELD).min(list.len())],
        ),
        Did::Stop => named(out, b"STOP", offset),
    }
}

// Writes the last line of a run that is not stopped, and gives its length.
pub fn end(steps: u64, out: &mut [u8]) -> usize
    ensures { wrote result out.new ≡ writing (ending steps) out.old }
{
    named(out, b"END", steps)
}
