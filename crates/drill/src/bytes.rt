// The bytes of the input that are at hand.
ghost use Rattle.std.specs.Prelude.{◌≤◌, drop, length, ◌≡◌, []};
ghost use Rattle.frame.specs.Frames.{kind_in};
ghost use Rattle.records.specs.Records.{record_total};
ghost use Rattle.drill.specs.Stream.{waiting};

use std::io::{self, Read};

// The part of a buffer that is still to be read, and whether no more input comes.
#[derive(Drop)]
pub(crate) struct Hand<'a> {
    buffer: &'a mut [u8],
    at: usize,
    filled: usize,
    pub last: bool,
    ghost within: { (at ≤ filled) × (filled ≤ length buffer.now) },
}

// Whether the record at the start is not whole yet, and more input may come.
pub(crate) fn waits(bytes: &[u8], last: bool) -> bool
    ensures { result ≡ waiting last bytes.now }
{
    let [kind, ..] = *bytes else {
        return !last;
    };
    // A record of an unknown kind ends the run, whatever comes behind it.
    let Some(size) = records::total(kind) else {
        return false;
    };
    !last & (bytes.len() < size)
}

// How many bytes the record at the start takes: at least its kind, and at most all.
pub(crate) fn taken(bytes: &[u8]) -> usize
    requires { 1 ≤ length bytes.now }
    ensures within { (1 ≤ result) × (result ≤ length bytes.now) }
    ensures whole { 1 ≤ record_total (kind_in bytes.now) → record_total (kind_in bytes.now) ≤ length bytes.now
        → result ≡ record_total (kind_in bytes.now) }
{
    match records::total(bytes[0]) {
        Some(size) => size.min(bytes.len()),
        None => 1,
    }
}

impl<'a> Hand<'a> {
    ghost use Rattle.drill.specs.AtHand.{Keeps, at_hand};

    // Before anything is read.
    pub(crate) fn new(buffer: &'a mut [u8]) -> Self
        ensures none { at_hand result ≡ [] }
        ensures lent { result.buffer.ghost_name ≡ buffer.entry.ghost_name }
    {
        Hand {
            buffer,
            at: 0,
            filled: 0,
            last: false,
        }
    }

    pub(crate) fn bytes(&self) -> &[u8]
        ensures { result.now ≡ at_hand self.now }
    {
        &self.buffer[self.at..self.filled]
    }

    // Moves the bytes that are left to the front.
    fn keep(&mut self)
        ensures front { self.new.at ≡ 0 }
        ensures kept { at_hand self.new ≡ at_hand self.old }
        ensures lent { self.new.buffer.ghost_name ≡ self.old.buffer.ghost_name }
    {
        self.buffer.copy_within(self.at..self.filled, 0);
        self.filled -= self.at;
        self.at = 0;
    }

    // Reads once behind the bytes that are left. A read that fails leaves those alone.
    fn refill<R: Read>(&mut self, reader: &mut R) -> io::Result<()>
        ensures { Keeps (at_hand self.old) self.old self.new }
    {
        self.keep();
        let n = reader.read(&mut self.buffer[self.filled..])?;
        self.filled += n;
        self.last = n == 0;
        Ok(())
    }

    // Goes on behind the bytes that were read, with more input behind them where no record can be read before it comes.
    pub(crate) fn advance<R: Read>(&mut self, reader: &mut R, read: usize) -> io::Result<()>
        requires { read ≤ length (at_hand self.old) }
        ensures { Keeps (drop read (at_hand self.old)) self.old self.new }
    {
        self.at += read;
        if waits(self.bytes(), self.last) {
            return self.refill(reader);
        }
        Ok(())
    }
}
