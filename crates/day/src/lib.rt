// A day of the drill: where a run over the records stands, what one record does to it, and what is printed.
#![tactic(auto)]

ghost use Rattle.std.specs.Prelude.{◌≡◌};
ghost use Rattle.frame.specs.Frames.{kind_in};
ghost use Rattle.lines.specs.Lines.{wrote};
ghost use Rattle.records.specs.Records.{record_total};
ghost use Rattle.day.specs.Days.{begun, close, ends, outcome, read, steps_in};

use group::{Group, Turn};
use held::HELD;
use records::Did;

#[derive(Clone, Copy)]
pub struct Day {
    pub group: Group,
    // Where the next record begins, counted in bytes from the start of input.
    pub offset: u64,
    // [D9] How many step records there were.
    pub steps: u64,
    // A record has ended the run. Such a day is handed back as it is, its group, offset and steps too, so this is no case of its own.
    pub over: bool,
}

// What a record leaves: the day after it, and how many bytes are printed of it.
#[derive(Clone, Copy)]
pub struct Done {
    pub day: Day,
    // How many bytes stand at the front of the output, which is the caller's.
    pub written: usize,
}

// The start of input.
pub fn begin() -> Day
    ensures { result ≡ begun }
{
    Day {
        group: group::nothing(),
        offset: 0,
        steps: 0,
        over: false,
    }
}

// How long the record at the start of the bytes is; 0 where none of a known kind is there: the offset then stays where it is.
fn size(bytes: &[u8]) -> usize
    ensures { result ≡ record_total (kind_in bytes.now) }
{
    match *bytes {
        [kind, ..] => records::total(kind).unwrap_or(0),
        [] => 0,
    }
}

fn steps_in(did: Did) -> u64
    ensures { result ≡ steps_in did }
{
    u64::from(matches!(did, Did::Step { .. }))
}

fn is_over(did: Did) -> bool
    ensures { result ≡ ends did }
{
    matches!(did, Did::Stop)
}

impl Day {
    // Does the record at the start of the bytes, and writes its line.
    pub fn read(self, bytes: &[u8], out: &mut [u8]) -> Done
        ensures { outcome result out.new ≡ read self bytes.now out.old }
    {
        if self.over {
            return Done {
                day: self,
                written: 0,
            };
        }
        let mut list = [0; HELD];
        let Turn { group, did } = self.group.turn(bytes, &mut list);
        Done {
            day: Day {
                group,
                // The library has no `From` from `usize` to `u64`.
                offset: self.offset.wrapping_add(size(bytes) as u64),
                steps: self.steps.wrapping_add(steps_in(did)),
                over: is_over(did),
            },
            written: lines::line(did, self.offset, &list, out),
        }
    }

    // Writes the last line, and gives its length.
    pub fn close(self, out: &mut [u8]) -> usize
        ensures { wrote result out.new ≡ close self out.old }
    {
        if self.over {
            return 0;
        }
        lines::end(self.steps, out)
    }
}
