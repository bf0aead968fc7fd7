// What is proved of values, said of what the code hands back: thin functions, each with a theorem for its promise.
#![tactic(auto)]

ghost use Rattle.std.specs.Prelude.{◌≡◌, true, length, take, ◌≤◌};
ghost use Rattle.frame.specs.Typed.{Typed};
ghost use Rattle.ledger.specs.Sound.{sound};

use frame::Frame;
use ledger::{Ledger, Step};

// [S12] A sound state stays sound.
fn keeps_sound(ledger: Ledger, frame: &[u8], outgoing: &mut [u8], postings: &mut [u32]) -> Step
    ensures { sound ledger ≡ true → sound result.state ≡ true }
{
    ledger.step(frame, outgoing, postings)
}

// [F4] Every frame has numbers of its table's widths, so that a written frame is read back with its values.
fn typed(frame: Frame) -> Frame
    ensures { Typed frame × (result ≡ frame) }
{
    frame
}

// [F5] A frame that was read and is then written gives its bytes.
fn read_is_written(bytes: &[u8], buffer: &mut [u8]) -> bool
    ensures { result ≡ true → length bytes.now ≤ length buffer.old → take (length bytes.now) buffer.new ≡ bytes.now }
{
    let Ok(f) = frame::read(bytes) else {
        return false;
    };
    let _ = frame::write(f, buffer);
    true
}
