// Frames: the three number types that cannot be mixed up [N7, X2], and the reading and writing of frames [F1 to F7].
#![tactic(auto)]

ghost use Rattle.std.specs.Prelude.{◌≡◌};
ghost use Rattle.frame.specs.Frames.{told, reading, wrote, putting, writing};

#[derive(Clone, Copy, PartialEq, Eq, PartialOrd, Ord)]
pub struct LedgerNo(pub u8);

#[derive(Clone, Copy, PartialEq, Eq, PartialOrd, Ord)]
pub struct PaymentNo(pub u32);

#[derive(Clone, Copy, PartialEq, Eq, PartialOrd, Ord)]
pub struct Time(pub u16);

#[derive(Clone, Copy, PartialEq, Eq)]
pub enum Frame {
    Multicast {
        payment: PaymentNo,
        destinations: u8,
    },
    Propose {
        payment: PaymentNo,
        destinations: u8,
        source: LedgerNo,
        time: Time,
    },
}

// Answer 3: the bytes hold no frame.
#[derive(Clone, Copy, PartialEq, Eq)]
pub struct NotAFrame;

// Answer 2: the buffer is shorter than the frame.
#[derive(Clone, Copy, PartialEq, Eq)]
pub struct TooShort;

// The first byte of each kind of frame; in the code a kind is a case of `Frame`.
pub const MULTICAST: u8 = 1;

pub const PROPOSE: u8 = 2;

pub const MULTICAST_TOTAL: usize = 6;

// How long a PROPOSE is. No frame is longer, so a buffer of as many bytes takes any.
pub const PROPOSE_TOTAL: usize = 9;

// The frame that bytes hold, or the answer that they hold none. It judges no value.
#[tactic(auto, using(crate::proofs::FrameLaws::read_laws))]
pub fn read(bytes: &[u8]) -> Result<Frame, NotAFrame>
    ensures { told result ≡ reading bytes.now }
{
    match *bytes {
        [MULTICAST, a, b, c, d, destinations] => Ok(Frame::Multicast {
            payment: PaymentNo(u32::from_be_bytes([a, b, c, d])),
            destinations,
        }),
        [PROPOSE, a, b, c, d, destinations, source, high, low] => Ok(Frame::Propose {
            payment: PaymentNo(u32::from_be_bytes([a, b, c, d])),
            destinations,
            source: LedgerNo(source),
            time: Time(u16::from_be_bytes([high, low])),
        }),
        _ => Err(NotAFrame),
    }
}

// Puts a frame's bytes at the buffer's front, or nothing where the buffer is shorter.
fn put(buffer: &mut [u8], bytes: &[u8]) -> Result<usize, TooShort>
    ensures { wrote result buffer.new ≡ putting bytes.now buffer.old }
{
    let total = bytes.len();
    if buffer.len() < total {
        return Err(TooShort);
    }
    buffer[..total].copy_from_slice(bytes);
    Ok(total)
}

// Writes a frame from the buffer's first byte on, or nothing where the buffer is shorter than the frame.
#[tactic(auto, using(crate::proofs::FrameLaws::write_laws))]
pub fn write(frame: Frame, buffer: &mut [u8]) -> Result<usize, TooShort>
    ensures { wrote result buffer.new ≡ writing frame buffer.old }
{
    match frame {
        Frame::Multicast {
            payment,
            destinations,
        } => {
            let [a, b, c, d] = payment.0.to_be_bytes();
            put(buffer, &[MULTICAST, a, b, c, d, destinations])
        }
        Frame::Propose {
            payment,
            destinations,
            source,
            time,
        } => {
            let [a, b, c, d] = payment.0.to_be_bytes();
            let [high, low] = time.0.to_be_bytes();
            put(
                buffer,
                &[PROPOSE, a, b, c, d, destinations, source.0, high, low],
            )
        }
    }
}
