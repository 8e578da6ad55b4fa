// Labels, and the quarter frames of a label.
ghost use Rattle.universal.specs.Refusals.{answer_of};
ghost use Rattle.std.specs.Prelude.{◌≡◌, ◌≤◌};
ghost use Rattle.fast_mtc.specs.Refusal.{refusal_in};
ghost use Rattle.fast_mtc.specs.Time.{time_of, time_at, time_numbered, flat_time, no_time, frame_of, flat_frame, flat_read_frame};

use mtc::{MtcTime, QuarterFrame, TimeCodeType};
use universal::SysexError;

// These are C's records. C has none of the library's types, and any numbers may stand in a record, so each is read
// and made field by field.

// A label. Rates: 0 is 24, 1 is 25, 2 is 30 drop-frame, 3 is 30 frames per second. Only the two low bits of a rate are read.
#[repr(C)]
#[derive(Clone, Copy)]
pub struct FlatTime {
    pub hours: u8,
    pub minutes: u8,
    pub seconds: u8,
    pub frames: u8,
    pub rate: u8,
}

// A quarter frame's piece and value.
#[repr(C)]
#[derive(Clone, Copy)]
pub struct FlatFrame {
    pub piece: u8,
    pub value: u8,
}

// What a byte is read as: refusal 0 and a quarter frame, or a refusal and zeros.
#[repr(C)]
#[derive(Clone, Copy)]
pub struct FlatReadFrame {
    pub refusal: u8,
    pub frame: FlatFrame,
}

// The data bytes of pieces 0 to 7.
#[repr(C)]
#[derive(Clone, Copy)]
pub struct EightBytes {
    pub bytes: [u8; 8],
}

impl From<FlatTime> for MtcTime {
    ghost from_gives = { λ t r. r ≡ time_of t };

    #[tactic(auto, unfolding(crate::specs::Time::time_of))]
    fn from(t: FlatTime) -> MtcTime {
        MtcTime {
            hours: t.hours,
            minutes: t.minutes,
            seconds: t.seconds,
            frames: t.frames,
            rate: TimeCodeType::from_bits(t.rate),
        }
    }
}

// The label of five bytes: no `From`, as neither is a type of this crate.
pub fn time_of_bytes(bytes: &[u8; 5]) -> MtcTime
    ensures { result ≡ time_at bytes.now 0 }
{
    time_at_front(bytes)
}

// The label in the first five bytes. No other is read.
#[tactic(auto, unfolding(crate::specs::Time::time_at))]
pub(crate) fn time_at_front<const N: usize>(bytes: &[u8; N]) -> MtcTime
    requires { 5 ≤ N }
    ensures { result ≡ time_at bytes.now 0 }
{
    MtcTime {
        hours: bytes[0],
        minutes: bytes[1],
        seconds: bytes[2],
        frames: bytes[3],
        rate: TimeCodeType::from_bits(bytes[4]),
    }
}

impl From<MtcTime> for FlatTime {
    ghost from_gives = { λ t r. r ≡ flat_time t };

    #[tactic(auto, unfolding(crate::specs::Time::flat_time))]
    fn from(t: MtcTime) -> FlatTime {
        FlatTime {
            hours: t.hours,
            minutes: t.minutes,
            seconds: t.seconds,
            frames: t.frames,
            rate: t.rate.into_bits(),
        }
    }
}

// The label of a number, a byte for each count and one for the rate: no `From`, as a number alone does not say that it is such a one.
#[tactic(auto, unfolding(crate::specs::Time::time_numbered))]
pub fn time_numbered(n: u64) -> FlatTime
    ensures { result ≡ time_numbered n }
{
    FlatTime {
        hours: (n % 256) as u8,
        minutes: (n / 0x100 % 256) as u8,
        seconds: (n / 0x1_0000 % 256) as u8,
        frames: (n / 0x100_0000 % 256) as u8,
        rate: (n / 0x1_0000_0000 % 256) as u8,
    }
}

// The refusal, 0 for none: no `From`, as neither is a type of this crate.
#[tactic(auto, unfolding(crate::specs::Refusal::refusal_in))]
pub fn flat_new(answer: Result<MtcTime, SysexError>) -> u8
    ensures { result ≡ refusal_in (answer_of answer) }
{
    match answer {
        Ok(_) => 0,
        Err(e) => e.number(),
    }
}

// All zeros, where there is no label.
pub fn no_time() -> FlatTime
    ensures { result ≡ no_time }
{
    FlatTime {
        hours: 0,
        minutes: 0,
        seconds: 0,
        frames: 0,
        rate: 0,
    }
}

impl From<FlatFrame> for QuarterFrame {
    ghost from_gives = { λ q r. r ≡ frame_of q };

    #[tactic(auto, unfolding(crate::specs::Time::frame_of))]
    fn from(q: FlatFrame) -> QuarterFrame {
        QuarterFrame {
            piece: q.piece,
            value: q.value,
        }
    }
}

impl From<QuarterFrame> for FlatFrame {
    ghost from_gives = { λ q r. r ≡ flat_frame q };

    #[tactic(auto, unfolding(crate::specs::Time::flat_frame))]
    fn from(q: QuarterFrame) -> FlatFrame {
        FlatFrame {
            piece: q.piece,
            value: q.value,
        }
    }
}

// The quarter frame of a byte: no `From`, as neither is a type of this crate.
#[tactic(auto, unfolding(crate::specs::Time::flat_read_frame))]
pub fn flat_read_frame(answer: Result<QuarterFrame, SysexError>) -> FlatReadFrame
    ensures { result ≡ flat_read_frame (answer_of answer) }
{
    match answer {
        Ok(q) => FlatReadFrame {
            refusal: 0,
            frame: FlatFrame::from(q),
        },
        Err(error) => FlatReadFrame {
            refusal: error.number(),
            frame: FlatFrame { piece: 0, value: 0 },
        },
    }
}
