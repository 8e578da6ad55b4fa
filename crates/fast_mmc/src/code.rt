// Time code fields of machine control.
ghost use Rattle.universal.specs.Refusals.{answer_of};
ghost use Rattle.std.specs.Prelude.{◌≡◌};
ghost use Rattle.codes.specs.TimeCode.{final_value};
ghost use Rattle.fast_mtc.specs.Refusal.{refusal_in};
ghost use Rattle.fast_mmc.specs.Code.{status_of, flat_status, final_of, is_status, code_of, flat_code, no_code, short_of, flat_short, no_short, flat_name, five_bytes, two_bytes};

use fast_mtc::time::{FlatTime, no_time};
use labels::MtcTime;
use mmc::{FinalByte, ShortTimeCode, StandardTimeCode, TimeCodeStatus};
use universal::SysexError;

// The records here are for C, which has no Option and no Result: a flag or a refusal stands beside the value.

// The flags of a time code's status byte.
#[repr(C)]
#[derive(Clone, Copy)]
pub struct FlatStatus {
    pub estimated: bool,
    pub invalid: bool,
    pub video_field1: bool,
    pub no_time_code: bool,
}

// A time code. The last byte is the status byte where `status` is true, else subframes.
#[repr(C)]
#[derive(Clone, Copy)]
pub struct FlatCode {
    pub time: FlatTime,
    pub color_frame: bool,
    pub blank: bool,
    pub negative: bool,
    pub status: bool,
    pub last: u8,
}

// A short time code. The last byte is the status byte where `status` is true, else subframes.
#[repr(C)]
#[derive(Clone, Copy)]
pub struct FlatShort {
    pub frames: u8,
    pub negative: bool,
    pub status: bool,
    pub last: u8,
}

// The bytes of a time code.
#[repr(C)]
#[derive(Clone, Copy)]
pub struct FiveBytes {
    pub bytes: [u8; 5],
}

// The bytes of a short time code.
#[repr(C)]
#[derive(Clone, Copy)]
pub struct TwoBytes {
    pub bytes: [u8; 2],
}

// A written time code. The bytes are zeros where the refusal is not 0.
#[repr(C)]
#[derive(Clone, Copy)]
pub struct FlatCodeBytes {
    pub refusal: u8,
    pub code: FiveBytes,
}

// A written short time code. The bytes are zeros where the refusal is not 0.
#[repr(C)]
#[derive(Clone, Copy)]
pub struct FlatShortBytes {
    pub refusal: u8,
    pub code: TwoBytes,
}

impl From<FlatStatus> for TimeCodeStatus {
    ghost from_gives = { λ s t. t ≡ status_of s };

    #[tactic(auto, unfolding(crate::specs::Code::status_of))]
    fn from(s: FlatStatus) -> TimeCodeStatus {
        TimeCodeStatus {
            estimated: s.estimated,
            invalid: s.invalid,
            video_field1: s.video_field1,
            no_time_code: s.no_time_code,
        }
    }
}

impl From<TimeCodeStatus> for FlatStatus {
    ghost from_gives = { λ s f. f ≡ flat_status s };

    #[tactic(auto, unfolding(crate::specs::Code::flat_status))]
    fn from(s: TimeCodeStatus) -> FlatStatus {
        FlatStatus {
            estimated: s.estimated,
            invalid: s.invalid,
            video_field1: s.video_field1,
            no_time_code: s.no_time_code,
        }
    }
}

// No `From` for a last byte and for a name: a last byte is two values here, and neither a number nor what is made of it is a type of
// this crate.

#[tactic(auto, unfolding(crate::specs::Code::final_of))]
pub fn final_of(status: bool, last: u8) -> FinalByte
    ensures { result ≡ final_of status last }
{
    if status {
        return FinalByte::Status(TimeCodeStatus::from_byte(last));
    }
    FinalByte::Subframes(last)
}

#[tactic(auto, unfolding(crate::specs::Code::is_status))]
pub fn is_status(f: FinalByte) -> bool
    ensures { result ≡ is_status f }
{
    match f {
        FinalByte::Subframes(_) => false,
        FinalByte::Status(_) => true,
    }
}

pub fn flat_final(f: FinalByte) -> u8
    ensures { result ≡ final_value f }
{
    match f {
        FinalByte::Subframes(s) => s,
        FinalByte::Status(s) => s.to_byte(),
    }
}

impl From<FlatCode> for StandardTimeCode {
    ghost from_gives = { λ c t. t ≡ code_of c };

    #[tactic(auto, unfolding(crate::specs::Code::code_of))]
    fn from(c: FlatCode) -> StandardTimeCode {
        StandardTimeCode {
            time: MtcTime::from(c.time),
            color_frame: c.color_frame,
            blank: c.blank,
            negative: c.negative,
            final_byte: final_of(c.status, c.last),
        }
    }
}

impl From<StandardTimeCode> for FlatCode {
    ghost from_gives = { λ c f. f ≡ flat_code c };

    #[tactic(auto, unfolding(crate::specs::Code::flat_code))]
    fn from(c: StandardTimeCode) -> FlatCode {
        let last = c.final_byte;
        FlatCode {
            time: FlatTime::from(c.time),
            color_frame: c.color_frame,
            blank: c.blank,
            negative: c.negative,
            status: is_status(last),
            last: flat_final(last),
        }
    }
}

// All zeros, where there is no time code.
pub fn no_code() -> FlatCode
    ensures { result ≡ no_code }
{
    FlatCode {
        time: no_time(),
        color_frame: false,
        blank: false,
        negative: false,
        status: false,
        last: 0,
    }
}

impl From<FlatShort> for ShortTimeCode {
    ghost from_gives = { λ c t. t ≡ short_of c };

    #[tactic(auto, unfolding(crate::specs::Code::short_of))]
    fn from(c: FlatShort) -> ShortTimeCode {
        ShortTimeCode {
            frames: c.frames,
            negative: c.negative,
            final_byte: final_of(c.status, c.last),
        }
    }
}

impl From<ShortTimeCode> for FlatShort {
    ghost from_gives = { λ c f. f ≡ flat_short c };

    #[tactic(auto, unfolding(crate::specs::Code::flat_short))]
    fn from(c: ShortTimeCode) -> FlatShort {
        let last = c.final_byte;
        FlatShort {
            frames: c.frames,
            negative: c.negative,
            status: is_status(last),
            last: flat_final(last),
        }
    }
}

// All zeros, where there is no short one.
pub fn no_short() -> FlatShort
    ensures { result ≡ no_short }
{
    FlatShort {
        frames: 0,
        negative: false,
        status: false,
        last: 0,
    }
}

// 0 for no name: no `From`, as above.
#[tactic(auto, unfolding(crate::specs::Code::flat_name))]
pub fn flat_name(name: Option<u8>) -> u8
    ensures { result ≡ flat_name name }
{
    name.unwrap_or(0)
}

impl From<Result<[u8; 5], SysexError>> for FlatCodeBytes {
    ghost from_gives = { λ written f. (f.refusal ≡ refusal_in (answer_of written)) × (f.code.bytes ≡ five_bytes (answer_of written)) };

    #[tactic(auto, using(fast_mtc::proofs::Laws::in_gives, fast_mtc::proofs::Laws::in_refused))]
    fn from(written: Result<[u8; 5], SysexError>) -> FlatCodeBytes {
        match written {
            Ok(bytes) => FlatCodeBytes {
                refusal: 0,
                code: FiveBytes { bytes },
            },
            Err(e) => FlatCodeBytes {
                refusal: e.number(),
                code: FiveBytes { bytes: [0; 5] },
            },
        }
    }
}

impl From<Result<[u8; 2], SysexError>> for FlatShortBytes {
    ghost from_gives = { λ written f. (f.refusal ≡ refusal_in (answer_of written)) × (f.code.bytes ≡ two_bytes (answer_of written)) };

    #[tactic(auto, using(fast_mtc::proofs::Laws::in_gives, fast_mtc::proofs::Laws::in_refused))]
    fn from(written: Result<[u8; 2], SysexError>) -> FlatShortBytes {
        match written {
            Ok(bytes) => FlatShortBytes {
                refusal: 0,
                code: TwoBytes { bytes },
            },
            Err(e) => FlatShortBytes {
                refusal: e.number(),
                code: TwoBytes { bytes: [0; 2] },
            },
        }
    }
}
