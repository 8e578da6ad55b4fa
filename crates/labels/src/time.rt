// Labels: hours, minutes, seconds and frames at one of four rates, with the frame arithmetic of SMPTE ST 12-1. At 30
// drop-frame the frame numbers 00 and 01 are skipped at the start of each minute except 00, 10, 20, 30, 40 and 50.
ghost use Rattle.universal.specs.Refusals.{answer_of};
ghost use Rattle.std.specs.Prelude.{◌≡◌, ◌<◌};
ghost use Rattle.labels.specs.St12.{label, frames_per_second, is_drop_frame, is_valid, is_skipped};
ghost use Rattle.labels.specs.Time.{day_of, bits_of, type_of, new_time, next_valid, frame_count, label_at, add_frames, raw_time, hours_byte, mod_z, label_at_second, with_skipped};

use crate::minutes::drop_count;
use universal::SysexError;

// The frames of ten minutes at 30 drop-frame: 10 * 1800 - 9 * 2.
const DROP_10_MINUTES: u32 = 17_982;
// The frames of a minute that drops two numbers.
const DROP_MINUTE: u32 = 1_798;
// The frames of an hour at 30 drop-frame.
pub const DROP_HOUR: u32 = 6 * DROP_10_MINUTES;

// The frames of 24 hours at each rate.
const DAY_24: u32 = 86_400 * 24;

const DAY_25: u32 = 86_400 * 25;

const DAY_DROP: u32 = 24 * DROP_HOUR;

const DAY_30: u32 = 86_400 * 30;

// The rate: the two bits of the hours byte (RP-004/008, p. 2).
#[derive(Clone, Copy, PartialEq, Eq)]
pub enum TimeCodeType {
    // 0: 24 frames per second.
    Fps24,
    // 1: 25 frames per second.
    Fps25,
    // 2: 30 frames per second, drop-frame.
    Fps30Drop,
    // 3: 30 frames per second.
    Fps30,
}

impl TimeCodeType {
    // The two bits. Both ways go by the source's names: every number has a rate, and a `From` would not say that six bits are passed over.
    pub fn into_bits(self) -> u8
        ensures { result ≡ bits_of self }
    {
        match self {
            TimeCodeType::Fps24 => 0,
            TimeCodeType::Fps25 => 1,
            TimeCodeType::Fps30Drop => 2,
            TimeCodeType::Fps30 => 3,
        }
    }

    // The rate of the two low bits of a value.
    pub fn from_bits(value: u8) -> Self
        ensures { result ≡ type_of value }
    {
        match value % 4 {
            0 => TimeCodeType::Fps24,
            1 => TimeCodeType::Fps25,
            2 => TimeCodeType::Fps30Drop,
            _ => TimeCodeType::Fps30,
        }
    }

    // The frames of a counting second: 24, 25 or 30.
    pub fn frames_per_second(self) -> u8
        ensures { result ≡ frames_per_second self }
    {
        match self {
            TimeCodeType::Fps24 => 24,
            TimeCodeType::Fps25 => 25,
            TimeCodeType::Fps30Drop => 30,
            TimeCodeType::Fps30 => 30,
        }
    }

    fn is_drop_frame(self) -> bool
        ensures { result ≡ is_drop_frame self }
    {
        self == TimeCodeType::Fps30Drop
    }

    // The frames of 24 hours.
    pub fn day(self) -> u32
        ensures { result ≡ day_of self }
    {
        match self {
            TimeCodeType::Fps24 => DAY_24,
            TimeCodeType::Fps25 => DAY_25,
            TimeCodeType::Fps30Drop => DAY_DROP,
            TimeCodeType::Fps30 => DAY_30,
        }
    }
}

// A label. A reader gives the counts as received, masked to their widths.
#[derive(Clone, Copy, PartialEq, Eq)]
pub struct MtcTime {
    pub hours: u8,
    pub minutes: u8,
    pub seconds: u8,
    pub frames: u8,
    pub rate: TimeCodeType,
}

// A signed distance modulo a day. `-1 - delta` is in range for every negative distance.
fn reduced(delta: i32, day: u32) -> u32
    requires { 0 < day }
    ensures { result ≡ mod_z delta day }
{
    if delta < 0 {
        let back = (-1 - delta) as u32;
        return day - 1 - back % day;
    }
    delta as u32 % day
}

// Whole seconds and frames of a rate as a label.
fn label_of(seconds: u32, frames: u32, rate: TimeCodeType) -> MtcTime
    requires { (seconds < 86400) × (frames < 30) }
    ensures { result ≡ label_at_second rate seconds frames }
{
    MtcTime {
        hours: (seconds / 3600) as u8,
        minutes: (seconds / 60 % 60) as u8,
        seconds: (seconds % 60) as u8,
        frames: frames as u8,
        rate,
    }
}

// A count of the day with the skipped numbers put back in.
fn with_skipped(n: u32, rate: TimeCodeType) -> u32
    requires { n < 2592000 }
    ensures { result ≡ with_skipped rate n }
{
    match rate {
        TimeCodeType::Fps30Drop => drop_with_skipped(n),
        _ => n,
    }
}

// Eighteen numbers for each ten minutes, then two for each minute but the first of the ten.
fn drop_with_skipped(n: u32) -> u32
    requires { n < 2592000 }
    ensures { result ≡ with_skipped TimeCodeType.Fps30Drop n }
{
    let tens = n / DROP_10_MINUTES;
    let rest = n % DROP_10_MINUTES;
    if rest < 2 {
        return n + 18 * tens;
    }
    n + 18 * tens + 2 * ((rest - 2) / DROP_MINUTE)
}

impl MtcTime {
    // The label, or refusal 3 for one that is not valid.
    pub fn new(
        hours: u8,
        minutes: u8,
        seconds: u8,
        frames: u8,
        rate: TimeCodeType,
    ) -> Result<MtcTime, SysexError>
        ensures { answer_of result ≡ new_time (label rate hours minutes seconds frames) }
    {
        let t = MtcTime {
            hours,
            minutes,
            seconds,
            frames,
            rate,
        };
        if t.is_valid() {
            return Ok(t);
        }
        Err(SysexError::OutOfRange)
    }

    // True when each count is in its range and the frame number is not skipped.
    #[tactic(auto, unfolding(crate::specs::St12::is_valid))]
    pub fn is_valid(self) -> bool
        ensures { result ≡ is_valid self }
    {
        self.hours <= 23
            && self.minutes <= 59
            && self.seconds <= 59
            && self.frames < self.rate.frames_per_second()
            && !self.skipped()
    }

    // A frame number 00 or 01 at the start of a minute that drop-frame skips.
    #[tactic(auto, unfolding(crate::specs::St12::is_skipped))]
    fn skipped(self) -> bool
        ensures { result ≡ is_skipped self }
    {
        self.rate.is_drop_frame() && self.seconds == 0 && self.frames < 2 && self.minutes % 10 != 0
    }

    // A skipped label with frames 02, or the label itself (RP-013, Drop Frame Notes).
    pub fn next_valid(self) -> Self
        ensures { result ≡ next_valid self }
    {
        if self.skipped() {
            return MtcTime { frames: 2, ..self };
        }
        self
    }

    // The frames from 00:00:00:00 to the label, by the rule of its rate, reduced by the day.
    pub fn to_frame_count(self) -> u32
        ensures { result ≡ frame_count self }
    {
        let rate = self.rate;
        let minutes = self.hours as u32 * 60 + self.minutes as u32;
        if rate.is_drop_frame() {
            return drop_count(minutes, self.seconds as u32, self.frames as u32) % rate.day();
        }
        let seconds = minutes * 60 + self.seconds as u32;
        let n = seconds * rate.frames_per_second() as u32 + self.frames as u32;
        n % rate.day()
    }

    // The label of `count` frames from 00:00:00:00, round midnight.
    pub fn from_frame_count(count: u32, rate: TimeCodeType) -> Self
        ensures { result ≡ label_at count rate }
    {
        let n = with_skipped(count % rate.day(), rate);
        let fps = rate.frames_per_second() as u32;
        label_of(n / fps, n % fps, rate)
    }

    // The label `delta` frames later, or earlier, round midnight.
    pub fn add_frames(self, delta: i32) -> Self
        ensures { result ≡ add_frames self delta }
    {
        let rate = self.rate;
        let step = reduced(delta, rate.day());
        MtcTime::from_frame_count(self.to_frame_count() + step, rate)
    }

    // A label of raw counts, masked to their widths.
    pub fn raw(hours: u8, minutes: u8, seconds: u8, frames: u8) -> Self
        ensures { result ≡ raw_time hours minutes seconds frames }
    {
        let rate = TimeCodeType::from_bits(hours / 32);
        MtcTime {
            hours: hours % 32,
            minutes: minutes % 64,
            seconds: seconds % 64,
            frames: frames % 32,
            rate,
        }
    }

    // The hours byte: the rate in bits 5 and 6, the hours below.
    pub fn hours_byte(self) -> u8
        ensures { result ≡ hours_byte self }
    {
        let rate = self.rate;
        rate.into_bits() * 32 + self.hours % 32
    }
}
