// Time code fields of machine control (RP-013, pp. 8, 9): the Standard Time Code in five bytes and its short form in two.
// A reader keeps the raw counts and ignores the reserved bits; a writer refuses a value out of range and writes them as 0.
ghost use Rattle.universal.specs.Refusals.{answer_of};
ghost use Rattle.std.specs.Prelude.{◌≤◌, ◌<◌, ◌≡◌, get_or};
ghost use Rattle.codes.specs.TimeCode.{bit, flag, read_status, status_byte, read_final, final_fits, final_mark, frames_byte, final_value, read_standard, read_short, standard_bytes, short_bytes, written_label, short_form, with_short, with_final, subframes_form, status_form, short_name_of, full_name};

use labels::MtcTime;
use universal::SysexError;

// The status byte `0evdnxxx` of a time code (p. 9).
#[derive(Clone, Copy)]
pub struct TimeCodeStatus {
    // e: the estimated code flag.
    pub estimated: bool,
    // v: the invalid code flag.
    pub invalid: bool,
    // d: video field 1.
    pub video_field1: bool,
    // n: no time code since power up or a reset.
    pub no_time_code: bool,
}

// The last byte of a time code: bit 5 of the frames byte tells the form (p. 8).
#[derive(Clone, Copy)]
pub enum FinalByte {
    // Bit 5 clear: fractional frames, 0 to 99, in seven bits.
    Subframes(u8),
    // Bit 5 set: the code status.
    Status(TimeCodeStatus),
}

// The Standard Time Code `hr mn sc fr {ff|st}` (pp. 8, 9).
#[derive(Clone, Copy)]
pub struct StandardTimeCode {
    pub time: MtcTime,
    // c: the colour frame flag of the minutes byte.
    pub color_frame: bool,
    // k: the blank flag of the seconds byte.
    pub blank: bool,
    // g: the sign of the frames byte.
    pub negative: bool,
    pub final_byte: FinalByte,
}

// The Standard Short Time Code `fr {ff|st}` (p. 9).
#[derive(Clone, Copy)]
pub struct ShortTimeCode {
    pub frames: u8,
    pub negative: bool,
    pub final_byte: FinalByte,
}

// The short name of a time code field: 01H to 1FH plus 20H (p. 9).
pub fn short_name(field: u8) -> Option<u8>
    ensures { result ≡ short_name_of field }
{
    match field {
        0x01..=0x1F => Some(field + 0x20),
        _ => None,
    }
}

// The time code field of a short name: 21H to 3FH minus 20H (p. 9).
pub fn full_name(short: u8) -> Option<u8>
    ensures { result ≡ full_name short }
{
    match short {
        0x21..=0x3F => Some(short - 0x20),
        _ => None,
    }
}

// A flag's weight in a byte.
fn flag_of(weight: u8, set: bool) -> u8
    ensures value { result ≡ flag weight set }
    ensures upper_bound { result ≤ weight }
{
    if set { weight } else { 0 }
}

// The sign: bit 6 of the frames byte.
fn sign(fr: u8) -> bool
    ensures { result ≡ bit 64 fr }
{
    fr / 64 % 2 == 1
}

impl TimeCodeStatus {
    // The marks of a status byte; the reserved bits are ignored.
    pub fn from_byte(byte: u8) -> Self
        ensures { result ≡ read_status byte }
    {
        TimeCodeStatus {
            estimated: byte / 64 % 2 == 1,
            invalid: byte / 32 % 2 == 1,
            video_field1: byte / 16 % 2 == 1,
            no_time_code: byte / 8 % 2 == 1,
        }
    }

    // The status byte, with the reserved bits 0.
    pub fn to_byte(self) -> u8
        ensures { result ≡ status_byte self }
    {
        flag_of(64, self.estimated)
            + flag_of(32, self.invalid)
            + flag_of(16, self.video_field1)
            + flag_of(8, self.no_time_code)
    }
}

impl FinalByte {
    // The last byte, in the form that the frames byte tells.
    fn read(fr: u8, ff: u8) -> Self
        ensures { result ≡ read_final fr ff }
    {
        if fr / 32 % 2 == 1 {
            return FinalByte::Status(TimeCodeStatus::from_byte(ff));
        }
        FinalByte::Subframes(ff % 128)
    }

    // False for subframes above 99, which are read and not written.
    fn fits(self) -> bool
        ensures { result ≡ final_fits self }
    {
        match self {
            FinalByte::Subframes(s) => s <= 99,
            FinalByte::Status(_) => true,
        }
    }

    // Bit 5 of the frames byte.
    fn mark(self) -> u8
        ensures value { result ≡ final_mark self }
        ensures upper_bound { result ≤ 32 }
    {
        match self {
            FinalByte::Subframes(_) => 0,
            FinalByte::Status(_) => 32,
        }
    }

    // The frames byte before it: the sign, bit 5 and the frames.
    fn frames_byte(self, negative: bool, frames: u8) -> u8
        requires { frames < 32 }
        ensures { result ≡ frames_byte self negative frames }
    {
        flag_of(64, negative) + self.mark() + frames
    }

    // The byte itself.
    fn value(self) -> u8
        ensures { result ≡ final_value self }
    {
        match self {
            FinalByte::Subframes(s) => s,
            FinalByte::Status(st) => st.to_byte(),
        }
    }
}

impl StandardTimeCode {
    // Reads the five bytes; each count is masked to its width.
    #[tactic(auto, unfolding(crate::specs::TimeCode::read_standard))]
    pub fn from_bytes(bytes: [u8; 5]) -> Self
        ensures { result ≡ read_standard (get_or bytes 0 0) (get_or bytes 1 0) (get_or bytes 2 0) (get_or bytes 3 0) (get_or bytes 4 0) }
    {
        let [hr, mn, sc, fr, ff] = bytes;
        StandardTimeCode {
            time: MtcTime::raw(hr, mn, sc, fr),
            color_frame: mn / 64 % 2 == 1,
            blank: sc / 64 % 2 == 1,
            negative: sign(fr),
            final_byte: FinalByte::read(fr, ff),
        }
    }

    // The label that is written: zeros at the code's rate where it is blank.
    fn written_label(self) -> MtcTime
        ensures { result ≡ written_label self }
    {
        if self.blank {
            return MtcTime {
                hours: 0,
                minutes: 0,
                seconds: 0,
                frames: 0,
                rate: self.time.rate,
            };
        }
        self.time
    }

    // The five bytes; refusal 3 for subframes above 99, or for a label that is neither blank nor valid.
    #[tactic(auto, unfolding(crate::specs::TimeCode::standard_fits, crate::specs::TimeCode::standard_list))]
    pub fn to_bytes(self) -> Result<[u8; 5], SysexError>
        ensures { answer_of result ≡ standard_bytes self }
    {
        let last = self.final_byte;
        if !last.fits() {
            return Err(SysexError::OutOfRange);
        }
        let t = self.written_label();
        if !t.is_valid() {
            return Err(SysexError::OutOfRange);
        }
        let mn = flag_of(64, self.color_frame) + t.minutes;
        let sc = flag_of(64, self.blank) + t.seconds;
        let fr = last.frames_byte(self.negative, t.frames);
        Ok([t.hours_byte(), mn, sc, fr, last.value()])
    }

    // The short form: the frames, the sign and the last byte.
    pub fn short(self) -> ShortTimeCode
        ensures { result ≡ short_form self }
    {
        ShortTimeCode {
            frames: self.time.frames,
            negative: self.negative,
            final_byte: self.final_byte,
        }
    }

    // This code with a short form's frames, sign and last byte; hours, minutes, seconds and their flags stay.
    pub fn with_short(self, short: ShortTimeCode) -> Self
        ensures { result ≡ with_short self short }
    {
        let time = MtcTime {
            frames: short.frames,
            ..self.time
        };
        StandardTimeCode {
            time,
            negative: short.negative,
            final_byte: short.final_byte,
            ..self
        }
    }

    // This code with another last byte.
    fn with_final(self, final_byte: FinalByte) -> Self
        ensures { result ≡ with_final self final_byte }
    {
        StandardTimeCode { final_byte, ..self }
    }

    // The MOVE rule from status to subframes: subframes 0; subframes stay as they are (p. 32).
    pub fn to_subframes_form(self) -> Self
        ensures { result ≡ subframes_form self }
    {
        match self.final_byte {
            FinalByte::Subframes(_) => self,
            FinalByte::Status(_) => self.with_final(FinalByte::Subframes(0)),
        }
    }

    // The MOVE rule from subframes to status: e 0, v 0, d as given and n 1; a status stays as it is (p. 32).
    pub fn to_status_form(self, video_field1: bool) -> Self
        ensures { result ≡ status_form self video_field1 }
    {
        match self.final_byte {
            FinalByte::Subframes(_) => self.with_final(FinalByte::Status(TimeCodeStatus {
                estimated: false,
                invalid: false,
                video_field1,
                no_time_code: true,
            })),
            FinalByte::Status(_) => self,
        }
    }
}

impl ShortTimeCode {
    // Reads the two bytes; the frames are masked to their width.
    #[tactic(auto, unfolding(crate::specs::TimeCode::read_short))]
    pub fn from_bytes(bytes: [u8; 2]) -> Self
        ensures { result ≡ read_short (get_or bytes 0 0) (get_or bytes 1 0) }
    {
        let [fr, ff] = bytes;
        ShortTimeCode {
            frames: fr % 32,
            negative: sign(fr),
            final_byte: FinalByte::read(fr, ff),
        }
    }

    // The two bytes; refusal 3 for frames above 29 or subframes above 99.
    #[tactic(auto, unfolding(crate::specs::TimeCode::short_fits, crate::specs::TimeCode::short_list))]
    pub fn to_bytes(self) -> Result<[u8; 2], SysexError>
        ensures { answer_of result ≡ short_bytes self }
    {
        let last = self.final_byte;
        if self.frames > 29 {
            return Err(SysexError::OutOfRange);
        }
        if !last.fits() {
            return Err(SysexError::OutOfRange);
        }
        let fr = last.frames_byte(self.negative, self.frames);
        Ok([fr, last.value()])
    }
}
