// Labels and time codes in print.
use mmc::{FinalByte, ShortTimeCode, StandardTimeCode, TimeCodeStatus};
use mtc::{MtcTime, TimeCodeType};
use std::fmt;
use std::fmt::Display;

// 01:37:52:16, and 00:10:00;00 at drop-frame: two digits of each number, whatever it is.
#[derive(Clone, Copy)]
pub(crate) struct Label(pub(crate) MtcTime);

impl Display for Label {
    fn fmt<W: fmt::Write>(&self, f: &mut fmt::Formatter<W>) -> fmt::Result {
        let time = self.0;
        let mark = match time.rate {
            TimeCodeType::Fps30Drop => ';',
            TimeCodeType::Fps24 | TimeCodeType::Fps25 | TimeCodeType::Fps30 => ':',
        };
        write!(
            f,
            "{:02}:{:02}:{:02}{mark}{:02}",
            time.hours % 100,
            time.minutes % 100,
            time.seconds % 100,
            time.frames % 100,
        )
    }
}

fn rate_words(rate: TimeCodeType) -> &'static str {
    match rate {
        TimeCodeType::Fps24 => "24 frames",
        TimeCodeType::Fps25 => "25 frames",
        TimeCodeType::Fps30Drop => "30 frames drop-frame",
        TimeCodeType::Fps30 => "30 frames",
    }
}

// A label with its rate.
#[derive(Clone, Copy)]
pub(crate) struct Time(pub(crate) MtcTime);

impl Display for Time {
    fn fmt<W: fmt::Write>(&self, f: &mut fmt::Formatter<W>) -> fmt::Result {
        write!(f, "{} at {}", Label(self.0), rate_words(self.0.rate))
    }
}

// The words of a flag that is set.
fn flag(is_set: bool, words: &'static str) -> &'static str {
    if is_set { words } else { "" }
}

#[derive(Clone, Copy)]
struct Status(TimeCodeStatus);

impl Display for Status {
    fn fmt<W: fmt::Write>(&self, f: &mut fmt::Formatter<W>) -> fmt::Result {
        write!(
            f,
            "status{}{}{}{}",
            flag(self.0.estimated, " estimated"),
            flag(self.0.invalid, " invalid"),
            flag(self.0.video_field1, " field-1"),
            flag(self.0.no_time_code, " no-time-code"),
        )
    }
}

#[derive(Clone, Copy)]
struct Final(FinalByte);

impl Display for Final {
    fn fmt<W: fmt::Write>(&self, f: &mut fmt::Formatter<W>) -> fmt::Result {
        match self.0 {
            FinalByte::Subframes(n) => write!(f, "subframes {n}"),
            FinalByte::Status(status) => write!(f, "with {}", Status(status)),
        }
    }
}

// The five bytes of a time code: the time with its sign, the last byte, and the other flags that are set.
#[derive(Clone, Copy)]
pub(crate) struct Code(pub(crate) StandardTimeCode);

impl Display for Code {
    fn fmt<W: fmt::Write>(&self, f: &mut fmt::Formatter<W>) -> fmt::Result {
        let code = self.0;
        write!(
            f,
            "{}{}, {}{}{}",
            flag(code.negative, "-"),
            Time(code.time),
            Final(code.final_byte),
            flag(code.color_frame, ", colour frame"),
            flag(code.blank, ", blank"),
        )
    }
}

// The two bytes of a short one.
#[derive(Clone, Copy)]
pub(crate) struct Short(pub(crate) ShortTimeCode);

impl Display for Short {
    fn fmt<W: fmt::Write>(&self, f: &mut fmt::Formatter<W>) -> fmt::Result {
        let code = self.0;
        write!(
            f,
            "frames {}, {}{}",
            code.frames,
            Final(code.final_byte),
            flag(code.negative, ", negative"),
        )
    }
}
