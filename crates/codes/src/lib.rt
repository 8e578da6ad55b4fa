// The time code fields of MIDI Machine Control (RP-013, pp. 8 and 9): five bytes or two, the last subframes or status.
#![tactic(auto)]

mod time_code;

pub use time_code::{
    FinalByte, ShortTimeCode, StandardTimeCode, TimeCodeStatus, full_name, short_name,
};
