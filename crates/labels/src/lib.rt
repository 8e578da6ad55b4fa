// Time code labels with the frame arithmetic of SMPTE ST 12-1.
#![tactic(auto)]

mod computed;
mod minutes;
mod time;

pub use computed::minute_starts;
pub use minutes::MINUTE_STARTS;
pub use time::{DROP_HOUR, MtcTime, TimeCodeType};
