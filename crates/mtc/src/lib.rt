// MIDI Time Code (RP-004/RP-008): quarter frames with their generator and reader, the full message and user bits, over the labels
// of `labels`.
#![tactic(auto)]

mod full_message;
mod generator;
mod kind;
mod order;
mod quarter_frame;
mod reader;
mod user_bits;

pub use full_message::FullMessage;
pub use generator::{Direction, MtcGenerator, Sent};
pub use labels::{MtcTime, TimeCodeType};
pub use quarter_frame::QuarterFrame;
pub use reader::{MtcEvent, MtcReader, MtcSequence, Stepped, event};
pub use user_bits::UserBits;
