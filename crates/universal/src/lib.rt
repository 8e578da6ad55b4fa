// Universal System Exclusive messages: the refusals, bytes put into a lent buffer, and the message writer.
#![tactic(auto)]

mod error;
mod message;
mod out;

pub use error::SysexError;
pub use message::{ALL_DEVICES, Universal, addressed, all_low, close, has_sub_id2};
pub use out::{put, put_part};
