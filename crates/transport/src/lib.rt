// The transport of a MIDI Machine Control recorder: commands applied to a quarter frame generator.
#![tactic(auto)]

mod run;
mod transport;

pub use run::{Obeyed, Turn, TurnReply, obey, obey_next};
pub use transport::{Applied, Reply, apply};
