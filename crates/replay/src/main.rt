// Replays the stored sample of the published Rust's answers through the public calls, and writes a line for each call.
#![tactic(auto)]

mod calls;
mod case;
mod line;
mod messages;
mod quarter_frames;
mod strings;
mod tally;
mod time_codes;
mod writers;

use crate::tally::Counts;
use std::io;

fn main(rt: HostRuntime) -> io::Result<()> {
    let mut counts = Counts::new();
    line::read_all(&rt, &mut counts);
    counts.report(&rt)
}
