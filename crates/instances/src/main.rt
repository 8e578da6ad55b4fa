// Runs document 01's instances, RP-004/008's published examples, RP-013's formats and demand 3 through the public calls, and writes
// a line for each group.
#![tactic(auto)]

mod demand3;
mod examples;
mod formats;
mod quarter_frames;
mod stream;
mod strings;
mod tally;
mod times;

use std::io;

fn main(rt: HostRuntime) -> io::Result<()> {
    println!(rt; "labels: {}", times::times())?;
    println!(rt; "quarter frames: {}", quarter_frames::quarter_frames())?;
    println!(rt; "strings: {}", examples::examples())?;
    println!(rt; "formats of RP-013: {}", formats::formats())?;
    println!(rt;
        "demand 3, every list of up to four calls: {}",
        demand3::short_lists()
    )?;
    println!(rt; "demand 3, longer lists: {}", demand3::long_lists())?;
    println!(rt; "demand 3, edges and commands before: {}", demand3::edges())?;
    println!(rt; "demand 3, negative targets: {}", demand3::negative())
}
