// Prints the sixty minute starts of a drop-frame hour (document 02, #102), one decimal number to a line. They are computed: nothing here
// reads the table by which labels are counted.
#![tactic(auto)]

use labels::minute_starts;
use std::io;

fn main(rt: HostRuntime) -> io::Result<()> {
    for start in minute_starts() {
        println!(rt; "{}", start)?;
    }
    Ok(())
}
