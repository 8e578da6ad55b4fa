// The minute starts, computed (document 02, #102). Nothing here reads the table.
ghost use Rattle.std.specs.Prelude.{◌≡◌, ◌<◌};
ghost use Rattle.labels.specs.MinuteStarts.{minute_start, minute_starts};

use std::array;

// The sixty numbers of the table.
pub fn minute_starts() -> [u32; 60]
    ensures { result ≡ minute_starts }
{
    array::from_fn(|minute| minute_start(minute))
}

// The labels before a minute of an hour: 1,800 for each minute before it, less 2 for each of those but every tenth.
fn minute_start(minute: usize) -> u32
    requires { minute < 60 }
    ensures { result ≡ minute_start minute }
{
    let minutes = minute as u32;
    let tenths = (minutes + 9) / 10;
    1_800 * minutes - 2 * (minutes - tenths)
}
