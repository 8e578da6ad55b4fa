// Counts at 30 drop-frame by a table of minute starts (document 02, #102). A minute's start is the count of its first valid label within the
// hour. That label is frame 00 of second 00 in the minutes 00, 10, 20, 30, 40 and 50, and frame 02 in the others.
ghost use Rattle.std.specs.Prelude.{◌≡◌, ◌<◌};
ghost use Rattle.labels.specs.MinuteStarts.{labels_of_minutes};
ghost use Rattle.labels.specs.Time.{formula};

use crate::time::{DROP_HOUR, TimeCodeType};

// A number for each minute of an hour. `computed.rt` computes the same.
pub const MINUTE_STARTS: [u32; 60] = [
    0, 1_800, 3_598, 5_396, 7_194, 8_992, 10_790, 12_588, 14_386, 16_184, 17_982, 19_782, 21_580,
    23_378, 25_176, 26_974, 28_772, 30_570, 32_368, 34_166, 35_964, 37_764, 39_562, 41_360, 43_158,
    44_956, 46_754, 48_552, 50_350, 52_148, 53_946, 55_746, 57_544, 59_342, 61_140, 62_938, 64_736,
    66_534, 68_332, 70_130, 71_928, 73_728, 75_526, 77_324, 79_122, 80_920, 82_718, 84_516, 86_314,
    88_112, 89_910, 91_710, 93_508, 95_306, 97_104, 98_902, 100_700, 102_498, 104_296, 106_094,
];

// The labels before a minute of the day: those of the hours before it, and by the table those before it in its hour.
#[tactic(auto, using(crate::proofs::MinuteStarts::by_hour))]
fn labels_before(minute: u32) -> u32
    requires { minute < 65536 }
    ensures { result ≡ labels_of_minutes minute }
{
    minute / 60 * DROP_HOUR + MINUTE_STARTS[(minute % 60) as usize]
}

// The formula's count of a place in a minute of the day. Where the minute skips two numbers, its start is the count of frame 02.
pub(crate) fn drop_count(minute: u32, seconds: u32, frames: u32) -> u32
    requires { (minute < 65536) × ((seconds < 256) × (frames < 256)) }
    ensures { result ≡ formula TimeCodeType.Fps30Drop minute seconds frames }
{
    let skipped = if minute % 10 == 0 { 0 } else { 2 };
    labels_before(minute) + seconds * 30 + frames - skipped
}
