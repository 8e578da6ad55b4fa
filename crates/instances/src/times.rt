// Labels: moves, counts, days and refusals that document 01 and ST 12-1 name.
use crate::tally::Tally;
use mtc::{MtcTime, TimeCodeType};

pub(crate) fn label(
    hours: u8,
    minutes: u8,
    seconds: u8,
    frames: u8,
    rate: TimeCodeType,
) -> MtcTime {
    MtcTime {
        hours,
        minutes,
        seconds,
        frames,
        rate,
    }
}

// A label at 30 drop-frame.
fn drop_label(hours: u8, minutes: u8, seconds: u8, frames: u8) -> MtcTime {
    label(hours, minutes, seconds, frames, TimeCodeType::Fps30Drop)
}

// The last label of a day, whose count is the day's last.
fn day_ends(frames: u8, rate: TimeCodeType, day: u32) -> bool {
    let last = label(23, 59, 59, frames, rate);
    last.to_frame_count().wrapping_add(1) == day && last.add_frames(1) == label(0, 0, 0, 0, rate)
}

// A label that is not valid is refused.
fn refused(time: MtcTime) -> bool {
    let made = MtcTime::new(
        time.hours,
        time.minutes,
        time.seconds,
        time.frames,
        time.rate,
    );
    matches!(made, Err(_))
}

// Document 01, "Instances": the moves over the minute, ten minutes and midnight at 30 drop-frame.
fn moves() -> [bool; 5] {
    let moved = |from: MtcTime, by: i32, to: MtcTime| from.add_frames(by) == to;
    [
        moved(drop_label(0, 0, 59, 28), 2, drop_label(0, 1, 0, 2)),
        moved(drop_label(0, 9, 59, 29), 1, drop_label(0, 10, 0, 0)),
        moved(drop_label(23, 59, 59, 29), 1, drop_label(0, 0, 0, 0)),
        moved(drop_label(0, 1, 0, 2), -1, drop_label(0, 0, 59, 29)),
        moved(drop_label(0, 0, 0, 0), -1, drop_label(23, 59, 59, 29)),
    ]
}

// Document 01, "Label": the days.
fn days() -> [bool; 4] {
    [
        day_ends(23, TimeCodeType::Fps24, 2_073_600),
        day_ends(24, TimeCodeType::Fps25, 2_160_000),
        day_ends(29, TimeCodeType::Fps30Drop, 2_589_408),
        day_ends(29, TimeCodeType::Fps30, 2_592_000),
    ]
}

// Document 01, "Label": a skipped label counts as two before it, moves up to frame 2, and is refused.
fn skipped() -> [bool; 9] {
    let next_is = |time: MtcTime, next: MtcTime| time.next_valid() == next;
    [
        drop_label(0, 1, 0, 0).to_frame_count() == 1798,
        drop_label(0, 0, 59, 28).to_frame_count() == 1798,
        next_is(drop_label(0, 1, 0, 0), drop_label(0, 1, 0, 2)),
        next_is(drop_label(0, 1, 0, 1), drop_label(0, 1, 0, 2)),
        next_is(drop_label(0, 10, 0, 0), drop_label(0, 10, 0, 0)),
        refused(drop_label(0, 1, 0, 0)),
        refused(label(24, 0, 0, 0, TimeCodeType::Fps30)),
        refused(label(0, 0, 0, 25, TimeCodeType::Fps25)),
        !refused(drop_label(0, 10, 0, 1)),
    ]
}

pub(crate) fn times() -> Tally {
    Tally::of(moves().into_iter().chain(days()).chain(skipped()))
}
