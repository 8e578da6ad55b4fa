// Labels, and the quarter frames of a label.
ghost use Rattle.std.specs.Prelude.{◌≡◌};
ghost use Rattle.mtc.specs.QuarterFrame.{from_byte, to_byte, pieces};
ghost use Rattle.labels.specs.St12.{frames_per_second, is_valid};
ghost use Rattle.labels.specs.Time.{new_time, next_valid, frame_count, label_at, add_frames, type_of};
ghost use Rattle.fast_mtc.specs.Refusal.{refusal_in};
ghost use Rattle.fast_mtc.specs.Time.{time_of, time_at, flat_time, frame_of, flat_read_frame};

use fast_mtc::time::{EightBytes, FlatFrame, FlatReadFrame, FlatTime};

// The frames of a counting second: 24, 25 or 30.
#[unsafe(no_mangle)]
pub extern "C" fn fimbrast_frames_per_second(rate: u8) -> u8
    ensures { result ≡ frames_per_second (type_of rate) }
{
    fimbrast::time::fimbrast_frames_per_second(rate)
}

// `MtcTime::new`: 0, or 3 for a label that is not valid.
#[unsafe(no_mangle)]
pub extern "C" fn fimbrast_time_new(time: FlatTime) -> u8
    ensures { result ≡ refusal_in (new_time (time_of time)) }
{
    fimbrast::time::fimbrast_time_new(time)
}

// `MtcTime::is_valid`: each count is in its range, and drop-frame does not skip the number.
#[unsafe(no_mangle)]
pub extern "C" fn fimbrast_is_valid(time: FlatTime) -> bool
    ensures { result ≡ is_valid (time_of time) }
{
    fimbrast::time::fimbrast_is_valid(time)
}

// `MtcTime::next_valid`: frame 02 for a number that drop-frame skips, else the label itself.
#[unsafe(no_mangle)]
pub extern "C" fn fimbrast_next_valid(time: FlatTime) -> FlatTime
    ensures { result ≡ flat_time (next_valid (time_of time)) }
{
    fimbrast::time::fimbrast_next_valid(time)
}

// `MtcTime::to_frame_count`: the frames from 00:00:00:00 to the label.
#[unsafe(no_mangle)]
pub extern "C" fn fimbrast_to_frame_count(time: &[u8; 5]) -> u32
    ensures { result ≡ frame_count (time_at time.now 0) }
{
    fimbrast::time::fimbrast_to_frame_count(time)
}

// `MtcTime::from_frame_count`: the label of a count, round midnight.
#[unsafe(no_mangle)]
pub extern "C" fn fimbrast_from_frame_count(count: u32, rate: u8) -> FlatTime
    ensures { result ≡ flat_time (label_at count (type_of rate)) }
{
    fimbrast::time::fimbrast_from_frame_count(count, rate)
}

// `MtcTime::add_frames`: the label so many frames later, or earlier, round midnight.
#[unsafe(no_mangle)]
pub extern "C" fn fimbrast_add_frames(time: FlatTime, delta: i32) -> FlatTime
    ensures { result ≡ flat_time (add_frames (time_of time) delta) }
{
    fimbrast::time::fimbrast_add_frames(time, delta)
}

// `QuarterFrame::from_byte`: the piece and value of a data byte, or refusal 13 and zeros for a byte of 80H or more.
#[unsafe(no_mangle)]
pub extern "C" fn fimbrast_quarter_frame_read(byte: u8) -> FlatReadFrame
    ensures { result ≡ flat_read_frame (from_byte byte) }
{
    fimbrast::time::fimbrast_quarter_frame_read(byte)
}

// `QuarterFrame::to_byte`: the data byte of a piece and value.
#[unsafe(no_mangle)]
pub extern "C" fn fimbrast_quarter_frame_byte(frame: FlatFrame) -> u8
    ensures { result ≡ to_byte (frame_of frame) }
{
    fimbrast::time::fimbrast_quarter_frame_byte(frame)
}

// `QuarterFrame::pieces`: the data bytes of pieces 0 to 7.
#[unsafe(no_mangle)]
pub extern "C" fn fimbrast_pieces(time: FlatTime) -> EightBytes
    ensures { result.bytes ≡ pieces (time_of time) }
{
    fimbrast::time::fimbrast_pieces(time)
}
