// Label arithmetic in registers: the answers of `to_frame_count`, `from_frame_count` and `add_frames` of `labels`. A number below
// the day is not divided, and each rate divides by constants. At drop-frame a label is counted by the table of minute starts, and the minute
// of a count is one quotient. A label is made as one number, and a few frames away in the same second it is a sum. As calls the functions
// marked `inline(always)` take more instructions.
ghost use Rattle.std.specs.Prelude.{◌≡◌, true, false, ◌-◌, ◌<◌, ◌≤◌, ◌+◌, ◌*◌, ◌/◌, ◌%◌, ◌^◌, pos, negsuc};
ghost use Rattle.labels.specs.MinuteStarts.{labels_of_minutes};
ghost use Rattle.labels.specs.St12.{is_drop_frame};
ghost use Rattle.labels.specs.Time.{bits_of, type_of, frame_count, label_at, add_frames, mod_z, label_at_second};
ghost use Rattle.mtc.specs.Generator.{sequence_frames};
ghost use Rattle.fast_mtc.specs.Clauses.{RateOf};
ghost use Rattle.fast_mtc.specs.Label.{label_number};

use crate::time::time_numbered;
use labels::{DROP_HOUR, MINUTE_STARTS};
use mtc::{Direction, MtcTime, TimeCodeType};

// The frame numbers of a minute, and the frames of one that skips two of them. `labels` keeps its other constants to itself.
const MINUTE: u32 = 1_800;

const DROP_MINUTE: u32 = 1_798;

// The seconds of 24 hours, and their frames at drop-frame.
const DAY: u32 = 86_400;

const DAY_DROP: u32 = 24 * DROP_HOUR;

// The two bits of a rate, by which it is told.
const BITS_24: u8 = 0;

const BITS_25: u8 = 1;

const BITS_DROP: u8 = 2;

const BITS_30: u8 = 3;

// A number modulo a day: one below it needs no division.
fn modulo_day(n: u32, day: u32) -> u32
    requires { 0 < day }
    ensures { result ≡ n % day }
{
    if n < day {
        return n;
    }
    n % day
}

// A signed distance modulo a day.
#[tactic(auto, using(labels::proofs::Laws::back_mod, labels::proofs::Laws::ahead_mod))]
fn reduced(delta: i32, day: u32) -> u32
    requires { 0 < day }
    ensures { result ≡ mod_z delta day }
{
    if delta < 0 {
        let back = (-1 - delta) as u32;
        return day - 1 - modulo_day(back, day);
    }
    modulo_day(delta as u32, day)
}

// A count of a drop-frame day moved by a signed distance, round midnight.
#[tactic(auto, using(crate::proofs::LabelShortWays::moved_once))]
fn drop_moved(count: u32, delta: i32) -> u32
    requires { count < 2589408 }
    ensures { result ≡ (count + mod_z delta 2589408) % 2589408 }
{
    let n = count + reduced(delta, DAY_DROP);
    if n < DAY_DROP {
        return n;
    }
    n - DAY_DROP
}

// A label as one number: hours in its lowest byte, above them minutes, seconds, frames and the rate. No `From`: neither is a type of this
// crate.
#[tactic(auto, unfolding(crate::specs::Label::label_number))]
fn label_number(t: MtcTime) -> u64
    ensures { result ≡ label_number t }
{
    t.hours as u64
        + t.minutes as u64 * 0x100
        + t.seconds as u64 * 0x1_0000
        + t.frames as u64 * 0x100_0000
        + t.rate.into_bits() as u64 * 0x1_0000_0000
}

// The number of the label of a minute of the day and a place in it, at the rate of two bits and its frames of a second. An hour takes
// 60 minutes off and adds itself, a second its frames.
#[tactic(auto, using(crate::proofs::LabelShortWays::in_number))]
#[inline(always)]
fn number_in<const FRAMES: u32, const BITS: u8>(minutes: u32, place: u32) -> u64
    requires { RateOf FRAMES BITS × ((minutes < 1440) × (place < 60 * FRAMES)) }
    ensures { result ≡ label_number (label_at_second (type_of BITS) (minutes * 60 + place / FRAMES) (place % FRAMES)) }
{
    let hours = minutes / 60;
    let seconds = place / FRAMES;
    let low = minutes as u64 * 0x100 - hours as u64 * (60 * 0x100 - 1);
    let high = place as u64 * 0x100_0000 - seconds as u64 * (FRAMES as u64 * 0x100_0000 - 0x1_0000);
    low + high + BITS as u64 * 0x1_0000_0000
}

// The number of the label of a count of a drop-frame day. Ten minutes have 17,982 frames, so a quotient by their tenth is the minute,
// but for the last frame before each of the minutes 1 to 5 of ten. That frame and the first two of a tenth minute go the plain way.
#[tactic(auto, using(crate::proofs::LabelShortWays::by_quotient))]
fn drop_number(n: u32) -> u64
    requires { n < 2589408 }
    ensures { result ≡ label_number (label_at n TimeCodeType.Fps30Drop) }
{
    let minutes = (n * 5 / 8_991) as u16;
    let place = n - (minutes as u32 * DROP_MINUTE + (minutes / 10) as u32 * 2);
    if place < 2 {
        return label_number(MtcTime::from_frame_count(n, TimeCodeType::Fps30Drop));
    }
    number_in::<30, BITS_DROP>(minutes as u32, place)
}

// The number of the label of a count at a rate that skips none, by its frames of a second and its bits: likewise by the minute and the
// place in it.
#[tactic(auto, using(crate::proofs::LabelShortWays::by_minute))]
#[inline(always)]
fn even_number_at<const FRAMES: u32, const BITS: u8>(count: u32) -> u64
    requires { RateOf FRAMES BITS × (is_drop_frame (type_of BITS) ≡ false) }
    ensures { result ≡ label_number (label_at count (type_of BITS)) }
{
    let n = modulo_day(count, DAY * FRAMES);
    let minutes = n / (60 * FRAMES);
    let place = n - minutes * (60 * FRAMES);
    number_in::<FRAMES, BITS>(minutes, place)
}

// The same by the rate.
#[inline(always)]
fn even_number(count: u32, rate: TimeCodeType) -> u64
    requires { bits_of rate ≡ 2 → ⊥ }
    ensures { result ≡ label_number (label_at count rate) }
{
    match rate.into_bits() {
        BITS_24 => even_number_at::<24, BITS_24>(count),
        BITS_25 => even_number_at::<25, BITS_25>(count),
        _ => even_number_at::<30, BITS_30>(count),
    }
}

// `MtcTime::to_frame_count`.
#[tactic(auto, using(crate::proofs::LabelShortWays::even_frame_count))]
pub fn frame_count(t: MtcTime) -> u32
    ensures { result ≡ frame_count t }
{
    let rate = t.rate;
    if rate.into_bits() == BITS_DROP {
        return count_back(t);
    }
    let minutes = t.hours as u32 * 60 + t.minutes as u32;
    let seconds = minutes * 60 + t.seconds as u32;
    let per_second = rate.frames_per_second() as u32;
    modulo_day(seconds * per_second + t.frames as u32, DAY * per_second)
}

// The labels before a minute of an hour, from the table.
#[tactic(auto, using(labels::proofs::Laws::start_by_rule))]
fn start_in_table(minute: usize) -> u32
    requires { minute < 60 }
    ensures { result ≡ labels_of_minutes minute }
{
    MINUTE_STARTS[minute]
}

// `frame_count` at drop-frame, back from the start of the next minute. A minute skips numbers at its own start alone, so it is not asked
// whether this one does. In hour 0 `back` wraps below 0; adding the start brings it up again.
#[tactic(auto, using(crate::proofs::LabelShortWays::by_next_start))]
fn count_back(t: MtcTime) -> u32
    requires { bits_of t.rate ≡ 2 }
    ensures { result ≡ frame_count t }
{
    let place = t.hours as u32 * DROP_HOUR + t.seconds as u32 * 30 + t.frames as u32;
    let back = place.wrapping_sub(MINUTE);
    if t.minutes >= 59 {
        return count_back_late(back, t.minutes);
    }
    modulo_day(
        back.wrapping_add(start_in_table(t.minutes as usize + 1)),
        DAY_DROP,
    )
}

// From minute 59 on the next minute is in a later hour. Inlined, this costs the usual way two instructions.
#[cold]
#[inline(never)]
fn count_back_late(back: u32, minutes: u8) -> u32
    ensures { result ≡ (back + labels_of_minutes (minutes + 1)) % 2 ^ 32 % 2589408 }
{
    let next = minutes as u32 + 1;
    let start = next / 60 * DROP_HOUR + start_in_table((next % 60) as usize);
    modulo_day(back.wrapping_add(start), DAY_DROP)
}

// The number of `MtcTime::from_frame_count`.
#[tactic(auto, using(crate::proofs::LabelShortWays::drop_at))]
pub fn number_at(count: u32, rate: TimeCodeType) -> u64
    ensures { result ≡ label_number (label_at count rate) }
{
    if rate.into_bits() == BITS_DROP {
        return drop_number(modulo_day(count, DAY_DROP));
    }
    even_number(count, rate)
}

// The number of `MtcTime::add_frames`.
#[tactic(auto, using(labels::proofs::Laws::passed_mod, labels::proofs::Laws::sum_fits, crate::proofs::LabelShortWays::drop_count_below, crate::proofs::LabelShortWays::drop_added, crate::proofs::LabelShortWays::added))]
pub fn number_after(t: MtcTime, delta: i32) -> u64
    ensures { result ≡ label_number (add_frames t delta) }
{
    let rate = t.rate;
    if rate.into_bits() == BITS_DROP {
        return drop_number(drop_moved(frame_count(t), delta));
    }
    let step = reduced(delta, rate.day());
    even_number(frame_count(t) + step, rate)
}

// `MtcTime::add_frames`. The rate, too, is read off the number: its caller then keeps nothing of `t`.
#[tactic(auto, using(crate::proofs::FlatBack::moved_numbered))]
pub fn add_frames(t: MtcTime, delta: i32) -> MtcTime
    ensures { result ≡ add_frames t delta }
{
    MtcTime::from(time_numbered(number_after(t, delta)))
}

// True only where hours, minutes and seconds are in their ranges.
pub(crate) fn is_in_day(t: MtcTime) -> bool
    ensures { result ≡ true → (t.hours ≤ 23) × ((t.minutes ≤ 59) × (t.seconds ≤ 59)) }
{
    t.hours <= 23 && t.minutes <= 59 && t.seconds <= 59
}

// `add_frames(2)`, most often in the same second.
pub fn two_later(t: MtcTime) -> MtcTime
    ensures { result ≡ add_frames t (pos 2) }
{
    if t.frames >= t.rate.frames_per_second() - 2 || !is_in_day(t) {
        return add_frames(t, 2);
    }
    MtcTime {
        frames: t.frames + 2,
        ..t
    }
}

// `add_frames` of a few frames back, likewise. Up to frame 1 it might end on a number that drop-frame skips.
fn earlier<const FRAMES: u8>(t: MtcTime) -> MtcTime
    requires { (1 ≤ FRAMES) × (FRAMES ≤ 253) }
    ensures { result ≡ add_frames t (negsuc (FRAMES - 1)) }
{
    if t.frames < FRAMES + 2 || t.frames >= t.rate.frames_per_second() || !is_in_day(t) {
        return add_frames(t, -(FRAMES as i32));
    }
    MtcTime {
        frames: t.frames - FRAMES,
        ..t
    }
}

// `add_frames(-2)`.
pub fn two_earlier(t: MtcTime) -> MtcTime
    ensures { result ≡ add_frames t (negsuc 1) }
{
    earlier::<2>(t)
}

// `add_frames(-1)`.
pub fn one_earlier(t: MtcTime) -> MtcTime
    ensures { result ≡ add_frames t (negsuc 0) }
{
    earlier::<1>(t)
}

// `Direction::next_time`: the time of the sequence after that of `t`.
#[inline(always)]
pub fn next_time(t: MtcTime, direction: Direction) -> MtcTime
    ensures { result ≡ add_frames t (sequence_frames direction) }
{
    match direction {
        Direction::Forward => two_later(t),
        Direction::Reverse => two_earlier(t),
    }
}
