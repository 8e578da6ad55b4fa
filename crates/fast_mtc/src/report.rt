// The end of a sequence, events and reports: an event is one number, and a report's labels stay in the reader's words.
ghost use Rattle.std.specs.Prelude.{◌≡◌, true, ◌+◌, ◌*◌, ◌≤◌, Some, None};
ghost use Rattle.universal.specs.Refusals.{refused, refusal_of};
ghost use Rattle.labels.specs.Time.{add_frames};
ghost use Rattle.mtc.specs.Generator.{final};
ghost use Rattle.mtc.specs.Reader.{raw_of, offset, jumps, sequence_of, event_with};
ghost use Rattle.fast_mtc.specs.Time.{flat_time};
ghost use Rattle.fast_mtc.specs.Reader.{nibbles_in, reader_in, flat_report, flat_event, flat_byte_answer, label_or, report_in, flat_maybe_sequence};
ghost use Rattle.fast_mtc.specs.Clauses.{SequenceEnded, SteadyLabel, steady};

use crate::generator::flat_direction;
use crate::label;
use crate::time::{FlatTime, no_time};
use crate::words::{
    LOCKED, PREVIOUS, PREVIOUS_MARK, TIME, TIME_MARK, label_word, previous, rate_mark, time,
};
use mtc::{Direction, MtcEvent, MtcSequence, MtcTime, event};
use universal::SysexError;

// The records here are for C, which has no Option and no Result: a flag or a refusal stands beside the value.

// The end of a full sequence: the label as it was assembled, the current one, the direction, and whether the assembled label does not
// follow the one before it.
#[repr(C)]
#[derive(Clone, Copy)]
pub struct FlatSequence {
    pub raw: FlatTime,
    pub current: FlatTime,
    pub direction: u8,
    pub discontinuity: bool,
}

// A report, where `present` is true. Where it is false the sequence is all zeros.
#[repr(C)]
#[derive(Clone, Copy)]
pub struct FlatMaybeSequence {
    pub present: bool,
    pub sequence: FlatSequence,
}

// ---- events as numbers: no `From`, as neither a number nor an event is a type of this crate

#[tactic(auto, using(crate::proofs::Events::report_is), unfolding(crate::specs::Reader::flat_report))]
fn flat_report(s: MtcSequence) -> u64
    ensures { (result ≡ flat_report (Some s)) × (result ≤ 7) }
{
    1 + flat_direction(s.direction) as u64 * 2 + s.discontinuity as u64 * 4
}

#[tactic(auto, unfolding(crate::specs::Reader::flat_event, crate::specs::Reader::flat_report))]
fn flat_event(e: MtcEvent) -> u64
    ensures { result ≡ flat_event e }
{
    let start = e.piece as u64 + e.boundary as u64 * 256;
    match e.sequence {
        None => start,
        Some(s) => start + flat_report(s) * 512,
    }
}

// What a piece gives that ends no sequence.
const QUIET: [u64; 8] = [0x100, 1, 2, 3, 0x104, 5, 6, 7];

#[tactic(auto, using(crate::proofs::Events::quiet_table))]
pub(crate) fn quiet(p: u32) -> u64
    requires { p ≤ 7 }
    ensures { result ≡ flat_event (event_with p None) }
{
    QUIET[p as usize]
}

// The lowest number of a refused byte; every event is below it.
pub const REFUSED: u64 = 0x100_0000_0000_0000;

// What a refused byte is answered: the refusal's number in the highest byte.
#[tactic(auto, unfolding(crate::specs::Reader::flat_byte_answer))]
pub(crate) fn refused(error: SysexError) -> u64
    ensures { result ≡ flat_byte_answer (refused (refusal_of error)) }
{
    error.number() as u64 * REFUSED
}

// The report of a number and of the reader that it left.
#[tactic(auto, using(crate::proofs::Events::direction_low), unfolding(crate::specs::Reader::flat_maybe_sequence, crate::specs::Reader::flat_sequence, crate::specs::Reader::report_in))]
pub fn report_in(words: [u32; 15], report: u64) -> FlatMaybeSequence
    ensures { result ≡ flat_maybe_sequence (report_in (reader_in words) report) }
{
    if report % 2 == 0 {
        return FlatMaybeSequence {
            present: false,
            sequence: FlatSequence {
                raw: no_time(),
                current: no_time(),
                direction: 0,
                discontinuity: false,
            },
        };
    }
    FlatMaybeSequence {
        present: true,
        sequence: FlatSequence {
            raw: label_or(previous(words)),
            current: label_or(time(words)),
            direction: (report / 2 % 2) as u8,
            discontinuity: report / 4 % 2 != 0,
        },
    }
}

// A label, or all zeros: no `From`, as none and a midnight become the same. By `map_or` or `map_or_else` a report takes 15 more instructions.
#[tactic(auto, unfolding(crate::specs::Time::flat_time))]
fn label_or(t: Option<MtcTime>) -> FlatTime
    ensures { result ≡ flat_time (label_or t) }
{
    match t {
        None => no_time(),
        Some(time) => FlatTime::from(time),
    }
}

// ---- the end of a sequence

// The label of eight nibbles.
#[tactic(auto, unfolding(crate::specs::Reader::nibbles_in))]
fn raw_in(words: [u32; 15]) -> MtcTime
    ensures { result ≡ raw_of (nibbles_in words) }
{
    MtcTime::raw(
        (words[6] % 16 + words[7] % 16 * 16) as u8,
        (words[4] % 16 + words[5] % 16 * 16) as u8,
        (words[2] % 16 + words[3] % 16 * 16) as u8,
        (words[0] % 16 + words[1] % 16 * 16) as u8,
    )
}

// The end of a sequence, at its last piece.
#[tactic(auto, using(crate::proofs::SteadyLabels::reports_sequence), unfolding(crate::specs::Reader::reader_in))]
pub(crate) fn complete(r: &mut [u32; 15], direction: Direction) -> u64
    requires { (reader_in r.old).direction ≡ Some direction }
    ensures { SequenceEnded (final direction) r.old result r.new }
{
    let raw = raw_in(*r);
    if is_steady(*r, raw, direction) {
        return keep(r, steady(raw, direction), direction);
    }
    // Two calls, so that it stays a function of its own and a steady label saves no registers for it. One call and `inline(never)`
    // take more instructions.
    match direction {
        Direction::Forward => complete_any(r, raw, Direction::Forward),
        Direction::Reverse => complete_any(r, raw, Direction::Reverse),
    }
}

// The same of any label.
#[tactic(auto, using(crate::proofs::SteadyLabels::reports_sequence))]
fn complete_any(r: &mut [u32; 15], raw: MtcTime, direction: Direction) -> u64
    requires { ((reader_in r.old).direction ≡ Some direction) × (raw ≡ raw_of (nibbles_in r.old)) }
    ensures { SequenceEnded (final direction) r.old result r.new }
{
    let before = previous(*r);
    let s = MtcSequence {
        raw,
        current: current(raw, direction),
        direction,
        discontinuity: jumps(before, direction, raw),
    };
    keep(r, s, direction)
}

// The report of a full sequence, and the words with both labels.
fn keep(r: &mut [u32; 15], s: MtcSequence, direction: Direction) -> u64
    ensures { s ≡ sequence_of (reader_in r.old) → SequenceEnded (final direction) r.old result r.new }
{
    let raw = s.raw;
    let current = s.current;
    r[LOCKED] = 1;
    r[PREVIOUS_MARK] = rate_mark(raw.rate);
    r[PREVIOUS] = label_word(raw);
    r[TIME_MARK] = rate_mark(current.rate);
    r[TIME] = label_word(current);
    flat_event(event(direction.last(), Some(s)))
}

// The current time of a label.
fn current(raw: MtcTime, direction: Direction) -> MtcTime
    ensures { result ≡ add_frames raw (offset direction) }
{
    match direction {
        Direction::Forward => label::two_later(raw),
        Direction::Reverse => label::one_earlier(raw),
    }
}

// There is a previous label, and a sequence further on it is not this one.
fn jumps(previous: Option<MtcTime>, direction: Direction, raw: MtcTime) -> bool
    ensures { result ≡ jumps previous direction raw }
{
    previous.is_some_and(|t| label::next_time(t, direction) != raw)
}

// ---- a steady label: a sequence after the previous one, with the current one, all in one second and past the skipped numbers

// Two frames in a label's word.
const TWO_FRAMES: u32 = 0x200_0000;

// True only for a steady label.
#[tactic(auto, using(crate::proofs::SteadyLabels::word_fits, crate::proofs::SteadyLabels::word_room))]
fn is_steady(words: [u32; 15], raw: MtcTime, direction: Direction) -> bool
    ensures { result ≡ true → SteadyLabel words raw direction }
{
    let rate = raw.rate;
    if words[PREVIOUS_MARK] != rate_mark(rate) {
        return false;
    }
    if !label::is_in_day(raw) || raw.frames < 3 || raw.frames >= rate.frames_per_second() - 2 {
        return false;
    }
    let word = label_word(raw);
    match direction {
        Direction::Forward => words[PREVIOUS] == word - TWO_FRAMES,
        Direction::Reverse => words[PREVIOUS] == word + TWO_FRAMES,
    }
}

// The report of such a label.
#[tactic(auto, unfolding(crate::specs::Clauses::steady))]
fn steady(raw: MtcTime, direction: Direction) -> MtcSequence
    requires { (raw.frames ≤ 27) × (1 ≤ raw.frames) }
    ensures { result ≡ steady direction raw }
{
    // Changed in place: as `MtcTime { frames, ..raw }` a piece of a steady stream takes one more instruction.
    let mut current = raw;
    current.frames = match direction {
        Direction::Forward => raw.frames + 2,
        Direction::Reverse => raw.frames - 1,
    };
    MtcSequence {
        raw,
        current,
        direction,
        discontinuity: false,
    }
}
