// The quarter frame reader: assembles full sequences, and gives the lock, the direction and the current time, which is the
// assembled time plus two frames forward and minus one frame in reverse (RP-004/008, p. 3).
ghost use Rattle.std.specs.Prelude.{◌≡◌, ◌≤◌, cond, T, eqb, Some};
ghost use Rattle.universal.specs.Refusals.{gives, answer_of};
ghost use Rattle.labels.specs.Time.{add_frames};
ghost use Rattle.mtc.specs.Reader.{fresh, nibbles_fit, piece_fits, is_sound, or_fresh, ordered, raw_of, offset, direction_of, jumps, sequence_of_label, sequence_of, completed, with_piece, passed, stored, event_with, after_piece, report_of, after_byte, event_of, after_full_message};

use crate::full_message::FullMessage;
use crate::generator::Direction;
use crate::order::{Order, number_of, order_of};
use crate::quarter_frame::QuarterFrame;
use crate::user_bits::all_nibbles;
use labels::MtcTime;
use universal::SysexError;

// The end of a full sequence: the assembled label with its counts as received, the current time, the direction, and whether
// the label is not the previous one plus two frames, or minus two in reverse.
#[derive(Clone, Copy)]
pub struct MtcSequence {
    pub raw: MtcTime,
    pub current: MtcTime,
    pub direction: Direction,
    pub discontinuity: bool,
}

// What one data byte gives: its piece, whether it marks a frame boundary, as pieces 0 and 4 do, and the full sequence that it
// ends.
#[derive(Clone, Copy)]
pub struct MtcEvent {
    pub piece: u8,
    pub boundary: bool,
    pub sequence: Option<MtcSequence>,
}

// The reader's record. One with a count or piece above 7 or a nibble above 15, which no calls leave from a fresh reader on, is taken as
// fresh.
#[derive(Clone, Copy, Default)]
pub struct MtcReader {
    pub nibbles: [u8; 8],
    pub count: u8,
    pub first: u8,
    pub last: Option<u8>,
    pub direction: Option<Direction>,
    pub locked: bool,
    pub running: bool,
    pub previous: Option<MtcTime>,
    pub time: Option<MtcTime>,
}

// What one byte gives or is refused by, with the reader that it leaves.
#[derive(Clone, Copy)]
pub struct Stepped {
    pub reader: MtcReader,
    pub event: Result<MtcEvent, SysexError>,
}

impl MtcReader {
    // A reader that is not locked and is stopped.
    pub fn new() -> Self
        ensures { result ≡ fresh }
    {
        MtcReader::default()
    }

    // Takes one byte, and answers what it gives. One of 80H or more is 13, and changes nothing.
    pub fn receive(&mut self, byte: u8) -> Result<MtcEvent, SysexError>
        ensures { (answer_of result ≡ event_of self.old byte) × (self.new ≡ after_byte self.old byte) }
    {
        let q = (*self).step(byte);
        *self = q.reader;
        q.event
    }

    // Takes a full message.
    pub fn full_message(&mut self, message: FullMessage)
        ensures { self.new ≡ after_full_message self.old message.time }
    {
        *self = (*self).informed(message);
    }

    // One byte, by value. One of 80H or more is refused before the record is looked at.
    pub fn step(self, byte: u8) -> Stepped
        ensures { (result.reader ≡ after_byte self byte) × (answer_of result.event ≡ event_of self byte) }
    {
        match QuarterFrame::from_byte(byte) {
            Ok(q) => self.or_fresh().hear(q),
            Err(error) => Stepped {
                reader: self,
                event: Err(error),
            },
        }
    }

    // One quarter frame. A piece that is not the next one in the direction drops the partial sequence and the lock: the next
    // piece in the other order changes the direction, any other piece, also a repeated one, only breaks the order. A sequence
    // starts at the first piece of the direction.
    #[tactic(auto, unfolding(crate::specs::Reader::after_piece, crate::specs::Reader::report_of))]
    fn hear(self, q: QuarterFrame) -> Stepped
        requires { T (is_sound self) × ((q.piece ≤ 7) × (q.value ≤ 15)) }
        ensures { (result.reader ≡ after_piece self q.piece q.value) × (answer_of result.event ≡ gives (event_with q.piece (report_of self q.piece q.value))) }
    {
        let p = q.piece;
        let o = order_of(self, p);
        let n = number_of(self, o, p);
        if n == 0 {
            return gave(self.passed(o, p), event(p, None));
        }
        let s = self.stored(o, n, p, q.value);
        if n == 8 {
            return s.complete(p);
        }
        gave(s, event(p, None))
    }

    // A full message, by value: its label is the time, and the reader is stopped until the next data byte.
    pub fn informed(self, message: FullMessage) -> Self
        ensures { result ≡ after_full_message self message.time }
    {
        MtcReader {
            count: 0,
            last: None,
            locked: false,
            running: false,
            previous: None,
            time: Some(message.time),
            ..self.or_fresh()
        }
    }

    // True after a full sequence, until a broken order, a turn or a full message.
    pub fn is_locked(self) -> bool
        ensures { result ≡ (or_fresh self).locked }
    {
        self.or_fresh().locked
    }

    // True after a data byte, false after a full message.
    pub fn is_running(self) -> bool
        ensures { result ≡ (or_fresh self).running }
    {
        self.or_fresh().running
    }

    // The direction, once two pieces gave it.
    pub fn direction(self) -> Option<Direction>
        ensures { result ≡ (or_fresh self).direction }
    {
        self.or_fresh().direction
    }

    // The current time of the last full sequence, or the time of a full message after it.
    pub fn time(self) -> Option<MtcTime>
        ensures { result ≡ (or_fresh self).time }
    {
        self.or_fresh().time
    }

    // The record itself, or a fresh one.
    #[tactic(auto, unfolding(crate::specs::Reader::or_fresh))]
    fn or_fresh(self) -> Self
        ensures { (result ≡ or_fresh self) × T (is_sound result) }
    {
        if self.is_sound() {
            return self;
        }
        MtcReader::new()
    }

    // Count and pieces at most 7, nibbles at most 15.
    #[tactic(auto, unfolding(crate::specs::Reader::is_sound))]
    fn is_sound(self) -> bool
        ensures { result ≡ is_sound self }
    {
        self.count <= 7 && self.first <= 7 && piece_fits(self.last) && nibbles_fit(self.nibbles)
    }

    // The reader after a piece, with these nibbles, count and first piece.
    fn with_piece(self, o: Order, p: u8, nibbles: [u8; 8], count: u8, first: u8) -> Self
        ensures { result ≡ with_piece self (ordered o.next o.direction o.keeps) p nibbles count first }
    {
        MtcReader {
            nibbles,
            count,
            first,
            last: Some(p),
            direction: o.direction,
            locked: o.keeps && self.locked,
            running: true,
            ..self
        }
    }

    // The reader after a piece that belongs to no sequence.
    fn passed(self, o: Order, p: u8) -> Self
        ensures { result ≡ passed self (ordered o.next o.direction o.keeps) p }
    {
        self.with_piece(o, p, self.nibbles, 0, self.first)
    }

    // The reader after the n-th piece of a sequence.
    fn stored(self, o: Order, n: u8, p: u8, value: u8) -> Self
        requires { p ≤ 7 }
        ensures { result ≡ stored self (ordered o.next o.direction o.keeps) n p value }
    {
        let mut nibbles = self.nibbles;
        nibbles[p as usize] = value;
        self.with_piece(o, p, nibbles, n % 8, began(n, p, self.first))
    }

    // The end of a full sequence, at its last piece.
    #[tactic(auto, unfolding(crate::specs::Reader::sequence_of))]
    fn complete(self, p: u8) -> Stepped
        requires { T (nibbles_fit 8 self.nibbles) }
        ensures { (result.reader ≡ completed self) × (answer_of result.event ≡ gives (event_with p (Some (sequence_of self)))) }
    {
        let s = report(raw(self.nibbles), way(self.direction), self.previous);
        let left = MtcReader {
            locked: true,
            previous: Some(s.raw),
            time: Some(s.current),
            ..self
        };
        gave(left, event(p, Some(s)))
    }
}

// A reader with the event that was given.
fn gave(reader: MtcReader, event: MtcEvent) -> Stepped
    ensures { (result.reader ≡ reader) × (answer_of result.event ≡ gives event) }
{
    Stepped {
        reader,
        event: Ok(event),
    }
}

// No piece, or one of 0 to 7.
fn piece_fits(last: Option<u8>) -> bool
    ensures { result ≡ piece_fits last }
{
    last.is_none_or(|p| p <= 7)
}

// Nibbles at most 15.
fn nibbles_fit(nibbles: [u8; 8]) -> bool
    ensures { result ≡ nibbles_fit 8 nibbles }
{
    all_nibbles(&nibbles)
}

// The first piece of the sequence that the n-th piece belongs to.
fn began(n: u8, p: u8, first: u8) -> u8
    ensures { result ≡ cond (eqb n 1) p first }
{
    if n == 1 {
        return p;
    }
    first
}

// What a piece gives: pieces 0 and 4 mark frame boundaries.
pub fn event(p: u8, sequence: Option<MtcSequence>) -> MtcEvent
    ensures { result ≡ event_with p sequence }
{
    MtcEvent {
        piece: p,
        boundary: p == 0 || p == 4,
        sequence,
    }
}

// The label of eight nibbles, its counts masked to their widths.
#[tactic(auto, using(crate::proofs::ReaderCalls::nibble_small))]
fn raw(n: [u8; 8]) -> MtcTime
    requires { T (nibbles_fit 8 n) }
    ensures { result ≡ raw_of n }
{
    MtcTime::raw(
        n[6] + n[7] * 16,
        n[4] + n[5] * 16,
        n[2] + n[3] * 16,
        n[0] + n[1] * 16,
    )
}

// The direction of eight pieces; those that end without one count as forward.
fn way(direction: Option<Direction>) -> Direction
    ensures { result ≡ direction_of direction }
{
    direction.unwrap_or(Direction::Forward)
}

// What a full sequence reports after a previous label.
fn report(raw: MtcTime, direction: Direction, previous: Option<MtcTime>) -> MtcSequence
    ensures { result ≡ sequence_of_label raw direction previous }
{
    MtcSequence {
        raw,
        current: current(raw, direction),
        direction,
        discontinuity: jumps(previous, direction, raw),
    }
}

// The current time: the label is two frames late forward, and one frame ahead in reverse.
fn current(raw: MtcTime, direction: Direction) -> MtcTime
    ensures { result ≡ add_frames raw (offset direction) }
{
    match direction {
        Direction::Forward => raw.add_frames(2),
        Direction::Reverse => raw.add_frames(-1),
    }
}

// There is a previous label, and a sequence further on it is not this one.
fn jumps(previous: Option<MtcTime>, direction: Direction, raw: MtcTime) -> bool
    ensures { result ≡ jumps previous direction raw }
{
    previous.is_some_and(|t| direction.next_time(t) != raw)
}
