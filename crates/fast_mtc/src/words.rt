// The reader's record: fifteen words, any of which stand for a reader in its ranges. C has no Option, so in its records a flag stands beside the value.
ghost use Rattle.std.specs.Prelude.{◌≡◌, ◌+◌, ◌*◌, ◌≤◌};
ghost use Rattle.labels.specs.Time.{bits_of};
ghost use Rattle.mtc.specs.Reader.{fresh, after_full_message};
ghost use Rattle.fast_mtc.specs.Reader.{way_in, last_in, count_in, first_in, flat_way, flat_maybe_time, nibbles_in, label_in, time_in, reader_in, reader_fields};
ghost use Rattle.fast_mtc.specs.Clauses.{StoppedOrder};

use crate::generator::{flat_direction, flat_piece};
use crate::time::{FlatTime, no_time};
use mtc::{Direction, MtcReader, MtcTime, TimeCodeType};

// C has no Option, so in the next record a flag stands beside the value.

// A time, where `present` is true. Where it is false the time is all zeros in an answer, and is not read in an argument.
#[repr(C)]
#[derive(Clone, Copy)]
pub struct FlatMaybeTime {
    pub present: bool,
    pub time: FlatTime,
}

// A reader in fifteen words: eight nibbles, the order, the first piece, the lock, and a mark and a word each for the previous and the
// current label. Any words are a reader in its ranges; `fimbrast_reader_parts` says which.
#[repr(C)]
#[derive(Clone, Copy)]
pub struct FlatReader {
    pub words: [u32; 15],
}

// A reader field by field. A last piece above 7 is none; direction 0 is forward, 1 reverse, any other none.
// An answer has 255 for none.
#[repr(C)]
#[derive(Clone, Copy)]
pub struct FlatReaderFields {
    pub nibbles: [u8; 8],
    pub count: u8,
    pub first: u8,
    pub last: u8,
    pub direction: u8,
    pub locked: bool,
    pub running: bool,
    pub previous: FlatMaybeTime,
    pub time: FlatMaybeTime,
}

// The places of the words after the nibbles.
pub(crate) const ORDER: usize = 8;

pub(crate) const FIRST: usize = 9;

pub(crate) const LOCKED: usize = 10;

pub(crate) const PREVIOUS_MARK: usize = 11;

pub(crate) const PREVIOUS: usize = 12;

pub(crate) const TIME_MARK: usize = 13;

pub(crate) const TIME: usize = 14;

// ---- the order, a number, since it is one of the words that C keeps

// Without a direction, piece 0 or 7 has begun a sequence.
pub(crate) const BEGUN_AT_0: u32 = 40;

pub(crate) const BEGUN_AT_7: u32 = 41;

// After no piece: forward, in reverse, without a direction. From the first one on no order runs.
pub(crate) const STOPPED_FORWARD: u32 = 42;

pub(crate) const STOPPED_REVERSE: u32 = 43;

const STOPPED_UNDIRECTED: u32 = 44;

// The tables test one range after another, the usual orders first: as a `match` over ranges they take more instructions, 9 in
// `full_message` and 22 in a reader made of its words and then of its fields.

#[tactic(auto, unfolding(crate::specs::Reader::way_in))]
fn way_in(order: u32) -> Option<Direction>
    ensures { result ≡ way_in order }
{
    if order < 8 {
        return Some(Direction::Forward);
    }
    if order < 16 {
        return Some(Direction::Reverse);
    }
    if order < 24 {
        return Some(Direction::Forward);
    }
    if order < 32 {
        return Some(Direction::Reverse);
    }
    match order {
        STOPPED_FORWARD => Some(Direction::Forward),
        STOPPED_REVERSE => Some(Direction::Reverse),
        _ => None,
    }
}

#[tactic(auto, unfolding(crate::specs::Reader::last_in))]
fn last_in(order: u32) -> Option<u8>
    ensures { result ≡ last_in order }
{
    if order < 8 {
        return Some(((order + 7) % 8) as u8);
    }
    if order < 16 {
        return Some(((order + 1) % 8) as u8);
    }
    if order < 24 {
        return Some(((order + 7) % 8) as u8);
    }
    if order < 32 {
        return Some(((order + 1) % 8) as u8);
    }
    if order < 40 {
        return Some((order % 8) as u8);
    }
    match order {
        BEGUN_AT_0 => Some(0),
        BEGUN_AT_7 => Some(7),
        _ => None,
    }
}

#[tactic(auto, unfolding(crate::specs::Reader::count_in))]
fn count_in(order: u32) -> u8
    ensures { result ≡ count_in order }
{
    if order < 8 {
        return order as u8;
    }
    if order < 16 {
        return (15 - order) as u8;
    }
    match order {
        BEGUN_AT_0 | BEGUN_AT_7 => 1,
        _ => 0,
    }
}

#[tactic(auto, unfolding(crate::specs::Reader::first_in))]
fn first_in(order: u32, kept: u32) -> u8
    ensures { result ≡ first_in order kept }
{
    if order < 8 {
        return 0;
    }
    if order < 16 {
        return 7;
    }
    match order {
        BEGUN_AT_0 => 0,
        BEGUN_AT_7 => 7,
        _ => (kept % 8) as u8,
    }
}

// ---- labels

#[tactic(auto, unfolding(crate::specs::Reader::label_in))]
fn label_in(rate: TimeCodeType, w: u32) -> MtcTime
    ensures { result ≡ label_in rate w }
{
    MtcTime {
        hours: (w % 256) as u8,
        minutes: (w / 256 % 256) as u8,
        seconds: (w / 65536 % 256) as u8,
        frames: (w / 16777216 % 256) as u8,
        rate,
    }
}

#[tactic(auto, unfolding(crate::specs::Reader::time_in))]
pub(crate) fn time_in(mark: u32, w: u32) -> Option<MtcTime>
    ensures { result ≡ time_in mark w }
{
    if mark % 2 == 0 {
        return None;
    }
    Some(label_in(TimeCodeType::from_bits((mark / 2 % 4) as u8), w))
}

// No `From` for these three: neither a number nor a label, a rate or a direction is a type of this crate.

// The word of a label, a byte for each number.
#[tactic(auto, using(crate::proofs::LabelWords::label_back))]
pub fn label_word(t: MtcTime) -> u32
    ensures { label_in t.rate result ≡ t }
{
    t.hours as u32 + t.minutes as u32 * 256 + t.seconds as u32 * 65536 + t.frames as u32 * 16777216
}

// The mark of a label that is there.
pub fn rate_mark(rate: TimeCodeType) -> u32
    ensures { (result ≡ 1 + 2 * bits_of rate) × (result ≤ 7) }
{
    1 + 2 * rate.into_bits() as u32
}

#[tactic(auto, unfolding(crate::specs::Reader::flat_way))]
pub fn flat_way(d: Option<Direction>) -> u8
    ensures { result ≡ flat_way d }
{
    d.map_or(255, flat_direction)
}

impl From<Option<MtcTime>> for FlatMaybeTime {
    ghost from_gives = { λ t r. r ≡ flat_maybe_time t };

    #[tactic(auto, unfolding(crate::specs::Reader::flat_maybe_time))]
    fn from(t: Option<MtcTime>) -> FlatMaybeTime {
        match t {
            None => FlatMaybeTime {
                present: false,
                time: no_time(),
            },
            Some(time) => FlatMaybeTime {
                present: true,
                time: FlatTime::from(time),
            },
        }
    }
}

// ---- what a reader says

#[tactic(auto, unfolding(crate::specs::Reader::reader_in))]
pub fn is_locked(words: [u32; 15]) -> bool
    ensures { result ≡ (reader_in words).locked }
{
    words[LOCKED] != 0
}

#[tactic(auto, unfolding(crate::specs::Reader::reader_in))]
pub fn is_running(words: [u32; 15]) -> bool
    ensures { result ≡ (reader_in words).running }
{
    words[ORDER] < STOPPED_FORWARD
}

#[tactic(auto, unfolding(crate::specs::Reader::reader_in))]
pub fn direction(words: [u32; 15]) -> Option<Direction>
    ensures { result ≡ (reader_in words).direction }
{
    way_in(words[ORDER])
}

#[tactic(auto, unfolding(crate::specs::Reader::reader_in))]
pub fn previous(words: [u32; 15]) -> Option<MtcTime>
    ensures { result ≡ (reader_in words).previous }
{
    time_in(words[PREVIOUS_MARK], words[PREVIOUS])
}

#[tactic(auto, unfolding(crate::specs::Reader::reader_in))]
pub fn time(words: [u32; 15]) -> Option<MtcTime>
    ensures { result ≡ (reader_in words).time }
{
    time_in(words[TIME_MARK], words[TIME])
}

#[tactic(auto, unfolding(crate::specs::Reader::nibbles_in))]
fn nibbles_in(words: [u32; 15]) -> [u8; 8]
    ensures { result ≡ nibbles_in words }
{
    [
        (words[0] % 16) as u8,
        (words[1] % 16) as u8,
        (words[2] % 16) as u8,
        (words[3] % 16) as u8,
        (words[4] % 16) as u8,
        (words[5] % 16) as u8,
        (words[6] % 16) as u8,
        (words[7] % 16) as u8,
    ]
}

// The reader of fifteen words.
impl From<FlatReader> for MtcReader {
    ghost from_gives = { λ f r. r ≡ reader_in f.words };

    #[tactic(auto, unfolding(crate::specs::Reader::reader_in))]
    fn from(f: FlatReader) -> MtcReader {
        let words = f.words;
        let order = words[ORDER];
        MtcReader {
            nibbles: nibbles_in(words),
            count: count_in(order),
            first: first_in(order, words[FIRST]),
            last: last_in(order),
            direction: way_in(order),
            locked: words[LOCKED] != 0,
            running: order < STOPPED_FORWARD,
            previous: previous(words),
            time: time(words),
        }
    }
}

impl From<MtcReader> for FlatReaderFields {
    ghost from_gives = { λ r f. f ≡ reader_fields r };

    #[tactic(auto, unfolding(crate::specs::Reader::reader_fields))]
    fn from(r: MtcReader) -> FlatReaderFields {
        let nibbles = r.nibbles;
        FlatReaderFields {
            nibbles,
            count: r.count,
            first: r.first,
            last: flat_piece(r.last),
            direction: flat_way(r.direction),
            locked: r.locked,
            running: r.running,
            previous: FlatMaybeTime::from(r.previous),
            time: FlatMaybeTime::from(r.time),
        }
    }
}

// ---- fresh, and after a full message

// `MtcReader::new`: no direction, and no piece yet.
#[tactic(auto, unfolding(crate::specs::Reader::way_in, crate::specs::Reader::last_in, crate::specs::Reader::count_in, crate::specs::Reader::first_in, crate::specs::Reader::nibbles_in, crate::specs::Reader::time_in, crate::specs::Reader::reader_in))]
pub fn fresh() -> [u32; 15]
    ensures { reader_in result ≡ fresh }
{
    [0, 0, 0, 0, 0, 0, 0, 0, STOPPED_UNDIRECTED, 0, 0, 0, 0, 0, 0]
}

// The order that keeps the direction and forgets the pieces.
#[tactic(auto, using(crate::proofs::PassedPieces::stopped_none, crate::proofs::PassedPieces::stopped_forward, crate::proofs::PassedPieces::stopped_reverse))]
fn stopped(order: u32) -> u32
    ensures { StoppedOrder order result }
{
    match way_in(order) {
        Some(Direction::Forward) => STOPPED_FORWARD,
        Some(Direction::Reverse) => STOPPED_REVERSE,
        None => STOPPED_UNDIRECTED,
    }
}

// `MtcReader::full_message`, with the message's label.
#[tactic(auto, using(crate::proofs::PassedPieces::informs))]
pub fn full_message(r: &mut [u32; 15], time: MtcTime)
    ensures { reader_in r.new ≡ after_full_message (reader_in r.old) time }
{
    let order = r[ORDER];
    r[ORDER] = stopped(order);
    r[FIRST] = first_in(order, r[FIRST]) as u32;
    r[LOCKED] = 0;
    r[PREVIOUS_MARK] = 0;
    r[TIME_MARK] = rate_mark(time.rate);
    r[TIME] = label_word(time);
}
