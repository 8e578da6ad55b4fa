// The quarter frame generator.
ghost use Rattle.std.specs.Prelude.{◌≡◌, ◌≤◌, get_or};
ghost use Rattle.mtc.specs.Generator.{final, next_byte, after_next_byte, sequence_frames};
ghost use Rattle.labels.specs.Time.{add_frames};
ghost use Rattle.mtc.specs.QuarterFrame.{pieces};
ghost use Rattle.universal.specs.Refusals.{gives};
ghost use Rattle.fast_mtc.specs.Generator.{direction_at, flat_direction, piece_at, flat_piece, generator_of, flat_generator, generator_in, flat_byte};
ghost use Rattle.fast_mtc.specs.Clauses.{moved_to, sent_by};

use crate::label::next_time;
use crate::time::{FlatTime, time_at_front};
use mtc::{Direction, MtcGenerator, MtcTime};
use universal::SysexError;

// The records here are for C, which has no Option and no Result: a flag or a refusal stands beside the value.

// The places of a generator's record, after its label.
const DIRECTION: usize = 5;

const LAST: usize = 6;

const RUNNING: usize = 7;

// A generator. Direction 0 is forward, any other reverse. A last piece above 7 is none, and an answer has 255 for it.
#[repr(C)]
#[derive(Clone, Copy)]
pub struct FlatGenerator {
    pub time: FlatTime,
    pub direction: u8,
    pub last: u8,
    pub running: bool,
}

// Refusal 0 and a data byte, or a refusal and byte 0.
#[repr(C)]
#[derive(Clone, Copy)]
pub struct FlatByte {
    pub refusal: u8,
    pub byte: u8,
}

// No `From` for these four: neither a number nor a direction is a type of this crate.

#[tactic(auto, unfolding(crate::specs::Generator::direction_at))]
pub fn direction_at(n: u8) -> Direction
    ensures { result ≡ direction_at n }
{
    match n {
        0 => Direction::Forward,
        _ => Direction::Reverse,
    }
}

#[tactic(auto, unfolding(crate::specs::Generator::flat_direction))]
pub fn flat_direction(d: Direction) -> u8
    ensures { result ≡ flat_direction d }
{
    match d {
        Direction::Forward => 0,
        Direction::Reverse => 1,
    }
}

#[tactic(auto, unfolding(crate::specs::Generator::piece_at))]
pub fn piece_at(n: u8) -> Option<u8>
    ensures { result ≡ piece_at n }
{
    if n > 7 {
        return None;
    }
    Some(n)
}

#[tactic(auto, unfolding(crate::specs::Generator::flat_piece))]
pub fn flat_piece(p: Option<u8>) -> u8
    ensures { result ≡ flat_piece p }
{
    p.unwrap_or(255)
}

impl From<FlatGenerator> for MtcGenerator {
    ghost from_gives = { λ g r. r ≡ generator_of g };

    #[tactic(auto, unfolding(crate::specs::Generator::generator_of))]
    fn from(g: FlatGenerator) -> MtcGenerator {
        MtcGenerator {
            time: MtcTime::from(g.time),
            direction: direction_at(g.direction),
            last: piece_at(g.last),
            running: g.running,
        }
    }
}

impl From<MtcGenerator> for FlatGenerator {
    ghost from_gives = { λ g f. f ≡ flat_generator g };

    #[tactic(auto, unfolding(crate::specs::Generator::flat_generator))]
    fn from(g: MtcGenerator) -> FlatGenerator {
        FlatGenerator {
            time: FlatTime::from(g.time),
            direction: flat_direction(g.direction),
            last: flat_piece(g.last),
            running: g.running,
        }
    }
}

// `MtcGenerator::next_byte` on the record's bytes, of which only those that change are stored.
pub fn next_byte(g: &mut [u8; 8]) -> FlatByte
    ensures { (result ≡ flat_byte (next_byte (generator_in g.old))) × (generator_in g.new ≡ after_next_byte (generator_in g.old)) }
{
    if g[RUNNING] == 0 {
        return FlatByte {
            refusal: SysexError::Stopped.number(),
            byte: 0,
        };
    }
    let direction = direction_at(g[DIRECTION]);
    let last = g[LAST];
    if last > 7 {
        return send(g, direction.first());
    }
    if last != direction.last() {
        return send(g, direction.after(last));
    }
    send_next(g)
}

// The same after the last piece of a sequence: the first piece of the next one. One byte in eight comes here; as a part of `next_byte` it
// would make the seven others save registers.
#[inline(never)]
fn send_next(g: &mut [u8; 8]) -> FlatByte
    requires { (get_or g.now 7 0 ≡ 0 → ⊥) × (get_or g.now 6 0 ≡ final (direction_at (get_or g.now 5 0))) }
    ensures { (result ≡ flat_byte (next_byte (generator_in g.old))) × (generator_in g.new ≡ after_next_byte (generator_in g.old)) }
{
    let direction = direction_at(g[DIRECTION]);
    move_on(g, direction);
    send(g, direction.first())
}

// The time of the next sequence.
#[tactic(auto, using(crate::proofs::GeneratorBytes::moved_in), unfolding(crate::specs::Generator::generator_in))]
fn move_on(g: &mut [u8; 8], direction: Direction)
    ensures { generator_in g.new ≡ moved_to (generator_in g.old) (add_frames (generator_in g.old).time (sequence_frames direction)) }
{
    let time = FlatTime::from(next_time(time_at_front(g), direction));
    g[0] = time.hours;
    g[1] = time.minutes;
    g[2] = time.seconds;
    g[3] = time.frames;
    g[4] = time.rate;
}

// One piece of the time. Of the record only the label is read: a read of all eight bytes would wait for the store of the last piece.
#[tactic(auto, using(crate::proofs::GeneratorBytes::sent_in), unfolding(crate::specs::Generator::flat_byte, crate::specs::Generator::generator_in))]
fn send(g: &mut [u8; 8], piece: u8) -> FlatByte
    requires { piece ≤ 7 }
    ensures { (result ≡ flat_byte (gives (get_or (pieces (generator_in g.old).time) piece 0))) × (generator_in g.new ≡ sent_by (generator_in g.old) piece) }
{
    let time = time_at_front(g);
    g[LAST] = piece;
    FlatByte {
        refusal: 0,
        byte: one_piece(time, piece),
    }
}

// One of the eight data bytes of a label, made without the other seven; 0 past piece 7.
#[tactic(auto, using(mtc::proofs::Laws::pieces_each))]
fn one_piece(time: MtcTime, piece: u8) -> u8
    ensures { result ≡ get_or (pieces time) piece 0 }
{
    let rate = time.rate;
    match piece {
        0 => time.frames % 16,
        1 => 0x10 + time.frames / 16 % 2,
        2 => 0x20 + time.seconds % 16,
        3 => 0x30 + time.seconds / 16 % 4,
        4 => 0x40 + time.minutes % 16,
        5 => 0x50 + time.minutes / 16 % 4,
        6 => 0x60 + time.hours % 16,
        7 => 0x70 + rate.into_bits() * 2 + time.hours / 16 % 2,
        _ => 0,
    }
}
