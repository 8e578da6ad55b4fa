// A byte received by the words: one of 80H or more is refused before all else. The order tells at once whether a piece is the next one of
// a sequence.
ghost use Rattle.std.specs.Prelude.{◌≡◌, ◌+◌, ◌≤◌, ◌<◌, get_or, Some, None};
ghost use Rattle.mtc.specs.QuarterFrame.{piece_of, value_of};
ghost use Rattle.mtc.specs.Reader.{after_byte, event_of};
ghost use Rattle.mtc.specs.Generator.{after, opposite};
ghost use Rattle.mtc.specs.declared.generator.Direction.{Direction};
ghost use Rattle.mtc.specs.declared.generator.Direction.TheVariants.{Forward, Reverse};
ghost use Rattle.fast_mtc.specs.Reader.{reader_in, flat_byte_answer};
ghost use Rattle.fast_mtc.specs.Clauses.{Received, FirstKept, PassedPiece, InSequence, OutOfSequence, order_in, order_out, order_begun, turning, passing};

use crate::report::{complete, quiet, refused};
use crate::words::{
    BEGUN_AT_0, BEGUN_AT_7, FIRST, LOCKED, ORDER, STOPPED_FORWARD, STOPPED_REVERSE,
};
use mtc::Direction;
use universal::SysexError;

// The order is one of the words that C keeps, so it is a number and no enum.

// In a sequence forward the order is below this one, in reverse below the next.
const IN_REVERSE: u32 = 8;

// The first order in no sequence: forward, in reverse, without a direction.
const OUT_FORWARD: u32 = 16;

const OUT_REVERSE: u32 = 24;

const OUT_UNDIRECTED: u32 = 32;

// ---- the two directions

// A direction as a type: what goes alike in both is one function, compiled for each.
trait Way {
    ghost WAY: { Direction };

    const WAY: Direction;
}

struct Forward;

impl Way for Forward {
    ghost WAY = { Forward };

    const WAY: Direction = Direction::Forward;
}

struct Reverse;

impl Way for Reverse {
    ghost WAY = { Reverse };

    const WAY: Direction = Direction::Reverse;
}

// The order in a sequence, by the next piece.
fn order_in(way: Direction, next: u32) -> u32
    requires { next ≤ 7 }
    ensures { result ≡ order_in way next }
{
    match way {
        Direction::Forward => next,
        Direction::Reverse => next + IN_REVERSE,
    }
}

// The order in no sequence.
fn order_out(way: Direction, next: u32) -> u32
    requires { next ≤ 7 }
    ensures { result ≡ order_out way next }
{
    match way {
        Direction::Forward => OUT_FORWARD + next,
        Direction::Reverse => OUT_REVERSE + next,
    }
}

// The piece before the last one, which turns the direction.
fn turning(way: Direction, order: u32) -> u32
    requires { order < 32 }
    ensures { result ≡ turning way order }
{
    match way {
        Direction::Forward => (order + 6) % 8,
        Direction::Reverse => (order + 2) % 8,
    }
}

// ---- a data byte
//
// The words, the piece and the byte go on as they are: a struct of a `&mut` array and two numbers is no plainer. Their bounds stay
// clauses: the words are an array that C keeps, and the piece is a plain number in `mtc` too.

// `MtcReader::receive` on the words, which a refused byte leaves as they are. As a call it takes an instruction more for each byte of a
// running stream, and some eight more in a list.
#[inline(always)]
pub fn receive(r: &mut [u32; 15], byte: u8) -> u64
    ensures { (result ≡ flat_byte_answer (event_of (reader_in r.old) byte)) × (reader_in r.new ≡ after_byte (reader_in r.old) byte) × (0x80 ≤ byte → r.new ≡ r.old) }
{
    if byte > 0x7F {
        return refused(SysexError::StatusByte);
    }
    hear(r, byte as u32)
}

// A byte that is heard. From here on it has the 32 bits in which it is stored: in eight each use would widen it anew, an instruction for
// each byte.
#[inline(always)]
fn hear(r: &mut [u32; 15], byte: u32) -> u64
    ensures { Received r.old byte result r.new }
{
    let p = byte / 16 % 8;
    let order = r[ORDER];
    if order >= OUT_FORWARD {
        return outside(r, byte);
    }
    if order == p {
        return next::<Forward>(r, p, byte);
    }
    if order == p + IN_REVERSE {
        return next::<Reverse>(r, p, byte);
    }
    dropped(r, byte)
}

// The next piece of a sequence.
#[tactic(auto, using(crate::proofs::ReceivedPieces::next_on, crate::proofs::ReceivedPieces::next_going, crate::proofs::ReceivedPieces::next_ends))]
fn next<W: Way>(r: &mut [u32; 15], p: u32, byte: u32) -> u64
    requires { (p ≡ piece_of byte) × (get_or r.old 8 0 ≡ order_in W.WAY p) }
    ensures { Received r.old byte result r.new }
{
    r[p as usize] = byte;
    r[ORDER] = order_in(W::WAY, W::WAY.after(p as u8) as u32);
    if p == W::WAY.last() as u32 {
        return complete(r, W::WAY);
    }
    quiet(p)
}

// ---- a piece that is not the next one of a sequence, in the direction that it leaves

// In a direction only its first piece begins a sequence.
#[tactic(auto, using(crate::proofs::PassedPieces::way_passed, crate::proofs::PassedPieces::way_begun))]
fn go<W: Way>(r: &mut [u32; 15], p: u32, byte: u32) -> u64
    requires { (p ≤ 7) × FirstKept r.old }
    ensures { PassedPiece (Some W.WAY) r.old p (value_of byte) result r.new }
{
    let next = W::WAY.after(p as u8) as u32;
    if p != W::WAY.first() as u32 {
        r[ORDER] = order_out(W::WAY, next);
        return quiet(p);
    }
    r[p as usize] = byte;
    r[ORDER] = order_in(W::WAY, next);
    quiet(p)
}

// The other direction than before.
fn turn<W: Way>(r: &mut [u32; 15], p: u32, byte: u32) -> u64
    requires { (p ≤ 7) × FirstKept r.old }
    ensures { PassedPiece (Some (opposite W.WAY)) r.old p (value_of byte) result r.new }
{
    match W::WAY {
        Direction::Forward => go::<Reverse>(r, p, byte),
        Direction::Reverse => go::<Forward>(r, p, byte),
    }
}

// Without a direction the first piece of either does.
#[tactic(auto, using(crate::proofs::PassedPieces::none_begun_0, crate::proofs::PassedPieces::none_begun_7, crate::proofs::PassedPieces::none_passed))]
fn go_nowhere(r: &mut [u32; 15], p: u32, byte: u32) -> u64
    requires { (p ≤ 7) × FirstKept r.old }
    ensures { PassedPiece None r.old p (value_of byte) result r.new }
{
    if p == 0 {
        r[0] = byte;
        r[ORDER] = BEGUN_AT_0;
        return quiet(0);
    }
    if p == 7 {
        r[7] = byte;
        r[ORDER] = BEGUN_AT_7;
        return quiet(7);
    }
    r[ORDER] = OUT_UNDIRECTED + p;
    quiet(p)
}

// A piece that does not follow the last one, after an order of a direction.
fn pass<W: Way>(r: &mut [u32; 15], order: u32, p: u32, byte: u32) -> u64
    requires { (order < 32) × ((p ≤ 7) × FirstKept r.old) }
    ensures { PassedPiece (passing W.WAY order p) r.old p (value_of byte) result r.new }
{
    if turning(W::WAY, order) == p {
        return turn::<W>(r, p, byte);
    }
    go::<W>(r, p, byte)
}

// A piece that breaks a sequence off.
fn dropped(r: &mut [u32; 15], byte: u32) -> u64
    requires { (get_or r.old 8 0 < 16) × ((get_or r.old 8 0 ≡ piece_of byte → ⊥) × (get_or r.old 8 0 ≡ piece_of byte + 8 → ⊥)) }
    ensures { Received r.old byte result r.new }
{
    if r[ORDER] < IN_REVERSE {
        return broken::<Forward>(r, byte);
    }
    broken::<Reverse>(r, byte)
}

#[tactic(auto, using(crate::proofs::PassedPieces::kept_inside))]
fn broken<W: Way>(r: &mut [u32; 15], byte: u32) -> u64
    requires { InSequence W.WAY (get_or r.old 8 0) × (get_or r.old 8 0 ≡ order_in W.WAY (piece_of byte) → ⊥) }
    ensures { Received r.old byte result r.new }
{
    let p = byte / 16 % 8;
    let order = r[ORDER];
    r[FIRST] = W::WAY.first() as u32;
    r[LOCKED] = 0;
    pass::<W>(r, order, p, byte)
}

// A piece in no sequence.
fn outside(r: &mut [u32; 15], byte: u32) -> u64
    requires { 16 ≤ get_or r.old 8 0 }
    ensures { Received r.old byte result r.new }
{
    let order = r[ORDER];
    if order < OUT_REVERSE {
        return directed::<Forward>(r, byte);
    }
    if order < OUT_UNDIRECTED {
        return directed::<Reverse>(r, byte);
    }
    if order >= STOPPED_FORWARD {
        return after_none(r, byte);
    }
    undirected(r, byte)
}

// In a direction.
#[tactic(auto, using(crate::proofs::PassedPieces::kept_outside))]
fn directed<W: Way>(r: &mut [u32; 15], byte: u32) -> u64
    requires { OutOfSequence W.WAY (get_or r.old 8 0) }
    ensures { Received r.old byte result r.new }
{
    let p = byte / 16 % 8;
    let order = r[ORDER];
    if order == order_out(W::WAY, p) {
        return go::<W>(r, p, byte);
    }
    r[LOCKED] = 0;
    pass::<W>(r, order, p, byte)
}

// The first piece of all, or after a full message.
#[tactic(auto, using(crate::proofs::PassedPieces::kept_none))]
fn after_none(r: &mut [u32; 15], byte: u32) -> u64
    requires { 42 ≤ get_or r.old 8 0 }
    ensures { Received r.old byte result r.new }
{
    let p = byte / 16 % 8;
    let order = r[ORDER];
    if order == STOPPED_FORWARD {
        return go::<Forward>(r, p, byte);
    }
    if order == STOPPED_REVERSE {
        return go::<Reverse>(r, p, byte);
    }
    go_nowhere(r, p, byte)
}

// The second piece gives the direction, where it comes right after the first either way.
#[tactic(auto, using(crate::proofs::PassedPieces::kept_undirected))]
fn undirected(r: &mut [u32; 15], byte: u32) -> u64
    requires { (32 ≤ get_or r.old 8 0) × (get_or r.old 8 0 < 42) }
    ensures { Received r.old byte result r.new }
{
    let p = byte / 16 % 8;
    let order = r[ORDER];
    if order == BEGUN_AT_0 {
        return begun::<Forward>(r, byte);
    }
    if order == BEGUN_AT_7 {
        return begun::<Reverse>(r, byte);
    }
    if (order + 1) % 8 == p {
        return go::<Forward>(r, p, byte);
    }
    if (order + 7) % 8 == p {
        return go::<Reverse>(r, p, byte);
    }
    r[LOCKED] = 0;
    go_nowhere(r, p, byte)
}

// After the first piece of a direction alone, the second one goes on in it.
fn begun<W: Way>(r: &mut [u32; 15], byte: u32) -> u64
    requires { get_or r.old 8 0 ≡ order_begun W.WAY }
    ensures { Received r.old byte result r.new }
{
    let p = byte / 16 % 8;
    let first = W::WAY.first();
    if p == W::WAY.after(first) as u32 {
        r[p as usize] = byte;
        r[ORDER] = order_in(W::WAY, W::WAY.after(p as u8) as u32);
        return quiet(p);
    }
    r[FIRST] = first as u32;
    if p == W::WAY.last() as u32 {
        return turn::<W>(r, p, byte);
    }
    r[LOCKED] = 0;
    go_nowhere(r, p, byte)
}
