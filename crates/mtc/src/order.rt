// The order of pieces: how one stands to those before it, and which number it has in its sequence. The next piece in the direction goes
// on; the next one in the other order turns the direction; any other, also a repeated one, breaks the order.
ghost use Rattle.std.specs.Prelude.{◌≡◌, ◌≤◌, cond, T};
ghost use Rattle.mtc.specs.Reader.{is_sound, control, ordered, direction_between, out_of_order, order_of, starts, number_of};

use crate::generator::Direction;
use crate::reader::MtcReader;

// How a piece stands to those before it: whether it is the next one, the direction that it leaves, and whether it keeps the
// lock.
#[derive(Clone, Copy)]
pub(crate) struct Order {
    pub next: bool,
    pub direction: Option<Direction>,
    pub keeps: bool,
}

// How a piece stands to those before it.
#[tactic(auto, unfolding(crate::specs::Reader::order_of))]
pub(crate) fn order_of(r: MtcReader, p: u8) -> Order
    requires { T (is_sound r) }
    ensures { ordered result.next result.direction result.keeps ≡ order_of (control r) p }
{
    let direction = r.direction;
    let Some(l) = r.last else {
        return ordered(false, direction, true);
    };
    match direction {
        None => out_of_order(r, direction, direction_between(l, p)),
        Some(d) => {
            if d.after(l) == p {
                return ordered(true, direction, true);
            }
            out_of_order(r, direction, direction_between(l, p))
        }
    }
}

// The second piece gives the direction, and goes on where the sequence began at its first piece. A piece beside the last
// one turns a direction and drops the lock; any other only drops the lock.
fn out_of_order(r: MtcReader, direction: Option<Direction>, found: Option<Direction>) -> Order
    ensures { ordered result.next result.direction result.keeps ≡ out_of_order (control r) direction found }
{
    let Some(f) = found else {
        return ordered(false, direction, false);
    };
    let Some(_) = direction else {
        if r.count == 0 {
            return ordered(false, found, true);
        }
        return ordered(r.first == f.first(), found, true);
    };
    ordered(false, found, false)
}

// The number of a piece in its sequence, 1 to 8; 0 where it belongs to none: the count that is left is made of it, so an Option would
// be turned back.
#[tactic(auto, unfolding(crate::specs::Reader::number_of))]
pub(crate) fn number_of(r: MtcReader, o: Order, p: u8) -> u8
    requires { r.count ≤ 7 }
    ensures { (result ≡ number_of (control r) (ordered o.next o.direction o.keeps) p) × (result ≤ 8) }
{
    let direction = o.direction;
    let held = held(o.next, r.count);
    if held > 0 {
        return held + 1;
    }
    if starts(direction, p) {
        return 1;
    }
    0
}

// How a piece stands to those before it, put together.
fn ordered(next: bool, direction: Option<Direction>, keeps: bool) -> Order
    ensures { ordered result.next result.direction result.keeps ≡ ordered next direction keeps }
{
    Order {
        next,
        direction,
        keeps,
    }
}

// The direction in which `p` comes right after `last`. A piece is a plain number, as in the source; its bound stands where it is needed,
// here and once each in the generator and the reader.
fn direction_between(last: u8, p: u8) -> Option<Direction>
    requires { last ≤ 7 }
    ensures { result ≡ direction_between last p }
{
    if Direction::Forward.after(last) == p {
        return Some(Direction::Forward);
    }
    if Direction::Reverse.after(last) == p {
        return Some(Direction::Reverse);
    }
    None
}

// The pieces of a sequence that the next one, or one that is not the next, finds held.
fn held(next: bool, count: u8) -> u8
    ensures { (result ≡ cond next count 0) × (result ≤ count) }
{
    if next {
        return count;
    }
    0
}

// A piece starts a sequence: the first one of the direction, and without a direction 0 or 7.
fn starts(direction: Option<Direction>, p: u8) -> bool
    ensures { result ≡ starts direction p }
{
    match direction {
        None => p == 0 || p == 7,
        Some(d) => p == d.first(),
    }
}
