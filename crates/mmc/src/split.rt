// The splitter: one item after another from the front of a string, by the length rule of its kind (RP-013, p. 5).
ghost use Rattle.std.specs.Prelude.{◌≡◌, ◌<◌, length};
ghost use Rattle.mmc.specs.Split.{split_at, prefixes_at, measured, next, next_item_of};

use crate::length::{Kind, Length, length_of};
use crate::part::Part;
use universal::SysexError;

// Where an item's name and data are.
#[derive(Clone, Copy)]
pub struct ItemPlace {
    pub name: Part,
    pub data: Part,
}

// An item of a string, and the place after it.
#[derive(Clone, Copy)]
pub struct Parts {
    pub item: ItemPlace,
    pub next: usize,
}

// The zero bytes before a name's last byte, at most two.
#[tactic(auto, unfolding(crate::specs::Split::prefixes_at))]
fn prefixes(body: &[u8], at: usize) -> usize
    requires { at < length body.now }
    ensures { result ≡ prefixes_at body.now at }
{
    if body[at] != 0 {
        return 0;
    }
    match body.get(at + 1) {
        Some(0) => 2,
        _ => 1,
    }
}

// Data of a fixed length after a name that ends before `after`.
#[tactic(auto, unfolding(crate::specs::Split::measured, crate::specs::Part::is_inside))]
fn measure(body: &[u8], name: Part, after: usize, len: usize) -> Option<Parts>
    ensures { result ≡ measured body.now name after len }
{
    let data = Part { start: after, len };
    if !data.is_inside(body) {
        return None;
    }
    Some(Parts {
        item: ItemPlace { name, data },
        next: after + len,
    })
}

// The item at a place before the end.
#[tactic(auto, using(crate::proofs::Reading::SplitTests::few_zeros), unfolding(crate::specs::Split::split_at))]
fn split(body: &[u8], at: usize, kind: Kind) -> Option<Parts>
    requires { at < length body.now }
    ensures { result ≡ split_at kind body.now at }
{
    let zeros = prefixes(body, at);
    let last = at + zeros;
    if last >= body.len() {
        return None;
    }
    let name = Part {
        start: at,
        len: zeros + 1,
    };
    let after = last + 1;
    match length_of(kind, body[last]) {
        Length::Fixed(n) => measure(body, name, after, n),
        Length::Count => {
            if after >= body.len() {
                return None;
            }
            measure(body, name, after + 1, body[after] as usize)
        }
    }
}

// What a read at a place answers, an item or 2 or 9, and the place to read on from.
#[derive(Clone, Copy)]
pub struct NextItem<T> {
    pub answer: Result<T, SysexError>,
    pub place: usize,
}

// The item at a place and the place after it; 2 and the end where the string is cut short; 9 at or past it.
#[tactic(auto, unfolding(crate::specs::Split::next))]
pub fn next_parts(body: &[u8], place: usize, kind: Kind) -> NextItem<ItemPlace>
    ensures { next_item_of result ≡ next kind body.now place }
{
    if place >= body.len() {
        return NextItem {
            answer: Err(SysexError::End),
            place,
        };
    }
    match split(body, place, kind) {
        Some(Parts { item, next }) => NextItem {
            answer: Ok(item),
            place: next,
        },
        None => NextItem {
            answer: Err(SysexError::Length),
            place: body.len(),
        },
    }
}
