// A name and its data put into a buffer by the length rule of their kind, and what a put answers.
ghost use Rattle.std.specs.Prelude.{◌≡◌, ◌∷◌, [], ◌≤◌, ◌<◌, ◌+◌, ◌^◌, Some, None};
ghost use Rattle.universal.specs.Overlay.{overlay};
ghost use Rattle.universal.specs.Emission.{sent};
ghost use Rattle.universal.specs.Message.{data_emission};
ghost use Rattle.universal.specs.Refusals.{refusal_of};
ghost use Rattle.mmc.specs.Named.{name_fits, by_rule, named_item, put_of, extent_of, stop_of};

use crate::length::{Kind, Length, length_of};
use universal::{SysexError, all_low, put, put_part};

// A position that a writing can have reached: what one item has may be added to it.
#[derive(Clone, Copy)]
pub struct Position {
    pub at: usize,
    ghost in_range: { at ≤ 40000 },
}

// How many bytes went out, and the check that they passed or that ended them. The buffer, the position and the source stay three
// parameters, as document 01 has them: the buffer is lent for each call, and the position goes by value.
#[derive(Clone, Copy)]
pub struct Put {
    pub len: usize,
    pub checked: Result<(), SysexError>,
}

impl Put {
    // So many bytes, which passed.
    pub(crate) fn accepted(len: usize) -> Put
        ensures { put_of result ≡ record { len = len; stop = None } }
    {
        Put {
            len,
            checked: Ok(()),
        }
    }

    // A refusal before any byte.
    pub(crate) fn refused(error: SysexError) -> Put
        ensures { put_of result ≡ record { len = 0; stop = Some (refusal_of error) } }
    {
        Put {
            len: 0,
            checked: Err(error),
        }
    }

    // The same behind so many bytes more.
    pub(crate) fn behind(self, len: usize) -> Put
        requires { len + self.len < 2 ^ 64 }
        ensures { put_of result ≡ record { len = len + self.len; stop = stop_of self.checked } }
    {
        Put {
            len: len + self.len,
            checked: self.checked,
        }
    }
}

// True for one byte after at most two zeros, which is zero only after two.
#[tactic(auto, unfolding(crate::specs::Named::name_fits))]
fn name_fits(name: &[u8]) -> bool
    ensures { result ≡ name_fits name.now }
{
    match *name {
        [last] => last != 0,
        [0, last] => last != 0,
        [0, 0, _] => true,
        _ => false,
    }
}

// Bytes that are put as they are.
pub(crate) fn put_all(out: &mut [u8], at: usize, bytes: &[u8]) -> Put
    ensures result_value { put_of result ≡ extent_of (sent bytes.now) }
    ensures out_after { out.new ≡ overlay out.old at (sent bytes.now).bytes }
{
    put_part(out, at, bytes);
    Put::accepted(bytes.len())
}

// Data, or 1 for a byte above 7FH before any goes out.
#[tactic(auto, using(universal::proofs::Laws::overlay_none, universal::proofs::Laws::data_sent, universal::proofs::Laws::data_refused))]
fn put_data(out: &mut [u8], at: usize, data: &[u8]) -> Put
    ensures result_value { put_of result ≡ extent_of (data_emission «data».now) }
    ensures out_after { out.new ≡ overlay out.old at (data_emission «data».now).bytes }
{
    if !all_low(data) {
        return Put::refused(SysexError::DataByte);
    }
    put_all(out, at, data)
}

// Data of the length that the rule asks for, after its count byte where it has one.
#[tactic(auto, using(universal::proofs::Laws::overlay_none, universal::proofs::Laws::overlay_then, universal::proofs::Laws::data_sent), unfolding(crate::specs::Named::by_rule))]
fn put_by_rule(out: &mut [u8], at: usize, rule: Length, data: &[u8]) -> Put
    requires { at ≤ 40003 }
    ensures result_value { put_of result ≡ extent_of (by_rule rule «data».now) }
    ensures out_after { out.new ≡ overlay out.old at (by_rule rule «data».now).bytes }
{
    let n = data.len();
    match rule {
        Length::Fixed(wanted) => {
            if n != wanted {
                return Put::refused(SysexError::Length);
            }
            put_data(out, at, data)
        }
        Length::Count => {
            if n > 0x7F {
                return Put::refused(SysexError::Length);
            }
            put(out, at, n as u8);
            put_data(out, at + 1, data).behind(1)
        }
    }
}

// A name and its data.
#[tactic(auto, using(universal::proofs::Laws::overlay_none, universal::proofs::Laws::overlay_then, universal::proofs::Laws::data_sent, universal::proofs::Laws::data_refused, crate::proofs::Writing::EmissionPuts::name_length), unfolding(crate::specs::Named::named_item))]
pub(crate) fn put_named(
    out: &mut [u8],
    place: Position,
    name: &[u8],
    data: &[u8],
    kind: Kind,
) -> Put
    ensures result_value { put_of result ≡ extent_of (named_item kind name.now «data».now) }
    ensures out_after { out.new ≡ overlay out.old place.at (named_item kind name.now «data».now).bytes }
{
    if !name_fits(name) {
        return Put::refused(SysexError::Length);
    }
    if !all_low(name) {
        return Put::refused(SysexError::DataByte);
    }
    put_part(out, place.at, name);
    let n = name.len();
    let rule = length_of(kind, name[n - 1]);
    put_by_rule(out, place.at + n, rule, data).behind(n)
}

// One byte.
pub(crate) fn put_byte(out: &mut [u8], at: usize, byte: u8) -> Put
    ensures result_value { put_of result ≡ extent_of (sent (byte ∷ [])) }
    ensures out_after { out.new ≡ overlay out.old at (sent (byte ∷ [])).bytes }
{
    put(out, at, byte);
    Put::accepted(1)
}
