// An index beside a field string: where the first field of each one-byte name begins.
ghost use Rattle.std.specs.Prelude.{◌≡◌};
ghost use Rattle.universal.specs.Refusals.{answer_of};
ghost use Rattle.field_index.specs.Index.{no_fields, index_in, build_stop, after_build, look_up};
ghost use Rattle.fast_mmc.specs.Refusal.{flat_stop};
ghost use Rattle.fimbrast.specs.Index.{flat_field_place};

use fast_mmc::refusal::flat_stop;
use field_index::{build, fresh, look_up};
use universal::SysexError;

// An index of 128 cells, one for each name of one byte up to 7FH: 0 where there is no field of that name, else the place where the first
// one begins, plus 1. Cells that are all 0 are an index without fields.
#[repr(C)]
#[derive(Clone, Copy)]
pub struct FlatFieldIndex {
    pub cells: [usize; 128],
}

// Where a field begins, with refusal 0; or refusal 11, and place 0.
#[repr(C)]
#[derive(Clone, Copy)]
pub struct FlatFieldPlace {
    pub refusal: u8,
    pub place: usize,
}

impl From<Result<usize, SysexError>> for FlatFieldPlace {
    ghost from_gives = { λ place f. f ≡ flat_field_place (answer_of place) };

    #[tactic(auto, unfolding(crate::specs::Index::flat_field_place))]
    fn from(place: Result<usize, SysexError>) -> FlatFieldPlace {
        match place {
            Ok(place) => FlatFieldPlace { refusal: 0, place },
            Err(e) => FlatFieldPlace {
                refusal: e.number(),
                place: 0,
            },
        }
    }
}

// `InfoFieldIndex::new`: an index without fields.
pub fn fimbrast_field_index_new() -> FlatFieldIndex
    ensures { index_in result.cells ≡ no_fields }
{
    FlatFieldIndex { cells: fresh() }
}

// `InfoFieldIndex::build`: makes the index of a field string from one walk, and answers 0; or 2 for a string that cannot be split,
// and then leaves the index as before. The bytes must not overlap the index.
pub fn fimbrast_field_index_build(field_index: &mut [usize; 128], body: &[u8]) -> u8
    ensures { (result ≡ flat_stop (build_stop body.now)) × (index_in field_index.new ≡ after_build (index_in field_index.old) body.now) }
{
    flat_stop(build(field_index, body))
}

// `InfoFieldIndex::place`: where the first field of a name begins, counted from the first byte of the last string that was accepted; 11
// for a name without a field, or above 7FH. A name with prefixes is another name; a short time code has one of its own, 20H above its
// field's. Where the refusal is 0, `fimbrast_next_field` at this place of that string reads the field.
pub fn fimbrast_field_index_place(field_index: &[usize; 128], name: u8) -> FlatFieldPlace
    ensures { result ≡ flat_field_place (look_up (index_in field_index.now) name) }
{
    FlatFieldPlace::from(look_up(field_index, name))
}
