// An index is 128 cells, one for each name up to 7FH: 0 where there is no field of that name, else the place where the first one begins,
// plus 1. A cell is as wide as the length of a string, so no place is cut. Cells that are all 0 are a fresh index.
ghost use Rattle.std.specs.Prelude.{◌≡◌, ◌+◌, ◌<◌, ◌^◌};
ghost use Rattle.universal.specs.Refusals.{answer_of};
ghost use Rattle.mmc.specs.Named.{stop_of};
ghost use Rattle.field_index.specs.Index.{no_fields, index_in, build_stop, after_build, look_up};
ghost use Rattle.field_index.specs.Clauses.{with_field};

use mmc::{Kind, next_parts};
use universal::SysexError;

// Names from here on have no cell.
const NAMES: u8 = 128;

// An index without fields.
#[tactic(auto, using(crate::proofs::Cells::all_empty))]
pub fn fresh() -> [usize; 128]
    ensures { index_in result ≡ no_fields }
{
    [0; 128]
}

// Makes the index of a field string, a response's data or a Write's, from one walk. The new cells are made
// apart, so the lent index stays where the string cannot be split.
pub fn build(index: &mut [usize; 128], body: &[u8]) -> Result<(), SysexError>
    ensures result_value { stop_of result ≡ build_stop body.now }
    ensures index_after { index_in index.new ≡ after_build (index_in index.old) body.now }
{
    let mut cells = fresh();
    let mut place = 0;
    while place < body.len() {
        let next = next_parts(body, place, Kind::Fields);
        let item = next.answer?;
        keep_first(&mut cells, item.name.of(body), place);
        place = next.place;
    }
    *index = cells;
    Ok(())
}

// Keeps the place of a field, unless one before it has its name. A name with prefixes and one above 7FH have no cell. A place is below the
// length of its string, so plus 1 fits.
#[tactic(auto, using(crate::proofs::Cells::not_one, crate::proofs::Cells::too_high, crate::proofs::Cells::has_field))]
fn keep_first(cells: &mut [usize; 128], name: &[u8], place: usize)
    requires { place + 1 < 2 ^ 64 }
    ensures { index_in cells.new ≡ with_field (index_in cells.old) place name.now }
{
    let &[byte] = name else {
        return;
    };
    if byte >= NAMES {
        return;
    }
    let cell = byte as usize;
    if cells[cell] != 0 {
        return;
    }
    cells[cell] = place + 1;
}

// Where the first field of a name begins, counted from the first byte of the string that the index was made of; 11 for a name that has
// none, or above 7FH.
#[tactic(auto, unfolding(crate::specs::Index::look_up, crate::specs::Index::index_in), using(crate::proofs::Cells::cell_place_lem))]
pub fn look_up(index: &[usize; 128], name: u8) -> Result<usize, SysexError>
    ensures { answer_of result ≡ look_up (index_in index.now) name }
{
    if name >= NAMES {
        return Err(SysexError::NoField);
    }
    let cell = index[name as usize];
    if cell == 0 {
        return Err(SysexError::NoField);
    }
    Ok(cell - 1)
}
