// An index beside a field string: where the first field of each one-byte name begins.
ghost use Rattle.std.specs.Prelude.{◌≡◌};
ghost use Rattle.field_index.specs.Index.{no_fields, index_in, build_stop, after_build, look_up};
ghost use Rattle.fast_mmc.specs.Refusal.{flat_stop};
ghost use Rattle.fimbrast.specs.Index.{flat_field_place};

use fimbrast::index::{FlatFieldIndex, FlatFieldPlace};

// `InfoFieldIndex::new`: an index without fields.
#[unsafe(no_mangle)]
pub extern "C" fn fimbrast_field_index_new() -> FlatFieldIndex
    ensures { index_in result.cells ≡ no_fields }
{
    fimbrast::index::fimbrast_field_index_new()
}

// `InfoFieldIndex::build`: makes the index of a field string from one walk, and answers 0; or 2 for a string that cannot be split,
// and then leaves the index as before. The bytes must not overlap the index.
#[unsafe(no_mangle)]
pub extern "C" fn fimbrast_field_index_build(field_index: &mut [usize; 128], body: &[u8]) -> u8
    ensures { (result ≡ flat_stop (build_stop body.now)) × (index_in field_index.new ≡ after_build (index_in field_index.old) body.now) }
{
    fimbrast::index::fimbrast_field_index_build(field_index, body)
}

// `InfoFieldIndex::place`: where the first field of a name begins, counted from the first byte of the last string that was accepted; 11
// for a name without a field, or above 7FH. A name with prefixes is another name; a short time code has one of its own, 20H above its
// field's. Where the refusal is 0, `fimbrast_next_field` at this place of that string reads the field.
#[unsafe(no_mangle)]
pub extern "C" fn fimbrast_field_index_place(field_index: &[usize; 128], name: u8) -> FlatFieldPlace
    ensures { result ≡ flat_field_place (look_up (index_in field_index.now) name) }
{
    fimbrast::index::fimbrast_field_index_place(field_index, name)
}
