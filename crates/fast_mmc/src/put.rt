// One item into an open writing, with the writer as one number in a register: a word, a Write, or another command.
ghost use Rattle.std.specs.Prelude.{◌≡◌};
ghost use Rattle.mmc.specs.Write.{out_after};
ghost use Rattle.fast_mmc.specs.Clauses.{PutOne};
ghost use Rattle.fast_mmc.specs.Word.{word_item};
ghost use Rattle.fast_mmc.specs.Write.{writing_at, writer_after, write_of_data, other_at_front};

use crate::whole::{give_word, put_small};
use crate::write::{FlatWriter, flat_writer, writer_of};
use mmc::{MmcCommand, Part, Position};

// The weight of one item in a writer's number.
const ONE_ITEM: u64 = 0x1_0000_0000;
// A writer below it has no refusal and fewer than 256 items.
const MORE_ITEMS: u64 = 0x100_0000_0000;
// A position that no writing passes.
const MOST_POSITION: u64 = 40_000;

// A usual word, and the writer after it, or none: any other is left.
fn put_usual(writer: FlatWriter, out: &mut [u8], word: u64) -> Option<FlatWriter>
    ensures { PutOne word writer out.old result out.new }
{
    let place = writer % ONE_ITEM;
    if writer / MORE_ITEMS != 0 || place > MOST_POSITION {
        return None;
    }
    let next = put_small(out, Position { at: place as usize }, word)?;
    Some(writer - place + next as u64 + ONE_ITEM)
}

// One word.
pub fn put_word(writer: FlatWriter, out: &mut [u8], word: u64) -> FlatWriter
    ensures value { result ≡ writer_after writer (word_item word) }
    ensures out_after { out.new ≡ out_after (writing_at writer) out.old (word_item word) }
{
    match put_usual(writer, out, word) {
        Some(after) => after,
        None => flat_writer(give_word(out, writer_of(writer), word)),
    }
}

// A Write of these fields.
pub fn put_write(writer: FlatWriter, out: &mut [u8], data: &[u8]) -> FlatWriter
    ensures value { result ≡ writer_after writer (write_of_data «data».now) }
    ensures out_after { out.new ≡ out_after (writing_at writer) out.old (write_of_data «data».now) }
{
    let whole = Part {
        start: 0,
        len: data.len(),
    };
    let wrote = writer_of(writer).put_command(out, data, MmcCommand::Write(whole));
    flat_writer(wrote.writer)
}

// Another command, whose name and then its data stand at the front of the source.
pub fn put_other(
    writer: FlatWriter,
    out: &mut [u8],
    source: &[u8],
    name: usize,
    data: usize,
) -> FlatWriter
    ensures value { result ≡ writer_after writer (other_at_front source.now name «data») }
    ensures out_after { out.new ≡ out_after (writing_at writer) out.old (other_at_front source.now name «data») }
{
    let name_at = Part {
        start: 0,
        len: name,
    };
    let data_at = Part {
        start: name,
        len: data,
    };
    let other = MmcCommand::Other {
        name: name_at,
        data: data_at,
    };
    let wrote = writer_of(writer).put_command(out, source, other);
    flat_writer(wrote.writer)
}
