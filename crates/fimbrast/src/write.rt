// Writing a string: opened, given its items one at a time, and closed, with one buffer throughout, left alone between the calls.
ghost use Rattle.std.specs.Prelude.{◌≡◌, length};
ghost use Rattle.universal.specs.Overlay.{overlay};
ghost use Rattle.fast_mmc.specs.Numbers.{written_numbers};
ghost use Rattle.mmc.specs.Item.{command_item, field_item};
ghost use Rattle.fast_mmc.specs.Word.{word_item};
ghost use Rattle.fast_mmc.specs.Words.{words_answer, words_left};
ghost use Rattle.mmc.specs.Write.{opened_commands, opened_responses, opened_fields, begun, out_after, closed_message, whole_message, whole_fields};
ghost use Rattle.fast_mmc.specs.String.{command_of, field_of};
ghost use Rattle.fast_mmc.specs.Write.{writing_at, flat_writer, writer_after, write_of_data, other_at_front};

use fast_mmc::WrittenNumbers;
use fast_mmc::string::{FlatCommand, FlatField};
use fast_mmc::write::{FlatWriter, flat_writer, writer_of};
use mmc::{InfoField, MmcCommand};

// The writer, the buffer and the source stay three parameters, and commands and fields two calls: so are the calls for C.

// `write_commands` opens: F0H, 7FH, the device, 06H.
pub fn fimbrast_open_commands(out: &mut [u8], device_id: u8) -> FlatWriter
    ensures value { result ≡ flat_writer (begun (opened_commands device_id)) }
    ensures out_after { out.new ≡ overlay out.old 0 (opened_commands device_id).bytes }
{
    flat_writer(mmc::open_commands(out, device_id))
}

// `write_responses` opens: F0H, 7FH, the device, 07H.
pub fn fimbrast_open_responses(out: &mut [u8], device_id: u8) -> FlatWriter
    ensures value { result ≡ flat_writer (begun (opened_responses device_id)) }
    ensures out_after { out.new ≡ overlay out.old 0 (opened_responses device_id).bytes }
{
    flat_writer(mmc::open_responses(out, device_id))
}

// `write_info_fields` opens: it has no envelope, and no byte is put.
pub fn fimbrast_open_fields() -> FlatWriter
    ensures { result ≡ flat_writer opened_fields }
{
    flat_writer(mmc::open_fields())
}

// Any command by its record; its name and data are parts of the source.
pub fn fimbrast_put_command(
    writer: FlatWriter,
    out: &mut [u8],
    source: &[u8],
    command: FlatCommand,
) -> FlatWriter
    ensures value { result ≡ writer_after writer (command_item source.now (command_of command)) }
    ensures out_after { out.new ≡ out_after (writing_at writer) out.old (command_item source.now (command_of command)) }
{
    let wrote = writer_of(writer).put(out, source, MmcCommand::from(command));
    flat_writer(wrote.writer)
}

// One command by its word, as `fimbrast_next_word` gives it. A number that is no word of a name alone, of a Locate or of a Move is
// refused with 3, and nothing goes out of it.
pub fn fimbrast_put_word(writer: FlatWriter, out: &mut [u8], word: u64) -> FlatWriter
    ensures value { result ≡ writer_after writer (word_item word) }
    ensures out_after { out.new ≡ out_after (writing_at writer) out.old (word_item word) }
{
    fast_mmc::put_word(writer, out, word)
}

// A Write of these fields.
pub fn fimbrast_put_write(writer: FlatWriter, out: &mut [u8], data: &[u8]) -> FlatWriter
    ensures value { result ≡ writer_after writer (write_of_data «data».now) }
    ensures out_after { out.new ≡ out_after (writing_at writer) out.old (write_of_data «data».now) }
{
    fast_mmc::put_write(writer, out, data)
}

// Another command, whose name and then its data, of these lengths, stand at the front of the source.
pub fn fimbrast_put_other(
    writer: FlatWriter,
    out: &mut [u8],
    source: &[u8],
    name: usize,
    data: usize,
) -> FlatWriter
    ensures value { result ≡ writer_after writer (other_at_front source.now name «data») }
    ensures out_after { out.new ≡ out_after (writing_at writer) out.old (other_at_front source.now name «data») }
{
    fast_mmc::put_other(writer, out, source, name, data)
}

// Any field by its record; its name and data are parts of the source.
pub fn fimbrast_put_field(
    writer: FlatWriter,
    out: &mut [u8],
    source: &[u8],
    field: FlatField,
) -> FlatWriter
    ensures value { result ≡ writer_after writer (field_item source.now (field_of field)) }
    ensures out_after { out.new ≡ out_after (writing_at writer) out.old (field_item source.now (field_of field)) }
{
    let wrote = writer_of(writer).put(out, source, InfoField::from(field));
    flat_writer(wrote.writer)
}

// `write_commands` and `write_responses` close: F7H.
pub fn fimbrast_close_message(writer: FlatWriter, out: &mut [u8]) -> WrittenNumbers
    ensures value { result ≡ written_numbers (whole_message (writing_at writer) (length out.old)) }
    ensures out_after { out.new ≡ overlay out.old (writing_at writer).at (closed_message (writing_at writer)).bytes }
{
    WrittenNumbers::from(writer_of(writer).close_message(out))
}

// `write_info_fields` closes: no byte is put, and the answer is the length.
pub fn fimbrast_close_fields(writer: FlatWriter, out: &[u8]) -> WrittenNumbers
    ensures { result ≡ written_numbers (whole_fields (writing_at writer) (length out.now)) }
{
    WrittenNumbers::from(writer_of(writer).close_fields(out))
}

// `write_commands` in one call: opened, given a command for each word, closed. A word is what `fimbrast_next_word` gives for a name
// alone (the kinds 0 to 8), a Locate (10 and 11) or a Move (12). Each byte counts with all its bits: hours 40 are refused with 3. Any other number, one of a Write or of
// another command too, is refused with 3, and nothing goes out of it.
pub fn fimbrast_write_words(out: &mut [u8], device_id: u8, words: &[u64]) -> WrittenNumbers
    ensures value { result ≡ written_numbers (words_answer device_id words.now out.old) }
    ensures out_after { out.new ≡ words_left device_id words.now out.old }
{
    fast_mmc::write_words(out, device_id, words)
}
