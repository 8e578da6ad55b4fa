// A whole command message from words, in one call. A usual word goes out with only the position kept; from an unusual one on the
// writer does it.
ghost use Rattle.std.specs.Prelude.{◌≡◌, true, ◌∷◌, [], ◌+◌, ◌%◌, ◌≤◌, length};
ghost use Rattle.universal.specs.Emission.{refusing};
ghost use Rattle.universal.specs.Overlay.{overlay};
ghost use Rattle.mmc.specs.Item.{command_item};
ghost use Rattle.mmc.specs.Write.{writing_of, writing_after, out_after, closed_message, whole_message};
ghost use Rattle.fast_mmc.specs.Numbers.{written_numbers};
ghost use Rattle.fast_mmc.specs.Word.{byte_at, word_item};
ghost use Rattle.fast_mmc.specs.Words.{after_words, closed_out, words_answer, words_left};
ghost use Rattle.fast_mmc.specs.Clauses.{open_writing, PutWhole, LowBytes, WordInRange, AtRate};

use crate::command::{LOCATE_FIELD, LOCATE_TARGET, MOVE, NAMES, plain_name, word_command};
use crate::numbers::WrittenNumbers;
use crate::stores::{store_four, store_locate};
use codes::{FinalByte, StandardTimeCode, TimeCodeStatus};
use labels::{MtcTime, TimeCodeType};
use mmc::{MmcCommand, Position, Writer, command as names};
use universal::{SysexError, put, put_part};

// 104, 68, 68, 98 and 28 in their bytes: above 23 hours, 59 minutes, 59 seconds, 29 frames and 99 subframes they make 128 or more.
const ABOVE_RANGE: u64 = 0x1C62_4444_6800;
// The most commands of a message, each a byte or more.
const MOST_COMMANDS: usize = 48;

// A command that every writer refuses with 3 before anything of it goes out: a Locate to a time with a status.
#[tactic(auto, using(mmc::proofs::WritingSteps::locate_sent))]
fn refused_command() -> MmcCommand
    ensures { command_item [] result ≡ refusing 3 }
{
    let status = TimeCodeStatus::from_byte(0);
    MmcCommand::LocateTarget(StandardTimeCode {
        time: MtcTime {
            hours: 0,
            minutes: 0,
            seconds: 0,
            frames: 0,
            rate: TimeCodeType::Fps24,
        },
        color_frame: false,
        blank: false,
        negative: false,
        final_byte: FinalByte::Status(status),
    })
}

// The command that a word is given to the writer as.
#[tactic(auto, using(crate::proofs::CommandWords::item_of, crate::proofs::CommandWords::item_none))]
fn given_command(word: u64) -> MmcCommand
    ensures { command_item [] result ≡ word_item word }
{
    match word_command(word) {
        Some(command) => command,
        None => refused_command(),
    }
}

// What a word says, by the writer.
pub(crate) fn give_word(out: &mut [u8], writer: Writer, word: u64) -> Writer
    ensures result_value { writing_of result ≡ writing_after (writing_of writer) (word_item word) }
    ensures out_after { out.new ≡ out_after (writing_of writer) out.old (word_item word) }
{
    writer.put_command(out, &[], given_command(word)).writer
}

// The rest of the words, by the writer, from a position and so many items on, and the close. As a part of `write_words` it would
// make every message save registers.
#[inline(never)]
fn put_rest(out: &mut [u8], words: &[u64], at: usize, items: usize) -> WrittenNumbers
    ensures value { result ≡ written_numbers (whole_message (after_words (open_writing at items) out.old words.now).writing (length out.old)) }
    ensures out_after { out.new ≡ closed_out (after_words (open_writing at items) out.old words.now) }
{
    let mut w = Writer {
        at,
        items,
        checked: Ok(()),
    };
    for &word in words {
        w = give_word(out, w, word);
    }
    WrittenNumbers::from(w.close_message(out))
}

// True only for a minute that skips no number.
fn is_tenth(minutes: u8) -> bool
    ensures { result ≡ true → minutes % 10 ≡ 0 }
{
    minutes % 10 == 0
}

// True only where each of the five bytes above the lowest is below 128, and what is above them below 4.
fn is_low(number: u64) -> bool
    ensures { result ≡ true → LowBytes number }
{
    number / 0x4_0000_0000_0000 == 0
        && number / 0x8000 % 2 == 0
        && number / 0x80_0000 % 2 == 0
        && number / 0x8000_0000 % 2 == 0
        && number / 0x80_0000_0000 % 2 == 0
        && number / 0x8000_0000_0000 % 2 == 0
}

// True only where counts, subframes and rate are in range: the highest bits of the word and of one sum say it of all at once.
#[tactic(auto, using(crate::proofs::WordRanges::counts_in_range))]
fn is_in_range(word: u64) -> bool
    ensures { result ≡ true → WordInRange word }
{
    is_low(word) && is_low(word + ABOVE_RANGE)
}

// True only for a label in range that its rate has. What is rarely asked comes first: the compiler asks it last.
fn is_kept(word: u64) -> bool
    ensures { result ≡ true → AtRate (byte_at 65536 word) (byte_at 16777216 word) (byte_at 4294967296 word) (byte_at 281474976710656 word) }
{
    let marks = (word / 0x1_0000_0000_0000 % 256) as u8;
    if marks < 2 {
        let frames = (word / 0x1_0000_0000 % 256) as u8;
        return frames < 24 + marks;
    }
    if is_tenth((word / 0x1_0000 % 256) as u8) || marks == 3 {
        return true;
    }
    // The seconds, and the frames above them.
    let in_minute = word / 0x100_0000 % 0x1_0000;
    in_minute / 512 != 0 || in_minute % 256 != 0
}

// The buffer, the position and the word stay three parameters: the buffer is lent for each call, and the two others change with each word.

// A Locate to a usual time that fits, and the position after it, or none: any other is left.
fn put_locate(out: &mut [u8], place: Position, word: u64) -> Option<usize>
    requires { word % 256 ≡ 11 }
    ensures { PutWhole word place.at out.old result out.new }
{
    let next = place.at + 8;
    if out.len() < next || !is_in_range(word) || !is_kept(word) {
        return None;
    }
    let hours = (word / 0x100 % 256) as u8;
    let minutes = (word / 0x1_0000 % 256) as u8;
    let seconds = (word / 0x100_0000 % 256) as u8;
    let frames = (word / 0x1_0000_0000 % 256) as u8;
    let last = (word / 0x100_0000_0000 % 256) as u8;
    let marks = (word / 0x1_0000_0000_0000 % 256) as u8;
    let bytes = [hours + marks * 32, minutes, seconds, frames, last];
    store_locate(out, place.at, bytes);
    Some(next)
}

// A Locate to a register that may be written and fits, and the position after it, or none: any other is left.
#[tactic(auto, using(crate::proofs::WordPuts::put_four, crate::proofs::WordItems::field_sent))]
fn put_register(out: &mut [u8], place: Position, word: u64) -> Option<usize>
    requires { word % 256 ≡ 10 }
    ensures { PutWhole word place.at out.old result out.new }
{
    let next = place.at + 4;
    let register = (word / 0x100 % 256) as u8;
    if out.len() < next || word / 0x1_0000 != 0 || register < 8 || register > 15 {
        return None;
    }
    store_four(out, place.at, [names::LOCATE, 2, 0, register]);
    Some(next)
}

// A Move that may be written and fits, likewise.
#[tactic(auto, using(crate::proofs::WordPuts::put_four, crate::proofs::WordItems::word_move_sent))]
fn put_move(out: &mut [u8], place: Position, word: u64) -> Option<usize>
    requires { word % 256 ≡ 12 }
    ensures { PutWhole word place.at out.old result out.new }
{
    let next = place.at + 4;
    let destination = (word / 0x100 % 256) as u8;
    let source = (word / 0x1_0000 % 256) as u8;
    if out.len() < next
        || word / 0x100_0000 != 0
        || destination == 0
        || destination > 31
        || source == 0
        || source > 31
    {
        return None;
    }
    store_four(out, place.at, [names::MOVE, 2, destination, source]);
    Some(next)
}

// A name alone, or a Locate to a register or a Move that may be written and fits, and the position after it, or none: any other
// is left.
pub(crate) fn put_small(out: &mut [u8], place: Position, word: u64) -> Option<usize>
    ensures { PutWhole word place.at out.old result out.new }
{
    if word < NAMES {
        put(out, place.at, plain_name(word as u8));
        return Some(place.at + 1);
    }
    if word % 256 == LOCATE_FIELD {
        return put_register(out, place, word);
    }
    if word % 256 == MOVE {
        return put_move(out, place, word);
    }
    None
}

// A usual word, and the position after it, or none: any other is left.
fn put_whole(out: &mut [u8], place: Position, word: u64) -> Option<usize>
    ensures { PutWhole word place.at out.old result out.new }
{
    // Stop to Record Exit, whose names are one more, and a Locate to a time come most often.
    if word < 7 {
        put(out, place.at, word as u8 + 1);
        return Some(place.at + 1);
    }
    if word % 256 == LOCATE_TARGET {
        return put_locate(out, place, word);
    }
    put_small(out, place, word)
}

// The words of a message that was opened, and the close.
fn put_words(out: &mut [u8], words: &[u64]) -> WrittenNumbers
    requires { length words.now ≤ 48 }
    ensures value { result ≡ written_numbers (whole_message (after_words (open_writing 4 0) out.old words.now).writing (length out.old)) }
    ensures out_after { out.new ≡ closed_out (after_words (open_writing 4 0) out.old words.now) }
{
    let mut at = 4;
    for (i, &word) in words.iter().enumerate() {
        let Some(next) = put_whole(out, Position { at }, word) else {
            return put_rest(out, &words[i..], at, i);
        };
        at = next;
    }
    close_at(out, Position { at })
}

// The close at a position: 2 for a body outside 1 to 48 bytes, else F7H, and 4 where it does not fit.
fn close_at(out: &mut [u8], place: Position) -> WrittenNumbers
    ensures value { result ≡ written_numbers (whole_message (open_writing place.at 0) (length out.old)) }
    ensures out_after { out.new ≡ overlay out.old place.at (closed_message (open_writing place.at 0)).bytes }
{
    if place.at < 5 || place.at > 52 {
        return WrittenNumbers::from(Err(SysexError::Length));
    }
    put(out, place.at, 0xF7);
    let needed = place.at + 1;
    if out.len() < needed {
        return WrittenNumbers::from(Err(SysexError::BufferTooSmall { needed }));
    }
    WrittenNumbers::from(Ok(needed))
}

// F0H, 7FH, the device, 06H.
fn put_start(out: &mut [u8], device_id: u8)
    ensures { out.new ≡ overlay out.old 0 (240 ∷ 127 ∷ device_id ∷ 6 ∷ []) }
{
    put_part(out, 0, &[0xF0, 0x7F, device_id, 0x06]);
}

// A whole message by the writer from its first word on.
#[inline(never)]
fn write_by_writer(out: &mut [u8], device_id: u8, words: &[u64]) -> WrittenNumbers
    requires { device_id ≤ 127 }
    ensures value { result ≡ written_numbers (words_answer device_id words.now out.old) }
    ensures out_after { out.new ≡ words_left device_id words.now out.old }
{
    put_start(out, device_id);
    put_rest(out, words, 4, 0)
}

// Writes a whole command message: opened, given the commands of the words, and closed.
pub fn write_words(out: &mut [u8], device_id: u8, words: &[u64]) -> WrittenNumbers
    ensures value { result ≡ written_numbers (words_answer device_id words.now out.old) }
    ensures out_after { out.new ≡ words_left device_id words.now out.old }
{
    if device_id > 0x7F {
        return WrittenNumbers::from(Err(SysexError::Device));
    }
    // Where the four bytes of the opening fit, the compiler checks none of them for room.
    if out.len() < 4 || words.len() > MOST_COMMANDS {
        return write_by_writer(out, device_id, words);
    }
    put_start(out, device_id);
    put_words(out, words)
}
