// Reading a command as one number, its word, for a caller that wants no record.
ghost use Rattle.std.specs.Prelude.{◌≡◌, ◌≤◌, ◌<◌, ◌+◌, ◌*◌, ◌/◌, ◌%◌, length, get_or};
ghost use Rattle.universal.specs.Refusals.{refusal_of};
ghost use Rattle.mmc.specs.declared.command.MmcCommand.TheVariants.{Other};
ghost use Rattle.mmc.specs.Command.{command_by_name, read_locate, read_move, command_of_case, next_command};
ghost use Rattle.codes.specs.TimeCode.{read_final, final_value, read_standard};
ghost use Rattle.fast_mmc.specs.Word.{target_word, command_word, next_word};
ghost use Rattle.fast_mmc.specs.Clauses.{ShortWord};

use crate::command::{LOCATE_FIELD, LOCATE_TARGET, MOVE, with_bytes};
use codes::TimeCodeStatus;
use mmc::{ItemPlace, Kind, NextItem, Part, command as names, next_parts};
use universal::SysexError;

// Cases and refusals in a word are numbers, since a word is one that C keeps.

// The case of a Write, whose data is told by its length.
const WRITE: u64 = 9;
// The case of any other command, which is told by the lengths of its name and data.
const OTHER: u64 = 13;
// Another command that is a name of one byte alone.
const OTHER_ALONE: u64 = 269;
// 2, for an item that is cut short.
const CUT: u64 = 130;
// 9, for a place at the end.
const END: u64 = 137;

// A command or a refusal as one number, which comes back in registers, and the place to read on from. The number's lowest byte is the
// kind of the command, 0 to 13, or 128 plus the refusal's number. The bytes above it are, the lowest first:
//    9 Write              0 and the length of the data
//   10 Locate, register   the register
//   11 Locate, target     hours, minutes, seconds, frames, the last byte, and two bytes of marks: bits 0 and 1 are the rate, 3 the
//                         blank, 9 the colour frame, 10 whether the last byte is a status, 11 the sign
//   12 Move               the destination and the source
//   13 any other          the lengths of the name and of the data
// A name begins at the place that was read, and data ends at the place to read on from. A Locate, a Move and a name alone are written
// by the same word.
#[repr(C)]
#[derive(Clone, Copy)]
pub struct NextWord {
    pub word: u64,
    pub place: usize,
}

// The last byte of a time code, in the form that the frames byte tells, with its reserved bits 0.
fn last_byte(fr: u8, ff: u8) -> u8
    ensures { result ≡ final_value (read_final fr ff) }
{
    if fr / 32 % 2 == 1 {
        return TimeCodeStatus::from_byte(ff).to_byte();
    }
    ff % 128
}

// Four bytes as one number, the first lowest, which the compiler reads at once.
fn four_bytes(hr: u8, mn: u8, sc: u8, fr: u8) -> u64
    ensures { (result ≡ hr + mn * 256 + sc * 65536 + fr * 16777216) × (result < 4294967296) }
{
    u64::from(hr) + u64::from(mn) * 0x100 + u64::from(sc) * 0x1_0000 + u64::from(fr) * 0x100_0000
}

// The counts of four such bytes.
fn counts_read(four: u64) -> u64
    ensures { (result ≡ four % 32 + four / 256 % 64 * 256 + four / 65536 % 64 * 65536 + four / 16777216 % 32 * 16777216) × (result < 4294967296) }
{
    four % 0x20
        + four / 0x100 % 0x40 * 0x100
        + four / 0x1_0000 % 0x40 * 0x1_0000
        + four / 0x100_0000 % 0x20 * 0x100_0000
}

// The marks of a word, from what stands beside the counts: the rate and the colour frame by one shift, the others by another.
fn marks_read(four: u64) -> u64
    ensures { (result ≡ four / 32 % 4 + four / 32 / 512 % 2 * 512 + four / 524288 / 8 % 2 * 8 + four / 524288 / 1024 % 4 * 1024) × (result < 65536) }
{
    let low = four / 0x20;
    let high = four / 0x8_0000;
    low % 4 + low / 0x200 % 2 * 0x200 + high / 8 % 2 * 8 + high / 0x400 % 4 * 0x400
}

// The word of a Locate to the time of five bytes.
#[tactic(auto, using(crate::proofs::WordReading::target_read))]
fn target_read(hr: u8, mn: u8, sc: u8, fr: u8, ff: u8) -> u64
    ensures { result ≡ target_word (read_standard hr mn sc fr ff) }
{
    let four = four_bytes(hr, mn, sc, fr);
    LOCATE_TARGET
        + counts_read(four) * 0x100
        + u64::from(last_byte(fr, ff)) * 0x100_0000_0000
        + marks_read(four) * 0x1_0000_0000_0000
}

// A name and data that are no known command.
#[tactic(auto, unfolding(crate::specs::Word::command_word))]
fn other_word(item: ItemPlace) -> u64
    ensures { result ≡ command_word (Other item.name item.«data») }
{
    with_bytes(
        OTHER,
        (item.name.len % 256) as u8,
        (item.data.len % 256) as u8,
    )
}

// The command of a name that has a count, and of its data, which lie at this place of the string.
#[tactic(auto, unfolding(crate::specs::Word::command_word), using(crate::proofs::WordReading::counted_other))]
fn read_word(name: u8, data: &[u8], item: ItemPlace) -> u64
    requires { (64 ≤ name) × (name < 120) }
    ensures { result ≡ command_word (command_of_case (command_by_name name «data».now) item.name item.«data») }
{
    match name {
        names::WRITE => with_bytes(WRITE, 0, (item.data.len % 256) as u8),
        names::LOCATE => locate_word(data, item),
        names::MOVE => move_word(data, item),
        _ => other_word(item),
    }
}

// Locate, by its sub-command.
#[tactic(auto, unfolding(crate::specs::Word::command_word), using(mmc::proofs::ReadingLaws::locate_register, mmc::proofs::ReadingLaws::locate_to_time))]
fn locate_word(data: &[u8], item: ItemPlace) -> u64
    ensures { result ≡ command_word (command_of_case (read_locate «data».now) item.name item.«data») }
{
    match *data {
        [0, register, ..] if register != 0 => with_bytes(LOCATE_FIELD, register, 0),
        [1, hr, mn, sc, fr, ff, ..] => target_read(hr, mn, sc, fr, ff),
        _ => other_word(item),
    }
}

// Move, where both names are given.
#[tactic(auto, unfolding(crate::specs::Word::command_word), using(mmc::proofs::ReadingLaws::move_short, mmc::proofs::ReadingLaws::move_no_destination, mmc::proofs::ReadingLaws::move_no_source, mmc::proofs::ReadingLaws::move_both))]
fn move_word(data: &[u8], item: ItemPlace) -> u64
    ensures { result ≡ command_word (command_of_case (read_move «data».now) item.name item.«data») }
{
    match *data {
        [destination, source, ..] if destination != 0 && source != 0 => {
            with_bytes(MOVE, destination, source)
        }
        _ => other_word(item),
    }
}

// A refusal's number and 128.
fn refusal_word(error: SysexError) -> u64
    ensures { result ≡ 128 + (refusal_of error).number }
{
    128 + u64::from(error.number())
}

// The command of a name without prefixes and data, or none where it has either.
#[tactic(auto, using(crate::specs::Clauses::longer, crate::proofs::WordReading::short_known, crate::proofs::WordReading::short_pause, crate::proofs::WordReading::short_reset, crate::proofs::WordReading::short_other, mmc::proofs::ReadingLaws::within_range, mmc::proofs::ReadingLaws::below_range, mmc::proofs::ReadingLaws::above_range))]
fn short_word(name: u8) -> Option<u64>
    ensures { ShortWord name result }
{
    match name {
        0x00 => None,
        names::STOP => Some(0),
        names::PLAY => Some(1),
        names::DEFERRED_PLAY => Some(2),
        names::FAST_FORWARD => Some(3),
        names::REWIND => Some(4),
        names::RECORD_STROBE => Some(5),
        names::RECORD_EXIT => Some(6),
        names::PAUSE => Some(7),
        names::MMC_RESET => Some(8),
        0x40..=0x77 => None,
        _ => Some(OTHER_ALONE),
    }
}

// A command with a count byte and no prefix.
#[tactic(auto, using(crate::proofs::WordReading::no_count_word, crate::proofs::WordReading::few_data_word, crate::proofs::WordReading::counted_word, crate::proofs::WordReading::counted_name, mmc::proofs::ReadingLaws::within_range, mmc::proofs::ReadingLaws::part_inside))]
fn counted_word(body: &[u8], place: usize) -> NextWord
    requires { (place < length body.now) × ((64 ≤ get_or body.now place 0) × (get_or body.now place 0 < 120)) }
    ensures { result ≡ next_word (next_command body.now place) }
{
    let cut = NextWord {
        word: CUT,
        place: body.len(),
    };
    let Some(&count) = body.get(place + 1) else {
        return cut;
    };
    let start = place + 2;
    let count = usize::from(count);
    if count > body.len() - start {
        return cut;
    }
    let end = start + count;
    let item = ItemPlace {
        name: Part {
            start: place,
            len: 1,
        },
        data: Part { start, len: count },
    };
    NextWord {
        word: read_word(body[place], &body[start..end], item),
        place: end,
    }
}

// A name with prefixes, which is no known command.
fn prefixed_word(body: &[u8], place: usize) -> NextWord
    requires { (place < length body.now) × (get_or body.now place 0 ≡ 0) }
    ensures { result ≡ next_word (next_command body.now place) }
{
    let NextItem { answer, place } = next_parts(body, place, Kind::Commands);
    let word = match answer {
        Ok(item) => other_word(item),
        Err(e) => refusal_word(e),
    };
    NextWord { word, place }
}

// `next_command` as one number.
#[tactic(auto, using(crate::proofs::WordReading::end_word, crate::proofs::WordReading::short_counted, crate::proofs::WordReading::counted_bounds))]
pub fn next_word(body: &[u8], place: usize) -> NextWord
    ensures { result ≡ next_word (next_command body.now place) }
{
    if place >= body.len() {
        return NextWord { word: END, place };
    }
    let name = body[place];
    if let Some(word) = short_word(name) {
        return NextWord {
            word,
            place: place + 1,
        };
    }
    if name == 0 {
        return prefixed_word(body, place);
    }
    counted_word(body, place)
}
