// The command of a word, and the cases that a word's lowest byte tells.
ghost use Rattle.std.specs.Prelude.{◌≡◌, cond, ◌∷◌, [], ◌+◌, ◌%◌, ◌<◌, ◌≤◌};
ghost use Rattle.universal.specs.Emission.{sent};
ghost use Rattle.mmc.specs.Item.{command_item};
ghost use Rattle.fast_mmc.specs.Word.{with_bytes, four_marks, target_word, plain_command, marked_code, word_code, word_command};

use crate::code::{final_of, flat_final, is_status};
use codes::StandardTimeCode;
use labels::{MtcTime, TimeCodeType};
use mmc::{MmcCommand, command as names};

// A word is a number that C keeps and hands back, so its cases are numbers and no enum.

// The cases below it are names alone.
pub(crate) const NAMES: u64 = 9;
// The case of a Locate to a register.
pub(crate) const LOCATE_FIELD: u64 = 10;
// The case of a Locate to a time.
pub(crate) const LOCATE_TARGET: u64 = 11;
// The case of a Move.
pub(crate) const MOVE: u64 = 12;

// A case with two bytes above it.
pub(crate) fn with_bytes(case: u64, first: u8, second: u8) -> u64
    requires { case < 256 }
    ensures { result ≡ with_bytes case first second }
{
    case + u64::from(first) * 0x100 + u64::from(second) * 0x1_0000
}

// ---- names alone

// A command that is a name alone, by its case.
#[tactic(auto, unfolding(crate::specs::Word::plain_command))]
pub(crate) fn plain_command(case: u8) -> MmcCommand
    requires { case < 9 }
    ensures { result ≡ plain_command case }
{
    match case {
        0 => MmcCommand::Stop,
        1 => MmcCommand::Play,
        2 => MmcCommand::DeferredPlay,
        3 => MmcCommand::FastForward,
        4 => MmcCommand::Rewind,
        5 => MmcCommand::RecordStrobe,
        6 => MmcCommand::RecordExit,
        7 => MmcCommand::Pause,
        _ => MmcCommand::Reset,
    }
}

// The byte that goes out of it.
#[tactic(auto, using(crate::proofs::WordItems::low_sent, crate::proofs::WordItems::pause_sent, crate::proofs::WordItems::reset_sent))]
pub(crate) fn plain_name(case: u8) -> u8
    requires { case < 9 }
    ensures { command_item [] (plain_command case) ≡ sent (result ∷ []) }
{
    // Stop to Record Exit, whose names are one more.
    if case < 7 {
        return case + 1;
    }
    if case == 7 {
        return names::PAUSE;
    }
    names::MMC_RESET
}

// ---- a Locate to a time

// A weight, where it is set.
fn flag(weight: u64, set: bool) -> u64
    ensures { (result ≡ cond set weight 0) × (result ≤ weight) }
{
    if set {
        return weight;
    }
    0
}

// The four marks of a time code.
#[tactic(auto, unfolding(crate::specs::Word::four_marks))]
fn four_marks(code: StandardTimeCode) -> u64
    ensures { (result ≡ four_marks code) × (result ≤ 449) }
{
    flag(1, code.blank)
        + flag(64, code.color_frame)
        + flag(128, is_status(code.final_byte))
        + flag(256, code.negative)
}

// The word of a Locate to a time.
#[tactic(auto, unfolding(crate::specs::Word::target_word))]
fn target_word(code: StandardTimeCode) -> u64
    ensures { result ≡ target_word code }
{
    let time = code.time;
    LOCATE_TARGET
        + u64::from(time.hours) * 0x100
        + u64::from(time.minutes) * 0x1_0000
        + u64::from(time.seconds) * 0x100_0000
        + u64::from(time.frames) * 0x1_0000_0000
        + u64::from(flat_final(code.final_byte)) * 0x100_0000_0000
        + (u64::from(time.rate.into_bits()) + four_marks(code) * 8) * 0x1_0000_0000_0000
}

// A time code by its rate, its counts, its last byte and its four marks.
#[tactic(auto, unfolding(crate::specs::Word::marked_code))]
fn marked_code(
    rate: u8,
    hours: u8,
    minutes: u8,
    seconds: u8,
    frames: u8,
    last: u8,
    marks: u64,
) -> StandardTimeCode
    ensures { result ≡ marked_code rate hours minutes seconds frames last marks }
{
    let rate = TimeCodeType::from_bits(rate);
    StandardTimeCode {
        time: MtcTime {
            hours,
            minutes,
            seconds,
            frames,
            rate,
        },
        color_frame: marks / 64 % 2 == 1,
        blank: marks % 2 == 1,
        negative: marks / 256 % 2 == 1,
        final_byte: final_of(marks / 128 % 2 == 1, last),
    }
}

// The time code of a word.
fn word_code(word: u64) -> StandardTimeCode
    ensures { result ≡ word_code word }
{
    marked_code(
        (word / 0x1_0000_0000_0000 % 256) as u8,
        (word / 0x100 % 256) as u8,
        (word / 0x1_0000 % 256) as u8,
        (word / 0x100_0000 % 256) as u8,
        (word / 0x1_0000_0000 % 256) as u8,
        (word / 0x100_0000_0000 % 256) as u8,
        word / 0x8_0000_0000_0000,
    )
}

// ---- any word

// The Locate or the Move that a word above the names says, where it is its word.
#[tactic(auto, using(crate::proofs::CommandWords::field_is, crate::proofs::CommandWords::field_not, crate::proofs::CommandWords::target_is, crate::proofs::CommandWords::target_not, crate::proofs::CommandWords::move_is, crate::proofs::CommandWords::move_not, crate::proofs::CommandWords::no_word, crate::proofs::CommandWords::said_none))]
fn counted_command(word: u64) -> Option<MmcCommand>
    requires { 9 ≤ word % 256 }
    ensures { result ≡ word_command word }
{
    let case = word % 256;
    let first = (word / 0x100 % 256) as u8;
    let second = (word / 0x1_0000 % 256) as u8;
    if case == LOCATE_FIELD {
        if with_bytes(LOCATE_FIELD, first, 0) != word {
            return None;
        }
        return Some(MmcCommand::LocateField { register: first });
    }
    if case == LOCATE_TARGET {
        let code = word_code(word);
        if target_word(code) != word {
            return None;
        }
        return Some(MmcCommand::LocateTarget(code));
    }
    if case != MOVE {
        return None;
    }
    if with_bytes(MOVE, first, second) != word {
        return None;
    }
    Some(MmcCommand::Move {
        destination: first,
        source: second,
    })
}

// The command that a number is the word of.
#[tactic(auto, using(crate::proofs::CommandWords::plain_is, crate::proofs::CommandWords::plain_not))]
pub(crate) fn word_command(word: u64) -> Option<MmcCommand>
    ensures { result ≡ word_command word }
{
    if word % 256 >= NAMES {
        return counted_command(word);
    }
    if word >= NAMES {
        return None;
    }
    Some(plain_command(word as u8))
}
