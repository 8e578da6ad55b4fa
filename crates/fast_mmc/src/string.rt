// Command and field strings: one item after another.
ghost use Rattle.mmc.specs.Split.{next_item_of};
ghost use Rattle.universal.specs.Refusals.{answer_of};
ghost use Rattle.std.specs.Prelude.{◌≡◌};
ghost use Rattle.fast_mmc.specs.String.{part_at, flat_part, flat_values, command_of, flat_command, flat_command_answer, flat_next_command, field_of, coded, flat_field, flat_field_answer, flat_next_field};

use crate::code::{FlatCode, FlatShort, no_code, no_short};
use crate::command::plain_command;
use mmc::{InfoField, MmcCommand, NextItem, Part, ShortTimeCode, StandardTimeCode};
use universal::SysexError;

// A part of lent bytes.
#[repr(C)]
#[derive(Clone, Copy)]
pub struct FlatPart {
    pub start: usize,
    pub length: usize,
}

// No part.
const NO_PART: FlatPart = FlatPart {
    start: 0,
    length: 0,
};

// The records here are for C, which has no Option and no Result: a flag or a refusal stands beside the value.

// One command. The kinds are FIMBRAST_STOP, 0, to FIMBRAST_OTHER_COMMAND, 13; a kind above 13 is taken as 13. What a kind does not
// use is 0 in an answer, and is not read in an argument.
#[repr(C)]
#[derive(Clone, Copy)]
pub struct FlatCommand {
    pub kind: u8,
    pub first: u8,
    pub second: u8,
    pub code: FlatCode,
    pub name: FlatPart,
    pub data: FlatPart,
}

// Refusal 0 and the command, with the place to read on from; 2 where the string is cut short, with the end as its place;
// 9 at or past the end.
#[repr(C)]
#[derive(Clone, Copy)]
pub struct FlatNextCommand {
    pub refusal: u8,
    pub command: FlatCommand,
    pub place: usize,
}

// One information field. The kinds are FIMBRAST_TIME_CODE, 0, to FIMBRAST_OTHER_FIELD, 2; a kind above 2 is taken as 2. What a kind does
// not use is 0 in an answer, and is not read in an argument.
#[repr(C)]
#[derive(Clone, Copy)]
pub struct FlatField {
    pub kind: u8,
    pub field: u8,
    pub code: FlatCode,
    pub short_code: FlatShort,
    pub name: FlatPart,
    pub data: FlatPart,
}

// Refusal 0 and the field, with the place to read on from; 2 and 9 as for a command.
#[repr(C)]
#[derive(Clone, Copy)]
pub struct FlatNextField {
    pub refusal: u8,
    pub field: FlatField,
    pub place: usize,
}

impl From<FlatPart> for Part {
    ghost from_gives = { λ p r. r ≡ part_at p };

    #[tactic(auto, unfolding(crate::specs::String::part_at))]
    fn from(p: FlatPart) -> Part {
        Part {
            start: p.start,
            len: p.length,
        }
    }
}

impl From<Part> for FlatPart {
    ghost from_gives = { λ p f. f ≡ flat_part p };

    #[tactic(auto, unfolding(crate::specs::String::flat_part))]
    fn from(p: Part) -> FlatPart {
        FlatPart {
            start: p.start,
            length: p.len,
        }
    }
}

// A command with two values and no more.
pub fn flat_values(kind: u8, first: u8, second: u8) -> FlatCommand
    ensures { result ≡ flat_values kind first second }
{
    FlatCommand {
        kind,
        first,
        second,
        code: no_code(),
        name: NO_PART,
        data: NO_PART,
    }
}

impl From<FlatCommand> for MmcCommand {
    ghost from_gives = { λ c r. r ≡ command_of c };

    #[tactic(auto, unfolding(crate::specs::String::command_of, crate::specs::Word::plain_command))]
    fn from(c: FlatCommand) -> MmcCommand {
        match c.kind {
            0..=8 => plain_command(c.kind),
            9 => MmcCommand::Write(Part::from(c.data)),
            10 => MmcCommand::LocateField { register: c.first },
            11 => MmcCommand::LocateTarget(StandardTimeCode::from(c.code)),
            12 => MmcCommand::Move {
                destination: c.first,
                source: c.second,
            },
            _ => MmcCommand::Other {
                name: Part::from(c.name),
                data: Part::from(c.data),
            },
        }
    }
}

impl From<MmcCommand> for FlatCommand {
    ghost from_gives = { λ c f. f ≡ flat_command c };

    #[tactic(auto, unfolding(crate::specs::String::flat_command, crate::specs::Word::command_word))]
    fn from(c: MmcCommand) -> FlatCommand {
        match c {
            MmcCommand::Stop => flat_values(0, 0, 0),
            MmcCommand::Play => flat_values(1, 0, 0),
            MmcCommand::DeferredPlay => flat_values(2, 0, 0),
            MmcCommand::FastForward => flat_values(3, 0, 0),
            MmcCommand::Rewind => flat_values(4, 0, 0),
            MmcCommand::RecordStrobe => flat_values(5, 0, 0),
            MmcCommand::RecordExit => flat_values(6, 0, 0),
            MmcCommand::Pause => flat_values(7, 0, 0),
            MmcCommand::Reset => flat_values(8, 0, 0),
            MmcCommand::Write(data) => FlatCommand {
                data: FlatPart::from(data),
                ..flat_values(9, 0, 0)
            },
            MmcCommand::LocateField { register } => flat_values(10, register, 0),
            MmcCommand::LocateTarget(code) => FlatCommand {
                code: FlatCode::from(code),
                ..flat_values(11, 0, 0)
            },
            MmcCommand::Move {
                destination,
                source,
            } => flat_values(12, destination, source),
            MmcCommand::Other { name, data } => FlatCommand {
                name: FlatPart::from(name),
                data: FlatPart::from(data),
                ..flat_values(13, 0, 0)
            },
        }
    }
}

// An answer and a place, and so no `From`, here and in a field's.
#[tactic(auto, unfolding(crate::specs::String::flat_command_answer))]
pub fn flat_command_answer(answer: Result<MmcCommand, SysexError>, place: usize) -> FlatNextCommand
    ensures { result ≡ flat_command_answer (answer_of answer) place }
{
    match answer {
        Ok(c) => FlatNextCommand {
            refusal: 0,
            command: FlatCommand::from(c),
            place,
        },
        Err(e) => FlatNextCommand {
            refusal: e.number(),
            command: flat_values(0, 0, 0),
            place,
        },
    }
}

impl From<FlatField> for InfoField {
    ghost from_gives = { λ f r. r ≡ field_of f };

    // Two exported calls have it: as a call of its own it would cost a writing of three fields 48 instructions.
    #[inline(always)]
    #[tactic(auto, unfolding(crate::specs::String::field_of))]
    fn from(f: FlatField) -> InfoField {
        match f.kind {
            0 => InfoField::TimeCode {
                field: f.field,
                code: StandardTimeCode::from(f.code),
            },
            1 => InfoField::Short {
                field: f.field,
                code: ShortTimeCode::from(f.short_code),
            },
            _ => InfoField::Other {
                name: Part::from(f.name),
                data: Part::from(f.data),
            },
        }
    }
}

// A field of these parts, at no place of its string.
pub fn coded(kind: u8, field: u8, code: FlatCode, short_code: FlatShort) -> FlatField
    ensures { result ≡ coded kind field code short_code }
{
    FlatField {
        kind,
        field,
        code,
        short_code,
        name: NO_PART,
        data: NO_PART,
    }
}

impl From<InfoField> for FlatField {
    ghost from_gives = { λ f r. r ≡ flat_field f };

    #[tactic(auto, unfolding(crate::specs::String::flat_field))]
    fn from(f: InfoField) -> FlatField {
        match f {
            InfoField::TimeCode { field, code } => coded(
                0,
                field,
                FlatCode::from(code),
                no_short(),
            ),
            InfoField::Short { field, code } => coded(1, field, no_code(), FlatShort::from(code)),
            InfoField::Other { name, data } => FlatField {
                name: FlatPart::from(name),
                data: FlatPart::from(data),
                ..coded(2, 0, no_code(), no_short())
            },
        }
    }
}

#[tactic(auto, unfolding(crate::specs::String::flat_field_answer))]
pub fn flat_field_answer(answer: Result<InfoField, SysexError>, place: usize) -> FlatNextField
    ensures { result ≡ flat_field_answer (answer_of answer) place }
{
    match answer {
        Ok(f) => FlatNextField {
            refusal: 0,
            field: FlatField::from(f),
            place,
        },
        Err(e) => FlatNextField {
            refusal: e.number(),
            field: coded(0, 0, no_code(), no_short()),
            place,
        },
    }
}

impl From<NextItem<MmcCommand>> for FlatNextCommand {
    ghost from_gives = { λ n f. f ≡ flat_next_command (next_item_of n) };

    #[tactic(auto, unfolding(crate::specs::String::flat_next_command))]
    fn from(n: NextItem<MmcCommand>) -> FlatNextCommand {
        flat_command_answer(n.answer, n.place)
    }
}

impl From<NextItem<InfoField>> for FlatNextField {
    ghost from_gives = { λ n f. f ≡ flat_next_field (next_item_of n) };

    #[tactic(auto, unfolding(crate::specs::String::flat_next_field))]
    fn from(n: NextItem<InfoField>) -> FlatNextField {
        flat_field_answer(n.answer, n.place)
    }
}
