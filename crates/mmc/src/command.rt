// Commands (RP-013, pp. 14, 20 to 32): a name and its data read into a case, and the next command of a string.
ghost use Rattle.mmc.specs.Split.{next_item_of};
ghost use Rattle.std.specs.Prelude.{◌≡◌, ◌<◌, List, ℕ};
ghost use Rattle.mmc.specs.Split.{parts_as};
ghost use Rattle.mmc.specs.Command.{read_command, read_locate, read_move, command_of_case, next_command};

use crate::item::next_item;
use crate::part::Part;
use crate::split::{ItemPlace, NextItem};
use codes::StandardTimeCode;

// The names of the transport tier's commands (p. 14).
pub const STOP: u8 = 0x01;

pub const PLAY: u8 = 0x02;

pub const DEFERRED_PLAY: u8 = 0x03;

pub const FAST_FORWARD: u8 = 0x04;

pub const REWIND: u8 = 0x05;

pub const RECORD_STROBE: u8 = 0x06;

pub const RECORD_EXIT: u8 = 0x07;

pub const PAUSE: u8 = 0x09;

pub const MMC_RESET: u8 = 0x0D;

pub const WRITE: u8 = 0x40;

pub const LOCATE: u8 = 0x44;

pub const MOVE: u8 = 0x4C;

// One command. Bytes of its own stand as a part of the bytes that it was read from, or is written from.
#[derive(Clone, Copy)]
pub enum MmcCommand {
    Stop,
    Play,
    DeferredPlay,
    FastForward,
    Rewind,
    RecordStrobe,
    RecordExit,
    Pause,
    Reset,
    // Names and data of information fields.
    Write(Part),
    // Sub-command 00H: a register's name.
    LocateField { register: u8 },
    // Sub-command 01H: a time with subframes.
    LocateTarget(StandardTimeCode),
    // Two fields' names.
    Move { destination: u8, source: u8 },
    // Any other command, or one whose data does not fit it: the name with its prefixes, and the data after the count byte.
    Other { name: Part, data: Part },
}

// The command of an item of a string.
#[tactic(auto, unfolding(crate::specs::Command::read_command, crate::specs::Command::command_by_name))]
pub(crate) fn read(body: &[u8], item: ItemPlace) -> MmcCommand
    ensures { result ≡ parts_as (λ (x y : List ℕ). command_of_case (read_command x y)) body.now item }
{
    let data = item.data.of(body);
    let &[byte] = item.name.of(body) else {
        return other(item);
    };
    match byte {
        STOP => MmcCommand::Stop,
        PLAY => MmcCommand::Play,
        DEFERRED_PLAY => MmcCommand::DeferredPlay,
        FAST_FORWARD => MmcCommand::FastForward,
        REWIND => MmcCommand::Rewind,
        RECORD_STROBE => MmcCommand::RecordStrobe,
        RECORD_EXIT => MmcCommand::RecordExit,
        PAUSE => MmcCommand::Pause,
        MMC_RESET => MmcCommand::Reset,
        WRITE => MmcCommand::Write(item.data),
        LOCATE => read_locate(data, item),
        MOVE => read_move(data, item),
        _ => other(item),
    }
}

// Any other command.
fn other(item: ItemPlace) -> MmcCommand
    ensures { result ≡ MmcCommand.Other item.name item.«data» }
{
    MmcCommand::Other {
        name: item.name,
        data: item.data,
    }
}

// Locate, by its sub-command: data past what it defines is passed over (p. 5).
#[tactic(auto, unfolding(crate::specs::Command::read_locate))]
fn read_locate(data: &[u8], item: ItemPlace) -> MmcCommand
    ensures { result ≡ command_of_case (read_locate «data».now) item.name item.«data» }
{
    match *data {
        [0, register, ..] if register != 0 => MmcCommand::LocateField { register },
        [1, hr, mn, sc, fr, ff, ..] => {
            MmcCommand::LocateTarget(StandardTimeCode::from_bytes([hr, mn, sc, fr, ff]))
        }
        _ => other(item),
    }
}

// Move, where both names are given.
#[tactic(auto, unfolding(crate::specs::Command::read_move))]
fn read_move(data: &[u8], item: ItemPlace) -> MmcCommand
    ensures { result ≡ command_of_case (read_move «data».now) item.name item.«data» }
{
    match *data {
        [destination, source, ..] if destination != 0 && source != 0 => MmcCommand::Move {
            destination,
            source,
        },
        _ => other(item),
    }
}

// The command at a place of a string and the place after it; 2 and the end where the string is cut short; 9 at or past it.
#[tactic(auto, unfolding(crate::specs::Command::next_command))]
pub fn next_command(body: &[u8], place: usize) -> NextItem<MmcCommand>
    ensures { next_item_of result ≡ next_command body.now place }
{
    next_item(body, place)
}
