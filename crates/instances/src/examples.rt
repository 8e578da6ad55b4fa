// Machine control strings: document 01's instances.
use crate::strings::{is_length, is_message, locate, time_code, write};
use crate::tally::Tally;
use crate::times::label;
use mmc::{FinalByte, MmcCommand, next_command};
use mtc::{MtcTime, TimeCodeType};
use universal::SysexError;

fn one_hour() -> MtcTime {
    label(1, 0, 0, 0, TimeCodeType::Fps25)
}

// Locate 01:00:00:00 at 25 and Play, to all devices.
fn locate_play(out: &mut [u8]) -> Result<usize, SysexError> {
    write(out, 0x7F, b"", &[locate(one_hour()), MmcCommand::Play])
}

fn fourteen() -> bool {
    let mut out = [0xEEu8; 14];
    let written = locate_play(&mut out);
    is_message(
        written,
        &out,
        b"\xF0\x7F\x7F\x06\x44\x06\x01\x21\x00\x00\x00\x00\x02\xF7",
    )
}

fn thirteen() -> bool {
    let mut out = [0xEEu8; 13];
    let written = locate_play(&mut out);
    matches!(written, Err(SysexError::BufferTooSmall { needed: 14 }))
        && out == *b"\xF0\x7F\x7F\x06\x44\x06\x01\x21\x00\x00\x00\x00\x02"
}

// A string of these commands, to device 0.
fn string_of(commands: &[MmcCommand]) -> Result<usize, SysexError> {
    let mut out = [0xEEu8; 64];
    write(&mut out, 0, b"", commands)
}

// Writing one command is refused as out of range, and these bytes are left.
fn out_of_range(command: MmcCommand, left: [u8; 9]) -> bool {
    let mut out = [0xEEu8; 9];
    let written = write(&mut out, 0x7F, b"", &[command]);
    matches!(written, Err(SysexError::OutOfRange)) && out == left
}

// Reading.
fn reads() -> [bool; 6] {
    let empty = next_command(b"\x00", 0);
    let ended = next_command(b"\x00", 1);
    let extended = next_command(b"\x00\x00\x00", 0);
    [
        matches!(empty.answer, Err(SysexError::Length)),
        empty.place == 1,
        matches!(ended.answer, Err(SysexError::End)),
        matches!(extended.answer, Ok(_)),
        extended.place == 3,
        // 44 02 00 07 H reads as Locate field 7.
        matches!(
            next_command(b"\x44\x02\x00\x07", 0).answer,
            Ok(MmcCommand::LocateField { register: 7 })
        ),
    ]
}

// Writing.
fn writes() -> [bool; 7] {
    let hundred = time_code(one_hour(), FinalByte::Subframes(100));
    [
        fourteen(),
        thirteen(),
        is_length(string_of(&[MmcCommand::Stop; 48]), 53),
        matches!(string_of(&[MmcCommand::Stop; 49]), Err(SysexError::Length)),
        matches!(string_of(&[]), Err(SysexError::Length)),
        // The four opening bytes are emitted.
        out_of_range(
            MmcCommand::LocateField { register: 7 },
            *b"\xF0\x7F\x7F\x06\xEE\xEE\xEE\xEE\xEE",
        ),
        // The bytes before subframes 100 are emitted.
        out_of_range(
            MmcCommand::LocateTarget(hundred),
            *b"\xF0\x7F\x7F\x06\x44\x06\x01\xEE\xEE",
        ),
    ]
}

pub(crate) fn examples() -> Tally {
    Tally::of(writes().into_iter().chain(reads()))
}
