// The formats of RP-013 (commands pp. 20 to 32, fields pp. 8, 9, 44 and 47, as the source cites them), with values chosen here: no
// published example. Each is written as these bytes, and these bytes are read as what is written as them again.
use crate::strings::{is_message, locate, time_code};
use crate::tally::Tally;
use crate::times::label;
use mmc::{
    FinalByte, InfoField, Item, Kind, MmcCommand, Part, ShortTimeCode, StandardTimeCode,
    TimeCodeStatus, next_item, open_commands, open_responses,
};
use mtc::{MtcTime, TimeCodeType};
use universal::SysexError;

// A string of this item alone, whose name and data stand in `source`: of commands to all devices, or of responses of device 01H.
fn write_alone<T: Item + Copy>(
    item: T,
    out: &mut [u8],
    source: &[u8],
) -> Result<usize, SysexError> {
    let opened = match T::kind() {
        Kind::Commands => open_commands(out, 0x7F),
        Kind::Fields => open_responses(out, 0x01),
    };
    opened.put(out, source, item).writer.close_message(out)
}

// The item that is all of a body.
fn read_alone<T: Item + Copy>(body: &[u8]) -> Option<T> {
    let next = next_item(body, 0);
    if next.place != body.len() {
        return None;
    }
    next.answer.ok()
}

fn is_written<T: Item + Copy>(item: T, source: &[u8], message: &[u8]) -> bool {
    let mut out = [0xEEu8; 16];
    let written = write_alone(item, &mut out, source);
    is_message(written, &out, message)
}

// What the message's body reads as is written as the message.
fn is_read<T: Item + Copy>(message: &[u8]) -> bool {
    let [_, _, _, _, body @ .., _] = message else {
        return false;
    };
    match read_alone::<T>(body) {
        Some(item) => is_written(item, body, message),
        None => false,
    }
}

// Both ways.
fn add<T: Item + Copy>(tally: &mut Tally, item: T, source: &[u8], message: &[u8]) {
    tally.add(is_written(item, source, message));
    tally.add(is_read::<T>(message));
}

fn time() -> MtcTime {
    label(1, 2, 3, 4, TimeCodeType::Fps25)
}

// A code read as estimated in video field 1.
fn status() -> FinalByte {
    FinalByte::Status(TimeCodeStatus {
        estimated: true,
        invalid: false,
        video_field1: true,
        no_time_code: false,
    })
}

// Commands that are a name alone.
fn names(tally: &mut Tally) {
    for (command, message) in [
        (MmcCommand::Stop, b"\xF0\x7F\x7F\x06\x01\xF7"),
        (MmcCommand::Play, b"\xF0\x7F\x7F\x06\x02\xF7"),
        (MmcCommand::DeferredPlay, b"\xF0\x7F\x7F\x06\x03\xF7"),
        (MmcCommand::FastForward, b"\xF0\x7F\x7F\x06\x04\xF7"),
        (MmcCommand::Rewind, b"\xF0\x7F\x7F\x06\x05\xF7"),
        (MmcCommand::RecordStrobe, b"\xF0\x7F\x7F\x06\x06\xF7"),
        (MmcCommand::RecordExit, b"\xF0\x7F\x7F\x06\x07\xF7"),
        (MmcCommand::Pause, b"\xF0\x7F\x7F\x06\x09\xF7"),
        (MmcCommand::Reset, b"\xF0\x7F\x7F\x06\x0D\xF7"),
    ] {
        add(tally, command, b"", message);
    }
}

// Commands with data: Write of GP0, Locate to a field and to a time, Move of the selected time code to GP0.
fn counted(tally: &mut Tally) {
    add(
        tally,
        MmcCommand::Write(Part { start: 0, len: 6 }),
        b"\x08\x21\x02\x03\x04\x05",
        b"\xF0\x7F\x7F\x06\x40\x06\x08\x21\x02\x03\x04\x05\xF7",
    );
    add(
        tally,
        MmcCommand::LocateField { register: 0x08 },
        b"",
        b"\xF0\x7F\x7F\x06\x44\x02\x00\x08\xF7",
    );
    add(
        tally,
        locate(time()),
        b"",
        b"\xF0\x7F\x7F\x06\x44\x06\x01\x21\x02\x03\x04\x00\xF7",
    );
    add(
        tally,
        MmcCommand::Move {
            destination: 0x08,
            source: 0x01,
        },
        b"",
        b"\xF0\x7F\x7F\x06\x4C\x02\x08\x01\xF7",
    );
}

fn fields(tally: &mut Tally) {
    add(
        tally,
        InfoField::TimeCode {
            field: 0x01,
            code: time_code(time(), status()),
        },
        b"",
        b"\xF0\x7F\x01\x07\x01\x21\x02\x03\x24\x50\xF7",
    );
    add(
        tally,
        InfoField::TimeCode {
            field: 0x08,
            code: time_code(time(), FinalByte::Subframes(5)),
        },
        b"",
        b"\xF0\x7F\x01\x07\x08\x21\x02\x03\x04\x05\xF7",
    );
    add(
        tally,
        InfoField::Short {
            field: 0x01,
            code: ShortTimeCode {
                frames: 4,
                negative: false,
                final_byte: status(),
            },
        },
        b"",
        b"\xF0\x7F\x01\x07\x21\x24\x50\xF7",
    );
    add(
        tally,
        InfoField::Short {
            field: 0x08,
            code: ShortTimeCode {
                frames: 4,
                negative: true,
                final_byte: FinalByte::Subframes(5),
            },
        },
        b"",
        b"\xF0\x7F\x01\x07\x28\x44\x05\xF7",
    );
}

pub(crate) fn formats() -> Tally {
    let mut tally = Tally::default();
    names(&mut tally);
    counted(&mut tally);
    fields(&mut tally);
    tally
}
