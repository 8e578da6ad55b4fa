// Strings of commands: written, and read back and applied.
use mmc::{FinalByte, MmcCommand, MmcMessage, Part, StandardTimeCode, open_commands};
use mtc::{MtcGenerator, MtcTime};
use transport::obey;
use universal::{SysexError, Universal};

// A time code without flags.
pub(crate) fn time_code(time: MtcTime, final_byte: FinalByte) -> StandardTimeCode {
    StandardTimeCode {
        time,
        color_frame: false,
        blank: false,
        negative: false,
        final_byte,
    }
}

// A Locate to a time, with subframes 0.
pub(crate) fn locate(time: MtcTime) -> MmcCommand {
    MmcCommand::LocateTarget(time_code(time, FinalByte::Subframes(0)))
}

// The same, negative.
pub(crate) fn locate_back(time: MtcTime) -> MmcCommand {
    let mut code = time_code(time, FinalByte::Subframes(0));
    code.negative = true;
    MmcCommand::LocateTarget(code)
}

// Writes a string of these commands, whose names and data stand in `source`.
pub(crate) fn write(
    out: &mut [u8],
    device_id: u8,
    source: &[u8],
    commands: &[MmcCommand],
) -> Result<usize, SysexError> {
    let mut writer = open_commands(out, device_id);
    for command in commands {
        writer = writer.put_command(out, source, *command).writer;
    }
    writer.close_message(out)
}

pub(crate) fn is_length(written: Result<usize, SysexError>, length: usize) -> bool {
    matches!(written, Ok(n) if n == length)
}

// These bytes were written, at the start of the buffer.
pub(crate) fn is_message(written: Result<usize, SysexError>, out: &[u8], message: &[u8]) -> bool {
    is_length(written, message.len()) && out.starts_with(message)
}

// The generator after a string was read back from its bytes.
pub(crate) fn obeyed(string: &[u8], own: u8, generator: MtcGenerator) -> MtcGenerator {
    let [_, _, device_id, sub_id1, body @ .., _] = string else {
        return generator;
    };
    let parts = Universal {
        real_time: true,
        device_id: *device_id,
        sub_id1: *sub_id1,
        sub_id2: None,
    };
    match MmcMessage::from_universal(parts, body) {
        Ok(Some(message)) => match message {
            MmcMessage::Commands { device_id } => obey(generator, device_id, own, body).generator,
            MmcMessage::Responses { device_id: _ } => generator,
        },
        Ok(None) => generator,
        Err(_) => generator,
    }
}

// The bytes that unknown commands are written from: 7AH; and a Locate to 31:63:63:31, which is refused with 7.
pub(crate) const SOURCE: [u8; 8] = [0x7A, 0x44, 0x01, 0x7F, 0x3F, 0x3F, 0x1F, 0x00];

fn unknown() -> MmcCommand {
    MmcCommand::Other {
        name: Part { start: 0, len: 1 },
        data: Part { start: 0, len: 0 },
    }
}

fn invalid_locate() -> MmcCommand {
    MmcCommand::Other {
        name: Part { start: 1, len: 1 },
        data: Part { start: 2, len: 6 },
    }
}

// A blank target.
fn blank_locate(time: MtcTime) -> MmcCommand {
    let mut code = time_code(time, FinalByte::Subframes(0));
    code.blank = true;
    MmcCommand::LocateTarget(code)
}

// A command before the Locate: refused, unknown, without effect, or with one that the Locate and Play take back.
pub(crate) fn other(number: u64, time: MtcTime) -> MmcCommand {
    match number & 7 {
        0 => blank_locate(time),
        1 => unknown(),
        2 => invalid_locate(),
        3 => MmcCommand::LocateField { register: 8 },
        4 => MmcCommand::DeferredPlay,
        5 => locate(time.add_frames(1000)),
        6 => MmcCommand::Pause,
        _ => MmcCommand::Rewind,
    }
}
