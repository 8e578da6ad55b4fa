// Quarter frames, full messages and user bits: document 01's instances, those of document 02's #105, and RP-004/008's published examples.
ghost use Rattle.std.specs.Iterator.{IsFinite};

use crate::stream::all_answered;
use crate::strings::is_message;
use crate::tally::Tally;
use crate::times::label;
use mtc::{
    Direction, FullMessage, MtcEvent, MtcGenerator, MtcReader, MtcSequence, MtcTime, QuarterFrame,
    TimeCodeType, UserBits,
};
use universal::SysexError;

// The eight data bytes of 01:37:52:16 at rate 3.
const PIECES: [u8; 8] = [0x00, 0x11, 0x24, 0x33, 0x45, 0x52, 0x61, 0x76];

// 01:37:52 and these frames at rate 3.
fn at_frame(frames: u8) -> MtcTime {
    label(1, 37, 52, frames, TimeCodeType::Fps30)
}

// A reader that got these bytes.
fn reader_after<'a, I: Iterator<Item = &'a u8>>(bytes: I) -> MtcReader
    requires can { I.can_next bytes }
    requires ends { IsFinite (I.remaining bytes) }
{
    let mut reader = MtcReader::new();
    for byte in bytes {
        let _ = reader.receive(*byte);
    }
    reader
}

fn current_is(reader: MtcReader, time: MtcTime) -> bool {
    matches!(reader.time(), Some(current) if current == time)
}

// The answer to the byte of this number: a report at the sixteenth alone, whose raw time is 01:37:52:18 and current 01:37:52:20.
fn sixteenth_only(number: u8, sequence: Option<MtcSequence>) -> bool {
    match sequence {
        None => number != 16,
        Some(report) => {
            number == 16 && report.raw == at_frame(18) && report.current == at_frame(20)
        }
    }
}

// After 76 61 H a forward stream first reports at its sixteenth byte.
fn late() -> bool {
    let generator = MtcGenerator::new(at_frame(16), Direction::Forward);
    all_answered(
        reader_after([0x76, 0x61].iter()),
        generator,
        16,
        false,
        sixteenth_only,
    )
}

// The event reports.
fn reports(answer: Result<MtcEvent, SysexError>) -> bool {
    matches!(answer, Ok(event) if event.sequence.is_some())
}

// After pieces 7 down to 1 the first byte of a forward stream ends a sequence.
fn first_reports() -> bool {
    let mut reader = reader_after(PIECES[1..].iter().rev());
    reports(reader.receive(0x00))
}

// F6H after seven good pieces is 13, and the eighth still reports (document 02, #105).
fn status_passes() -> bool {
    let mut reader = reader_after(PIECES[..7].iter());
    matches!(reader.receive(0xF6), Err(SysexError::StatusByte)) && reports(reader.receive(0x76))
}

// After 76 61 H with C0H between, a forward stream first reports at its sixteenth byte, also with status bytes among its own.
fn late_with_status() -> bool {
    let generator = MtcGenerator::new(at_frame(16), Direction::Forward);
    all_answered(
        reader_after([0x76, 0xC0, 0x61].iter()),
        generator,
        16,
        true,
        sixteenth_only,
    )
}

// C0H among pieces 7 down to 1 does not keep the first byte from its report, and 91H in the place of 11H does not make it.
fn first_with_status() -> bool {
    let mut kept = reader_after([0x76, 0x61, 0x52, 0xC0, 0x45, 0x33, 0x24, 0x11].iter());
    let mut missing = reader_after([0x76, 0x61, 0x52, 0x45, 0x33, 0x24, 0x91].iter());
    reports(kept.receive(0x00)) && !reports(missing.receive(0x00))
}

// A byte of 80H does not set a reader running that was stopped, and 7FH does.
fn stays_stopped() -> bool {
    let mut reader = MtcReader::new();
    reader.full_message(FullMessage {
        device_id: 0x7F,
        time: at_frame(16),
    });
    let refused = reader.receive(0x80).is_err() && !reader.is_running();
    refused && reader.receive(0x7F).is_ok() && reader.is_running()
}

fn full_message() -> bool {
    let mut out = [0xEEu8; 10];
    let message = FullMessage {
        device_id: 0x7F,
        time: at_frame(16),
    };
    let written = message.write(&mut out);
    is_message(written, &out, b"\xF0\x7F\x7F\x01\x01\x61\x25\x34\x10\xF7")
}

fn user_bits() -> bool {
    let bits = UserBits {
        device_id: 0,
        groups: [1, 2, 3, 4, 5, 6, 7, 8],
        flags: 0,
    };
    bits.to_bytes() == *b"\x87\x65\x43\x21"
}

pub(crate) fn quarter_frames() -> Tally {
    let cases = [
        QuarterFrame::pieces(at_frame(16)) == PIECES,
        current_is(reader_after(PIECES.iter()), at_frame(18)),
        current_is(reader_after(PIECES.iter().rev()), at_frame(15)),
        late(),
        first_reports(),
        status_passes(),
        late_with_status(),
        first_with_status(),
        stays_stopped(),
        full_message(),
        user_bits(),
    ];
    Tally::of(cases.into_iter())
}
