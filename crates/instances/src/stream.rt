// A reader that has got some calls gets the next twenty-four bytes of a generator, alone and with status bytes among them: what it answers
// is held to demand 3.
use crate::times::label;
use mtc::{Direction, FullMessage, MtcGenerator, MtcReader, MtcSequence, MtcTime, TimeCodeType};
use universal::SysexError;

// What a reader is given: a byte, or a full message with this time.
#[derive(Clone, Copy)]
pub(crate) enum Call {
    Byte(u8),
    FullMessage(MtcTime),
}

// A reader, and the pieces of the bytes that it heard since its last full message, the newest last: seven at most.
#[derive(Clone, Copy)]
pub(crate) struct Listener {
    reader: MtcReader,
    pieces: [Option<u8>; 7],
}

const DOWN: [Option<u8>; 7] = [
    Some(7),
    Some(6),
    Some(5),
    Some(4),
    Some(3),
    Some(2),
    Some(1),
];

const UP: [Option<u8>; 7] = [
    Some(0),
    Some(1),
    Some(2),
    Some(3),
    Some(4),
    Some(5),
    Some(6),
];

impl Listener {
    pub(crate) fn new() -> Self {
        Listener {
            reader: MtcReader::new(),
            pieces: [None; 7],
        }
    }

    pub(crate) fn take(&mut self, call: Call) {
        match call {
            Call::Byte(byte) => {
                // A refused byte is none of the last seven.
                if self.reader.receive(byte).is_ok() {
                    self.pieces.rotate_left(1);
                    self.pieces[6] = Some(byte / 16);
                }
            }
            Call::FullMessage(time) => {
                self.reader.full_message(FullMessage { device_id: 0, time });
                self.pieces = [None; 7];
            }
        }
    }

    // The first of the twenty-four may report only after these seven.
    fn may_report_first(&self, direction: Direction) -> bool {
        match direction {
            Direction::Forward => self.pieces == DOWN,
            Direction::Reverse => self.pieces == UP,
        }
    }
}

// What demand 3 says of T and a direction, where the first byte may report or not.
#[derive(Clone, Copy)]
struct Expected {
    time: MtcTime,
    direction: Direction,
    first: bool,
}

impl Expected {
    // T moved by so many frames forward, or by another number in reverse.
    fn moved(&self, forward: i32, reverse: i32) -> MtcTime {
        match self.direction {
            Direction::Forward => self.time.add_frames(forward),
            Direction::Reverse => self.time.add_frames(reverse),
        }
    }

    // Whether this is what the byte of this number may give.
    fn allows(&self, number: u8, sequence: Option<MtcSequence>) -> bool {
        match sequence {
            None => number != 16 && number != 24,
            Some(report) => match number {
                1 => self.first,
                8 => report.raw == self.time && report.current == self.moved(2, -1),
                16 => { report.raw == self.moved(2, -2) && report.current == self.moved(4, -3) }
                24 => {
                    report.raw == self.moved(4, -4)
                        && report.current == self.moved(6, -5)
                        && !report.discontinuity
                }
                _ => false,
            },
        }
    }
}

// A status byte that slips in is 13.
fn is_refused(reader: &mut MtcReader, byte: u8) -> bool {
    matches!(reader.receive(byte), Err(SysexError::StatusByte))
}

// Whether this many bytes of a generator, given to a reader, are all sent and answered rightly: each by its number from 1 on. Where it is
// told so, a status byte slips in before each of them.
pub(crate) fn all_answered<F: Fn(u8, Option<MtcSequence>) -> bool>(
    mut reader: MtcReader,
    mut generator: MtcGenerator,
    count: u8,
    slips: bool,
    right: F,
) -> bool
    requires { F.IsAlwaysCallable right }
{
    for number in 1..=count {
        let sent = generator.next_byte();
        generator = sent.generator;
        let byte = match sent.byte {
            Ok(byte) => byte,
            Err(_) => return false,
        };
        if slips && !is_refused(&mut reader, 0x80 | byte.wrapping_add(number)) {
            return false;
        }
        let event = match reader.receive(byte) {
            Ok(event) => event,
            Err(_) => return false,
        };
        if !right(number, event.sequence) {
            return false;
        }
    }
    true
}

// Whether all twenty-four bytes of a generator are answered as demand 3 says of T and a direction, alone and with status bytes among them.
pub(crate) fn follows(
    listener: &Listener,
    generator: MtcGenerator,
    time: MtcTime,
    direction: Direction,
) -> bool {
    let expected = Expected {
        time,
        direction,
        first: listener.may_report_first(direction),
    };
    as_expected(listener.reader, generator, expected, false)
        && as_expected(listener.reader, generator, expected, true)
}

fn as_expected(
    reader: MtcReader,
    generator: MtcGenerator,
    expected: Expected,
    slips: bool,
) -> bool {
    all_answered(reader, generator, 24, slips, |number, sequence| {
        expected.allows(number, sequence)
    })
}

// A generator located at T and set running in a direction.
pub(crate) fn run_from(
    generator: MtcGenerator,
    time: MtcTime,
    direction: Direction,
) -> MtcGenerator {
    generator
        .locate(time)
        .set_direction(direction)
        .set_running(true)
}

// Times at the edges of each rate: midnight, minute and ten-minute ends, on both sides; eight for each of four rates.
pub(crate) fn edge(number: u64) -> MtcTime {
    let rate = TimeCodeType::from_bits((number / 8 % 4) as u8);
    let last = rate.frames_per_second().wrapping_sub(1);
    // The first label of a minute that is not a tenth: frames 0 and 1 are skipped at drop-frame.
    let first = match rate {
        TimeCodeType::Fps30Drop => 2,
        _ => 0,
    };
    match number % 8 {
        0 => label(0, 0, 0, 0, rate),
        1 => label(23, 59, 59, last, rate),
        2 => label(0, 0, 59, last, rate),
        3 => label(0, 1, 0, first, rate),
        4 => label(0, 9, 59, last, rate),
        5 => label(0, 10, 0, 0, rate),
        6 => label(1, 37, 52, 16, rate),
        _ => label(23, 59, 59, 20, rate),
    }
}
