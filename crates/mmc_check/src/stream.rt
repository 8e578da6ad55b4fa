// A stream of bytes cut into messages, F0H to F7H. What stands outside a message, and a message that is not whole, gets a line
// with its place, and the reading goes on.
use crate::message::read_message;
use crate::refusals::Refusal;
use crate::say::{Byte, Count, say};
use std::fmt;
use std::fmt::Display;
use universal::SysexError;

const SOX: u8 = 0xF0;

const EOX: u8 = 0xF7;

// The longest message that is read.
const MOST: usize = 65_536;

// Where a byte stands: by its number, or in a text by line and column; all are counted from 1.
#[derive(Clone, Copy)]
pub(crate) enum Place {
    Byte(u64),
    Character { line: u64, column: u64 },
}

// The column only where it is not the first.
impl Display for Place {
    fn fmt<W: fmt::Write>(&self, f: &mut fmt::Formatter<W>) -> fmt::Result {
        match *self {
            Place::Byte(number) => write!(f, "Byte {number}"),
            Place::Character {
                line,
                column: 0 | 1,
            } => write!(f, "Line {line}"),
            Place::Character { line, column } => write!(f, "Line {line}, column {column}"),
        }
    }
}

// The messages of a stream, those that are faulty, and the places without a message.
#[derive(Clone, Copy, Default)]
pub(crate) struct Counts {
    messages: usize,
    faulty: usize,
    outside: usize,
}

impl Display for Counts {
    fn fmt<W: fmt::Write>(&self, f: &mut fmt::Formatter<W>) -> fmt::Result {
        write!(
            f,
            "{}, {} faulty",
            Count(self.messages, "message"),
            self.faulty
        )?;
        if self.outside > 0 {
            write!(f, "; {} without a message", Count(self.outside, "place"))?;
        }
        Ok(())
    }
}

// The bytes of the open message. They lie in an array, and those past the longest message are only counted, since the program has
// fixed memory.
#[derive(Drop)]
struct OpenMessage {
    bytes: [u8; MOST],
    length: usize,
}

impl OpenMessage {
    fn put(&mut self, byte: u8) {
        if let Some(place) = self.bytes.get_mut(self.length) {
            *place = byte;
        }
        self.length = self.length.saturating_add(1);
    }

    // All of them, or none where it is too long.
    fn bytes(&self) -> Option<&[u8]> {
        self.bytes.get(..self.length)
    }
}

// Where a stream stands: between messages, after bytes outside one, of which the first is kept, or in a message.
#[derive(Clone, Copy)]
enum State {
    Between,
    Outside {
        start: Place,
        first: u8,
        count: usize,
    },
    Inside {
        start: Place,
    },
}

// A stream: where it is said what becomes of it, the own device, its state, the open message, and the counts.
#[derive(Drop)]
pub(crate) struct Stream<'a> {
    rt: &'a HostRuntime,
    own: u8,
    state: State,
    message: OpenMessage,
    counts: Counts,
}

impl<'a> Stream<'a> {
    // A stream that has not begun.
    pub(crate) fn new(rt: &'a HostRuntime, own: u8) -> Stream<'a> {
        Stream {
            rt,
            own,
            state: State::Between,
            message: OpenMessage {
                bytes: [0; MOST],
                length: 0,
            },
            counts: Counts::default(),
        }
    }

    pub(crate) fn rt(&self) -> &'a HostRuntime {
        self.rt
    }

    pub(crate) fn counts(&self) -> Counts {
        self.counts
    }

    // Something that stands outside a message.
    pub(crate) fn count_outside(&mut self) {
        self.counts.outside = self.counts.outside.saturating_add(1);
    }

    // The open message is done with.
    fn finish(&mut self, good: bool) {
        self.state = State::Between;
        self.counts.messages = self.counts.messages.saturating_add(1);
        if !good {
            self.counts.faulty = self.counts.faulty.saturating_add(1);
        }
    }

    // The open message has its F7H.
    fn close(&mut self, start: Place) {
        say!(self.rt; "{start}: ");
        let good = match self.message.bytes() {
            Some(bytes) => read_message(self.rt, bytes, self.own),
            None => {
                let length = Count(self.message.length, "byte");
                say!(self.rt; "a message of {length}. At most {MOST} are read; it is passed over.\n");
                false
            }
        };
        self.finish(good);
    }

    // A byte above 7FH that is not F7H stands in the open message.
    fn cut(&mut self, start: Place, byte: u8) {
        let number = self.message.length.saturating_add(1);
        let byte = Byte(byte);
        let refusal = Refusal(SysexError::DataByte);
        say!(self.rt; "{start}: a message that is not whole: its byte {number} is {byte}. {refusal}. Nothing of it is done.\n");
        self.finish(false);
    }

    // Bytes outside a message get one line together.
    fn end_outside(&mut self, start: Place, first: u8, count: usize) {
        let count = Count(count, "byte");
        let first = Byte(first);
        say!(self.rt; "{start}: {count} outside a message, from {first} on. Passed over.\n");
        self.count_outside();
        self.state = State::Between;
    }

    // The message ends where its input does, or its line.
    fn end_inside(&mut self, start: Place) {
        let length = Count(self.message.length, "byte");
        say!(self.rt; "{start}: a message that is not whole: it ends after {length} without F7H. Nothing of it is done.\n");
        self.finish(false);
    }

    fn begin(&mut self, start: Place) {
        self.end();
        self.message.length = 0;
        self.message.put(SOX);
        self.state = State::Inside { start };
    }

    // A byte while no message is open.
    fn take_outside(&mut self, byte: u8, place: Place) {
        if byte == SOX {
            self.begin(place);
            return;
        }
        self.state = match self.state {
            State::Outside {
                start,
                first,
                count,
            } => State::Outside {
                start,
                first,
                count: count.saturating_add(1),
            },
            _ => State::Outside {
                start: place,
                first: byte,
                count: 1,
            },
        };
    }

    // A byte of the open message. One of real time may stand anywhere and belongs to no message.
    fn take_inside(&mut self, start: Place, byte: u8, place: Place) {
        match byte {
            0..=0x7F => self.message.put(byte),
            EOX => {
                self.message.put(byte);
                self.close(start);
            }
            0xF8..=0xFF => {
                let byte = Byte(byte);
                say!(self.rt; "{place}: the real time byte {byte} stands inside a message. Passed over; the message goes on.\n");
            }
            _ => {
                self.cut(start, byte);
                self.take_outside(byte, place);
            }
        }
    }

    // The next byte of the stream.
    pub(crate) fn take(&mut self, byte: u8, place: Place) {
        match self.state {
            State::Inside { start } => self.take_inside(start, byte, place),
            _ => self.take_outside(byte, place),
        }
    }

    // The stream ends here, or the line: a message does not go on past it.
    pub(crate) fn end(&mut self) {
        match self.state {
            State::Between => {}
            State::Outside {
                start,
                first,
                count,
            } => self.end_outside(start, first, count),
            State::Inside { start } => self.end_inside(start),
        }
    }
}
