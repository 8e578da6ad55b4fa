// An input read to its end: hexadecimal text, or the bytes themselves.
use crate::say::{say, say_failed};
use crate::stream::{Place, Stream};
use crate::text::Text;
use std::io::Read;

// The form of an input.
#[derive(Clone, Copy, PartialEq, Eq)]
pub(crate) enum Form {
    Text,
    Bytes,
}

// The bytes with which some editors begin a text.
const MARK: &[u8] = b"\xEF\xBB\xBF";

// True for a line that has a control byte before its comment.
fn has_control(line: &[u8]) -> bool {
    let mut text = line.iter().take_while(|byte| **byte != b'#');
    text.any(|byte| matches!(*byte, 0..=8 | 14..=31 | 0x7F))
}

impl Form {
    // A text has no control bytes outside its comments, and does not begin with a byte above 7FH but for a mark of its encoding.
    fn of(chunk: &[u8]) -> Form {
        if matches!(chunk, [0x80..=0xEE | 0xF0..=0xFF, ..]) {
            return Form::Bytes;
        }
        let mut lines = chunk.split(|byte| *byte == b'\n');
        if lines.any(has_control) {
            return Form::Bytes;
        }
        Form::Text
    }
}

// An input of bytes: their stream, and how many came so far.
#[derive(Drop)]
struct Bytes<'s, 'a> {
    stream: &'s mut Stream<'a>,
    count: u64,
}

impl Bytes<'_, '_> {
    fn take(&mut self, byte: u8) {
        self.count = self.count.saturating_add(1);
        self.stream.take(byte, Place::Byte(self.count));
    }

    fn end(&mut self) {
        self.stream.end();
    }
}

// How an input is read.
#[derive(Drop)]
enum Reading<'s, 'a> {
    Text(Text<'s, 'a>),
    Bytes(Bytes<'s, 'a>),
}

impl<'s, 'a> Reading<'s, 'a> {
    fn new(form: Form, stream: &'s mut Stream<'a>) -> Reading<'s, 'a> {
        match form {
            Form::Text => Reading::Text(Text::new(stream)),
            Form::Bytes => Reading::Bytes(Bytes { stream, count: 0 }),
        }
    }

    fn take(&mut self, byte: u8) {
        match self {
            Reading::Text(text) => text.take(byte),
            Reading::Bytes(bytes) => bytes.take(byte),
        }
    }

    fn end(&mut self) {
        match self {
            Reading::Text(text) => text.end_line(),
            Reading::Bytes(bytes) => bytes.end(),
        }
    }
}

// The form of an input by its first chunk. A mark of a text's encoding is passed over.
fn with_form(first: &[u8]) -> (Form, &[u8]) {
    let form = Form::of(first);
    match (form, first.strip_prefix(MARK)) {
        (Form::Text, Some(rest)) => (form, rest),
        _ => (form, first),
    }
}

// One read; none at the end of the input. A read that fails ends it.
fn read_some<'b, R: Read>(
    rt: &HostRuntime,
    from: &mut R,
    chunk: &'b mut [u8; 65536],
) -> Option<&'b [u8]> {
    match from.read(chunk) {
        Ok(0) => None,
        Ok(n) => Some(&chunk[..n]),
        Err(error) => {
            say_failed(&rt.stderr(), b"mmc_check: reading", error);
            say!(rt; "The input could not be read to its end.\n");
            None
        }
    }
}

// Reads an input to its end. No input takes so many reads.
fn read_all<R: Read>(rt: &HostRuntime, from: &mut R, form: Option<Form>, stream: &mut Stream<'_>) {
    let mut chunk = [0u8; 65536];
    let Some(first) = read_some(rt, from, &mut chunk) else {
        return;
    };
    let (form, first) = match form {
        Some(form) => (form, first),
        None => with_form(first),
    };
    let mut reading = Reading::new(form, stream);
    for byte in first {
        reading.take(*byte);
    }
    // No `loop`: nothing here says how much there is to read, so it would have no measure.
    for _ in 0..u64::MAX {
        let Some(next) = read_some(rt, from, &mut chunk) else {
            break;
        };
        for byte in next {
            reading.take(*byte);
        }
    }
    reading.end();
}

// Says what becomes of an input, and last how many messages it has.
pub(crate) fn check<R: Read>(rt: &HostRuntime, from: &mut R, form: Option<Form>, own: u8) {
    let mut stream = Stream::new(rt, own);
    read_all(rt, from, form, &mut stream);
    say!(rt; "{}.\n", stream.counts());
}
