// Hexadecimal text: pairs of digits with spaces and commas between them, 0x before or H after, comments after #, one message
// to a line.
use crate::say::{Byte, say};
use crate::stream::{Place, Stream};
use std::fmt;
use std::fmt::Display;

// What stands before the next character: no word, its first digit, pairs of digits, pairs and one digit more, or 0x. Or the rest
// of the line is passed over.
#[derive(Clone, Copy)]
enum Word {
    None,
    One(u8),
    Pairs,
    Odd(u8),
    Prefix,
    Passed,
}

// A text: the stream of its bytes, the line and column of its next character, and the word there.
#[derive(Drop)]
pub(crate) struct Text<'s, 'a> {
    stream: &'s mut Stream<'a>,
    line: u64,
    column: u64,
    word: Word,
}

// A digit's value.
fn value(c: u8) -> Option<u8> {
    let digit = char::from(c).to_digit(16)?;
    u8::try_from(digit).ok()
}

// A character in words: itself where it can be printed.
#[derive(Clone, Copy)]
struct Character(u8);

impl Display for Character {
    fn fmt<W: fmt::Write>(&self, f: &mut fmt::Formatter<W>) -> fmt::Result {
        match self.0 {
            b'!'..=b'~' => write!(f, "'{}'", char::from(self.0)),
            _ => write!(f, "byte {}", Byte(self.0)),
        }
    }
}

impl<'s, 'a> Text<'s, 'a> {
    pub(crate) fn new(stream: &'s mut Stream<'a>) -> Text<'s, 'a> {
        Text {
            stream,
            line: 1,
            column: 1,
            word: Word::None,
        }
    }

    fn here(&self) -> Place {
        Place::Character {
            line: self.line,
            column: self.column,
        }
    }

    // The place of the character before this one.
    fn before(&self) -> Place {
        Place::Character {
            line: self.line,
            column: self.column.saturating_sub(1),
        }
    }

    // Something that is no byte: the stream counts it among what stands outside a message.
    fn refuse<D: Display + Drop>(&mut self, place: Place, what: D) {
        say!(self.stream.rt(); "{place}: {what}. The rest of the line is passed over.\n");
        self.stream.count_outside();
        self.word = Word::Passed;
    }

    // A digit of this value. The first digit of a byte is the character before this one.
    fn take_digit(&mut self, low: u8) {
        self.word = match self.word {
            Word::One(high) | Word::Odd(high) => {
                let first = self.before();
                self.stream.take(high << 4 | low, first);
                Word::Pairs
            }
            Word::Pairs => Word::Odd(low),
            _ => Word::One(low),
        };
    }

    // The word ends before this character: one digit alone is a byte, half a pair is none.
    fn end_word(&mut self) {
        match self.word {
            Word::None | Word::Passed => {}
            Word::Pairs => self.word = Word::None,
            Word::One(digit) => {
                let place = self.before();
                self.stream.take(digit, place);
                self.word = Word::None;
            }
            Word::Odd(_) | Word::Prefix => {
                let place = self.before();
                self.refuse(place, "half a byte: a digit is missing");
            }
        }
    }

    // A letter x is right only in 0x, and H only after digits.
    fn take_letter(&mut self, c: u8) {
        match (c, self.word) {
            (b'x' | b'X', Word::One(0)) => self.word = Word::Prefix,
            (b'h' | b'H', Word::One(_) | Word::Pairs) => self.end_word(),
            _ => {
                let place = self.here();
                let character = Character(c);
                self.refuse(place, format_args!("{character} is no hexadecimal digit"));
            }
        }
    }

    // A character of a line, of which the rest is not passed over.
    fn take_character(&mut self, c: u8) {
        if let Some(low) = value(c) {
            self.take_digit(low);
            return;
        }
        match c {
            b' ' | b',' | b'\t' | b'\r' | 0x0B | 0x0C => self.end_word(),
            b'#' => {
                self.end_word();
                self.word = Word::Passed;
            }
            _ => self.take_letter(c),
        }
    }

    // The line ends, and with it the message; so does the text, perhaps without an end of its last line.
    pub(crate) fn end_line(&mut self) {
        self.end_word();
        self.stream.end();
        self.line = self.line.saturating_add(1);
        self.column = 1;
        self.word = Word::None;
    }

    // The next character.
    pub(crate) fn take(&mut self, c: u8) {
        if c == b'\n' {
            self.end_line();
            return;
        }
        if !matches!(self.word, Word::Passed) {
            self.take_character(c);
        }
        self.column = self.column.saturating_add(1);
    }
}
