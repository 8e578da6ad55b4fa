// The body of a message, or the fields of a Write: what is said of it goes on lines of its own, each with its place.
use crate::refusals::Refusal;
use crate::say::{Bytes, say};
use mmc::Part;
use std::fmt;
use std::fmt::Display;
use universal::SysexError;

// The number of a message's first body byte in it, F0H being byte 1.
pub(crate) const FIRST: usize = 5;

// Where it is said, behind which blanks, the number of the first byte in the message, and the bytes.
#[derive(Clone, Copy)]
pub(crate) struct Body<'a> {
    pub(crate) rt: &'a HostRuntime,
    pub(crate) indent: &'static str,
    pub(crate) first: usize,
    pub(crate) bytes: &'a [u8],
}

impl<'a> Body<'a> {
    pub(crate) fn of_message(rt: &'a HostRuntime, bytes: &'a [u8]) -> Body<'a> {
        Body {
            rt,
            indent: "  ",
            first: FIRST,
            bytes,
        }
    }

    // The data of a Write that begin at a place of this body.
    pub(crate) fn of_write(self, data: Part) -> Body<'a> {
        Body {
            rt: self.rt,
            indent: "    ",
            first: self.number_of(data.start),
            bytes: data.of(self.bytes),
        }
    }

    // The number that the byte at a place has in the message.
    pub(crate) fn number_of(self, place: usize) -> usize {
        self.first.saturating_add(place)
    }

    // Begins a line on the byte at a place.
    pub(crate) fn say_place(self, place: usize) {
        say!(self.rt; "{}Byte {}: ", self.indent, self.number_of(place));
    }

    // The string ends inside the item that begins at a place.
    pub(crate) fn say_cut(self, place: usize, error: SysexError) {
        self.say_place(place);
        say!(self.rt; "{}. The string ends inside what begins here.\n", Refusal(error));
    }
}

// An item that is not read further: its name where that has more than one byte, and its data.
#[derive(Clone, Copy)]
pub(crate) struct Parts<'a> {
    pub(crate) name: &'a [u8],
    pub(crate) data: &'a [u8],
}

impl Display for Parts<'_> {
    fn fmt<W: fmt::Write>(&self, f: &mut fmt::Formatter<W>) -> fmt::Result {
        if self.name.len() > 1 {
            write!(f, ", name{}", Bytes(self.name))?;
        }
        if !self.data.is_empty() {
            write!(f, ", data{}", Bytes(self.data))?;
        }
        Ok(())
    }
}
