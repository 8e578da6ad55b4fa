// What the desk's own writer would answer to the items that were read. Its bytes are not kept: only the answer counts.
use crate::body::{Body, FIRST};
use crate::refusals::Refusal;
use crate::say::{Count, say};
use mmc::{Item, Writer, open_commands, open_fields, open_responses};
use universal::SysexError;

// The body that is read, the writer, and the number of the byte where the item stands that the writer got last.
#[derive(Clone, Copy)]
pub(crate) struct Writing<'a> {
    body: Body<'a>,
    writer: Writer,
    at: usize,
}

impl<'a> Writing<'a> {
    pub(crate) fn of_commands(body: Body<'a>, device_id: u8) -> Writing<'a> {
        Writing {
            body,
            writer: open_commands(&mut [0; 4], device_id),
            at: FIRST,
        }
    }

    // A refusal at the opening is for the device, which stands two bytes before the body.
    pub(crate) fn of_responses(body: Body<'a>, device_id: u8) -> Writing<'a> {
        Writing {
            body,
            writer: open_responses(&mut [0; 4], device_id),
            at: FIRST - 2,
        }
    }

    pub(crate) fn of_fields(body: Body<'a>) -> Writing<'a> {
        Writing {
            body,
            writer: open_fields(),
            at: 0,
        }
    }

    fn has_refused(&self) -> bool {
        self.writer.checked.is_err()
    }

    // An item that was read at a place of the body goes to the writer, unless it has refused one.
    pub(crate) fn put<I: Item + Copy>(&mut self, item: I, place: usize) {
        if self.has_refused() {
            return;
        }
        let wrote = self.writer.put(&mut [0; 4], self.body.bytes, item);
        self.writer = wrote.writer;
        self.at = self.body.number_of(place);
    }

    // Closes a message. Says what was refused, and answers whether nothing was.
    pub(crate) fn close_message(&self) -> bool {
        match self.writer.close_message(&mut [0; 64]) {
            Ok(_) => true,
            Err(error) => self.say_refused(error),
        }
    }

    // Closes the fields of a Write, likewise. They have at most 127 bytes, so the buffer is never too small.
    pub(crate) fn close_fields(&self) -> bool {
        match self.writer.close_fields(&[0; 128]) {
            Ok(_) => true,
            Err(error) => self.say_refused(error),
        }
    }

    // With the place where the writer refused; none where the whole has a wrong length. False, for what is refused.
    fn say_refused(&self, error: SysexError) -> bool {
        let body = self.body;
        let indent = body.indent;
        say!(body.rt; "{indent}The desk would not write this. {}", Refusal(error));
        if self.has_refused() {
            say!(body.rt; ", at byte {}.\n", self.at);
        } else {
            let length = Count(body.bytes.len(), "byte");
            say!(body.rt; ": the body has {length}, and may have 1 to 48.\n");
        }
        false
    }
}
