// Writing a string: opened, given its items one at a time, and closed. One buffer is lent throughout and left alone between
// the calls. A failed writer repeats its first refusal and writes nothing more.
ghost use Rattle.std.specs.Prelude.{◌≡◌, ◌<◌, ◌≤◌, length, Some};
ghost use Rattle.universal.specs.Refusals.{refusal_of, answer_of};
ghost use Rattle.universal.specs.Overlay.{overlay};
ghost use Rattle.mmc.specs.Item.{command_item, field_item};
ghost use Rattle.mmc.specs.Named.{stop_of, put_of};
ghost use Rattle.mmc.specs.Write.{writing_of, opens_at, writing_past, or_failed, ready, opened_commands, opened_responses, opened_fields, begun, admitted, out_after, writing_after, closed_message, closed_fields, whole_message, whole_fields};

use crate::command::MmcCommand;
use crate::field::InfoField;
use crate::item::{Item, Puts, Slot};
use crate::message::{COMMAND, RESPONSE};
use crate::named::{Position, Put};
use universal::{SysexError, Universal, close};

// The most items of one writing.
const MOST_ITEMS: usize = 256;
// A position that no writing passes.
const MOST_POSITION: usize = 40_000;

// A writing: the position after the bytes so far, the items accepted, and the refusal that ended it, if one did.
#[derive(Clone, Copy)]
pub struct Writer {
    pub at: usize,
    pub items: usize,
    pub checked: Result<(), SysexError>,
}

// The answer of an item: the writer to go on with, and the check.
#[derive(Clone, Copy)]
pub struct Wrote {
    pub writer: Writer,
    pub checked: Result<(), SysexError>,
}

// The writer of an opening. No `From`: not every number is the position of an opening.
fn opened_writer(opened: Result<usize, SysexError>) -> Writer
    ensures { writing_of result ≡ opens_at (answer_of opened) }
{
    match opened {
        Ok(at) => Writer {
            at,
            items: 0,
            checked: Ok(()),
        },
        Err(e) => Writer {
            at: 0,
            items: 0,
            checked: Err(e),
        },
    }
}

// Opens a command string: F0H, 7FH, the device, 06H.
#[tactic(auto, unfolding(crate::specs::Write::opened_commands, crate::specs::Write::begun))]
pub fn open_commands(out: &mut [u8], device_id: u8) -> Writer
    ensures result_value { writing_of result ≡ begun (opened_commands device_id) }
    ensures out_after { out.new ≡ overlay out.old 0 (opened_commands device_id).bytes }
{
    let header = Universal {
        real_time: true,
        device_id,
        sub_id1: COMMAND,
        sub_id2: None,
    };
    opened_writer(header.open(out))
}

// Opens a response string: F0H, 7FH, the device, 07H. A response comes from one device, so 7FH is refused.
#[tactic(auto, using(universal::proofs::Laws::overlay_none), unfolding(crate::specs::Write::opened_responses, crate::specs::Write::begun))]
pub fn open_responses(out: &mut [u8], device_id: u8) -> Writer
    ensures result_value { writing_of result ≡ begun (opened_responses device_id) }
    ensures out_after { out.new ≡ overlay out.old 0 (opened_responses device_id).bytes }
{
    if device_id == 0x7F {
        return Writer {
            at: 0,
            items: 0,
            checked: Err(SysexError::OutOfRange),
        };
    }
    let header = Universal {
        real_time: true,
        device_id,
        sub_id1: RESPONSE,
        sub_id2: None,
    };
    opened_writer(header.open(out))
}

// Opens a string of fields, for the data of a Write: it has no envelope and no device.
pub fn open_fields() -> Writer
    ensures { writing_of result ≡ opened_fields }
{
    Writer {
        at: 0,
        items: 0,
        checked: Ok(()),
    }
}

impl Writer {
    // The check of a writer before its next call: its own refusal, or 10 for a record that no calls leave.
    #[tactic(auto, unfolding(crate::specs::Write::or_failed))]
    fn or_failed(self) -> Result<(), SysexError>
        ensures { stop_of result ≡ (or_failed (writing_of self)).stop }
    {
        if self.items > MOST_ITEMS || self.at > MOST_POSITION {
            return Err(SysexError::ItemLimit);
        }
        self.checked
    }

    // The check of a writer before its next item: its own, or 10 where 256 were accepted.
    #[tactic(auto, unfolding(crate::specs::Write::ready, crate::specs::Write::or_failed))]
    fn ready(self) -> Result<(), SysexError>
        ensures { stop_of result ≡ ready (writing_of self) }
    {
        self.or_failed()?;
        if self.items == MOST_ITEMS {
            return Err(SysexError::ItemLimit);
        }
        Ok(())
    }

    // The writer that repeats a refusal.
    fn failed(self, error: SysexError) -> Wrote
        ensures { (writing_of result.writer ≡ writing_past (writing_of self) (record { len = 0; stop = Some (refusal_of error) })) × (stop_of result.checked ≡ Some (refusal_of error)) }
    {
        let checked = Err(error);
        Wrote {
            writer: Writer { checked, ..self },
            checked,
        }
    }

    // The writer after an item that was put.
    fn after(self, put: Put) -> Wrote
        requires { (self.at ≤ 40000) × ((self.items < 256) × (put.len ≤ 131)) }
        ensures { (writing_of result.writer ≡ writing_past (writing_of self) (put_of put)) × (stop_of result.checked ≡ stop_of put.checked) }
    {
        let checked = put.checked;
        let at = self.at + put.len;
        let items = match checked {
            Ok(()) => self.items + 1,
            Err(_) => self.items,
        };
        Wrote {
            writer: Writer { at, items, checked },
            checked,
        }
    }

    // Writes one item, a command or a field. Its parts lie in the lent source.
    #[tactic(auto, unfolding(crate::specs::Write::ready, crate::specs::Write::or_failed, crate::specs::Write::writing_after, crate::specs::Write::admitted), using(universal::proofs::Laws::overlay_none))]
    pub fn put<I: Item + Copy>(self, out: &mut [u8], source: &[u8], item: I) -> Wrote
        ensures writer_value { (writing_of result.writer ≡ writing_after (writing_of self) (I.emission source.now item)) × (stop_of result.checked ≡ (admitted (writing_of self) (I.emission source.now item)).stop) }
        ensures out_after { out.new ≡ out_after (writing_of self) out.old (I.emission source.now item) }
    {
        match self.ready() {
            Ok(()) => {
                let place = Position { at: self.at };
                self.after(item.put(out, Slot { place }, source))
            }
            Err(e) => self.failed(e),
        }
    }

    // Writes one command, into a command string.
    pub fn put_command(self, out: &mut [u8], source: &[u8], command: MmcCommand) -> Wrote
        ensures writer_value { (writing_of result.writer ≡ writing_after (writing_of self) (command_item source.now command)) × (stop_of result.checked ≡ (admitted (writing_of self) (command_item source.now command)).stop) }
        ensures out_after { out.new ≡ out_after (writing_of self) out.old (command_item source.now command) }
    {
        self.put(out, source, command)
    }

    // Writes one field, into a response or a string of fields.
    pub fn put_field(self, out: &mut [u8], source: &[u8], field: InfoField) -> Wrote
        ensures writer_value { (writing_of result.writer ≡ writing_after (writing_of self) (field_item source.now field)) × (stop_of result.checked ≡ (admitted (writing_of self) (field_item source.now field)).stop) }
        ensures out_after { out.new ≡ out_after (writing_of self) out.old (field_item source.now field) }
    {
        self.put(out, source, field)
    }

    // Closes a command or response string: the body has 1 to 48 bytes, and the whole must fit the buffer.
    #[tactic(auto, using(universal::proofs::Laws::overlay_none), unfolding(crate::specs::Write::closed_message, crate::specs::Write::whole_message, crate::specs::Write::or_failed))]
    pub fn close_message(self, out: &mut [u8]) -> Result<usize, SysexError>
        ensures result_value { answer_of result ≡ whole_message (writing_of self) (length out.old) }
        ensures out_after { out.new ≡ overlay out.old self.at (closed_message (writing_of self)).bytes }
    {
        self.or_failed()?;
        if self.at < 5 || self.at > 52 {
            return Err(SysexError::Length);
        }
        close(out, self.at)
    }

    // Closes a string of fields, which must fit the buffer.
    #[tactic(auto, unfolding(crate::specs::Write::closed_fields, crate::specs::Write::whole_fields, crate::specs::Write::or_failed))]
    pub fn close_fields(self, out: &[u8]) -> Result<usize, SysexError>
        ensures { answer_of result ≡ whole_fields (writing_of self) (length out.now) }
    {
        self.or_failed()?;
        if self.at > out.len() {
            return Err(SysexError::BufferTooSmall { needed: self.at });
        }
        Ok(self.at)
    }
}
