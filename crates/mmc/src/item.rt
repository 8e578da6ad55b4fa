// Commands and fields put into a buffer: each check in the source's order, and before it the bytes that it lets go out.
ghost use Rattle.std.specs.Prelude.{◌≡◌, ◌≤◌, List, ℕ};
ghost use Rattle.universal.specs.Overlay.{overlay};
ghost use Rattle.universal.specs.Refusals.{answer_of};
ghost use Rattle.universal.specs.Emission.{Emission};
ghost use Rattle.mmc.specs.declared.length.Kind.{Kind};
ghost use Rattle.mmc.specs.declared.length.Kind.TheVariants.{Commands, Fields};
ghost use Rattle.mmc.specs.declared.part.Part.{Part};
ghost use Rattle.mmc.specs.Command.{command_of_case, read_command};
ghost use Rattle.mmc.specs.Field.{field_of_case, read_field};
ghost use Rattle.mmc.specs.Split.{next, next_as, next_item_of, parts_as};
ghost use Rattle.mmc.specs.Length.{within};
ghost use Rattle.mmc.specs.Named.{put_of, extent_of};
ghost use Rattle.mmc.specs.Item.{code_item, other_item, write_item, locate_field_item, locate_target_item, move_item, command_item, form_fits, code_fits, time_code_item, short_code_item, field_item};

use crate::command::{
    DEFERRED_PLAY, FAST_FORWARD, LOCATE, MMC_RESET, MOVE, MmcCommand, PAUSE, PLAY, RECORD_EXIT,
    RECORD_STROBE, REWIND, STOP, WRITE,
};
use crate::field::InfoField;
use crate::length::Kind;
use crate::named::{Position, Put, put_all, put_byte, put_named};
use crate::part::Part;
use crate::split::{ItemPlace, NextItem, next_parts};
use crate::{command, field};
use codes::{FinalByte, ShortTimeCode, StandardTimeCode};
use universal::{SysexError, put, put_part};

// The bytes of a time code, or its refusal.
#[tactic(auto, using(universal::proofs::Laws::overlay_none))]
fn put_code<const N: usize>(out: &mut [u8], at: usize, bytes: Result<[u8; N], SysexError>) -> Put
    ensures result_value { put_of result ≡ extent_of (code_item (answer_of bytes.entry)) }
    ensures out_after { out.new ≡ overlay out.old at (code_item (answer_of bytes.entry)).bytes }
{
    match bytes {
        Ok(bytes) => put_all(out, at, &bytes),
        Err(e) => Put::refused(e),
    }
}

// A name and data of the source.
#[tactic(auto, using(universal::proofs::Laws::overlay_none), unfolding(crate::specs::Item::other_item))]
fn put_other(
    out: &mut [u8],
    place: Position,
    source: &[u8],
    name: Part,
    data: Part,
    kind: Kind,
) -> Put
    ensures result_value { put_of result ≡ extent_of (other_item kind source.now name «data») }
    ensures out_after { out.new ≡ overlay out.old place.at (other_item kind source.now name «data»).bytes }
{
    if !name.is_inside(source) || !data.is_inside(source) {
        return Put::refused(SysexError::Source);
    }
    put_named(out, place, name.of(source), data.of(source), kind)
}

// Write: its data is a part of the source.
#[tactic(auto, using(universal::proofs::Laws::overlay_none), unfolding(crate::specs::Item::write_item))]
fn put_write(out: &mut [u8], place: Position, source: &[u8], data: Part) -> Put
    ensures result_value { put_of result ≡ extent_of (write_item source.now «data») }
    ensures out_after { out.new ≡ overlay out.old place.at (write_item source.now «data»).bytes }
{
    if !data.is_inside(source) {
        return Put::refused(SysexError::Source);
    }
    put_named(out, place, &[WRITE], data.of(source), Kind::Commands)
}

// Locate to a register, 08H to 0FH.
#[tactic(auto, using(universal::proofs::Laws::overlay_none), unfolding(crate::specs::Item::locate_field_item))]
fn put_locate_field(out: &mut [u8], at: usize, register: u8) -> Put
    ensures result_value { put_of result ≡ extent_of (locate_field_item register) }
    ensures out_after { out.new ≡ overlay out.old at (locate_field_item register).bytes }
{
    if register < 0x08 || register >= 0x10 {
        return Put::refused(SysexError::OutOfRange);
    }
    put_all(out, at, &[LOCATE, 2, 0, register])
}

// Locate to a time, in the form with subframes.
#[tactic(auto, using(universal::proofs::Laws::overlay_none, universal::proofs::Laws::overlay_then, crate::proofs::Writing::ItemPuts::standard_code), unfolding(crate::specs::Item::locate_target_item))]
fn put_locate_target(out: &mut [u8], place: Position, target: StandardTimeCode) -> Put
    ensures result_value { put_of result ≡ extent_of (locate_target_item target) }
    ensures out_after { out.new ≡ overlay out.old place.at (locate_target_item target).bytes }
{
    match target.final_byte {
        FinalByte::Status(_) => Put::refused(SysexError::OutOfRange),
        FinalByte::Subframes(_) => {
            put_part(out, place.at, &[LOCATE, 6, 1]);
            put_code(out, place.at + 3, target.to_bytes()).behind(3)
        }
    }
}

// Move between two fields, 01H to 1FH.
#[tactic(auto, using(universal::proofs::Laws::overlay_none), unfolding(crate::specs::Item::move_item))]
fn put_move(out: &mut [u8], at: usize, destination: u8, source: u8) -> Put
    ensures result_value { put_of result ≡ extent_of (move_item destination source) }
    ensures out_after { out.new ≡ overlay out.old at (move_item destination source).bytes }
{
    if !is_time_field(destination) || !is_time_field(source) {
        return Put::refused(SysexError::OutOfRange);
    }
    put_all(out, at, &[MOVE, 2, destination, source])
}

// A time code field's name, 01H to 1FH.
fn is_time_field(name: u8) -> bool
    ensures { result ≡ within 1 32 name }
{
    name >= 0x01 && name < 0x20
}

// One command.
#[tactic(auto, unfolding(crate::specs::Item::command_item))]
fn put_command(out: &mut [u8], place: Position, source: &[u8], command: MmcCommand) -> Put
    ensures result_value { put_of result ≡ extent_of (command_item source.now command) }
    ensures out_after { out.new ≡ overlay out.old place.at (command_item source.now command).bytes }
{
    match command {
        MmcCommand::Stop => put_byte(out, place.at, STOP),
        MmcCommand::Play => put_byte(out, place.at, PLAY),
        MmcCommand::DeferredPlay => put_byte(out, place.at, DEFERRED_PLAY),
        MmcCommand::FastForward => put_byte(out, place.at, FAST_FORWARD),
        MmcCommand::Rewind => put_byte(out, place.at, REWIND),
        MmcCommand::RecordStrobe => put_byte(out, place.at, RECORD_STROBE),
        MmcCommand::RecordExit => put_byte(out, place.at, RECORD_EXIT),
        MmcCommand::Pause => put_byte(out, place.at, PAUSE),
        MmcCommand::Reset => put_byte(out, place.at, MMC_RESET),
        MmcCommand::Write(data) => put_write(out, place, source, data),
        MmcCommand::LocateField { register } => put_locate_field(out, place.at, register),
        MmcCommand::LocateTarget(target) => put_locate_target(out, place, target),
        MmcCommand::Move {
            destination,
            source: from,
        } => put_move(out, place.at, destination, from),
        MmcCommand::Other { name, data } => put_other(
            out,
            place,
            source,
            name,
            data,
            Kind::Commands,
        ),
    }
}

// The forms that two fields ask for: 01H a status and no sign, 08H subframes (pp. 44, 47).
fn form_fits(field: u8, negative: bool, final_byte: FinalByte) -> bool
    ensures { result ≡ form_fits field negative final_byte }
{
    match final_byte {
        FinalByte::Subframes(_) => field != 0x01,
        FinalByte::Status(_) => {
            if field == 0x01 {
                return !negative;
            }
            field != 0x08
        }
    }
}

// A time code field of a name and a form that may be written.
#[tactic(auto, unfolding(crate::specs::Item::code_fits))]
fn code_fits(field: u8, negative: bool, final_byte: FinalByte) -> bool
    ensures { result ≡ code_fits field negative final_byte }
{
    is_time_field(field) && form_fits(field, negative, final_byte)
}

// A time code field.
#[tactic(auto, using(universal::proofs::Laws::overlay_none, universal::proofs::Laws::overlay_then, crate::proofs::Writing::ItemPuts::standard_code), unfolding(crate::specs::Item::time_code_item))]
fn put_time_code(out: &mut [u8], place: Position, field: u8, code: StandardTimeCode) -> Put
    ensures result_value { put_of result ≡ extent_of (time_code_item field code) }
    ensures out_after { out.new ≡ overlay out.old place.at (time_code_item field code).bytes }
{
    if !code_fits(field, code.negative, code.final_byte) {
        return Put::refused(SysexError::OutOfRange);
    }
    put(out, place.at, field);
    put_code(out, place.at + 1, code.to_bytes()).behind(1)
}

// The short form of one, by the name 20H higher.
#[tactic(auto, using(universal::proofs::Laws::overlay_none, universal::proofs::Laws::overlay_then, crate::proofs::Writing::ItemPuts::short_as_code, crate::proofs::Writing::ItemPuts::fits_below), unfolding(crate::specs::Item::short_code_item))]
fn put_short_code(out: &mut [u8], place: Position, field: u8, code: ShortTimeCode) -> Put
    ensures result_value { put_of result ≡ extent_of (short_code_item field code) }
    ensures out_after { out.new ≡ overlay out.old place.at (short_code_item field code).bytes }
{
    if !code_fits(field, code.negative, code.final_byte) {
        return Put::refused(SysexError::OutOfRange);
    }
    put(out, place.at, field + 0x20);
    put_code(out, place.at + 1, code.to_bytes()).behind(1)
}

// One field.
#[tactic(auto, unfolding(crate::specs::Item::field_item))]
fn put_field(out: &mut [u8], place: Position, source: &[u8], field: InfoField) -> Put
    ensures result_value { put_of result ≡ extent_of (field_item source.now field) }
    ensures out_after { out.new ≡ overlay out.old place.at (field_item source.now field).bytes }
{
    match field {
        InfoField::TimeCode { field: name, code } => put_time_code(out, place, name, code),
        InfoField::Short { field: name, code } => put_short_code(out, place, name, code),
        InfoField::Other { name, data } => put_other(out, place, source, name, data, Kind::Fields),
    }
}

// Where a writer lets an item be put. It has no name outside this crate, so a writer alone can ask for it.
#[derive(Clone, Copy)]
pub struct Slot {
    pub place: Position,
}

// What a writer puts. This trait has no name outside this crate: a writer takes commands and fields, and nothing else.
pub trait Puts {
    // What goes out of one before the check that refuses it.
    ghost emission: { List ℕ → Self → Emission };

    // Puts it into a buffer. Its parts lie in the lent source.
    fn put(self, out: &mut [u8], slot: Slot, source: &[u8]) -> Put
        ensures result_value { put_of result ≡ extent_of (emission source.now self) }
        ensures out_after { out.new ≡ overlay out.old slot.place.at (emission source.now self).bytes }
        // A name of three bytes at most, a count byte and 127 bytes of data.
        ensures length_at_most { result.len ≤ 131 };
}

// What a string is made of: a command or a field. `meaning` is what a name and data are read as.
pub trait Item: Puts {
    ghost kind: { Kind };

    ghost meaning: { List ℕ → List ℕ → Part → Part → Self };

    // The kind of the strings that it stands in.
    fn kind() -> Kind
        ensures { result ≡ kind };

    // The one that stands at a place of a string.
    fn read(body: &[u8], place: ItemPlace) -> Self
        ensures { result ≡ parts_as meaning body.now place };
}

impl Puts for MmcCommand {
    ghost emission = { command_item };

    fn put(self, out: &mut [u8], slot: Slot, source: &[u8]) -> Put {
        put_command(out, slot.place, source, self)
    }
}

impl Item for MmcCommand {
    ghost kind = { Commands };

    ghost meaning = { λ (x y : List ℕ). command_of_case (read_command x y) };

    fn kind() -> Kind {
        Kind::Commands
    }

    fn read(body: &[u8], place: ItemPlace) -> MmcCommand {
        command::read(body, place)
    }
}

impl Puts for InfoField {
    ghost emission = { field_item };

    fn put(self, out: &mut [u8], slot: Slot, source: &[u8]) -> Put {
        put_field(out, slot.place, source, self)
    }
}

impl Item for InfoField {
    ghost kind = { Fields };

    ghost meaning = { λ (x y : List ℕ). field_of_case (read_field x y) };

    fn kind() -> Kind {
        Kind::Fields
    }

    fn read(body: &[u8], place: ItemPlace) -> InfoField {
        field::read(body, place)
    }
}

// The item at a place of a string and the place after it; 2 and the end where the string is cut short; 9 at or past it.
pub fn next_item<I: Item>(body: &[u8], place: usize) -> NextItem<I>
    ensures { next_item_of result ≡ next_as (parts_as I.meaning body.now) (next I.kind body.now place) }
{
    let next = next_parts(body, place, I::kind());
    NextItem {
        answer: next.answer.map(|item| I::read(body, item)),
        place: next.place,
    }
}
