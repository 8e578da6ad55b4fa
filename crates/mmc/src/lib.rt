// MIDI Machine Control (RP-013): command and field strings, read and written, over the time code fields of `codes`.
#![tactic(auto)]

pub mod command;
mod field;
mod item;
mod length;
mod message;
mod named;
mod part;
mod split;
mod write;

pub use codes::{
    FinalByte, ShortTimeCode, StandardTimeCode, TimeCodeStatus, full_name, short_name,
};
pub use command::{MmcCommand, next_command};
pub use field::{InfoField, next_field};
pub use item::{Item, next_item};
pub use length::{Kind, Length, command_length, field_length};
pub use message::MmcMessage;
pub use named::{Position, Put};
pub use part::Part;
pub use split::{ItemPlace, NextItem, next_parts};
pub use write::{Writer, Wrote, open_commands, open_fields, open_responses};
