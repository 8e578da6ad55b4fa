// The names that the Machine Control practice gives to commands and fields (RP-013), known to the library or not.
use crate::say::Byte;
use std::fmt;
use std::fmt::Display;

// A command, by its name of one byte.
pub(crate) fn command_name(name: u8) -> &'static str {
    match name {
        0x01 => "Stop",
        0x02 => "Play",
        0x03 => "Deferred Play",
        0x04 => "Fast Forward",
        0x05 => "Rewind",
        0x06 => "Record Strobe",
        0x07 => "Record Exit",
        0x08 => "Record Pause",
        0x09 => "Pause",
        0x0A => "Eject",
        0x0B => "Chase",
        0x0C => "Command Error Reset",
        0x0D => "MMC Reset",
        0x40 => "Write",
        0x41 => "Masked Write",
        0x42 => "Read",
        0x43 => "Update",
        0x44 => "Locate",
        0x45 => "Variable Play",
        0x46 => "Search",
        0x47 => "Shuttle",
        0x48 => "Step",
        0x49 => "Assign System Master",
        0x4A => "Generator Command",
        0x4B => "MIDI Time Code Command",
        0x4C => "Move",
        0x4D => "Add",
        0x4E => "Subtract",
        0x4F => "Drop Frame Adjust",
        0x50 => "Procedure",
        0x51 => "Event",
        0x52 => "Group",
        0x53 => "Command Segment",
        0x54 => "Deferred Variable Play",
        0x55 => "Record Strobe Variable",
        0x7C => "Wait",
        0x7F => "Resume",
        _ => "Unknown command",
    }
}

// A field's name in brackets; nothing for one that has none here.
fn field_name(name: u8) -> &'static str {
    match name {
        0x01 => " (Selected Time Code)",
        0x02 => " (Selected Master Code)",
        0x03 => " (Requested Offset)",
        0x04 => " (Actual Offset)",
        0x05 => " (Lock Deviation)",
        0x06 => " (Generator Time Code)",
        0x07 => " (MIDI Time Code Input)",
        0x08 => " (GP0)",
        0x09 => " (GP1)",
        0x0A => " (GP2)",
        0x0B => " (GP3)",
        0x0C => " (GP4)",
        0x0D => " (GP5)",
        0x0E => " (GP6)",
        0x0F => " (GP7)",
        0x4F => " (Track Record Ready)",
        _ => "",
    }
}

// "field 08H (GP0)".
#[derive(Clone, Copy)]
pub(crate) struct FieldName(pub(crate) u8);

impl Display for FieldName {
    fn fmt<W: fmt::Write>(&self, f: &mut fmt::Formatter<W>) -> fmt::Result {
        write!(f, "field {}{}", Byte(self.0), field_name(self.0))
    }
}
