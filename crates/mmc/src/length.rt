// Message Length (RP-013, p. 5): how many data bytes follow a name, by the range of its last byte.
ghost use Rattle.std.specs.Prelude.{◌≡◌};
ghost use Rattle.mmc.specs.Length.{command_length, field_length, length_of};

// The two kinds of strings: commands, and information fields.
#[derive(Clone, Copy, PartialEq, Eq)]
pub enum Kind {
    Commands,
    Fields,
}

// The data that the last byte of a name asks for: so many bytes, or a count byte and that many. It stays an enum of its own, as document
// 01 asks: an `Option` would not say that none is a count.
#[derive(Clone, Copy)]
pub enum Length {
    Fixed(usize),
    Count,
}

// Commands: 40H to 77H have a count, the others no data.
#[tactic(auto, unfolding(crate::specs::Length::command_length))]
pub fn command_length(name: u8) -> Length
    ensures { result ≡ command_length name }
{
    match name {
        0x40..=0x77 => Length::Count,
        _ => Length::Fixed(0),
    }
}

// Fields: 01H to 1FH have five bytes, 20H to 3FH two, 40H to 77H a count, the others no data.
#[tactic(auto, unfolding(crate::specs::Length::field_length))]
pub fn field_length(name: u8) -> Length
    ensures { result ≡ field_length name }
{
    match name {
        0x01..=0x1F => Length::Fixed(5),
        0x20..=0x3F => Length::Fixed(2),
        0x40..=0x77 => Length::Count,
        _ => Length::Fixed(0),
    }
}

// The rule of a kind.
#[tactic(auto, unfolding(crate::specs::Length::length_of))]
pub(crate) fn length_of(kind: Kind, name: u8) -> Length
    ensures { result ≡ length_of kind name }
{
    match kind {
        Kind::Commands => command_length(name),
        Kind::Fields => field_length(name),
    }
}
