// Command and field strings: one item after another.
ghost use Rattle.std.specs.Prelude.{◌≡◌};
ghost use Rattle.mmc.specs.Command.{next_command};
ghost use Rattle.mmc.specs.Field.{next_field};
ghost use Rattle.fast_mmc.specs.Word.{next_word};
ghost use Rattle.fast_mmc.specs.String.{flat_next_command, flat_next_field};

use fast_mmc::NextWord;
use fast_mmc::string::{FlatNextCommand, FlatNextField};

// The next of `Commands`: the command at a place of a message's data, 0 at first and then the place that came back.
pub fn fimbrast_next_command(body: &[u8], place: usize) -> FlatNextCommand
    ensures { result ≡ flat_next_command (next_command body.now place) }
{
    FlatNextCommand::from(mmc::next_command(body, place))
}

// The same as one number: its record says how it is made.
pub fn fimbrast_next_word(body: &[u8], place: usize) -> NextWord
    ensures { result ≡ next_word (next_command body.now place) }
{
    fast_mmc::next_word(body, place)
}

// The next of `InfoFields`: the field at a place of a string of fields, likewise.
pub fn fimbrast_next_field(body: &[u8], place: usize) -> FlatNextField
    ensures { result ≡ flat_next_field (next_field body.now place) }
{
    FlatNextField::from(mmc::next_field(body, place))
}
