// Writing a string: opened, given its items one at a time, and closed.
ghost use Rattle.std.specs.Prelude.{◌≡◌};
ghost use Rattle.mmc.specs.Write.{writing_of};
ghost use Rattle.fast_mmc.specs.Write.{checked_at, writer_of, flat_writer};

use crate::refusal::flat_stop;
use mmc::Writer;
use universal::SysexError;

// A writer as one number: the position in the lowest four bytes, the items accepted in the next two, and in the byte above them the
// first refusal, which it repeats. A number that is no refusal's is taken as 10.
pub type FlatWriter = u64;

// No `From` for these three: a check is made of two values, and a writer's number is a plain one.

#[tactic(auto, unfolding(crate::specs::Write::checked_at))]
pub fn checked_at(refusal: u8, needed: usize) -> Result<(), SysexError>
    ensures { result ≡ checked_at refusal needed }
{
    if refusal == 0 {
        return Ok(());
    }
    Err(SysexError::of_number(refusal, needed))
}

#[tactic(auto, unfolding(crate::specs::Write::writer_of))]
pub fn writer_of(w: FlatWriter) -> Writer
    ensures { result ≡ writer_of w }
{
    Writer {
        at: (w % 0x1_0000_0000) as usize,
        items: (w / 0x1_0000_0000 % 0x1_0000) as usize,
        checked: checked_at((w / 0x1_0000_0000_0000 % 0x100) as u8, 0),
    }
}

#[tactic(auto, unfolding(crate::specs::Write::flat_writer))]
pub fn flat_writer(w: Writer) -> FlatWriter
    ensures { result ≡ flat_writer (writing_of w) }
{
    let at = (w.at % 0x1_0000_0000) as u64;
    let items = (w.items % 0x1_0000) as u64;
    let refusal = flat_stop(w.checked) as u64;
    at + items * 0x1_0000_0000 + refusal * 0x1_0000_0000_0000
}
