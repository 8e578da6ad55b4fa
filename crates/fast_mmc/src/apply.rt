// The transport. A record for C has numbers alone, so it is made of a call's answer by hand, here and in the modules beside it.
ghost use Rattle.universal.specs.Refusals.{answer_of};
ghost use Rattle.std.specs.Prelude.{◌≡◌};
ghost use Rattle.transport.specs.Transport.{applied_of};
ghost use Rattle.fast_mmc.specs.Apply.{flat_reply, flat_applied};

use fast_mtc::generator::FlatGenerator;
use transport::{Applied, Reply};
use universal::SysexError;

// The generator after a command. Answer 0 is done, 255 for another device, any other number a refusal: 5 or 7.
#[repr(C)]
#[derive(Clone, Copy)]
pub struct FlatApplied {
    pub generator: FlatGenerator,
    pub answer: u8,
}

// No `From` here: neither a number nor an answer is a type of this crate.
#[tactic(auto, unfolding(crate::specs::Apply::flat_reply))]
pub fn flat_reply(answer: Result<Reply, SysexError>) -> u8
    ensures { result ≡ flat_reply (answer_of answer) }
{
    match answer {
        Ok(Reply::Done) => 0,
        Ok(Reply::NotMine) => 255,
        Err(e) => e.number(),
    }
}

impl From<Applied> for FlatApplied {
    ghost from_gives = { λ a f. f ≡ flat_applied (applied_of a) };

    #[tactic(auto, unfolding(crate::specs::Apply::flat_applied))]
    fn from(a: Applied) -> FlatApplied {
        FlatApplied {
            generator: FlatGenerator::from(a.generator),
            answer: flat_reply(a.answer),
        }
    }
}
