// The transport, given a whole string.
ghost use Rattle.std.specs.Prelude.{◌≡◌};
ghost use Rattle.transport.specs.Demand3.{obey};
ghost use Rattle.transport.specs.Obey.{obeyed_of};
ghost use Rattle.fast_mtc.specs.Generator.{generator_of};
ghost use Rattle.fimbrast.specs.Obey.{flat_summary, flat_run};

use fast_mtc::generator::FlatGenerator;
use mtc::MtcGenerator;
use transport::{Obeyed, obey};

// The generator after all commands of a string, how many were read, how many of those were refused, and the refusal that ended the
// reading: 9 at the end, 2 where the string is cut short.
#[repr(C)]
#[derive(Clone, Copy)]
pub struct FlatRun {
    pub generator: FlatGenerator,
    pub commands: usize,
    pub refused: usize,
    pub stop: u8,
}

// What became of a message's data, in numbers.
impl From<Obeyed> for FlatRun {
    ghost from_gives = { λ run f. f ≡ flat_summary (obeyed_of run) };

    #[tactic(auto, unfolding(crate::specs::Obey::flat_summary))]
    fn from(run: Obeyed) -> FlatRun {
        FlatRun {
            generator: FlatGenerator::from(run.generator),
            commands: run.commands,
            refused: run.refused,
            stop: run.stop.number(),
        }
    }
}

// `obey`: a message's data, read from the front to its end, each command applied as it is read, as by `fimbrast_apply`.
pub fn fimbrast_obey(generator: FlatGenerator, device_id: u8, own: u8, body: &[u8]) -> FlatRun
    ensures { result ≡ flat_run (obey body.now device_id own (generator_of generator)) }
{
    FlatRun::from(obey(MtcGenerator::from(generator), device_id, own, body))
}
