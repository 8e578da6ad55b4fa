// The transport, given a whole string.
ghost use Rattle.std.specs.Prelude.{◌≡◌};
ghost use Rattle.transport.specs.Demand3.{obey};
ghost use Rattle.fast_mtc.specs.Generator.{generator_of};
ghost use Rattle.fimbrast.specs.Obey.{flat_run};

use fast_mtc::generator::FlatGenerator;
use fimbrast::obey::FlatRun;

// `obey`: a message's data, read from the front to its end, each command applied as it is read, as by `fimbrast_apply`.
#[unsafe(no_mangle)]
pub extern "C" fn fimbrast_obey(
    generator: FlatGenerator,
    device_id: u8,
    own: u8,
    body: &[u8],
) -> FlatRun
    ensures { result ≡ flat_run (obey body.now device_id own (generator_of generator)) }
{
    fimbrast::obey::fimbrast_obey(generator, device_id, own, body)
}
