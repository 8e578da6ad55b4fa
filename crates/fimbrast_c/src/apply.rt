// The transport.
ghost use Rattle.std.specs.Prelude.{◌≡◌};
ghost use Rattle.transport.specs.Transport.{applied};
ghost use Rattle.fast_mtc.specs.Generator.{generator_of};
ghost use Rattle.fast_mmc.specs.String.{command_of};
ghost use Rattle.fast_mmc.specs.Apply.{flat_applied};

use fast_mmc::apply::FlatApplied;
use fast_mmc::string::FlatCommand;
use fast_mtc::generator::FlatGenerator;

// `apply`: one command of a message for `device_id`, to the generator of the device `own`. A negative Locate target is counted back from
// midnight.
#[unsafe(no_mangle)]
pub extern "C" fn fimbrast_apply(
    generator: FlatGenerator,
    device_id: u8,
    own: u8,
    command: FlatCommand,
) -> FlatApplied
    ensures { result ≡ flat_applied (applied (generator_of generator) device_id own (command_of command)) }
{
    fimbrast::apply::fimbrast_apply(generator, device_id, own, command)
}
