// The refusal of a check as a number: 0 is none.
ghost use Rattle.std.specs.Prelude.{◌≡◌};
ghost use Rattle.mmc.specs.Named.{stop_of};
ghost use Rattle.fast_mmc.specs.Refusal.{flat_stop};

use universal::SysexError;

// The number of a check's refusal, 0 where it was accepted: no `From`, as neither is a type of this crate.
#[tactic(auto, unfolding(crate::specs::Refusal::flat_stop))]
pub fn flat_stop(checked: Result<(), SysexError>) -> u8
    ensures { result ≡ flat_stop (stop_of checked) }
{
    match checked {
        Ok(()) => 0,
        Err(e) => e.number(),
    }
}
