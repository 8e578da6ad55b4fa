// The answer of a writing in numbers.
ghost use Rattle.universal.specs.Refusals.{answer_of};
ghost use Rattle.std.specs.Prelude.{◌≡◌};
ghost use Rattle.fast_mmc.specs.Numbers.{written_numbers};

use universal::SysexError;

// The records here are for C, which has no Option and no Result: a flag or a refusal stands beside the value.

// What a writing answers: refusal 0 and the length; 4 and the needed length; any other refusal and 0.
#[repr(C)]
#[derive(Clone, Copy)]
pub struct WrittenNumbers {
    pub refusal: u8,
    pub length: usize,
}

impl From<Result<usize, SysexError>> for WrittenNumbers {
    ghost from_gives = { λ written n. n ≡ written_numbers (answer_of written) };

    #[tactic(auto, unfolding(crate::specs::Numbers::written_numbers))]
    fn from(written: Result<usize, SysexError>) -> WrittenNumbers {
        match written {
            Ok(length) => WrittenNumbers { refusal: 0, length },
            Err(e) => WrittenNumbers {
                refusal: e.number(),
                length: e.needed(),
            },
        }
    }
}
