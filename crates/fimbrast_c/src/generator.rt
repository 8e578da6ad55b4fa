// The quarter frame generator.
ghost use Rattle.std.specs.Prelude.{◌≡◌};
ghost use Rattle.mtc.specs.Generator.{next_byte, after_next_byte, started, with_running, with_direction, located};
ghost use Rattle.fast_mtc.specs.Time.{time_of, flat_time};
ghost use Rattle.fast_mtc.specs.Generator.{generator_of, flat_generator, generator_in, flat_byte};

use fast_mtc::generator::{FlatByte, FlatGenerator};
use fast_mtc::time::FlatTime;
use mtc::Direction;

// `MtcGenerator::new`, forward: a running generator, whose first sequence encodes the time.
#[unsafe(no_mangle)]
pub extern "C" fn fimbrast_generator_forward(time: FlatTime) -> FlatGenerator
    ensures { result ≡ flat_generator (started (time_of time) Direction.Forward) }
{
    fimbrast::generator::fimbrast_generator_forward(time)
}

// The same in reverse.
#[unsafe(no_mangle)]
pub extern "C" fn fimbrast_generator_reverse(time: FlatTime) -> FlatGenerator
    ensures { result ≡ flat_generator (started (time_of time) Direction.Reverse) }
{
    fimbrast::generator::fimbrast_generator_reverse(time)
}

// `MtcGenerator::next_byte`: the next data byte, or refusal 8 and byte 0 while stopped.
#[unsafe(no_mangle)]
pub extern "C" fn fimbrast_next_byte(generator: &mut [u8; 8]) -> FlatByte
    ensures { (result ≡ flat_byte (next_byte (generator_in generator.old))) × (generator_in generator.new ≡ after_next_byte (generator_in generator.old)) }
{
    fimbrast::generator::fimbrast_next_byte(generator)
}

// `MtcGenerator::set_running`: runs or stops it.
#[unsafe(no_mangle)]
pub extern "C" fn fimbrast_set_running(generator: FlatGenerator, running: bool) -> FlatGenerator
    ensures { result ≡ flat_generator (with_running (generator_of generator) running) }
{
    fimbrast::generator::fimbrast_set_running(generator, running)
}

// `MtcGenerator::set_direction`, forward. The next piece is the one beside the last in that direction.
#[unsafe(no_mangle)]
pub extern "C" fn fimbrast_set_forward(generator: FlatGenerator) -> FlatGenerator
    ensures { result ≡ flat_generator (with_direction (generator_of generator) Direction.Forward) }
{
    fimbrast::generator::fimbrast_set_forward(generator)
}

// The same in reverse.
#[unsafe(no_mangle)]
pub extern "C" fn fimbrast_set_reverse(generator: FlatGenerator) -> FlatGenerator
    ensures { result ≡ flat_generator (with_direction (generator_of generator) Direction.Reverse) }
{
    fimbrast::generator::fimbrast_set_reverse(generator)
}

// `MtcGenerator::locate`: moves to the time. The next piece is the first of the direction.
#[unsafe(no_mangle)]
pub extern "C" fn fimbrast_locate(generator: FlatGenerator, time: FlatTime) -> FlatGenerator
    ensures { result ≡ flat_generator (located (generator_of generator) (time_of time)) }
{
    fimbrast::generator::fimbrast_locate(generator, time)
}

// `MtcGenerator::time`: what the current or next sequence encodes.
#[unsafe(no_mangle)]
pub extern "C" fn fimbrast_generator_time(generator: FlatGenerator) -> FlatTime
    ensures { result ≡ flat_time (generator_of generator).time }
{
    fimbrast::generator::fimbrast_generator_time(generator)
}
