// The quarter frame generator.
ghost use Rattle.std.specs.Prelude.{◌≡◌};
ghost use Rattle.mtc.specs.Generator.{next_byte, after_next_byte, started, with_running, with_direction, located};
ghost use Rattle.fast_mtc.specs.Time.{time_of, flat_time};
ghost use Rattle.fast_mtc.specs.Generator.{generator_of, flat_generator, generator_in, flat_byte};

use fast_mtc::generator::{FlatByte, FlatGenerator, next_byte};
use fast_mtc::time::FlatTime;
use mtc::{Direction, MtcGenerator, MtcTime};

// `MtcGenerator::new`, forward: a running generator, whose first sequence encodes the time.
pub fn fimbrast_generator_forward(time: FlatTime) -> FlatGenerator
    ensures { result ≡ flat_generator (started (time_of time) Direction.Forward) }
{
    FlatGenerator::from(MtcGenerator::new(MtcTime::from(time), Direction::Forward))
}

// The same in reverse.
pub fn fimbrast_generator_reverse(time: FlatTime) -> FlatGenerator
    ensures { result ≡ flat_generator (started (time_of time) Direction.Reverse) }
{
    FlatGenerator::from(MtcGenerator::new(MtcTime::from(time), Direction::Reverse))
}

// `MtcGenerator::next_byte`: the next data byte, or refusal 8 and byte 0 while stopped.
pub fn fimbrast_next_byte(generator: &mut [u8; 8]) -> FlatByte
    ensures { (result ≡ flat_byte (next_byte (generator_in generator.old))) × (generator_in generator.new ≡ after_next_byte (generator_in generator.old)) }
{
    next_byte(generator)
}

// `MtcGenerator::set_running`: runs or stops it.
pub fn fimbrast_set_running(generator: FlatGenerator, running: bool) -> FlatGenerator
    ensures { result ≡ flat_generator (with_running (generator_of generator) running) }
{
    FlatGenerator::from(MtcGenerator::from(generator).set_running(running))
}

// `MtcGenerator::set_direction`, forward. The next piece is the one beside the last in that direction.
pub fn fimbrast_set_forward(generator: FlatGenerator) -> FlatGenerator
    ensures { result ≡ flat_generator (with_direction (generator_of generator) Direction.Forward) }
{
    FlatGenerator::from(MtcGenerator::from(generator).set_direction(Direction::Forward))
}

// The same in reverse.
pub fn fimbrast_set_reverse(generator: FlatGenerator) -> FlatGenerator
    ensures { result ≡ flat_generator (with_direction (generator_of generator) Direction.Reverse) }
{
    FlatGenerator::from(MtcGenerator::from(generator).set_direction(Direction::Reverse))
}

// `MtcGenerator::locate`: moves to the time. The next piece is the first of the direction.
pub fn fimbrast_locate(generator: FlatGenerator, time: FlatTime) -> FlatGenerator
    ensures { result ≡ flat_generator (located (generator_of generator) (time_of time)) }
{
    FlatGenerator::from(MtcGenerator::from(generator).locate(MtcTime::from(time)))
}

// `MtcGenerator::time`: what the current or next sequence encodes.
pub fn fimbrast_generator_time(generator: FlatGenerator) -> FlatTime
    ensures { result ≡ flat_time (generator_of generator).time }
{
    FlatTime::from(MtcGenerator::from(generator).time())
}
