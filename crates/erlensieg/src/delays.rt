// Orientation, delays, and the samples of a pass.
ghost use Rattle.delay.specs.Promises.{OrientationPromise, DelayPromise, SamplesPromise};

use delay::EarthAnswer;
use whole::Number;

#[unsafe(no_mangle)]
pub extern "C" fn fringe_orientation(file: &[u8], day: i64, ms: i64) -> EarthAnswer
    ensures { OrientationPromise file.now day ms result }
{
    delay::orientation(file, day, ms)
}

#[unsafe(no_mangle)]
pub extern "C" fn fringe_delay(
    file: &[u8],
    station1: i64,
    station2: i64,
    source: i64,
    day: i64,
    ms: i64,
) -> Number
    ensures { DelayPromise file.now station1 station2 source day ms result }
{
    delay::delay(file, station1, station2, source, day, ms)
}

#[unsafe(no_mangle)]
pub extern "C" fn fringe_samples(file: &[u8], pass: usize, room: &mut [i64]) -> Number
    ensures { SamplesPromise file.now pass room.old result room.new }
{
    delay::samples(file, pass, room)
}
