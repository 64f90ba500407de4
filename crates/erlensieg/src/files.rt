// Session files.
ghost use Rattle.session.specs.Promises.{CheckPromise, FaultPromise, StationPromise, SourcePromise, DayPromise, PassPromise};
ghost use Rattle.writer.specs.Promises.{WritePromise};

use session::{Counts, DayAnswer, PassAnswer, Place, SourceAnswer, StationAnswer};
use whole::Number;

#[unsafe(no_mangle)]
pub extern "C" fn fringe_check(file: &[u8]) -> Counts
    ensures { CheckPromise file.now result }
{
    session::check(file)
}

#[unsafe(no_mangle)]
pub extern "C" fn fringe_fault(file: &[u8]) -> Place
    ensures { FaultPromise file.now result }
{
    session::fault(file)
}

#[unsafe(no_mangle)]
pub extern "C" fn fringe_station_at(file: &[u8], index: usize) -> StationAnswer
    ensures { StationPromise file.now index result }
{
    session::station_at(file, index)
}

#[unsafe(no_mangle)]
pub extern "C" fn fringe_source_at(file: &[u8], index: usize) -> SourceAnswer
    ensures { SourcePromise file.now index result }
{
    session::source_at(file, index)
}

#[unsafe(no_mangle)]
pub extern "C" fn fringe_day_at(file: &[u8], index: usize) -> DayAnswer
    ensures { DayPromise file.now index result }
{
    session::day_at(file, index)
}

#[unsafe(no_mangle)]
pub extern "C" fn fringe_pass_at(file: &[u8], index: usize) -> PassAnswer
    ensures { PassPromise file.now index result }
{
    session::pass_at(file, index)
}

#[unsafe(no_mangle)]
pub extern "C" fn fringe_write(
    day_kind: i64,
    stations: &[i64],
    sources: &[i64],
    days: &[i64],
    passes: &[i64],
    room: &mut [u8],
) -> Number
    ensures { WritePromise day_kind stations.now sources.now days.now passes.now room.old result room.new }
{
    writer::write(day_kind, stations, sources, days, passes, room)
}
