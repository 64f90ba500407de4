// The orientation of the earth, delays, and the samples of a pass, from a session file. Document 01, 'Day values' and 'Delay'.
// The arguments of the calls stay parameters, as C gives them: a struct of them would be made in one place and taken apart at each step, and an epoch that is out
// of its range is no `Epoch`.
#![tactic(auto)]

mod keep;
mod pass;
mod records;

ghost use Rattle.std.specs.Prelude.{◌≡◌, IfOk};
ghost use Rattle.whole.specs.Answers.{answer_in};
ghost use Rattle.whole.specs.Refusals.{lower_of, number_in, unless};
ghost use Rattle.sections.specs.File.{refusal_of_rule};
ghost use Rattle.delay.specs.Calls.{asked_ok_rule, epoch_ok_rule, earth_answer_in};
ghost use Rattle.delay.specs.Promises.{OrientationPromise, DelayPromise, SamplesPromise};

use earth::Epoch;
use fields::ranges::{ID, MILLISECOND, MJD, inside};
pub use pass::{SessionPass, sample_epoch};
pub use records::covers;
use records::{earth_in, named_by, sight_in};
use sections::Session;
use wave::delay_seen;
use wave::values::Earth;
use whole::{Number, Refusal};

// As used at an epoch: the pole, UT1-UTC with the tide, and ERA. C has it, so that a refusal's number stands beside the values.
#[repr(C)]
#[derive(Clone, Copy)]
pub struct EarthAnswer {
    pub refusal: i64,
    pub x: i64,
    pub y: i64,
    pub ut1_used: i64,
    pub tick: u32,
}

impl From<Result<Earth, Refusal>> for EarthAnswer {
    ghost from_gives = { λ r a. a ≡ earth_answer_in r };

    fn from(answer: Result<Earth, Refusal>) -> EarthAnswer {
        match answer {
            Ok(e) => EarthAnswer {
                refusal: 0,
                x: e.x,
                y: e.y,
                ut1_used: e.ut1_used,
                tick: e.tick,
            },
            Err(r) => EarthAnswer {
                refusal: r.number(),
                x: 0,
                y: 0,
                ut1_used: 0,
                tick: 0,
            },
        }
    }
}

// The file, where it is accepted and the arguments are in their ranges; else the lower of the two numbers.
fn judged(file: &[u8], ok: bool) -> Result<Session<'_>, Refusal>
    ensures number { number_in result ≡ lower_of (refusal_of_rule file.now) (unless ok 2) }
    ensures session { IfOk result (λ s. s.file.now ≡ file.now) }
{
    match Session::read(file) {
        Err(Refusal::Contents) => Err(Refusal::Contents),
        _ if !ok => Err(Refusal::Range),
        session => session,
    }
}

fn epoch_ok(day: i64, ms: i64) -> bool
    ensures { result ≡ epoch_ok_rule day ms }
{
    inside(MJD, day) && inside(MILLISECOND, ms)
}

fn oriented(file: &[u8], day: i64, ms: i64) -> Result<Earth, Refusal>
    ensures { OrientationPromise file.now day ms (earth_answer_in result) }
{
    let session = judged(file, epoch_ok(day, ms))?;
    earth_in(session, Epoch { day, ms })
}

// The pole, UT1-UTC with the tide, and ERA, as used at an epoch.
pub fn orientation(file: &[u8], day: i64, ms: i64) -> EarthAnswer
    ensures { OrientationPromise file.now day ms result }
{
    oriented(file, day, ms).into()
}

// Whether the three ids and the epoch are in their ranges.
fn asked_ok(station1: i64, station2: i64, source: i64, day: i64, ms: i64) -> bool
    ensures { result ≡ asked_ok_rule station1 station2 source day ms }
{
    inside(ID, station1) && inside(ID, station2) && inside(ID, source) && epoch_ok(day, ms)
}

fn delayed(
    file: &[u8],
    station1: i64,
    station2: i64,
    source: i64,
    day: i64,
    ms: i64,
) -> Result<i64, Refusal>
    ensures { DelayPromise file.now station1 station2 source day ms (answer_in result) }
{
    let ok = asked_ok(station1, station2, source, day, ms);
    let session = judged(file, ok)?;
    let names = named_by(session, station1, station2, source)?;
    let earth = earth_in(session, Epoch { day, ms })?;
    Ok(delay_seen(sight_in(session, names), earth))
}

// The delay in picoseconds, at an epoch, of the stations and the source that the ids name.
pub fn delay(file: &[u8], station1: i64, station2: i64, source: i64, day: i64, ms: i64) -> Number
    ensures { DelayPromise file.now station1 station2 source day ms result }
{
    delayed(file, station1, station2, source, day, ms).into()
}

fn sampled(file: &[u8], pass: usize, room: &mut [i64]) -> Result<i64, Refusal>
    ensures { SamplesPromise file.now pass room.old (answer_in result) room.new }
{
    let p = SessionPass::find(Session::read(file)?, pass)?;
    p.samples(room)?;
    Ok(p.pass.samples)
}

// The samples of a pass, written from the start of the room: for plotting. `fringe::pass_track` goes from the file to the track by itself.
pub fn samples(file: &[u8], pass: usize, room: &mut [i64]) -> Number
    ensures { SamplesPromise file.now pass room.old result room.new }
{
    sampled(file, pass, room).into()
}
