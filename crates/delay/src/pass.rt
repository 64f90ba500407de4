// A pass of an accepted file: its samples' epochs, and its samples.
ghost use Rattle.std.specs.Prelude.{◌≡◌, true, ◌++◌, ℕ, ◌<◌, ◌≤◌, ltb, length, drop, IfOk};
ghost use Rattle.whole.specs.Refusals.{number_in, unless};
ghost use Rattle.whole.specs.Values.{first_values};
ghost use Rattle.fields.specs.Records.{InPass};
ghost use Rattle.sections.specs.File.{count_of_rule};
ghost use Rattle.session.specs.Records.{pass_of_rule};
ghost use Rattle.delay.specs.Calls.{all_covered_rule, samples_of};
ghost use Rattle.delay.specs.Keeping.{delay_at_rule, places_of, places_there, lacks_of, room_by_rule};
ghost use Rattle.delay.specs.Sessions.{sample_epoch_rule};

use crate::keep::Kept;
use crate::records::{Places, covers, named_by, sight_in};
use earth::Epoch;
use fields::Pass;
use sections::Session;
use session::records::pass_of;
use wave::Sight;
use whole::Refusal;

// The epoch of sample i of a pass, whatever file has it.
pub fn sample_epoch(p: Pass, i: usize) -> Epoch
    requires { InPass p × (i < 4096) }
    ensures { result ≡ sample_epoch_rule p i }
{
    let start = Epoch {
        day: p.mjd,
        ms: p.ms,
    };
    start.later(i as i64 * p.step)
}

// A pass of an accepted file, so that each of its fields is in its range.
#[derive(Clone, Copy)]
pub struct SessionPass<'a> {
    pub session: Session<'a>,
    pub pass: Pass,
    pub ghost in_ranges: { InPass pass },
}

impl<'a> SessionPass<'a> {
    // The pass with this index.
    pub fn at(session: Session<'a>, i: usize) -> SessionPass<'a>
        requires { i < count_of_rule session.file.now 3 }
        ensures { (result.session.file.now ≡ session.entry.file.now) × (result.pass ≡ pass_of_rule session.entry.file.now i) }
    {
        SessionPass {
            session,
            pass: pass_of(session, i),
        }
    }

    // The pass with this index; refused beyond the last.
    pub fn find(session: Session<'a>, i: usize) -> Result<SessionPass<'a>, Refusal>
        ensures number { number_in result ≡ unless (ltb i (count_of_rule session.entry.file.now 3)) 5 }
        ensures pass { IfOk result (λ p. (p.session.file.now ≡ session.entry.file.now) × (p.pass ≡ pass_of_rule session.entry.file.now i)) }
    {
        if session.count(3) <= i {
            return Err(Refusal::Absent);
        }
        Ok(SessionPass::at(session, i))
    }

    // The epoch of sample i.
    pub fn epoch(self, i: usize) -> Epoch
        requires { i < 4096 }
        ensures { result ≡ sample_epoch_rule self.entry.pass i }
    {
        sample_epoch(self.pass, i)
    }

    // Whether the file covers every sample's epoch. Its days follow one another, so that the first sample and the last tell.
    fn all_covered(self) -> bool
        ensures { result ≡ all_covered_rule self.entry.session.file.now self.entry.pass }
    {
        let n = self.pass.samples as usize;
        let last = self.epoch(n - 1);
        covers(self.session, self.pass.mjd) && covers(self.session, last.day)
    }

    // Where the records that the pass names stand; refused where the file lacks one of them or a sample's day, or the room is too small for the samples.
    pub fn places(self, room: usize) -> Result<Places, Refusal>
        ensures number { number_in result ≡ lacks_of self.entry.session.file.now self.entry.pass room }
        ensures places { IfOk result (λ n. n ≡ places_of self.entry.session.file.now self.entry.pass) }
    {
        let p = self.pass;
        let n = named_by(self.session, p.station1, p.station2, p.source)?;
        if !self.all_covered() {
            return Err(Refusal::Uncovered);
        }
        if room < p.samples as usize {
            return Err(Refusal::Room);
        }
        Ok(n)
    }

    // The samples along the sight of the pass, written from the start of the room.
    fn write_samples(self, v: Sight, room: &mut [i64])
        requires covered { all_covered_rule self.session.file.now self.pass ≡ true }
        requires room { samples_of self.pass ≤ length room.old }
        ensures { room.new ≡ first_values (samples_of self.entry.pass) (λ (j : ℕ). delay_at_rule self.entry.session.file.now v (sample_epoch_rule self.entry.pass j)) ++ drop (samples_of self.entry.pass) room.old }
    {
        let mut kept = Kept::from(self.session, self.pass.mjd);
        for i in 0..self.pass.samples as usize {
            let (delay, next) = kept.delay_at(v, self.epoch(i));
            room[i] = delay;
            kept = next;
        }
    }

    // Writes the samples from the start of the room, unless the file lacks something for them.
    pub fn samples(self, room: &mut [i64]) -> Result<(), Refusal>
        ensures number { number_in result ≡ lacks_of self.entry.session.file.now self.entry.pass (length room.old) }
        ensures room { room.new ≡ room_by_rule self.entry.session.file.now self.entry.pass room.old (number_in result) }
    {
        let n = self.places(room.len())?;
        self.write_samples(sight_in(self.session, n), room);
        Ok(())
    }
}
