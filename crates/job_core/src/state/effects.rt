// What each step changes.
ghost use Rattle.std.specs.Prelude.{◌≡◌, ◌<◌, true, length};
ghost use Rattle.job_core.specs.Machine.{is_in_range, after};
ghost use Rattle.job_core.specs.declared.JobStep.TheVariants.{Take, Fail, Look, Skip, Turn, Enter, Close};

use super::JobState;
use crate::JobStep;
use crate::place::Place;

impl JobState {
    /// Makes a step that is allowed.
    pub(super) fn make(&mut self, step: JobStep)
        requires { is_in_range self.old step ≡ true }
        ensures { self.new ≡ after self.old step }
    {
        match step {
            JobStep::Take { seat, piece } => self.take(seat, piece),
            JobStep::Fail { seat: _, piece } => self.fail(piece),
            JobStep::Look { seat } => self.look(seat),
            JobStep::Skip { seat: _, piece } => self.skip(piece),
            JobStep::Turn { seat, shard } => self.turn(seat, shard),
            JobStep::Enter {
                seat: _,
                shard,
                piece,
            } => self.enter(shard, piece),
            JobStep::Close => self.close(),
        }
    }

    fn take(&mut self, seat: u32, piece: u32)
        requires { piece < length self.old.fails }
        ensures { self.new ≡ after self.old (Take seat piece) }
    {
        self.places[piece as usize] = Place::Held { seat };
    }

    fn fail(&mut self, piece: u32)
        requires { piece < length self.old.fails }
        ensures { self.new ≡ after self.old (Fail 0 piece) }
    {
        self.places[piece as usize] = Place::Reported;
        self.least = self.least.min(piece);
    }

    fn look(&mut self, seat: u32)
        requires { seat < length self.old.seen }
        ensures { self.new ≡ after self.old (Look seat) }
    {
        self.seen[seat as usize] = self.least;
    }

    fn skip(&mut self, piece: u32)
        requires { piece < length self.old.fails }
        ensures { self.new ≡ after self.old (Skip 0 piece) }
    {
        self.places[piece as usize] = Place::Skipped;
    }

    fn turn(&mut self, seat: u32, shard: u32)
        requires { shard < length self.old.turns }
        ensures { self.new ≡ after self.old (Turn seat shard) }
    {
        self.turns[shard as usize] = Some(seat);
    }

    fn enter(&mut self, shard: u32, piece: u32)
        requires shard { shard < length self.old.turns }
        requires piece { piece < length self.old.fails }
        ensures { self.new ≡ after self.old (Enter 0 shard piece) }
    {
        self.turns[shard as usize] = None;
        let row = &mut self.entered[shard as usize];
        row[piece as usize] = true;
    }

    fn close(&mut self)
        ensures { self.new ≡ after self.old Close }
    {
        self.closed = true;
    }
}
