//! Which workers have ended. What they did is no part of it.
ghost use Rattle.std.specs.Prelude.{◌≡◌, ◌+◌};
ghost use Rattle.recorder.specs.Ending.{HaveEnded};

/// That the workers from a number on and below an end have ended, and none of them for want of memory. The last hold of a worker
/// gives its own, and that of two halves is made of theirs.
#[derive(Drop)]
pub struct Ended {
    pub first: u32,
    pub end: u64,
}

impl Ended {
    /// That of no worker, in front of the one with this number.
    pub fn none(next: u32) -> Ended
        ensures { HaveEnded next next result }
    {
        Ended {
            first: next,
            end: u64::from(next),
        }
    }

    /// That of one worker.
    pub fn one(worker: u32) -> Ended
        ensures { HaveEnded worker (worker + 1) result }
    {
        Ended {
            first: worker,
            end: u64::from(worker) + 1,
        }
    }

    /// That of two halves, of which the other begins where this one ends.
    pub fn and(self, other: Ended) -> Ended
        requires { self.end ≡ other.first }
        ensures { HaveEnded self.first other.end result }
    {
        Ended {
            first: self.first,
            end: other.end,
        }
    }
}
