//! Calls that are counted from 1, some of which are to fail: what the store and the sink in memory
//! that can fail share.
ghost use Rattle.std.specs.Prelude.{◌≡◌, ◌≤◌, OnOk, OnErr};
ghost use Rattle.hp_outside.specs.Calls.{no_calls, fail_also_at, next_fails, after_call};

use hp_num::NoMemory;
use std::alloc::Global;
use std::marker::Model;

/// A count of calls and of the faults among them, and the numbers of the calls that are to fail.
#[derive(Drop)]
pub(crate) struct CallCounter {
    failing: Vec<u64>,
    count: u64,
    faults: u64,
}

impl Model for CallCounter {
    ghost use Rattle.hp_outside.specs.Calls.{Calls, calls_code};

    ghost Value = { Calls };

    ghost coded = { calls_code };

    ghost view = { λ c. record { failing = c.failing.items; count = c.count; faults = c.faults } };
}

impl CallCounter {
    pub(crate) fn new(alloc: Global) -> CallCounter
        ensures { result ≡ no_calls }
    {
        CallCounter {
            failing: Vec::new(alloc),
            count: 0,
            faults: 0,
        }
    }

    /// Names one more call that is to fail.
    pub(crate) fn fail_at(&mut self, call: u64) -> Result<(), NoMemory>
        ensures named { OnOk result (self.new ≡ fail_also_at self.old call) }
        ensures kept { OnErr result (self.new ≡ self.old) }
    {
        self.failing.push(call)?;
        Ok(())
    }

    /// Whether the next call is to fail.
    pub(crate) fn next_fails(&self) -> bool
        ensures { result ≡ next_fails self.now }
    {
        let number = self.count.saturating_add(1);
        self.failing.iter().any(|failing| *failing == number)
    }

    /// Counts a call, and a fault where it is one.
    pub(crate) fn count_call(&mut self, is_fault: bool)
        ensures counted { self.new ≡ after_call self.old is_fault }
        ensures faults { self.old.faults ≤ self.new.faults }
    {
        self.count = self.count.saturating_add(1);
        if is_fault {
            self.faults = self.faults.saturating_add(1);
        }
    }
}
