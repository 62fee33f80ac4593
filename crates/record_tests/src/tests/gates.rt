//! The gate of all runs.

use recorder::Gate;
use std::sync::atomic::{AtomicBool, AtomicU64, Ordering};

/// How often a gate looks before it lets go.
const MOST_LOOKS: u64 = 1_000_000_000;

/// No workers.
pub const NOBODY: u32 = 0;

/// A gate at which so many workers meet: it keeps each of them from its second hold until all have come to theirs, or until it has
/// looked often enough. It counts the holds of workers 0 to 7, each of which has to come with the numbers from 0 on.
#[derive(Drop)]
pub struct Watch {
    meeting: u32,
    came: AtomicU64,
    is_parted: AtomicBool,
    holds: [AtomicU64; 8],
    is_out_of_order: AtomicBool,
}

impl Watch {
    /// A gate at which so many workers meet. At that of nobody none waits.
    pub fn of(meeting: u32) -> Watch {
        Watch {
            meeting,
            came: AtomicU64::new(0),
            is_parted: AtomicBool::new(false),
            holds: [
                AtomicU64::new(0),
                AtomicU64::new(0),
                AtomicU64::new(0),
                AtomicU64::new(0),
                AtomicU64::new(0),
                AtomicU64::new(0),
                AtomicU64::new(0),
                AtomicU64::new(0),
            ],
            is_out_of_order: AtomicBool::new(false),
        }
    }

    /// Whether all that were to meet have come, and none of them went on before.
    pub fn has_met(&self) -> bool {
        !self.is_parted.load(Ordering::SeqCst)
            && self.came.load(Ordering::SeqCst) == u64::from(self.meeting)
    }

    /// Whether each of the first workers came to so many holds, with the numbers from 0 on, and no other worker came.
    pub fn has_counted(&self, workers: u32, holds: u64) -> bool {
        for worker in 0..8u32 {
            let due = if worker < workers { holds } else { 0 };
            if self.holds[worker as usize].load(Ordering::SeqCst) != due {
                return false;
            }
        }
        !self.is_out_of_order.load(Ordering::SeqCst)
    }

    fn meet(&self) {
        self.came.fetch_add(1, Ordering::SeqCst);
        for _ in 0..MOST_LOOKS {
            if self.came.load(Ordering::SeqCst) >= u64::from(self.meeting) {
                return;
            }
        }
        self.is_parted.store(true, Ordering::SeqCst);
    }

    /// Keeps the number of a worker's hold.
    fn count(&self, worker: u32, hold: u64) {
        let due = match self.holds.get(worker as usize) {
            Some(holds) => holds.fetch_add(1, Ordering::SeqCst),
            None => u64::MAX,
        };
        if hold != due {
            self.is_out_of_order.store(true, Ordering::SeqCst);
        }
    }
}

impl Gate for Watch {
    fn before(&self, worker: u32, hold: u64) {
        self.count(worker, hold);
        if self.meeting > 0 && hold == 1 {
            self.meet();
        }
    }
}
