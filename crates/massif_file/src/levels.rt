//! The levels of a tree whose lines come one by one: how many lines are still to come at each level.
//! It knows no line but for the number of its children.
ghost use Rattle.std.specs.Prelude.{◌≡◌, ◌<◌, ◌^◌, [], ◌∷◌, length, reverse, OnOk};
ghost use Rattle.massif_file.specs.Levels.{after_line, without_done};

use hp_num::NoMemory;
use std::alloc::Global;
use std::marker::Model;

/// The lines that are still to come at each level. Contracts see them from the innermost level outwards.
#[derive(Drop)]
pub struct Levels {
    // From the root's level inwards.
    to_come: Vec<u32>,
}

impl Model for Levels {
    ghost use Rattle.std.specs.Prelude.{List, ℕ, reverse};

    ghost Value = { List ℕ };

    ghost view = { λ levels. reverse levels.to_come.items };
}

impl Levels {
    /// No line is to come.
    pub fn new(alloc: Global) -> Levels
        ensures { result ≡ [] }
    {
        Levels {
            to_come: Vec::new(alloc),
        }
    }

    /// One line is to come, the root.
    pub fn begin(&mut self) -> Result<(), NoMemory>
        ensures { OnOk result (self.new ≡ 1 ∷ []) }
    {
        self.to_come.clear();
        self.to_come.push(1)?;
        Ok(())
    }

    /// How many levels are open: one more than the level of the line that comes next, and 0 where none is to come.
    pub fn len(&self) -> usize
        ensures count { result ≡ length self.now }
        ensures few { result < 2 ^ 63 }
    {
        self.to_come.len()
    }

    /// A line with so many children has come.
    pub fn line(&mut self, children: u32) -> Result<(), NoMemory>
        ensures { OnOk result (self.new ≡ after_line children self.old) }
    {
        if let Some(count) = self.to_come.pop() {
            self.to_come.push(count.saturating_sub(1))?;
            self.to_come.push(children)?;
            drop_done(&mut self.to_come);
        }
        Ok(())
    }
}

/// Ends the innermost levels at which no line is to come.
fn drop_done(to_come: &mut Vec<u32>)
    ensures { reverse to_come.new.items ≡ without_done (reverse to_come.old.items) }
{
    'levels: while let Some(0) = to_come.last() {
        to_come.pop();
    }
}
