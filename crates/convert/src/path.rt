//! The lines of a tree from its root down to the one that is read: their labels, and how many lines are to come below each.
ghost use Rattle.std.specs.Prelude.{◌≡◌, drop, map, OnOk};
ghost use Rattle.convert.specs.Levels.{Enters, TakesOne};

use hp_num::NoMemory;

/// A line above or at the one that is read.
#[derive(Clone, Copy)]
pub(crate) struct Level {
    /// The number of its label's text.
    pub(crate) label: usize,
    /// How many of its children are still to come.
    pub(crate) to_come: u32,
}

/// Takes a line with this label and so many children: `levels` are then those from the root down to it.
pub(crate) fn enter(levels: &mut Vec<Level>, label: usize, children: u32) -> Result<(), NoMemory>
    ensures entered { OnOk result (Enters label children levels.old.items levels.new.items) }
{
    take_one(levels)?;
    levels.push(Level {
        label,
        to_come: children,
    })?;
    Ok(())
}

/// Ends the innermost levels at which no line is to come; at the next one outwards, one less is.
fn take_one(levels: &mut Vec<Level>) -> Result<(), NoMemory>
    ensures taken { OnOk result (TakesOne levels.old.items levels.new.items) }
{
    'levels: while let Some(Level { label, to_come }) = levels.pop() {
        if to_come > 0 {
            levels.push(Level {
                label,
                to_come: to_come - 1,
            })?;
            return Ok(());
        }
    }
    Ok(())
}

/// Replaces `list` by the labels of the levels below the root.
pub(crate) fn labels_into(levels: &[Level], list: &mut Vec<usize>) -> Result<(), NoMemory>
    ensures labels { OnOk result (list.new.items ≡ drop 1 (map (λ level. level.label) levels.now)) }
{
    list.clear();
    let Some((_root, below)) = levels.split_first() else {
        return Ok(());
    };
    'each_level: for level in below {
        list.push(level.label)?;
    }
    Ok(())
}
