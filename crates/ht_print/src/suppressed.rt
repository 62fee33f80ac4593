//! Which stacks are suppressed: those of which a frame's text has one of the trace's patterns in it.
//! A stack's answer is that of its own instruction, or else that of the stack that it is called from.
ghost use Rattle.std.specs.Prelude.{◌≡◌, ◌+◌, ◌≤◌, ◌<◌, length, map, IfOk, Some, slice_get};
ghost use Rattle.std.specs.List.{range_with_len};
ghost use Rattle.ht_print.specs.MetFrames.{AreMet};
ghost use Rattle.ht_print.specs.Suppressed.{is_suppressed, suppressed_stacks};

use crate::met_frames::MetFrames;
use hp_num::NoMemory;
use ht_trace::Tables;
use std::alloc::Global;
use std::marker::Model;

/// For each stack of a trace whether it is suppressed. Contracts see the list of these answers.
#[derive(Drop)]
pub struct Suppressed {
    stacks: Vec<bool>,
}

impl Model for Suppressed {
    ghost use Rattle.std.specs.Prelude.{Bool, List};

    ghost Value = { List Bool };

    ghost view = { λ suppressed. suppressed.stacks.items };
}

impl Suppressed {
    /// Which stacks of the tables are suppressed by their patterns, or `NoMemory`. Where there is no pattern, no text of
    /// a frame is made.
    pub fn build(alloc: Global, tables: &Tables) -> Result<Suppressed, NoMemory>
        ensures stacks { IfOk result (λ suppressed. suppressed ≡ suppressed_stacks tables.now) }
        ensures count { IfOk result
            (λ suppressed. length suppressed ≡ length tables.now.nodes + 1) }
    {
        let stacks = suppressed_stacks(alloc, tables)?;
        Ok(Suppressed { stacks })
    }

    /// Whether the stack, which must be one of the trace's, is suppressed.
    pub fn has(&self, stack: u32) -> bool
        requires { stack < length self.now }
        ensures { slice_get self.now stack ≡ Some result }
    {
        self.stacks[stack as usize]
    }
}

fn suppressed_stacks(alloc: Global, tables: &Tables) -> Result<Vec<bool>, NoMemory>
    ensures { IfOk result (λ stacks. stacks.items ≡ suppressed_stacks tables.now) }
{
    let count = tables.stacks() as usize;
    if tables.suppressions() == 0 {
        return Ok(vec![in alloc; false; count]?);
    }
    let met = MetFrames::of(alloc, tables)?;
    let mut stacks = Vec::with_capacity(alloc, count)?;
    'each_stack: for stack in 0..tables.stacks() {
        stacks.push(is_suppressed(tables, &met, &stacks, stack))?;
    }
    Ok(stacks)
}

/// Whether the stack is suppressed, by the answers for the stacks before it.
fn is_suppressed(tables: &Tables, met: &MetFrames, before: &[bool], stack: u32) -> bool
    requires held { stack ≤ length tables.now.nodes }
    requires met { AreMet tables.now met.now }
    requires before { before.now ≡ map (is_suppressed tables.now) (range_with_len 0 stack) }
    ensures { result ≡ is_suppressed tables.now stack }
{
    let Some((instruction, caller)) = tables.node(stack) else {
        return met.no_stack;
    };
    if met.instructions[instruction as usize] {
        return true;
    }
    if caller == 0 {
        return false;
    }
    before[caller as usize]
}
