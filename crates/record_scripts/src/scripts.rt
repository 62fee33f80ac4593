//! The scripts of all threads, and the modules, by the lines of their files. The order in which the threads take their
//! turns is no part of it.
ghost use Rattle.std.specs.Prelude.{◌≡◌, ◌-◌, ◌^◌, ◌<◌, ◌≤◌, ◌↔◌, [], ◌∷◌, ◌++◌, length, None, Some, IsTrue, IfErr, IfOk, IfSome, OnOk, OnErr, option_map, ℕ, List};
ghost use Rattle.std.specs.Arc.{arc_value};
ghost use Rattle.stack_table.specs.Stack.{stack};
ghost use Rattle.record_scripts.specs.Events.{event_count};
ghost use Rattle.record_scripts.specs.Job.{IsSameWork, Job};
ghost use Rattle.record_scripts.specs.Playable.{IsPlayable};
ghost use Rattle.record_scripts.specs.ModuleLines.{AreModuleLines};
ghost use Rattle.record_scripts.specs.ScriptFaults.{JudgesTurn, Tells, line_fault, module_fault, turn_fault, with_line, with_module_line, with_turn};
ghost use Rattle.record_scripts.specs.ScriptNodes.{nodes_in};
ghost use Rattle.record_scripts.specs.ScriptTurns.{turn_at, turn_by, turn_with};
ghost use Rattle.record_scripts.specs.Turns.{IsBounded, frees};
ghost use Rattle.record_scripts.specs.declared.script_line.ScriptLine.TheVariants.{Allocation as AllocationLine, Reallocation as ReallocationLine};

use crate::fault::ScriptFault;
use crate::live_ids::LiveIds;
use crate::module_text::ModuleText;
use crate::script::{Script, are_kept_as, push_turn, reserve_turn, turn_at};
use crate::script_line::{ScriptLine, is_skipped, read_script_line};
use crate::stacks::{Stacks, are_same_nodes};
use crate::turn_entry::TurnEntry;
use hp_num::NoMemory;
use std::alloc::Global;
use std::marker::Model;
use std::sync::Arc;

/// The scripts of all threads, and the modules: they stand for the lines that were read so far.
///
/// Contracts see it as how many events there may be, the text of the modules, and the list of the scripts.
#[derive(Drop)]
pub struct Scripts {
    limit: u64,
    events: u64,
    modules: ModuleText,
    stacks: Stacks,
    scripts: Vec<Script>,
    // The IDs that are live in the last script.
    live: LiveIds,
    // The ips of a line that is read.
    ips: Vec<u64>,
    alloc: Global,
}

impl Model for Scripts {
    ghost use Rattle.record_scripts.specs.Job.{Job};
    ghost use Rattle.record_scripts.specs.LiveIds.{has_id};
    ghost use Rattle.record_scripts.specs.ScriptTurns.{AreScripts, scripts_kept};

    ghost Value = { Job };

    ghost view = { λ t. record {
      limit = t.limit;
      modules = t.modules;
      scripts = scripts_kept t.stacks t.scripts.items;
    } };

    ghost invariant = { λ t.
        AreScripts t.stacks t.scripts.items (has_id t.live) t.events t.limit };
}

impl Scripts {
    /// No scripts and no modules. All scripts together may have up to `order` events, a number below 2^24. It takes no
    /// memory; that of the scripts to come is taken from `alloc`.
    #[tactic(auto, unfolding(crate::specs::ScriptNodes::nodes_in))]
    pub fn new(alloc: Global, order: u64) -> Scripts
        requires { order < 2 ^ 24 }
        ensures empty { result ≡ record { limit = order; modules = []; scripts = [] } }
    {
        Scripts {
            limit: order,
            events: 0,
            modules: ModuleText::new(alloc),
            stacks: Stacks::new(alloc),
            scripts: Vec::new(alloc),
            live: LiveIds::none(alloc),
            ips: Vec::new(alloc),
            alloc,
        }
    }

    /// Reads the next line of a modules file, without its line feed, of fewer than 2^32 bytes. Empty lines and lines that
    /// begin with `#` say nothing.
    ///
    /// - `BadScriptLine` exactly where it has a line feed, or is neither the line of a module nor one that clears all modules,
    ///   by the grammar of traces in file version 2;
    /// - `NoMemory` only where memory is wanting.
    ///
    /// After a fault the scripts and the modules are as before.
    pub fn module_line(&mut self, line: &[u8]) -> Result<(), ScriptFault>
        requires { length line.now < 2 ^ 32 }
        ensures taken { OnOk result (self.new ≡ with_module_line self.old line.now) }
        ensures no_fault { OnOk result (module_fault line.now ≡ None) }
        ensures fault { IfErr result (λ fault. Tells fault (module_fault line.now)) }
        ensures unchanged { OnErr result (self.new ≡ self.old) }
    {
        if is_skipped(line) {
            return Ok(());
        }
        self.modules.add(line)
    }

    /// Opens the script of the next thread, of which there are fewer than 64 before, and answers the thread's number,
    /// from 0. On `NoMemory` the scripts are as before.
    pub fn begin(&mut self) -> Result<u32, NoMemory>
        requires { length self.old.scripts < 64 }
        ensures begun { OnOk result
            (self.new ≡ record self.old { scripts = self.old.scripts ++ [] ∷ [] }) }
        ensures number { IfOk result (λ thread. thread ≡ length self.old.scripts) }
        ensures unchanged { OnErr result (self.new ≡ self.old) }
    {
        let live = LiveIds::new(self.alloc)?;
        let thread = self.scripts.len() as u32;
        self.scripts.push(Script {
            turns: Vec::new(self.alloc),
        })?;
        self.live = live;
        Ok(thread)
    }

    /// Reads the next line of the script that was opened last, without its line feed. One has to be open. Empty lines and
    /// lines that begin with `#` say nothing.
    ///
    /// - `BadScriptLine` exactly where the line is no turn: `a` or `r` with an ID, a size of at most 2^32 bytes and at
    ///   most 256 ips other than 0, from the innermost outwards, or `f` with an ID, all in hexadecimal digits;
    /// - then `BlockLive` exactly where `a` names an ID that is live in this script;
    /// - then `BlockNotLive` exactly where `f` or `r` names one that isn't;
    /// - then `TooManyEvents` exactly where with the events of the line, two for `r` and else one, all scripts together
    ///   would have more than are allowed;
    /// - `NoMemory` only where memory is wanting.
    ///
    /// After a fault the scripts are as before.
    pub fn line(&mut self, line: &[u8]) -> Result<(), ScriptFault>
        requires { 0 < length self.old.scripts }
        ensures taken { OnOk result (self.new ≡ with_line self.old line.now) }
        ensures no_fault { OnOk result (line_fault self.old line.now ≡ None) }
        ensures fault { IfErr result (λ fault. Tells fault (line_fault self.old line.now)) }
        ensures unchanged { OnErr result (self.new ≡ self.old) }
        ensures modules { self.new.modules ≡ self.old.modules }
    {
        if is_skipped(line) {
            return Ok(());
        }
        match read_script_line(line) {
            Some((ScriptLine::Allocation { id, size }, ips)) => self.allocate(id, size, ips),
            Some((ScriptLine::Free { id }, _)) => self.free(id),
            Some((ScriptLine::Reallocation { id, size }, ips)) => self.reallocate(id, size, ips),
            None => Err(ScriptFault::BadScriptLine),
        }
    }

    /// The turn of a thread with the number `place`, counted from 0: what its line says, and the node of its stack. It is `None`
    /// exactly where the thread's script has no such turn.
    ///
    /// The thread's script has to be begun. It takes no memory.
    pub fn turn(&self, thread: u32, place: u32) -> Option<(ScriptLine, u32)>
        requires { thread < length self.now.scripts }
        ensures turn { turn_at self.now.scripts thread place
            ≡ option_map (turn_with self.now.scripts) result }
        ensures held { IfSome result (λ found. found.1 ≤ length (nodes_in self.now.scripts)) }

        // Its bounds, and that of all events.
        ensures bounded { IfSome result (λ found. IsBounded (turn_with self.now.scripts found)) }
        ensures few_events { event_count self.now.scripts < 2 ^ 24 }
        ensures few_threads { length self.now.scripts ≤ 64 }
    {
        let entry = turn_at(&self.scripts, thread, place)?;
        Some((entry.line(), entry.node))
    }

    /// The ips of a node, in `ips` in the place of what that held. On `NoMemory` nothing is said of `ips`.
    pub fn stack_into(&self, node: u32, ips: &mut Vec<u64>) -> Result<(), NoMemory>
        requires { node ≤ length (nodes_in self.now.scripts) }
        ensures ips { OnOk result (ips.new.items ≡ stack (nodes_in self.now.scripts) node) }
    {
        self.stacks.nodes().stack_into(node, ips)
    }

    /// How many nodes the stacks of all scripts have, which is the greatest number of a node.
    pub fn nodes(&self) -> u32
        ensures count { result ≡ length (nodes_in self.now.scripts) }
        ensures bound { result ≤ 2 ^ 32 - 2 }
    {
        self.stacks.nodes().len()
    }

    /// Whether the other scripts and modules are the same, however many events there may be. It takes no memory.
    pub fn is_same(&self, other: &Scripts) -> bool
        ensures { IsTrue result ↔ IsSameWork self.now other.now }
    {
        if self.modules() != other.modules() {
            return false;
        }
        if !are_same_nodes(self.stacks.nodes(), other.stacks.nodes()) {
            return false;
        }
        are_kept_as(&self.scripts, &other.scripts)
    }

    /// How many events all scripts have together.
    pub fn events(&self) -> u64
        ensures count { result ≡ event_count self.now.scripts }
    {
        self.events
    }

    /// The lines of the modules in their written form, each with its line feed. They are whole lines about modules.
    pub fn modules(&self) -> &[u8]
        ensures lines { result.now ≡ self.now.modules }
        ensures whole { AreModuleLines self.now.modules }
    {
        self.modules.bytes()
    }

    /// How many scripts were begun, at most 64. Each turn of them follows those before it.
    pub fn threads(&self) -> u32
        ensures count { result ≡ length self.now.scripts }
        ensures few { result ≤ 64 }
        ensures playable { IsPlayable self.now }
    {
        self.scripts.len() as u32
    }

    /// The same scripts, behind a pointer that threads can share.
    pub fn share(self) -> Result<Arc<Scripts>, NoMemory>
        ensures same { IfOk result (λ job. arc_value job ≡ self) }
    {
        let alloc = self.alloc;
        let shared = Arc::new(alloc, self)?;
        Ok(shared)
    }

    /// Appends an allocation to the last script, of which the text is that of its ips.
    fn allocate(&mut self, id: u64, size: u64, text: &[u8]) -> Result<(), ScriptFault>
        requires begun { 0 < length self.old.scripts }
        requires few_bytes { size ≤ 2 ^ 32 }
        ensures added { OnOk result (self.new
            ≡ with_turn self.old (turn_by (AllocationLine id size) text.now)) }
        ensures judged { JudgesTurn self.old self.new
            (turn_by (AllocationLine id size) text.now) result }
    {
        let known = match self.stacks.read(text, &mut self.ips) {
            Ok(known) => known,
            Err(fault) => return Err(fault),
        };
        reserve_turn(&mut self.scripts)?;
        if !self.live.insert(id)? {
            return Err(ScriptFault::BlockLive);
        }
        if self.limit - self.events < 1 {
            self.live.remove(id);
            return Err(ScriptFault::TooManyEvents);
        }
        let Ok(node) = self.stacks.intern(text, known, &self.ips) else {
            self.live.remove(id);
            return Err(ScriptFault::NoMemory);
        };
        let turn = TurnEntry::new(ScriptLine::Allocation { id, size }, node);
        push_turn(&mut self.scripts, turn)?;
        self.events += 1;
        Ok(())
    }

    /// Appends a free to the last script.
    fn free(&mut self, id: u64) -> Result<(), ScriptFault>
        requires { 0 < length self.old.scripts }
        ensures added { OnOk result (self.new ≡ with_turn self.old (Some (frees id))) }
        ensures judged { JudgesTurn self.old self.new (Some (frees id)) result }
    {
        if self.limit - self.events < 1 {
            return Err(self.refused_free(id));
        }
        reserve_turn(&mut self.scripts)?;
        if !self.live.remove(id) {
            return Err(ScriptFault::BlockNotLive);
        }
        let turn = TurnEntry::new(ScriptLine::Free { id }, 0);
        push_turn(&mut self.scripts, turn)?;
        self.events += 1;
        Ok(())
    }

    /// The fault of a free where no event more is allowed.
    fn refused_free(&self, id: u64) -> ScriptFault
        requires begun { 0 < length self.now.scripts }
        requires full { self.now.limit ≡ event_count self.now.scripts }
        ensures { turn_fault self.now (Some (frees id)) ≡ Some result }
    {
        if self.live.contains(id) {
            ScriptFault::TooManyEvents
        } else {
            ScriptFault::BlockNotLive
        }
    }

    /// Appends a reallocation to the last script, of which the text is that of its ips.
    fn reallocate(&mut self, id: u64, size: u64, text: &[u8]) -> Result<(), ScriptFault>
        requires begun { 0 < length self.old.scripts }
        requires few_bytes { size ≤ 2 ^ 32 }
        ensures added { OnOk result (self.new
            ≡ with_turn self.old (turn_by (ReallocationLine id size) text.now)) }
        ensures judged { JudgesTurn self.old self.new
            (turn_by (ReallocationLine id size) text.now) result }
    {
        let known = match self.stacks.read(text, &mut self.ips) {
            Ok(known) => known,
            Err(fault) => return Err(fault),
        };
        if !self.live.contains(id) {
            return Err(ScriptFault::BlockNotLive);
        }
        if self.limit - self.events < 2 {
            return Err(ScriptFault::TooManyEvents);
        }
        reserve_turn(&mut self.scripts)?;
        let node = self.stacks.intern(text, known, &self.ips)?;
        let turn = TurnEntry::new(ScriptLine::Reallocation { id, size }, node);
        push_turn(&mut self.scripts, turn)?;
        self.events += 2;
        Ok(())
    }
}
