//! The tables, and what each line of a trace adds to them or why it is refused.
//! What one line says is the grammar's part. What each kind of line does, and the frames of a stack, stand in files of their own.
ghost use Rattle.std.specs.Prelude.{◌≡◌, ℕ, ◌+◌, ◌-◌, ◌^◌, ◌<◌, ◌≤◌, ◌↔◌, ◌⊎◌, [], length, None, Err, IsNone, IfErr, IfOk, IfSome, OnOk, OnErr};
ghost use Rattle.std.specs.Option.{option_copied};
ghost use Rattle.ht_lines.specs.declared.item.Form.TheVariants.{Interpreted};
ghost use Rattle.ht_trace.specs.CallAnswers.{info_answer};
ghost use Rattle.ht_trace.specs.Continues.{Continues};
ghost use Rattle.ht_trace.specs.HeldStack.{HasHeldStack};
ghost use Rattle.ht_trace.specs.LedgerFits.{Grows, least_length};
ghost use Rattle.ht_trace.specs.LineAnswers.{AddsEvent, Brings, HasNoFault, HasNoRoom, HasRoomFor, MayEnd, StandsBehind, StandsWith, TellsEndFault, TellsFault};
ghost use Rattle.ht_trace.specs.LineFault.{Tells, pattern_fault};
ghost use Rattle.ht_trace.specs.Pattern.{pattern_at};
ghost use Rattle.ht_trace.specs.StandsFor.{StandsFor};
ghost use Rattle.ht_trace.specs.StateAfter.{with_pattern};
ghost use Rattle.ht_trace.specs.TableState.{TableState};

mod frames;
mod kinds;

use crate::error::LineError;
use crate::infos::{InfoEntry, InfoTable};
use crate::instructions::InstructionTable;
use crate::patterns::PatternTable;
use crate::step::Step;
use crate::strings::StringTable;
use crate::version_lines::may_stand_first;
use hp_num::Text;
use ht_lines::{Form, read_item};
use stack_table::Nodes;
use std::alloc::Global;
use std::marker::Model;

/// The tables of an interpreted trace: they stand for the lines that were read so far.
///
/// Contracts see the file version, the lists of strings, instructions, nodes, infos and patterns, and the command.
/// Memory grows with these lists and never with events.
#[derive(Drop)]
pub struct Tables {
    version: Option<u8>,
    strings: StringTable,
    instructions: InstructionTable,
    nodes: Nodes,
    infos: InfoTable,
    command: Option<Text>,
    patterns: PatternTable,
    alloc: Global,
}

impl Model for Tables {
    ghost use Rattle.std.specs.Prelude.{length};
    ghost use Rattle.ht_trace.specs.Sound.{IsSound};
    ghost use Rattle.ht_trace.specs.TableState.{TableState};

    ghost Value = { TableState };

    ghost view = { λ tables. record {
      version = tables.version;
      strings = tables.strings;
      instructions = tables.instructions;
      nodes = tables.nodes;
      infos = tables.infos;
      command = tables.command;
      patterns = tables.patterns;
    } };

    ghost invariant = { λ tables.
        IsSound tables.version (length tables.strings)
        tables.instructions tables.nodes tables.infos };
}

impl Tables {
    /// The tables of no lines. It takes no memory.
    pub fn new(alloc: Global) -> Self
        ensures stands { StandsFor result [] }
        ensures version { result.version ≡ None }
        ensures nodes { result.nodes ≡ [] }
        ensures infos { result.infos ≡ [] }
    {
        Tables {
            version: None,
            strings: StringTable::new(alloc),
            instructions: InstructionTable::new(alloc),
            nodes: Nodes::new(alloc),
            infos: InfoTable::new(alloc),
            command: None,
            patterns: PatternTable::new(alloc),
            alloc,
        }
    }

    /// Reads the next line, without its line feed, and answers what it brings.
    ///
    /// A line is refused exactly where it has a fault after the lines before it, or memory is wanting, in place of any
    /// answer; the tables are then as before. `NoVersion` comes first, then the refusals of the grammar, then the other
    /// faults in the order of `LineError`. Only a line of a string, an instruction, a node, an info or a pattern, or the
    /// first with a command, takes memory; one that is refused may keep some too.
    pub fn line(&mut self, line: &[u8]) -> Result<Step, LineError>
        requires { length line.now < 2 ^ 32 }
        // For all lines that the tables stand for.
        ensures stands { OnOk result (StandsWith self.old line.now self.new) }
        ensures no_fault { OnOk result (HasNoFault self.old line.now) }
        ensures step { IfOk result (λ step. Brings self.old line.now step) }
        ensures events { IfOk result (λ step. AddsEvent self.old line.now step) }
        ensures fault { IfErr result (λ error. TellsFault self.old line.now error) }
        ensures continues { Continues self.old self.new }
        ensures goes_on { (before : TableState) → Continues before self.old
            → Continues before self.new }
        ensures unchanged { OnErr result (self.new ≡ self.old) }

        // For a ledger that is kept beside the tables.
        ensures can_take { IfOk result
            (λ step. HasRoomFor self.old step) }
        ensures grows { IfOk result (λ step. Grows self.old step self.new) }
        ensures stack_held { IfOk result (λ step. HasHeldStack self.new step) }
        ensures least_length { IfOk result (λ step. least_length step ≤ length line.now) }
    {
        if self.version.is_none() && !may_stand_first(line) {
            return Err(LineError::NoVersion);
        }
        let item = read_item(Form::Interpreted, self.version.unwrap_or(1), line)?;
        self.take(&item)
    }

    /// Whether a version line was read: `NoVersion` exactly where none was.
    pub fn end(&self) -> Result<(), LineError>
        ensures no_version { (result ≡ Err LineError.NoVersion) ↔ IsNone self.now.version }
        ensures only { IfErr result (λ error. error ≡ LineError.NoVersion) }
        ensures no_fault { OnOk result (MayEnd self.now) }
        ensures fault { IfErr result (λ error. TellsEndFault self.now error) }
    {
        if self.version.is_none() {
            return Err(LineError::NoVersion);
        }
        Ok(())
    }

    /// How many stacks there are: the nodes, and stack 0.
    pub fn stacks(&self) -> u32
        ensures count { result ≡ length self.now.nodes + 1 }
        ensures bound { result ≤ 2 ^ 32 - 1 }
        ensures continues { Continues self.now self.now }
    {
        self.nodes.len() + 1
    }

    /// Size in bytes and stack of info `n`: `None` exactly where no info has that number. It takes no memory.
    pub fn info(&self, n: u32) -> Option<(u64, u32)>
        ensures entry { result ≡ info_answer self.now.infos n }
        ensures stack_held { IfSome result (λ info. info.1 ≤ length self.now.nodes) }
    {
        let InfoEntry { size, stack } = self.infos.get(u64::from(n))?;
        Some((size, stack))
    }

    /// The text of the first command line: `None` exactly where none was read.
    pub fn command(&self) -> Option<&[u8]>
        ensures text { option_copied result ≡ self.now.command }
    {
        match &self.command {
            Some(text) => Some(text.bytes()),
            None => None,
        }
    }

    /// How many instructions there are, which is the greatest number of an instruction. Instruction 0 stands for none.
    pub fn instructions(&self) -> u32
        ensures count { result ≡ length self.now.instructions }
        ensures bound { result ≤ 2 ^ 32 - 1 }
    {
        self.instructions.len()
    }

    /// Adds the pattern of a suppression: of the text what follows `leak:` where it begins with it, else the whole text.
    /// An empty pattern, and a text that begins with `#`, are passed over.
    ///
    /// `TooMany` comes exactly where a pattern would be added and 2^32 - 1 are held; the other refusal is `NoMemory`. The
    /// patterns are then as before.
    pub fn suppress(&mut self, text: &[u8]) -> Result<(), LineError>
        ensures added { OnOk result (self.new ≡ with_pattern self.old text.now) }
        ensures stands { OnOk result (StandsBehind self.old text.now self.new) }
        ensures no_fault { OnOk result (pattern_fault (length self.old.patterns) text.now ≡ None) }
        ensures fault { IfErr result
            (λ error. Tells error (pattern_fault (length self.old.patterns) text.now)) }
        ensures too_many { (result ≡ Err LineError.TooMany)
            ↔ HasNoRoom (length self.old.patterns) text.now }
        ensures only { IfErr result
            (λ error. (error ≡ LineError.TooMany) ⊎ (error ≡ LineError.NoMemory)) }
        ensures continues { Continues self.old self.new }
        ensures goes_on { (before : TableState) → Continues before self.old
            → Continues before self.new }
        ensures unchanged { OnErr result (self.new ≡ self.old) }
    {
        self.patterns.add(text)
    }

    /// The bytes of the pattern with the number `n`, from 1 on in the order of `suppress` and of the `S` lines: `None`
    /// exactly where no pattern has that number. It takes no memory.
    pub fn suppression(&self, n: u32) -> Option<&[u8]>
        ensures { option_copied result ≡ pattern_at self.now.patterns n }
    {
        self.patterns.get(n)
    }

    /// How many patterns there are, which is the greatest number of a pattern.
    pub fn suppressions(&self) -> u32
        ensures count { result ≡ length self.now.patterns }
        ensures bound { result ≤ 2 ^ 32 - 1 }
    {
        self.patterns.len()
    }
}
