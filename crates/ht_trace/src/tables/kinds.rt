//! What each kind of line does to the tables, or why it is refused.
ghost use Rattle.std.specs.Prelude.{◌≡◌, ℕ, ◌+◌, ◌-◌, ◌%◌, ◌<◌, ◌≤◌, ◌⊎◌, length, Some, Ok, Err, IfErr, IfOk, unwrap_or};
ghost use Rattle.ht_lines.specs.Content.{allocation_line, command_line, free_line, info_line, node_line, string_line, suppression_line};
ghost use Rattle.ht_lines.specs.Fields.{fields, numbers};
ghost use Rattle.ht_lines.specs.ItemContent.{IsWhole, content};
ghost use Rattle.ht_lines.specs.Written.{IsWritable};
ghost use Rattle.ht_lines.specs.declared.item.Form.TheVariants.{Interpreted};
ghost use Rattle.ht_trace.specs.SaidFrames.{tail_line};
ghost use Rattle.ht_trace.specs.StateAfter.{Refuses, Takes};
ghost use Rattle.ht_trace.specs.VersionAnswers.{RefusesVersion, TakesVersion};

use crate::error::LineError;
use crate::infos::InfoEntry;
use crate::step::Step;
use crate::tables::Tables;
use hp_num::Text;
use ht_lines::Item;
use live_ledger::Event;

impl Tables {
    /// Takes what a line says.
    pub(super) fn take(&mut self, item: &Item) -> Result<Step, LineError>
        requires whole { IsWhole item.now }
        requires writable { IsWritable Interpreted (unwrap_or self.old.version 1)
            (content item.now) }
        ensures takes { IfOk result (λ step. Takes self.old (content item.now) step self.new) }
        ensures refuses { IfErr result
            (λ error. Refuses self.old (content item.now) error self.new) }
    {
        match *item {
            Item::Version { file, .. } => self.set_version(file),
            Item::Command { text } => self.keep_command(text),
            Item::Str { text } => self.add_string(text),
            Item::Instr {
                ip,
                module,
                fields,
                tail,
            } => self.add_instruction(ip, module, fields, tail),
            Item::Node { ip, parent } => self.add_node(ip, parent),
            Item::Info { size, trace } => self.add_info(size, trace),
            Item::Alloc { info } => self.allocation(info),
            Item::Free { info } => self.free(info),
            Item::Suppress { text } => self.add_pattern(text),
            Item::Clock { ms } => Ok(Step::Event {
                event: Event::Tick { ms },
            }),
            Item::Executable { .. }
            | Item::System { .. }
            | Item::ModuleClear
            | Item::Module { .. }
            | Item::RawAlloc { .. }
            | Item::RawFree { .. }
            | Item::Rss { .. }
            | Item::Attached
            | Item::Comment { .. }
            | Item::Other { .. } => Ok(Step::Nothing),
        }
    }

    fn set_version(&mut self, file: u8) -> Result<Step, LineError>
        requires low { 1 ≤ file }
        requires high { file ≤ 3 }
        ensures takes { IfOk result
            (λ step. TakesVersion self.old file step self.new) }
        ensures refuses { IfErr result
            (λ error. RefusesVersion self.old file error self.new) }
    {
        if self.version.is_some() {
            return Err(LineError::SecondVersion);
        }
        self.version = Some(file);
        Ok(Step::Nothing)
    }

    fn keep_command(&mut self, text: &[u8]) -> Result<Step, LineError>
        ensures takes { IfOk result (λ step. Takes self.old (command_line text.now) step self.new) }
        ensures refuses { IfErr result
            (λ error. Refuses self.old (command_line text.now) error self.new) }
    {
        if self.command.is_none() {
            let command = Text::new(self.alloc, text)?;
            self.command = Some(command);
        }
        Ok(Step::Nothing)
    }

    fn add_string(&mut self, text: &[u8]) -> Result<Step, LineError>
        ensures takes { IfOk result (λ step. Takes self.old (string_line text.now) step self.new) }
        ensures refuses { IfErr result
            (λ error. Refuses self.old (string_line text.now) error self.new) }
    {
        self.strings.add(text)?;
        Ok(Step::Nothing)
    }

    fn add_instruction(
        &mut self,
        ip: u64,
        module: u64,
        field_count: u32,
        tail: &[u8],
    ) -> Result<Step, LineError>
        requires whole { length (fields tail.now) + 2 ≡ field_count }
        requires written { (length (numbers tail.now) % 3 ≡ 1)
            ⊎ (length (numbers tail.now) % 3 ≡ 0) }
        ensures takes { IfOk result
            (λ step. Takes self.old (tail_line ip «module» tail.now) step self.new) }
        ensures refuses { IfErr result
            (λ error. Refuses self.old (tail_line ip «module» tail.now) error self.new) }
    {
        let strings = self.strings.len();
        self.instructions
            .add(ip, module, field_count, tail, strings)?;
        Ok(Step::Nothing)
    }

    fn add_node(&mut self, instruction: u64, parent: u64) -> Result<Step, LineError>
        ensures takes { IfOk result
            (λ step. Takes self.old (node_line instruction parent) step self.new) }
        ensures refuses { IfErr result
            (λ error. Refuses self.old (node_line instruction parent) error self.new) }
    {
        let Some(frames) = self.instructions.frame_count(instruction) else {
            return Err(LineError::UnknownInstruction);
        };
        self.nodes.add(instruction, parent, frames)?;
        Ok(Step::Stack)
    }

    fn add_info(&mut self, size: u64, trace: u64) -> Result<Step, LineError>
        ensures takes { IfOk result (λ step. Takes self.old (info_line size trace) step self.new) }
        ensures refuses { IfErr result
            (λ error. Refuses self.old (info_line size trace) error self.new) }
    {
        if trace > u64::from(self.nodes.len()) {
            return Err(LineError::UnknownTrace);
        }
        let stack = trace as u32;
        self.infos.add(size, stack)?;
        Ok(Step::Info { stack, size })
    }

    fn add_pattern(&mut self, text: &[u8]) -> Result<Step, LineError>
        ensures takes { IfOk result
            (λ step. Takes self.old (suppression_line text.now) step self.new) }
        ensures refuses { IfErr result
            (λ error. Refuses self.old (suppression_line text.now) error self.new) }
    {
        self.patterns.add(text)?;
        Ok(Step::Nothing)
    }

    fn allocation(&self, info: u64) -> Result<Step, LineError>
        ensures takes { IfOk result (λ step. Takes self.now (allocation_line info) step self.now) }
        ensures refuses { IfErr result
            (λ error. Refuses self.now (allocation_line info) error self.now) }
    {
        let Some(InfoEntry { size, stack }) = self.infos.get(info) else {
            return Err(LineError::UnknownAllocation);
        };
        Ok(Step::Event {
            event: Event::Alloc {
                info: info as u32,
                stack,
                size,
            },
        })
    }

    fn free(&self, info: u64) -> Result<Step, LineError>
        ensures takes { IfOk result (λ step. Takes self.now (free_line info) step self.now) }
        ensures refuses { IfErr result (λ error. Refuses self.now (free_line info) error self.now) }
    {
        let Some(InfoEntry { size, stack }) = self.infos.get(info) else {
            return Err(LineError::UnknownAllocation);
        };
        Ok(Step::Event {
            event: Event::Free {
                info: info as u32,
                stack,
                size,
            },
        })
    }
}
