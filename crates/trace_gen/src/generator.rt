//! A generator of a trace, which makes its lines one after another. It holds what the next draws need, and how many blocks
//! each info has live.
ghost use Rattle.std.specs.Prelude.{◌≡◌, ◌+◌, ◌<◌, ◌≤◌, ◌==◌, [], ◌∷◌, ◌&&◌, nat_lt, length, true, false, IfOk, IsTrue, OnOk};
ghost use Rattle.trace_gen.specs.GeneratedTrace.{generated_lines, generated_text};
ghost use Rattle.hp_outside.specs.WholeLines.{IsLineText};
ghost use Rattle.trace_gen.specs.GeneratorState.{Draws, DrawsEvent, Gives, IsAt, MakesLine, Stands, behind, lines_left, lines_yet, text_left};
ghost use Rattle.trace_gen.specs.Sizes.{sizes_of};

use crate::draws::{next_state, number_below};
use crate::event::GeneratedEvent;
use crate::lines::{put_event, put_instruction, put_name, put_pair};
use crate::options::GeneratorOptions;
use command_frame::TextMaker;
use hp_num::{NoMemory, hexadecimal_texts, put_bytes};
use std::alloc::Global;

/// The groups of lines of a trace, in order. The first three have one line each.
#[derive(Clone, Copy)]
pub enum Group {
    Version,
    Command,
    Module,
    Names,
    Instructions,
    Nodes,
    Infos,
    Events,
}

/// Makes the lines of a trace.
#[derive(Drop)]
pub struct Generator {
    pub(crate) options: GeneratorOptions,
    /// The group of the next line, and how many of its lines were made.
    pub(crate) group: Group,
    pub(crate) next: u64,
    /// The state of the draws.
    pub(crate) state: u64,
    /// The live blocks of each info.
    pub(crate) live: Vec<u64>,
}

impl Generator {
    /// A generator that has made no line. `NoMemory` where memory is wanting.
    pub fn new(alloc: Global, options: &GeneratorOptions) -> Result<Generator, NoMemory>
        ensures at { IfOk result (λ generator. IsAt generator) }
        ensures lines { IfOk result
            (λ generator. lines_yet generator ≡ generated_lines (sizes_of options.now)) }
        ensures few { IfOk result (λ generator. length (lines_yet generator) ≤ 10016003) }
        ensures text { IfOk result
            (λ generator. text_left generator ≡ generated_text (sizes_of options.now)) }
    {
        let mut live = Vec::new(alloc);
        live.resize(options.stacks as usize, 0)?;
        Ok(Generator {
            options: *options,
            group: Group::Version,
            next: 0,
            state: options.seed,
            live,
        })
    }

    /// Appends the next line with its line feed, and answers whether there was one. `NoMemory` where memory is wanting; the
    /// generator is then of no use, and `line` may hold anything.
    pub fn line(&mut self, line: &mut Vec<u8>) -> Result<bool, NoMemory>
        requires at { IsAt self.old }
        ensures made { IfOk result
            (λ more. Gives self.old self.new line.old.items line.new.items more) }
    {
        match self.group {
            Group::Version => self.head(b"v 10500 2", Group::Command, line)?,
            Group::Command => self.head(b"X gen", Group::Module, line)?,
            Group::Module => self.head(b"s m", Group::Names, line)?,
            Group::Names => self.name(line)?,
            Group::Instructions => self.instruction(line)?,
            Group::Nodes => self.node(line)?,
            Group::Infos => self.info(line)?,
            Group::Events => return self.event(line),
        }
        Ok(true)
    }

    /// Draws the event of the next line, which `line` would make of it. It takes no memory. `None` exactly where the next line
    /// is another or no line is left; then it draws nothing.
    /// A loop over events has all of it in its body.
    #[inline(always)]
    pub fn next_event(&mut self) -> Option<GeneratedEvent>
        requires at { IsAt self.old }
        ensures { Draws self.old self.new result }
    {
        match self.group {
            Group::Events => {}
            _ => return None,
        }
        if self.next == self.options.events {
            return None;
        }
        Some(self.draw_event())
    }

    fn head(&mut self, text: &[u8], following: Group, line: &mut Vec<u8>) -> Result<(), NoMemory>
        requires lines { lines_yet self.old
            ≡ text.now ∷ lines_left (sizes_of self.old.options) following 0 }
        requires following { Stands (sizes_of self.old.options) following 0 self.old.state
            self.old.live.items }
        requires first { self.old.next ≡ 0 }
        requires one_line { IsLineText text.now }
        requires short { length text.now ≤ 40 }
        ensures made { OnOk result (MakesLine self.old self.new line.old.items line.new.items) }
    {
        put_bytes(line, text)?;
        put_bytes(line, b"\n")?;
        self.group = following;
        Ok(())
    }

    /// The next name.
    fn name(&mut self, line: &mut Vec<u8>) -> Result<(), NoMemory>
        requires at { IsAt self.old }
        requires group { self.old.group ≡ Group.Names }
        ensures made { OnOk result (MakesLine self.old self.new line.old.items line.new.items) }
    {
        put_name(line, self.next)?;
        self.pass(Group::Instructions);
        Ok(())
    }

    /// The next instruction.
    fn instruction(&mut self, line: &mut Vec<u8>) -> Result<(), NoMemory>
        requires at { IsAt self.old }
        requires group { self.old.group ≡ Group.Instructions }
        ensures made { OnOk result (MakesLine self.old self.new line.old.items line.new.items) }
    {
        put_instruction(line, self.next)?;
        self.pass(Group::Nodes);
        Ok(())
    }

    /// The next node.
    fn node(&mut self, line: &mut Vec<u8>) -> Result<(), NoMemory>
        requires at { IsAt self.old }
        requires group { self.old.group ≡ Group.Nodes }
        ensures made { OnOk result (MakesLine self.old self.new line.old.items line.new.items) }
    {
        let number = self.next + 1;
        self.state = next_state(self.state);
        let parent = number_below(number, self.state);
        put_pair(line, b't', number, parent)?;
        self.pass(Group::Infos);
        Ok(())
    }

    /// The next info.
    fn info(&mut self, line: &mut Vec<u8>) -> Result<(), NoMemory>
        requires at { IsAt self.old }
        requires group { self.old.group ≡ Group.Infos }
        ensures made { OnOk result (MakesLine self.old self.new line.old.items line.new.items) }
    {
        let number = self.next + 1;
        self.state = next_state(self.state);
        let size = number_below(4096, self.state) + 1;
        put_pair(line, b'a', size, number)?;
        self.pass(Group::Events);
        Ok(())
    }

    /// Passes a line of a group that has one for each stack.
    fn pass(&mut self, following: Group)
        requires some { self.old.next < self.old.options.stacks }
        ensures passed { self.new ≡ behind self.old following }
    {
        self.next += 1;
        if self.next == self.options.stacks {
            self.group = following;
            self.next = 0;
        }
    }

    /// The line of the next event, where there is one.
    fn event(&mut self, line: &mut Vec<u8>) -> Result<bool, NoMemory>
        requires at { IsAt self.old }
        requires group { self.old.group ≡ Group.Events }
        ensures made { IfOk result
            (λ more. Gives self.old self.new line.old.items line.new.items more) }
    {
        match self.next_event() {
            Some(event) => {
                put_event(line, event.frees, u64::from(event.info))?;
                Ok(true)
            }
            None => Ok(false),
        }
    }

    /// The next event.
    #[inline(always)]
    fn draw_event(&mut self) -> GeneratedEvent
        requires at { IsAt self.old }
        requires group { self.old.group ≡ Group.Events }
        requires some { self.old.next < self.old.options.events }
        ensures { DrawsEvent self.old self.new result }
    {
        hexadecimal_texts();
        self.state = next_state(self.state);
        let info = number_below(self.options.stacks, self.state);
        self.state = next_state(self.state);
        let kind = number_below(2, self.state);
        let blocks = self.live[info as usize];
        let frees = is_free(kind, blocks);
        self.live[info as usize] = blocks_behind(blocks, frees);
        self.next += 1;
        GeneratedEvent {
            frees,
            info: info as u32,
        }
    }
}

impl TextMaker for Generator {
    ghost use Rattle.std.specs.Prelude.{length};
    ghost use Rattle.trace_gen.specs.GeneratorState.{IsAt, lines_yet, text_left};

    ghost is_sound = { IsAt };

    ghost rest = { text_left };

    ghost pieces = { λ generator. length (lines_yet generator) };

    fn piece(&mut self, output: &mut Vec<u8>) -> Result<bool, NoMemory> {
        self.line(output)
    }
}

/// Whether an event is a free, by the kind that was drawn and the blocks of its info.
fn is_free(kind: u64, blocks: u64) -> bool
    ensures free { result ≡ ((kind == 0) && nat_lt 0 blocks) }
    ensures some { IsTrue result → 0 < blocks }
{
    kind == 0 && blocks > 0
}

/// The blocks of an info behind an event.
fn blocks_behind(blocks: u64, frees: bool) -> u64
    requires few { blocks ≤ 10000000 }
    requires some { IsTrue frees → 0 < blocks }
    ensures freed { frees ≡ true → result + 1 ≡ blocks }
    ensures allocated { frees ≡ false → result ≡ blocks + 1 }
{
    if frees { blocks - 1 } else { blocks + 1 }
}
