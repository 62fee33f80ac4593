//! The symbols of a table by module and range. What one line says is the part of `symbol_line`.
ghost use Rattle.std.specs.Prelude.{◌≡◌, ◌<◌, [], ◌∷◌, ◌++◌, slice_get, None, Some, IfErr, IfNone, IfSome, OnOk, OnErr};
ghost use Rattle.std.specs.Option.{option_copied, option_map, option_to_list};
ghost use Rattle.std.specs.List.{list_any};
ghost use Rattle.interpret.specs.SymbolLine.{fields};
ghost use Rattle.interpret.specs.SymbolEntries.{AreIndexed, HasNone, IsLast, meets_range, said_by};
ghost use Rattle.interpret.specs.SymbolList.{StandForMore, Tells, fault_after, is_skipped, symbol_fault, symbol_in, texts_at};

use crate::fault::SymbolFault;
use crate::start_index::StartIndex;
use crate::symbol_line::{SymbolLine, read_symbol};
use hp_num::Text;
use intern_tables::Names;
use std::alloc::Global;
use std::marker::Model;

/// A symbol as it is kept: the number of its module's name, the offset where its range begins and the one after its last,
/// and its texts with the tabs between them.
#[derive(Drop)]
pub struct SymbolEntry {
    pub module_number: usize,
    pub start: u64,
    pub end: u64,
    pub texts: Text,
}

/// The symbols of a table: they stand for its lines that were read so far.
///
/// Contracts see it as the list of the symbols in the order of the lines.
#[derive(Drop)]
pub struct Symbols {
    module_names: Names,
    entries: Vec<SymbolEntry>,
    starts: StartIndex,
    alloc: Global,
}

impl Model for Symbols {
    ghost use Rattle.std.specs.Prelude.{List};
    ghost use Rattle.interpret.specs.SymbolLine.{Symbol, fields};
    ghost use Rattle.interpret.specs.SymbolEntries.{AreIndexed, AreNamed, symbols_kept};

    ghost Value = { List Symbol };

    ghost view = { λ symbols. symbols_kept symbols.module_names symbols.entries.items };

    ghost invariant = { λ symbols.
        AreNamed symbols.module_names symbols.entries.items
        × AreIndexed symbols.entries.items symbols.starts };
}

impl Symbols {
    /// The symbols of no lines. It takes no memory; that of the symbols to come is taken from `alloc`.
    pub fn new(alloc: Global) -> Self
        ensures empty { result ≡ [] }
    {
        Symbols {
            module_names: Names::new(alloc),
            entries: Vec::new(alloc),
            starts: StartIndex::new(alloc),
            alloc,
        }
    }

    /// Reads the next line of a symbol table, without its line feed. Empty lines and lines that begin with `#` say nothing.
    ///
    /// - `BadSymbolLine` exactly where the line says no symbol;
    /// - `SymbolOverlap` exactly where it says one whose range has an offset in common with an earlier one of its module;
    /// - `NoMemory` only where memory is wanting.
    ///
    /// After a fault the symbols are as before.
    pub fn line(&mut self, line: &[u8]) -> Result<(), SymbolFault>
        ensures added { OnOk result (self.new ≡ self.old ++ option_to_list (symbol_in line.now)) }
        ensures stands { OnOk result (StandForMore self.old self.new line.now) }
        ensures no_fault { OnOk result (symbol_fault self.old line.now ≡ None) }
        ensures fault { IfErr result (λ fault. Tells fault (symbol_fault self.old line.now)) }
        ensures unchanged { OnErr result (self.new ≡ self.old) }
    {
        if is_skipped(line) {
            return Ok(());
        }
        let Some(said) = read_symbol(line) else {
            return Err(SymbolFault::BadSymbolLine);
        };
        self.add(&said)
    }

    /// The texts of the symbol of a module that holds an offset: `None` exactly where none does. It takes no memory.
    pub(crate) fn texts_at(&self, name: &[u8], offset: u64) -> Option<&[u8]>
        ensures { option_map (λ texts. fields texts.now) result
            ≡ texts_at self.now name.now offset }
    {
        let module_number = self.module_names.find(name)?;
        let last = last_entry(&self.entries, &self.starts, module_number, offset)?;
        if offset >= last.end {
            return None;
        }
        Some(last.texts.bytes())
    }

    /// Adds the symbol of a line.
    fn add(&mut self, said: &SymbolLine) -> Result<(), SymbolFault>
        requires some { said.now.start < said.now.end }
        ensures added { OnOk result (self.new ≡ self.old ++ said_by said.now ∷ []) }
        ensures no_fault { OnOk result (fault_after self.old (Some (said_by said.now)) ≡ None) }
        ensures fault { IfErr result
            (λ fault. Tells fault (fault_after self.old (Some (said_by said.now)))) }
        ensures unchanged { OnErr result (self.new ≡ self.old) }
    {
        let module_number = self.module_names.intern(said.name)?;
        if meets_any(
            &self.entries,
            &self.starts,
            module_number,
            said.start,
            said.end,
        ) {
            return Err(SymbolFault::SymbolOverlap);
        }
        self.entries.reserve(1)?;
        let texts = Text::new(self.alloc, said.texts)?;
        let place = self.entries.len();
        self.starts.insert(module_number, said.start, place)?;
        self.entries.push(SymbolEntry {
            module_number,
            start: said.start,
            end: said.end,
            texts,
        })?;
        Ok(())
    }
}

/// The last symbol of a module that doesn't start above an offset.
fn last_entry<'a>(
    entries: &'a [SymbolEntry],
    starts: &StartIndex,
    module_number: usize,
    offset: u64,
) -> Option<&'a SymbolEntry>
    requires indexed { AreIndexed entries.now starts.now }
    ensures last { IfSome result (λ x. IsLast entries.now module_number offset x.now) }
    ensures none { IfNone result (HasNone entries.now module_number offset) }
{
    let last = starts.last_up_to(module_number, offset)?;
    entry(entries, last.place)
}

fn entry(entries: &[SymbolEntry], place: usize) -> Option<&SymbolEntry>
    ensures { option_copied result ≡ slice_get entries.now place }
{
    entries.get(place)
}

/// Whether a symbol of the module has an offset in common with a range.
fn meets_any(
    entries: &[SymbolEntry],
    starts: &StartIndex,
    module_number: usize,
    start: u64,
    end: u64,
) -> bool
    requires indexed { AreIndexed entries.now starts.now }
    requires some { start < end }
    ensures { result ≡ list_any (meets_range module_number start end) entries.now }
{
    match last_entry(entries, starts, module_number, end - 1) {
        Some(last) => start < last.end,
        None => false,
    }
}

/// Whether a line says nothing: it is empty or a comment.
fn is_skipped(line: &[u8]) -> bool
    ensures { result ≡ is_skipped line.now }
{
    match line {
        [] => true,
        [first, ..] => *first == b'#',
    }
}
