//! The patterns of suppressions, by their numbers from 1. What they suppress is no part of it.
ghost use Rattle.std.specs.Prelude.{◌≡◌, ◌↔◌, ◌⊎◌, ◌-◌, ◌^◌, ◌≤◌, [], ◌++◌, length, None, Err, IfErr, OnOk, OnErr};
ghost use Rattle.std.specs.Option.{option_copied, option_to_list};
ghost use Rattle.ht_trace.specs.LineAnswers.{HasNoRoom};
ghost use Rattle.ht_trace.specs.LineFault.{Tells, pattern_fault};
ghost use Rattle.ht_trace.specs.Pattern.{pattern_at, pattern_of};

use crate::error::LineError;
use hp_num::Text;
use std::alloc::Global;
use std::marker::Model;

/// The most patterns.
const MAX_PATTERNS: usize = u32::MAX as usize;

/// What stands before a pattern in the files of another tool, and is no part of it.
const LEAK: &[u8] = b"leak:";

/// The patterns. Contracts see it as the list of their bytes.
#[derive(Drop)]
pub struct PatternTable {
    texts: Vec<Text>,
    alloc: Global,
}

impl Model for PatternTable {
    ghost use Rattle.std.specs.Prelude.{◌≤◌, ◌-◌, ◌^◌, ℕ, List, length};

    ghost Value = { List (List ℕ) };

    ghost view = { λ table. table.texts.items };

    ghost invariant = { λ table. length table.texts.items ≤ 2 ^ 32 - 1 };
}

impl PatternTable {
    /// No patterns. It takes no memory.
    pub fn new(alloc: Global) -> Self
        ensures empty { result ≡ [] }
    {
        PatternTable {
            texts: Vec::new(alloc),
            alloc,
        }
    }

    /// Adds the pattern of a text, where it has one. `TooMany` comes exactly where it has one and 2^32 - 1 are held.
    pub fn add(&mut self, text: &[u8]) -> Result<(), LineError>
        ensures added { OnOk result (self.new ≡ self.old ++ option_to_list (pattern_of text.now)) }
        ensures no_fault { OnOk result (pattern_fault (length self.old) text.now ≡ None) }
        ensures fault { IfErr result
            (λ error. Tells error (pattern_fault (length self.old) text.now)) }
        ensures too_many { (result ≡ Err LineError.TooMany)
            ↔ HasNoRoom (length self.old) text.now }
        ensures only { IfErr result
            (λ error. (error ≡ LineError.TooMany) ⊎ (error ≡ LineError.NoMemory)) }
        ensures unchanged { OnErr result (self.new ≡ self.old) }
    {
        let Some(pattern) = pattern_of(text) else {
            return Ok(());
        };
        if self.texts.len() == MAX_PATTERNS {
            return Err(LineError::TooMany);
        }
        let pattern = Text::new(self.alloc, pattern)?;
        self.texts.push(pattern)?;
        Ok(())
    }

    /// The bytes of the pattern with a number: `None` exactly where no pattern has it.
    pub fn get(&self, n: u32) -> Option<&[u8]>
        ensures { option_copied result ≡ pattern_at self.now n }
    {
        let place = n.checked_sub(1)?;
        match self.texts.get(place as usize) {
            Some(text) => Some(text.bytes()),
            None => None,
        }
    }

    /// How many patterns there are.
    pub fn len(&self) -> u32
        ensures count { result ≡ length self.now }
        ensures bound { result ≤ 2 ^ 32 - 1 }
    {
        self.texts.len() as u32
    }
}

/// The pattern of a text, where it has one.
fn pattern_of(text: &[u8]) -> Option<&[u8]>
    ensures { option_copied result ≡ pattern_of text.now }
{
    if text.starts_with(b"#") {
        return None;
    }
    let pattern = if text.starts_with(LEAK) {
        &text[LEAK.len()..]
    } else {
        text
    };
    if pattern.is_empty() {
        return None;
    }
    Some(pattern)
}
