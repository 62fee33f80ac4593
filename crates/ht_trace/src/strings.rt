//! The strings of a trace, by their numbers from 1: their texts stand one after another.
ghost use Rattle.std.specs.Prelude.{◌≡◌, ℕ, ◌+◌, ◌-◌, ◌^◌, ◌<◌, ◌≤◌, List, [], ◌∷◌, ◌++◌, length, None, Some, IfErr, IfOk, OnOk, OnErr};
ghost use Rattle.std.specs.Option.{option_copied};
ghost use Rattle.ht_trace.specs.FrameText.{string_at};
ghost use Rattle.ht_trace.specs.LineFault.{Tells, growth_fault, most_entries};

use crate::error::LineError;
use hp_num::put_bytes;
use std::alloc::Global;
use std::marker::Model;

/// The most strings.
const MAX_STRINGS: usize = u32::MAX as usize;

/// Where the text of a string stands.
#[derive(Clone, Copy)]
pub struct TextSpan {
    start: usize,
    len: usize,
}

/// The strings. Contracts see it as the list of their texts.
#[derive(Drop)]
pub struct StringTable {
    bytes: Vec<u8>,
    spans: Vec<TextSpan>,
}

impl Model for StringTable {
    ghost use Rattle.std.specs.Prelude.{ℕ, List};
    ghost use Rattle.ht_trace.specs.StringEntries.{AreStrings, texts_of};

    ghost Value = { List (List ℕ) };

    ghost view = { λ table. texts_of table.bytes.items table.spans.items };

    ghost invariant = { λ table. AreStrings table.bytes.items table.spans.items };
}

impl StringTable {
    /// No strings. It takes no memory.
    pub fn new(alloc: Global) -> Self
        ensures empty { result ≡ [] }
    {
        StringTable {
            bytes: Vec::new(alloc),
            spans: Vec::new(alloc),
        }
    }

    /// Adds a string. `TooMany` comes exactly where 2^32 - 1 are held.
    pub fn add(&mut self, text: &[u8]) -> Result<(), LineError>
        ensures added { OnOk result (self.new ≡ self.old ++ text.now ∷ []) }
        ensures no_fault { OnOk result (growth_fault (length self.old) most_entries ≡ None) }
        ensures fault { IfErr result
            (λ error. Tells error (growth_fault (length self.old) most_entries)) }
        ensures unchanged { OnErr result (self.new ≡ self.old) }
    {
        if self.spans.len() == MAX_STRINGS {
            return Err(LineError::TooMany);
        }
        self.spans.reserve(1)?;
        let span = TextSpan {
            start: self.bytes.len(),
            len: text.len(),
        };
        put_bytes(&mut self.bytes, text)?;
        self.spans.push(span)?;
        Ok(())
    }

    /// The text of the string with a number: `None` exactly where no string has it.
    pub fn text(&self, n: u32) -> Option<&[u8]>
        ensures { option_copied result ≡ string_at self.now n }
    {
        let place = n.checked_sub(1)?;
        let span = *self.spans.get(place as usize)?;
        Some(&self.bytes[span.start..span.start + span.len])
    }

    /// How many strings there are, which is the greatest number of a string.
    pub fn len(&self) -> u32
        ensures count { result ≡ length self.now }
    {
        self.spans.len() as u32
    }
}
