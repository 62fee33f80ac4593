//! The shown forms of texts under numbers: each different one is kept once, and hashed once for each text.
ghost use Rattle.std.specs.Prelude.{[], map, IfOk, OnOk};
ghost use Rattle.dhat_json.specs.Shown.{shown};
ghost use Rattle.intern_tables.specs.Distinct.{AreDistinct};
ghost use Rattle.dhat_view.specs.Numbers.{AreNumbers, AddsText};

use dhat_json::{Texts, put_shown};
use hp_num::NoMemory;
use intern_tables::Names;
use std::alloc::Global;

/// Texts, and the numbers of some in a row.
#[derive(Drop)]
pub struct ShownTexts {
    pub names: Names,
    pub numbers: Vec<usize>,
    buffer: Vec<u8>,
}

impl ShownTexts {
    /// None yet. It takes no memory.
    pub fn new(alloc: Global) -> ShownTexts
        ensures numbers { AreNumbers result.names result.numbers.items [] }
        ensures distinct { AreDistinct result.names }
    {
        ShownTexts {
            names: Names::new(alloc),
            numbers: Vec::new(alloc),
            buffer: Vec::new(alloc),
        }
    }

    /// Appends the number of the text's shown form. On `NoMemory` the texts are unfit for use.
    pub fn push(&mut self, text: &[u8]) -> Result<(), NoMemory>
        ensures numbers { OnOk result (AddsText self.old self.new (shown text.now)) }
        ensures distinct { OnOk result (AreDistinct self.new.names) }
    {
        self.buffer.clear();
        put_shown(text, &mut self.buffer)?;
        let number = self.names.intern(&self.buffer)?;
        self.numbers.push(number)?;
        Ok(())
    }
}

/// The shown forms of a table's texts, or `NoMemory`.
pub fn shown_table(alloc: Global, table: &Texts) -> Result<ShownTexts, NoMemory>
    ensures numbers { IfOk result
        (λ texts. AreNumbers texts.names texts.numbers.items (map shown table.now)) }
    ensures distinct { IfOk result (λ texts. AreDistinct texts.names) }
{
    let mut texts = ShownTexts::new(alloc);
    'each_text: for place in 0..table.len() {
        texts.push(table.at(place).bytes())?;
    }
    Ok(texts)
}
