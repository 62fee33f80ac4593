//! Lists of texts, as those of a trace's stacks: a stack's list is the texts of its own frames, and then that of the stack that
//! it is called from.
//! Which frames are its own, and what the lists cost, are the business of the callers.
ghost use Rattle.std.specs.Prelude.{◌≡◌, ℕ, ◌-◌, ◌^◌, ◌<◌, ◌≤◌, All, List, [], length, IfOk, IfSome, OnOk, OnErr};
ghost use Rattle.cost_tree.specs.Texts.{IsText, texts_of};
ghost use Rattle.ht_trace.specs.IsFrame.{IsFrame};
ghost use Rattle.intern_tables.specs.Numbers.{name_at};
ghost use Rattle.stack_trees.specs.StackTexts.{AppendsChain, frame_texts};

use crate::list_form::ListForm;
use cost_tree::{Chains, CutFronts};
use hp_num::NoMemory;
use ht_trace::{FrameAt, Style, Tables};
use intern_tables::Names;
use std::alloc::Global;
use std::marker::Model;

/// Lists of texts, numbered from 0, each of which may go on with an earlier one. Each distinct text is kept once, and a list
/// takes memory for the texts of its own frames alone.
///
/// Contracts see the list of the lists.
#[derive(Drop)]
pub struct CallChains {
    names: Names,
    chains: Chains,
    /// A buffer for the text of a frame.
    text: Vec<u8>,
    /// A buffer for the numbers of a list's own texts.
    numbers: Vec<usize>,
}

impl Model for CallChains {
    ghost use Rattle.std.specs.Prelude.{ℕ, List};
    ghost use Rattle.cost_tree.specs.Texts.{AreTexts, lists_of};

    ghost Value = { List (List (List ℕ)) };

    ghost view = { λ lists. lists_of lists.names lists.chains };

    ghost invariant = { λ lists. AreTexts lists.names lists.chains };
}

impl CallChains {
    /// No lists. It takes no memory; that of the lists to come is taken from `alloc`.
    pub fn new(alloc: Global) -> CallChains
        ensures empty { result ≡ [] }
    {
        CallChains {
            names: Names::new(alloc),
            chains: Chains::new(alloc),
            text: Vec::new(alloc),
            numbers: Vec::new(alloc),
        }
    }

    /// Appends a list in this form: the texts of the frames, and then those of an earlier list, if any. There must be fewer
    /// than 2^32 - 1 lists. On `NoMemory` the lists are as before.
    pub fn push(
        &mut self,
        tables: &Tables,
        frames: &[FrameAt],
        form: ListForm,
        next: Option<u32>,
    ) -> Result<(), NoMemory>
        requires frames { All (λ at. IsFrame tables.now at) frames.now }
        requires earlier { IfSome next (λ list. list < length self.old) }
        requires few { length self.old < 2 ^ 32 - 1 }
        ensures appended { OnOk result
            (AppendsChain form tables.now frames.now next self.old self.new) }
        ensures unchanged { OnErr result (self.new ≡ self.old) }
    {
        let CallChains {
            names,
            chains,
            text,
            numbers,
        } = self;
        let first = &frames[..frames.len().min(form.most)];
        number_frames(tables, first, form.style, names, text, numbers)?;
        chains.push(numbers, next, form.most)
    }

    /// How many lists there are.
    pub fn len(&self) -> u32
        ensures count { result ≡ length self.now }
    {
        self.chains.len()
    }

    /// The lists, cut behind their first texts, or `NoMemory`.
    pub fn into_cut(self, alloc: Global) -> Result<CutFronts, NoMemory>
        ensures whole { IfOk result (λ cut. cut.whole ≡ self) }
    {
        let CallChains { names, chains, .. } = self;
        CutFronts::from_parts(alloc, names, chains)
    }
}

/// Replaces `numbers` by those of the frames' texts, which are added where they are new. `text` is a buffer.
fn number_frames(
    tables: &Tables,
    frames: &[FrameAt],
    style: Style,
    names: &mut Names,
    text: &mut Vec<u8>,
    numbers: &mut Vec<usize>,
) -> Result<(), NoMemory>
    requires frames { All (λ at. IsFrame tables.now at) frames.now }
    ensures names { OnOk result (All (IsText names.new) numbers.new.items) }
    ensures texts { OnOk result
        (texts_of names.new numbers.new.items ≡ frame_texts style tables.now frames.now) }
    ensures names_stay { (n : ℕ) → n ≤ length names.old
        → name_at names.new n ≡ name_at names.old n }
    ensures none_lost { length names.old ≤ length names.new }
{
    numbers.clear();
    'each_frame: for at in frames {
        text.clear();
        tables.put_frame(at, style, text)?;
        let number = names.intern(text)?;
        numbers.push(number)?;
    }
    Ok(())
}
