//! The labels of a tree's lines: texts that stand one behind another in one vector, so a text takes no memory of its own.
//! Which lines have which label is no part of it.
ghost use Rattle.std.specs.Prelude.{◌≡◌, ◌<◌, [], ◌∷◌, ◌++◌, length, slice_get, Some, IfOk, OnOk, OnErr};

use hp_num::NoMemory;
use std::alloc::Global;
use std::marker::Model;

/// Which part of the bytes is a label's.
#[derive(Clone, Copy)]
pub(crate) struct Span {
    start: usize,
    count: usize,
}

/// Labels, numbered from 0. Contracts see the list of their texts.
#[derive(Drop)]
pub(crate) struct Labels {
    spans: Vec<Span>,
    bytes: Vec<u8>,
}

impl Model for Labels {
    ghost use Rattle.std.specs.Prelude.{List, ℕ};
    ghost use Rattle.massif_file.specs.LabelSpans.{AreWithin, labels_in};

    ghost Value = { List (List ℕ) };

    ghost view = { λ labels. labels_in labels.bytes.items labels.spans.items };

    ghost invariant = { λ labels. AreWithin labels.bytes.items labels.spans.items };
}

impl Labels {
    /// No labels. It takes no memory; that of the labels to come is taken from `alloc`.
    pub(crate) fn new(alloc: Global) -> Labels
        ensures empty { result ≡ [] }
    {
        Labels {
            spans: Vec::new(alloc),
            bytes: Vec::new(alloc),
        }
    }

    /// Appends a label. On `NoMemory` the labels are as before.
    pub(crate) fn push(&mut self, label: &[u8]) -> Result<(), NoMemory>
        ensures appended { OnOk result (self.new ≡ self.old ++ label.now ∷ []) }
        ensures unchanged { OnErr result (self.new ≡ self.old) }
    {
        self.spans.reserve(1)?;
        let start = self.bytes.len();
        self.bytes.extend_from_slice(label)?;
        self.spans.push(Span {
            start,
            count: label.len(),
        })?;
        Ok(())
    }

    /// The same labels, or `NoMemory`.
    pub(crate) fn copy(&self, alloc: Global) -> Result<Labels, NoMemory>
        ensures labels { IfOk result (λ copy. copy ≡ self.now) }
    {
        let spans = Vec::from_slice(alloc, &self.spans)?;
        let bytes = Vec::from_slice(alloc, &self.bytes)?;
        Ok(Labels { spans, bytes })
    }

    /// How many labels there are.
    pub(crate) fn len(&self) -> usize
        ensures count { result ≡ length self.now }
    {
        self.spans.len()
    }

    /// The label with this number, which is below the number of labels.
    pub(crate) fn at(&self, number: usize) -> &[u8]
        requires held { number < length self.now }
        ensures label { slice_get self.now number ≡ Some result.now }
    {
        let span = self.spans[number];
        &self.bytes[span.start..span.start + span.count]
    }
}
