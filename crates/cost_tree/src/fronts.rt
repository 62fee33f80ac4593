//! Lists of texts, as those that a tree is built of.
//! What the lists cost is told when a tree is built.
ghost use Rattle.std.specs.Prelude.{◌≡◌, ℕ, ◌+◌, ◌-◌, ◌^◌, ◌<◌, List, [], ◌∷◌, ◌++◌, length, IfOk, OnOk, OnErr};
ghost use Rattle.cost_tree.specs.Texts.{AreTexts, lists_of};
ghost use Rattle.cost_tree.specs.GrowingLists.{LastGets};

use crate::shape::Shape;
use hp_num::NoMemory;
use intern_tables::Names;
use std::alloc::Global;
use std::marker::Model;

/// Lists of texts, numbered from 0. Each distinct text is kept once, and so is each front that some lists begin with.
///
/// Contracts see the list of the lists.
#[derive(Drop)]
pub struct Fronts {
    pub(crate) names: Names,
    pub(crate) shape: Shape,
}

impl Model for Fronts {
    ghost use Rattle.std.specs.Prelude.{ℕ, List};
    ghost use Rattle.cost_tree.specs.Texts.{AreTexts, lists_of};

    ghost Value = { List (List (List ℕ)) };

    ghost view = { λ fronts. lists_of fronts.names fronts.shape };

    ghost invariant = { λ fronts. AreTexts fronts.names fronts.shape };
}

impl Fronts {
    /// No lists. It takes no memory; that of the lists to come is taken from `alloc`.
    pub fn new(alloc: Global) -> Fronts
        ensures empty { result ≡ [] }
    {
        Fronts {
            names: Names::new(alloc),
            shape: Shape::new(alloc),
        }
    }

    /// The lists of the texts that the shape's numbers are those of. Each must be one of a name.
    pub fn from_parts(names: Names, shape: Shape) -> Fronts
        requires texts { AreTexts names shape }
        ensures lists { result ≡ lists_of names shape }
    {
        Fronts { names, shape }
    }

    /// Appends an empty list and answers its number. There must be fewer than 2^32 - 1 lists. On `NoMemory` the lists
    /// are as before.
    pub fn begin(&mut self) -> Result<u32, NoMemory>
        requires few { length self.old < 2 ^ 32 - 1 }
        ensures appended { OnOk result (self.new ≡ self.old ++ [] ∷ []) }
        ensures number { IfOk result (λ n. n ≡ length self.old) }
        ensures unchanged { OnErr result (self.new ≡ self.old) }
    {
        self.shape.begin()
    }

    /// Appends the text to the last list, of which there must be one. On `NoMemory` the lists are as before.
    pub fn push(&mut self, text: &[u8]) -> Result<(), NoMemory>
        requires begun { 0 < length self.old }
        ensures appended { OnOk result (LastGets self.old text.now self.new) }
        ensures count { length self.new ≡ length self.old }
        ensures unchanged { OnErr result (self.new ≡ self.old) }
    {
        let number = self.names.intern(text)?;
        self.shape.push(number)
    }

    /// How many lists there are.
    pub fn len(&self) -> u32
        ensures count { result ≡ length self.now }
    {
        self.shape.len()
    }
}
