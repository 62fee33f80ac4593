//! Lists of texts as they are told: with which earlier list each begins, and which texts follow. The fronts that they share are
//! looked for when all are told, so that what the texts were made of can be let go before.
ghost use Rattle.std.specs.Prelude.{◌≡◌, ◌≢◌, ℕ, ◌-◌, ◌^◌, ◌<◌, List, [], length, IfOk, OnOk};
ghost use Rattle.cost_tree.specs.GrowingLists.{HasBegun, LastGets};
ghost use Rattle.cost_tree.specs.Told.{AreTold, MayFollow, after, told};

use crate::fronts::Fronts;
use crate::list_step::ListStep;
use crate::shape::Shape;
use hp_num::NoMemory;
use intern_tables::Names;
use std::alloc::Global;
use std::marker::Model;

/// Lists of texts, numbered from 0, for `CostTree::of_lists`. Each distinct text is kept once, and of each list what it begins with
/// and what follows.
///
/// Contracts see the list of the lists.
#[derive(Drop)]
pub struct CallerLists {
    names: Names,
    steps: Vec<ListStep>,
}

impl Model for CallerLists {
    ghost use Rattle.std.specs.Prelude.{ℕ, List};
    ghost use Rattle.cost_tree.specs.Texts.{lists_of};
    ghost use Rattle.cost_tree.specs.Told.{AreTold, told};

    ghost Value = { List (List (List ℕ)) };

    ghost view = { λ lists. lists_of lists.names (told lists.steps.items) };

    ghost invariant = { λ lists. AreTold lists.names lists.steps.items };
}

impl CallerLists {
    /// No lists. It takes no memory; that of the lists to come is taken from `alloc`.
    pub fn new(alloc: Global) -> CallerLists
        ensures empty { result ≡ [] }
    {
        CallerLists {
            names: Names::new(alloc),
            steps: Vec::new(alloc),
        }
    }

    /// Appends the list of the caller, which must be held; for 0 an empty one. There must be fewer than 2^32 - 1 lists. After
    /// `NoMemory` the lists are unfit for use.
    pub fn begin(&mut self, caller: u32) -> Result<(), NoMemory>
        requires held { caller ≢ 0 → caller < length self.old }
        requires few { length self.old < 2 ^ 32 - 1 }
        ensures appended { OnOk result (HasBegun self.old caller self.new) }
    {
        self.steps.push(ListStep::Begin { caller })?;
        Ok(())
    }

    /// Appends the text to the last list, of which there must be one. After `NoMemory` the lists are unfit for use.
    pub fn push(&mut self, text: &[u8]) -> Result<(), NoMemory>
        requires begun { 0 < length self.old }
        ensures appended { OnOk result (LastGets self.old text.now self.new) }
        ensures count { OnOk result (length self.new ≡ length self.old) }
    {
        let number = self.names.intern(text)?;
        self.steps.push(ListStep::Push { number })?;
        Ok(())
    }

    /// The same lists with each of their fronts once, or `NoMemory`.
    pub(crate) fn fronts(self, alloc: Global) -> Result<Fronts, NoMemory>
        ensures same { IfOk result (λ fronts. fronts ≡ self) }
    {
        let CallerLists { names, steps } = self;
        let shape = shape_of(alloc, &steps);
        drop(steps);
        match shape {
            Ok(shape) => Ok(Fronts::from_parts(names, shape)),
            Err(fault) => {
                drop(names);
                Err(fault)
            }
        }
    }
}

/// The lists that the steps tell, or `NoMemory`.
fn shape_of(alloc: Global, steps: &[ListStep]) -> Result<Shape, NoMemory>
    requires told { (names : List (List ℕ)) × AreTold names steps.now }
    ensures lists { IfOk result (λ shape. shape ≡ told steps.now) }
{
    // Each step is a list or a number more, so that none is moved while they come.
    let mut shape = Shape::with_capacity(alloc, steps.len())?;
    'each_step: for step in steps {
        follow(&mut shape, *step)?;
    }
    Ok(shape)
}

/// Goes on by one step.
fn follow(shape: &mut Shape, step: ListStep) -> Result<(), NoMemory>
    requires may { MayFollow shape.old step }
    ensures after { OnOk result (shape.new ≡ after shape.old step) }
{
    match step {
        ListStep::Begin { caller } => shape.begin_with(caller),
        ListStep::Push { number } => shape.push(number),
    }
}
