//! The laws on what the contracts of a check speak of.
ghost use Rattle.std.specs.Prelude.{ℕ, ◌≤◌, List, length};
ghost use Rattle.record_scripts.specs.Job.{Job};
ghost use Rattle.record_book.specs.Spelled.{AreQuiet};
ghost use Rattle.order_check.specs.CheckAnswer.{HasOneAnswer};
ghost use Rattle.order_check.specs.FrontLaws.{FrontLaws};

use hp_num::decimal_texts;

/// What following the lines of a trace says of recordings: whether one begins so, which few orders it is enough to look at,
/// and whether the lines are all of one. It does nothing.
///
/// The lines of modules have to be whole lines that spell nothing, and there may be 64 scripts at most.
pub fn front_laws()
    ensures { (job : Job) → length job.scripts ≤ 64 → AreQuiet job.modules → FrontLaws job }
{
    decimal_texts();
}

/// A file has one answer, but for want of memory and a failed read: so each comes exactly where what it says holds. It does
/// nothing.
pub fn one_answer()
    ensures { (input line : ℕ) (job : Job) (bytes : List ℕ) → HasOneAnswer input line job bytes }
{}
