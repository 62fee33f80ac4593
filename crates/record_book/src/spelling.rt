//! The laws, over any scripts and orders, for crates whose contracts speak of bytes that they don't record themselves.
ghost use Rattle.std.specs.Prelude.{ℕ, List};
ghost use Rattle.record_scripts.specs.ModuleLines.{AreModuleLines};
ghost use Rattle.record_book.specs.Spelled.{AreQuiet};
ghost use Rattle.record_book.specs.SpelledOrders.{SummariesSpellNothing, TracesSpellOrders};

use hp_num::decimal_texts;

/// The bytes of a recording spell its order, with the summary behind them and without. The lines of modules have to be
/// whole lines that spell nothing. It does nothing.
pub fn spelled_orders()
    ensures trace { TracesSpellOrders }
    ensures summary { SummariesSpellNothing }
{
    decimal_texts();
}

/// The text of modules, as scripts keep it, spells nothing where it is whole lines about modules. It does nothing.
pub fn quiet_modules()
    ensures { (modules : List ℕ) → AreModuleLines modules → AreQuiet modules }
{}
