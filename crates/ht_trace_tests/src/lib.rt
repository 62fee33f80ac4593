//! Tests of the calls of `ht_lines`, `intern_tables`, `stack_table`, `live_ledger`, `peak_costs` and `ht_trace`, and of the one of
//! `ht_print` that no command calls, `put_flame`. They stand in a crate of their own, so that these are proved once.
//!
//! | File | What it has |
//! |---|---|
//! | `written_lines`, `fronts` | lines of each kind, as they are written or why they are refused, and those at the front of a text |
//! | `names`, `nodes` | names and stacks by number |
//! | `lines`, `frames` | the lines of worked traces, and the texts of their frames |
//! | `figures`, `flames` | the figures of worked traces, and the flame stacks of one |
#![tactic(auto)]

#[cfg(test)]
mod tests;
