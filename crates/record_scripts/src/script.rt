//! The script of one thread, and its next turn. What its lines say is no part of it.
ghost use Rattle.std.specs.Prelude.{◌≡◌, ℕ, ◌<◌, ◌↔◌, length, map, IsTrue, IfSome, IsOk, OnOk, OnErr, ◌≤◌};
ghost use Rattle.record_scripts.specs.ScriptTurns.{AreHeld, HasRoom, IsHeld, KeepsAt, KeepsScripts, PushesTurn, StayHeld, StayHeldWith, scripts_numbered, turn_numbered};

use crate::turn_entry::TurnEntry;
use hp_num::NoMemory;

/// The turns of one thread.
#[derive(Drop)]
pub struct Script {
    pub turns: Vec<TurnEntry>,
}

/// Makes room for one turn more in the last script. On `NoMemory` the scripts are as before.
pub fn reserve_turn(scripts: &mut Vec<Script>) -> Result<(), NoMemory>
    requires { 0 < length scripts.old.items }
    ensures same { KeepsScripts scripts.old.items scripts.new.items }
    ensures held { StayHeld scripts.old.items scripts.new.items }
    ensures count { length scripts.new.items ≡ length scripts.old.items }
    ensures room { OnOk result (HasRoom scripts.new.items) }
{
    let last = scripts.len() - 1;
    let script = &mut scripts[last];
    script.turns.reserve(1)?;
    Ok(())
}

/// Appends a turn to the last script. On `NoMemory` the scripts are as before. It can't fail where there is room.
pub fn push_turn(scripts: &mut Vec<Script>, turn: TurnEntry) -> Result<(), NoMemory>
    requires { 0 < length scripts.old.items }
    ensures pushes { PushesTurn scripts.old.items scripts.new.items turn result }
    ensures held { OnOk result (StayHeldWith scripts.old.items scripts.new.items turn) }
    ensures still_held { OnErr result (StayHeld scripts.old.items scripts.new.items) }
    ensures room { HasRoom scripts.old.items → IsOk result }
{
    let last = scripts.len() - 1;
    let script = &mut scripts[last];
    script.turns.push(turn)?;
    Ok(())
}

/// The turn of a thread with the number `place` from 0.
pub fn turn_at(scripts: &[Script], thread: u32, place: u32) -> Option<TurnEntry>
    requires { thread < length scripts.now }
    ensures kept { KeepsAt scripts.now thread place result }
    ensures held { (count : ℕ) → AreHeld count scripts.now
        → IfSome result (λ turn. IsHeld count turn) }
{
    let script = &scripts[thread as usize];
    script.turns.get(place as usize).copied()
}

/// Whether the turns of all threads are kept in the same way.
pub fn are_kept_as(scripts: &[Script], others: &[Script]) -> bool
    ensures { IsTrue result ↔ (scripts_numbered scripts.now ≡ scripts_numbered others.now) }
{
    if scripts.len() != others.len() {
        return false;
    }
    for thread in 0..scripts.len() {
        if !are_same_turns(&scripts[thread].turns, &others[thread].turns) {
            return false;
        }
    }
    true
}

/// Whether turns are kept in the same way.
fn are_same_turns(turns: &[TurnEntry], others: &[TurnEntry]) -> bool
    ensures { IsTrue result ↔ (map turn_numbered turns.now ≡ map turn_numbered others.now) }
{
    if turns.len() != others.len() {
        return false;
    }
    for place in 0..turns.len() {
        if !turns[place].is_kept_as(&others[place]) {
            return false;
        }
    }
    true
}
