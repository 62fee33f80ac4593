//! The trace of a recording turn by turn, of which a front may be let go. That all of it is kept, is no part of it.
ghost use Rattle.std.specs.Prelude.{◌≡◌, ◌≢◌, ◌+◌, ◌<◌, ◌≤◌, ◌↔◌, List, [], length, vec_capacity, vec_len, IfOk, IsOk, IsTrue, OnOk, OnErr};
ghost use Rattle.std.specs.Arc.{arc_value};
ghost use Rattle.stack_table.specs.Node.{Node};
ghost use Rattle.record_scripts.specs.Events.{event_count};
ghost use Rattle.record_scripts.specs.Job.{IsSameWork};
ghost use Rattle.record_book.specs.BookState.{AppendsTurn, IsStep};
ghost use Rattle.record_book.specs.HeapPlaces.{LieApart};
ghost use Rattle.record_book.specs.Orders.{IsInterleaving, IsUnder};
ghost use Rattle.record_book.specs.MappedNodes.{IsKnown, ips_of};
ghost use Rattle.record_book.specs.RecordedTrace.{recorded};
ghost use Rattle.record_book.specs.StreamState.{GainsText};
ghost use Rattle.record_book.specs.declared.turn_stack.TurnStack.TheVariants.{Known};

use crate::node_map::NodeMap;
use crate::trace::Trace;
use crate::turn_stack::TurnStack;
use hp_num::NoMemory;
use record_scripts::{ScriptLine, Scripts};
use std::alloc::Global;
use std::marker::Model;
use std::sync::Arc;

/// The recording of scripts, as far as their threads have come, with what is kept of its trace.
///
/// Contracts see it as the scripts with their modules, the order, and the text that is kept: the trace of the order but for
/// a front, which was let go.
#[derive(Drop)]
pub struct TraceStream {
    job: Arc<Scripts>,
    done: Vec<u32>,
    order: Vec<u8>,
    trace: Trace,
    nodes: NodeMap,
}

impl Model for TraceStream {
    ghost use Rattle.std.specs.Arc.{arc_value};
    ghost use Rattle.record_scripts.specs.ScriptNodes.{nodes_in};
    ghost use Rattle.record_book.specs.MappedNodes.{AreMapped};
    ghost use Rattle.record_book.specs.StreamState.{IsStream, Streamed};

    ghost Value = { Streamed };

    ghost view = { λ s. record {
      job = arc_value s.job;
      order = s.order.items;
      text = s.trace.text.items;
    } };

    ghost invariant = { λ s. IsStream (arc_value s.job) s.done.items s.order.items s.trace
        × AreMapped s.nodes (nodes_in (arc_value s.job).scripts) s.trace.nodes };
}

impl TraceStream {
    /// The recording of these scripts, of which no turn is taken, with all of its trace.
    pub fn new(alloc: Global, job: Arc<Scripts>) -> Result<TraceStream, NoMemory>
        ensures job { IfOk result (λ stream. stream.job ≡ arc_value job) }
        ensures no_turns { IfOk result (λ stream. stream.order ≡ []) }
        ensures whole { IfOk result (λ stream. stream.text ≡ recorded stream.job stream.order) }
    {
        let done = vec![in alloc; 0; job.threads() as usize]?;
        let nodes = NodeMap::new(alloc, &job)?;
        let trace = Trace::new(alloc, job.modules(), job.threads())?;
        Ok(TraceStream {
            job,
            done,
            order: Vec::new(alloc),
            trace,
            nodes,
        })
    }

    /// Takes the next turn of a thread, whose script has to be there: the thread is appended to the order, twice for a
    /// reallocation and else once, and its lines to the text. It answers `true`, or `false` exactly where the script is
    /// done. On `NoMemory` all is as before.
    pub fn step(&mut self, thread: u32) -> Result<bool, NoMemory>
        requires { thread < length self.old.job.scripts }
        ensures step { IfOk result (IsStep self.old.job thread self.old.order self.new.order) }
        ensures job { self.new.job ≡ self.old.job }
        ensures text { OnOk result (GainsText self.old self.new) }
        ensures unchanged { OnErr result (self.new ≡ self.old) }
    {
        let place = self.done[thread as usize];
        let Some((turn, node)) = self.job.turn(thread, place) else {
            return Ok(false);
        };
        self.order.reserve(2)?;
        let known = self.nodes.find(&self.job, node)?;
        let stack = stack_of(known, &self.nodes.ips);
        let number = self.trace.add(thread, turn, stack)?;
        self.nodes.learn(node, number);
        push_entries(&mut self.order, thread as u8, turn)?;
        self.done[thread as usize] = place + 1;
        Ok(true)
    }

    /// What is kept of the trace: its end.
    pub fn text(&self) -> &[u8]
        ensures text { result.now ≡ self.now.text }
    {
        self.trace.text.as_slice()
    }

    /// The same, which is all that stays.
    pub fn into_text(self) -> Vec<u8>
        ensures text { result.items ≡ self.text }
    {
        let trace = self.trace;
        trace.text
    }

    /// Lets go what is kept of the trace.
    pub fn let_go(&mut self)
        ensures { self.new ≡ record self.old { text = [] } }
    {
        self.trace.text.clear();
    }

    /// Takes other scripts in the place of these. They and their modules have to be the same, however many events there may
    /// be.
    pub(crate) fn take_job(&mut self, job: Arc<Scripts>)
        requires { IsSameWork self.old.job (arc_value job) }
        ensures { self.new ≡ record self.old { job = arc_value job } }
    {
        self.job = job;
    }

    /// The thread of each event so far.
    pub fn order(&self) -> &[u8]
        ensures order { result.now ≡ self.now.order }

        // The order.
        ensures under { IsUnder self.now.job.scripts self.now.order }
        ensures apart { LieApart self.now.job.scripts self.now.order }
        ensures few { length self.now.order ≤ event_count self.now.job.scripts }
    {
        self.order.as_slice()
    }

    /// Whether all turns are taken.
    pub fn is_complete(&self) -> bool
        ensures { IsTrue result ↔ IsInterleaving self.now.job.scripts self.now.order }
    {
        let order = self.order.as_slice();
        order.len() as u64 == self.job.events()
    }

    /// The scripts, with their modules.
    pub fn scripts(&self) -> &Scripts
        ensures job { result.now ≡ self.now.job }
        ensures under { IsUnder self.now.job.scripts self.now.order }
    {
        &self.job
    }
}

/// Appends a thread to an order, once for each event of its turn. It can't fail where there is room for two.
fn push_entries(order: &mut Vec<u8>, thread: u8, turn: ScriptLine) -> Result<(), NoMemory>
    ensures pushed { OnOk result (AppendsTurn order.old.items order.new.items thread turn) }
    ensures room { vec_len order.old + 2 ≤ vec_capacity order.old → IsOk result }
{
    order.push(thread)?;
    match turn {
        ScriptLine::Reallocation { .. } => order.push(thread)?,
        _ => {}
    }
    Ok(())
}

/// The stack of a node that is known, or of these ips where it is 0.
fn stack_of(known: u32, ips: &[u64]) -> TurnStack<'_>
    ensures known { known ≢ 0 → result ≡ Known known }
    ensures ips { known ≡ 0 → (nodes : List Node) → ips_of nodes result ≡ ips.now }
    ensures is_known { (nodes : List Node) → known ≤ length nodes → IsKnown nodes result }
{
    if known == 0 {
        TurnStack::Ips(ips)
    } else {
        TurnStack::Known(known)
    }
}
