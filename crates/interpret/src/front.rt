//! Lines of a raw trace in their usual form, taken from the front of bytes where nothing about them is in doubt. Every other
//! line is left to `line`.
ghost use Rattle.std.specs.Prelude.{◌≡◌, ◌<◌, ◌≤◌, length, IfNone, IfSome};
ghost use Rattle.ht_lines.specs.Content.{node_line, raw_allocation_line};
ghost use Rattle.ht_lines.specs.RawLine.{raw_content};
ghost use Rattle.interpret.specs.TakesFront.{TakesFront};
ghost use Rattle.interpret.specs.TakesLine.{TriesSaid};

use crate::allocation_lines::put_held;
use crate::infos::AllocationInfo;
use crate::interpreter::Interpreter;
use crate::node_lines::add_held_node;
use ht_lines::{RawEvent, raw_line};

impl Interpreter {
    /// Reads the line at the front of the bytes, as `line` would, and appends the lines that it gives, where it stands there
    /// in its usual form with its line feed, is an allocation of a pair of a size and a node that is held, a free, or a node
    /// of an address that has a number, has no fault, and no memory is wanting. It answers how many bytes the line has with
    /// its line feed. Where it answers `None`, nothing was read and nothing is given. A version line was read before.
    /// The loop over it has the whole walk in its body.
    #[inline(always)]
    pub fn take_front(&mut self, ready: &[u8], out: &mut Vec<u8>) -> Option<usize>
        ensures taken { IfSome result
            (λ bytes. TakesFront self.old self.new ready.now bytes out.old.items out.new.items) }
        ensures some { IfSome result (λ bytes. 0 < bytes) }
        ensures held { IfSome result (λ bytes. bytes ≤ length ready.now) }
        ensures untaken { IfNone result (self.new ≡ self.old) }
        ensures unwritten { IfNone result (out.new.items ≡ out.old.items) }
        ensures symbols { self.new.symbols ≡ self.old.symbols }
    {
        if self.version.is_none() {
            return None;
        }
        let line = raw_line(ready)?;
        if self.take_event(line.says, out) {
            return Some(line.bytes);
        }
        None
    }

    /// Takes what a line says, and answers whether it was taken.
    #[inline(always)]
    fn take_event(&mut self, says: RawEvent, out: &mut Vec<u8>) -> bool
        ensures { TriesSaid self.old self.new (raw_content says) out.old out.new result }
    {
        match says {
            RawEvent::Allocation { size, trace, ptr } => self.allocate_held(size, trace, ptr, out),
            RawEvent::Free { ptr } => self.free(ptr, out).is_ok(),
            RawEvent::Node { ip, parent } => self.add_known_node(ip, parent, out),
        }
    }

    /// Takes an allocation of a pair that is held.
    #[inline(always)]
    fn allocate_held(&mut self, size: u64, trace: u64, ptr: u64, out: &mut Vec<u8>) -> bool
        ensures { TriesSaid self.old self.new (raw_allocation_line size trace ptr) out.old out.new
            result }
    {
        if trace > u64::from(self.nodes.len()) {
            return false;
        }
        match self.infos.find(AllocationInfo { size, trace }) {
            Some(info) => put_held(&mut self.pointers, info, ptr, out).is_ok(),
            None => false,
        }
    }

    /// Takes a node of an address that has a number.
    fn add_known_node(&mut self, ip: u64, parent: u64, out: &mut Vec<u8>) -> bool
        ensures { TriesSaid self.old self.new (node_line ip parent) out.old out.new result }
    {
        match self.known.find(ip) {
            Some(instruction) => {
                add_held_node(&mut self.nodes, instruction, parent, out).is_ok()
            }
            None => false,
        }
    }
}
