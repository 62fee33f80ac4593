//! The instruction pointers that have a number, and how many frames the line of each says.
ghost use Rattle.std.specs.Prelude.{◌≡◌, ◌≢◌, ℕ, ◌+◌, ◌<◌, ◌≤◌, ◌==◌, List, [], ◌∷◌, ◌++◌, false, true, length, IfNone, IfSome, OnOk, OnErr, IfErr};
ghost use Rattle.std.specs.List.{list_any};
ghost use Rattle.ht_trace.specs.LineFault.{Tells, most_entries};
ghost use Rattle.interpret.specs.FirstAppearances.{over_fault};
ghost use Rattle.interpret.specs.RawTables.{KnownIp, ip_frames, ip_number, is_numbered};

use ht_trace::LineError;
use indexmap::IndexMap;
use std::alloc::Global;
use std::marker::Model;

/// The most instructions.
const MAX_INSTRUCTIONS: usize = u32::MAX as usize;

/// An instruction's number, and how many frames its line says.
#[derive(Clone, Copy)]
pub struct Numbered {
    pub number: u64,
    pub frames: u32,
}

/// Instruction pointers by their numbers, which are from 1 on. Contracts see it as their list.
#[derive(Drop)]
pub struct KnownIps {
    frames: IndexMap<u64, u32>,
}

impl Model for KnownIps {
    ghost use Rattle.std.specs.Prelude.{List, map};
    ghost use Rattle.interpret.specs.RawTables.{KnownIp};
    ghost use Rattle.std.specs.Prelude.{◌≤◌, length};
    ghost use Rattle.ht_trace.specs.LineFault.{most_entries};
    ghost use Rattle.interpret.specs.KnownEntries.{known_kept};

    ghost Value = { List KnownIp };

    ghost view = { λ table. map known_kept table.frames.entries };

    ghost invariant = { λ table. length table.frames.entries ≤ most_entries };
}

impl KnownIps {
    /// No instruction pointers. It takes no memory.
    pub fn new(alloc: Global) -> Self
        ensures empty { result ≡ [] }
    {
        KnownIps {
            frames: IndexMap::new(alloc),
        }
    }

    /// The number and the frames of an instruction pointer: `None` exactly where it has no number. Address 0 has number 0
    /// and one frame. It takes no memory.
    pub fn find(&self, ip: u64) -> Option<Numbered>
        ensures none { IfNone result (is_numbered self.now ip ≡ false) }
        ensures some { IfSome result (λ found. is_numbered self.now ip ≡ true) }
        ensures number { IfSome result (λ found. found.number ≡ ip_number self.now ip) }
        ensures frames { IfSome result (λ found. found.frames ≡ ip_frames self.now ip) }
    {
        if ip == 0 {
            return Some(Numbered {
                number: 0,
                frames: 1,
            });
        }
        self.find_some(ip)
    }

    /// The same for an address that isn't 0.
    fn find_some(&self, ip: u64) -> Option<Numbered>
        requires some { ip ≢ 0 }
        ensures none { IfNone result (list_any (λ k. ip == k.ip) self.now ≡ false) }
        ensures some { IfSome result (λ found. list_any (λ k. ip == k.ip) self.now ≡ true) }
        ensures number { IfSome result (λ found. found.number ≡ ip_number self.now ip) }
        ensures frames { IfSome result (λ found. found.frames ≡ ip_frames self.now ip) }
    {
        let (place, _, frames) = self.frames.get_full(&ip)?;
        Some(Numbered {
            number: place as u64 + 1,
            frames: *frames,
        })
    }

    /// The number that a new instruction pointer would have.
    pub fn next_number(&self) -> u64
        ensures { result ≡ length self.now + 1 }
    {
        self.frames.len() as u64 + 1
    }

    /// Adds an instruction pointer that has no number. `TooMany` comes exactly where 2^32 - 1 are held.
    pub fn add(&mut self, ip: u64, frames: u32) -> Result<(), LineError>
        requires new { list_any (λ k. ip == k.ip) self.old ≡ false }
        ensures added { OnOk result
            (self.new ≡ self.old ++ record { ip = ip; frames = frames } ∷ []) }
        ensures no_fault { OnOk result (over_fault most_entries (length self.old + 1) ≡ None) }
        ensures fault { IfErr result
            (λ error. Tells error (over_fault most_entries (length self.old + 1))) }
        ensures few { length self.new ≤ most_entries }
        ensures unchanged { OnErr result (self.new ≡ self.old) }
    {
        if self.frames.len() == MAX_INSTRUCTIONS {
            return Err(LineError::TooMany);
        }
        self.frames.insert(ip, frames)?;
        Ok(())
    }
}
