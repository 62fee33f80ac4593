//! A store in memory of whose calls some are to fail, so that a caller's answer to each failure
//! can be compared with what it should be.
ghost use Rattle.std.specs.Prelude.{◌≡◌, ◌≢◌, ◌-◌, ◌^◌, ◌<◌, ◌≤◌, ◌↔◌, ℕ, List, [], None, Some, IsSome, IfOk, OnOk, OnErr, is_some, is_ok, length, take, if◌then◌else◌};
ghost use Rattle.hp_outside.specs.Folder.{KeepsOthers, file_of};
ghost use Rattle.hp_outside.specs.MemStoreState.{opened_by, read_answer, store_read};
ghost use Rattle.hp_outside.specs.Taken.{IsEndAt, IsReadInto};
ghost use Rattle.hp_outside.specs.Calls.{no_calls, fail_also_at, next_fails, after_call};
ghost use Rattle.hp_outside.specs.SureStoreState.{new_store, with_file};
ghost use Rattle.hp_outside.specs.OpenAnswer.{TellsAbsent, open_answer};

use crate::calls::CallCounter;
use crate::store::{Failed, OpenFault, Store};
use crate::sure_store::SureStore;
use hp_num::NoMemory;
use std::alloc::Global;
use std::marker::Model;

/// A store in memory that tells its files, of whose calls some are to fail.
///
/// Calls are counted from 1 over `open` and `read`.
#[derive(Drop)]
pub struct MemStore {
    store: SureStore,
    calls: CallCounter,
}

impl Model for MemStore {
    ghost use Rattle.hp_outside.specs.MemStoreState.{MemStoreState, mem_store_code};

    ghost Value = { MemStoreState };

    ghost coded = { mem_store_code };

    ghost view = { λ s. record { store = s.store; calls = s.calls } };
}

impl MemStore {
    /// A store without files, of whose calls none is to fail, and whose reads give at most `piece`
    /// bytes each.
    pub fn new(alloc: Global, piece: usize) -> MemStore
        requires { 0 < piece }
        ensures store { result.store ≡ new_store piece }
        ensures none_held { (name : List ℕ) → file_of result.store.folder name ≡ None }
        ensures calls { result.calls ≡ no_calls }
    {
        MemStore {
            store: SureStore::new(alloc, piece),
            calls: CallCounter::new(alloc),
        }
    }

    /// Adds a file under a name that is not held.
    pub fn add(&mut self, name: &str, bytes: &[u8]) -> Result<(), NoMemory>
        requires { file_of self.old.store.folder name.now ≡ None }
        ensures added { OnOk result (self.new.store ≡ with_file self.old.store name.now bytes.now) }
        ensures held { OnOk result (file_of self.new.store.folder name.now ≡ Some bytes.now) }
        ensures others { OnOk result
            (KeepsOthers self.old.store.folder self.new.store.folder name.now) }
        ensures calls { self.new.calls ≡ self.old.calls }
        ensures kept { OnErr result (self.new ≡ self.old) }
    {
        self.store.add(name, bytes)
    }

    /// Names one more call that is to fail.
    pub fn fail_at(&mut self, call: u64) -> Result<(), NoMemory>
        ensures named { OnOk result (self.new.calls ≡ fail_also_at self.old.calls call) }
        ensures store { self.new.store ≡ self.old.store }
        ensures kept { OnErr result (self.new ≡ self.old) }
    {
        self.calls.fail_at(call)
    }
}

impl Store for MemStore {
    ghost files = { λ s. Some s.store.folder };

    ghost current = { λ s. is_some s.store.left };

    ghost left = { λ s. s.store.left };

    ghost opens = { λ s. s.store.opens };

    ghost faults = { λ s. s.calls.faults };

    ghost tells_left = { λ s told current. current };

    /// An absent name is `Absent`, also where the call is one that is to fail.
    fn open(&mut self, name: &str) -> Result<(), OpenFault>
        requires { self.old.store.opens < 2 ^ 64 - 1 }
        ensures absent { TellsAbsent self.old.store.folder name.now result }
        ensures answer { result
            ≡ open_answer (file_of self.old.store.folder name.now) (next_fails self.old.calls) }
        ensures left { self.new.store ≡ opened_by self.old.store name.now result }
        ensures faults { self.old.calls.faults ≤ self.new.calls.faults }
        ensures calls { self.new.calls ≡ after_call self.old.calls (next_fails self.old.calls) }
    {
        let fails = self.calls.next_fails();
        self.calls.count_call(fails);
        let answer = self.store.open(name);
        if fails && answer.is_ok() {
            self.store.close();
            return Err(OpenFault::Failed);
        }
        answer
    }

    /// Gives the next bytes, as many as the piece, the buffer and the file allow, where the call
    /// is not one that is to fail.
    fn read(&mut self, buf: &mut [u8]) -> Result<usize, Failed>
        requires current { IsSome self.old.store.left }
        requires room { 0 < length buf.old }
        ensures taken { IfOk result
            (IsReadInto buf.new self.old.store.left self.new.store.left) }
        ensures end { IfOk result (IsEndAt self.old.store.left) }
        ensures answer { result ≡ read_answer self.old (length buf.old) }
        ensures left { self.new.store ≡ store_read self.old (length buf.old) }
        ensures faults { self.old.calls.faults ≤ self.new.calls.faults }
        ensures calls { self.new.calls ≡ after_call self.old.calls (next_fails self.old.calls) }
    {
        let fails = self.calls.next_fails();
        self.calls.count_call(fails);
        if fails {
            return Err(Failed);
        }
        self.store.read(buf)
    }
}
