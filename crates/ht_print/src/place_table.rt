//! The table of places: the texts of innermost frames, each with a number. Texts are told apart by making them again from a
//! stack that has them, so that none is kept.
ghost use Rattle.std.specs.Prelude.{◌≡◌, ◌-◌, ◌^◌, ◌<◌, ◌≤◌, IfNone, IfOk, IfSome, OnOk, length};
ghost use Rattle.ht_print.specs.PlaceTable.{CanNumber, HasAdded, HasName, HasOneMore, HasPlace, IsBucket, IsTable, KeepsNames, LacksName, bucket_of};
ghost use Rattle.ht_print.specs.ReportGroups.{place_of};

use hp_num::NoMemory;
use ht_trace::{Style, Tables};
use std::alloc::Global;

/// By what a text's hash goes up for each byte, and how many hashes there are.
const HASH_FACTOR: u64 = 16_777_619;

const HASH_COUNT: u64 = 1 << 32;

/// For each place a stack that has it; the places in buckets, by a number that is made of the text: for each bucket its last
/// place, from 1 on, or 0 where it has none, and for each place in the same way the one before it in its bucket; and for
/// each instruction the place of its innermost frame, from 1 on, or 0 before it is asked for.
#[derive(Drop)]
pub(crate) struct PlaceTable {
    pub(crate) stacks: Vec<u32>,
    pub(crate) last: Vec<u32>,
    pub(crate) before: Vec<u32>,
    pub(crate) known: Vec<u32>,
}

impl PlaceTable {
    /// The table of no places, or `NoMemory`.
    pub(crate) fn new(alloc: Global, tables: &Tables) -> Result<PlaceTable, NoMemory>
        ensures empty { IfOk result (λ table. length table.stacks.items ≡ 0) }
        ensures table { IfOk result (λ table. IsTable tables.now table) }
    {
        let count = tables.instructions() as usize + 1;
        Ok(PlaceTable {
            stacks: Vec::new(alloc),
            last: vec![in alloc; 0; count]?,
            before: Vec::new(alloc),
            known: vec![in alloc; 0; count]?,
        })
    }

    /// The number of the stack's place, from 0 on. `text` and `other` are buffers.
    pub(crate) fn number_of(
        &mut self,
        tables: &Tables,
        stack: u32,
        text: &mut Vec<u8>,
        other: &mut Vec<u8>,
    ) -> Result<u32, NoMemory>
        requires can { CanNumber tables.now self.old stack }
        ensures table { OnOk result (IsTable tables.now self.new) }
        ensures place { IfOk result (HasPlace tables.now self.new stack) }
        ensures names_stay { OnOk result (KeepsNames tables.now self.old self.new) }
        ensures one_more { HasOneMore self.old self.new }
    {
        let Some((instruction, _)) = tables.node(stack) else {
            return self.number_of_text(tables, stack, text, other);
        };
        let known = self.known[instruction as usize];
        if known > 0 {
            return Ok(known - 1);
        }
        let number = self.number_of_text(tables, stack, text, other)?;
        self.known[instruction as usize] = number + 1;
        Ok(number)
    }

    /// The number of the stack's place by its text, which is made for it.
    fn number_of_text(
        &mut self,
        tables: &Tables,
        stack: u32,
        text: &mut Vec<u8>,
        other: &mut Vec<u8>,
    ) -> Result<u32, NoMemory>
        requires can { CanNumber tables.now self.old stack }
        ensures table { OnOk result (IsTable tables.now self.new) }
        ensures place { IfOk result (HasPlace tables.now self.new stack) }
        ensures small { IfOk result (λ number. number < 2 ^ 32 - 1) }
        ensures names_stay { OnOk result (KeepsNames tables.now self.old self.new) }
        ensures one_more { HasOneMore self.old self.new }
    {
        read_place(tables, stack, text)?;
        let bucket = bucket_of(text, self.last.len());
        if let Some(number) = self.find(tables, bucket, text, other)? {
            return Ok(number);
        }
        self.add(tables, stack, bucket)
    }

    /// The number of a text in its bucket, where the table has it. `other` is a buffer.
    fn find(
        &self,
        tables: &Tables,
        bucket: usize,
        text: &[u8],
        other: &mut Vec<u8>,
    ) -> Result<Option<u32>, NoMemory>
        requires table { IsTable tables.now self.now }
        requires bucket { IsBucket tables.now text.now bucket }
        ensures found { IfOk result (λ found. IfSome found (HasName tables.now self.now text.now)) }
        ensures none { IfOk result (λ found. IfNone found (LacksName tables.now self.now text.now)) }
    {
        let mut at = self.last[bucket];
        'backwards: while at > 0 {
            let number = at - 1;
            read_place(tables, self.stacks[number as usize], other)?;
            if other.as_slice() == text {
                return Ok(Some(number));
            }
            at = self.before[number as usize];
        }
        Ok(None)
    }

    /// Adds the stack's place, which the table lacks, to the bucket of its text, and answers its number.
    fn add(&mut self, tables: &Tables, stack: u32, bucket: usize) -> Result<u32, NoMemory>
        requires can { CanNumber tables.now self.old stack }
        requires bucket { IsBucket tables.now (place_of tables.now stack) bucket }
        requires new { LacksName tables.now self.old (place_of tables.now stack) }
        ensures table { OnOk result (IsTable tables.now self.new) }
        ensures added { IfOk result (HasAdded stack self.old self.new) }
        ensures one_more { HasOneMore self.old self.new }
    {
        let number = self.stacks.len() as u32;
        self.before.push(self.last[bucket])?;
        self.stacks.push(stack)?;
        self.last[bucket] = number + 1;
        Ok(number)
    }
}

/// The bucket of a text among so many.
fn bucket_of(text: &[u8], buckets: usize) -> usize
    requires some { 0 < buckets }
    ensures bucket { result ≡ bucket_of buckets text.now }
    ensures within { result < buckets }
{
    let mut hash: u64 = 0;
    'each_byte: for byte in text {
        hash = (hash * HASH_FACTOR + u64::from(*byte)) % HASH_COUNT;
    }
    hash as usize % buckets
}

/// Replaces `text` by the text of the stack's innermost frame.
fn read_place(tables: &Tables, stack: u32, text: &mut Vec<u8>) -> Result<(), NoMemory>
    requires held { stack ≤ length tables.now.nodes }
    ensures text { OnOk result (text.new.items ≡ place_of tables.now stack) }
{
    text.clear();
    tables.put_frame(&tables.innermost_frame(stack), Style::Plain, text)
}
