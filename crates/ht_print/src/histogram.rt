//! The histogram of a trace's allocations by their sizes: how many there were in each of nine ranges.
#![tactic(auto, using(hp_num::proofs::Laws::extends_same, hp_num::proofs::Laws::extends_more, hp_num::proofs::Laws::extends_trans))]

ghost use Rattle.std.specs.Prelude.{◌≡◌, ◌≤◌, ◌<◌, OnErr, length};
ghost use Rattle.live_ledger.specs.StandsFor.{StandsFor};
ghost use Rattle.hp_num.specs.Extends.{Extends};
ghost use Rattle.ht_trace.specs.LedgerFits.{IsBeside};
ghost use Rattle.ht_print.specs.Appends.{Appends, AppendsFor};
ghost use Rattle.ht_print.specs.Histogram.{IsCountAt, allocations_at, histogram_lines, histogram_text, is_in, large_ranges, range_at, small_ranges};

use hp_num::{NoMemory, put_bytes, put_dec};
use ht_trace::Tables;
use live_ledger::{Ledger, sums_by_info};

/// Appends the histogram to `out`: its heading, a line for each range of sizes in bytes with the allocations in it, and
/// an empty line. On `NoMemory`, `out` holds what it held before.
///
/// The ledger and the tables hold the same stacks and infos.
pub fn put_histogram(ledger: &Ledger, tables: &Tables, out: &mut Vec<u8>) -> Result<(), NoMemory>
    requires beside { IsBeside tables.now ledger.now }
    ensures appended { AppendsFor (StandsFor ledger.now) histogram_text out.old out.new result }
    ensures unchanged { OnErr result (out.new.items ≡ out.old.items) }
    ensures kept { Extends out.old.items out.new.items }
{
    sums_by_info();
    let before = out.len();
    let put = put_ranges(ledger, tables, out);
    if put.is_err() {
        out.truncate(before);
    }
    put
}

/// Appends the histogram, or a part of it.
fn put_ranges(ledger: &Ledger, tables: &Tables, out: &mut Vec<u8>) -> Result<(), NoMemory>
    requires beside { IsBeside tables.now ledger.now }
    ensures appended { Appends (histogram_lines (allocations_at ledger.now)) out.old out.new result }
    ensures kept { Extends out.old.items out.new.items }
{
    put_bytes(out, b"SIZE HISTOGRAM\n")?;
    put_small_ranges(ledger, tables, out)?;
    put_large_ranges(ledger, tables, out)?;
    put_range(ledger, tables, b"1025 and more", 1025, None, out)?;
    put_bytes(out, b"\n")
}

/// Appends the lines of the ranges up to 64 bytes.
#[tactic(auto, unfolding(crate::specs::Histogram::small_ranges))]
fn put_small_ranges(ledger: &Ledger, tables: &Tables, out: &mut Vec<u8>) -> Result<(), NoMemory>
    requires beside { IsBeside tables.now ledger.now }
    ensures appended { Appends (small_ranges (allocations_at ledger.now)) out.old out.new result }
    ensures kept { Extends out.old.items out.new.items }
{
    put_range(ledger, tables, b"0 to 8", 0, Some(8), out)?;
    put_range(ledger, tables, b"9 to 16", 9, Some(16), out)?;
    put_range(ledger, tables, b"17 to 32", 17, Some(32), out)?;
    put_range(ledger, tables, b"33 to 64", 33, Some(64), out)
}

/// Appends the lines of the ranges from 65 to 1,024 bytes.
#[tactic(auto, unfolding(crate::specs::Histogram::large_ranges))]
fn put_large_ranges(ledger: &Ledger, tables: &Tables, out: &mut Vec<u8>) -> Result<(), NoMemory>
    requires beside { IsBeside tables.now ledger.now }
    ensures appended { Appends (large_ranges (allocations_at ledger.now)) out.old out.new result }
    ensures kept { Extends out.old.items out.new.items }
{
    put_range(ledger, tables, b"65 to 128", 65, Some(128), out)?;
    put_range(ledger, tables, b"129 to 256", 129, Some(256), out)?;
    put_range(ledger, tables, b"257 to 512", 257, Some(512), out)?;
    put_range(ledger, tables, b"513 to 1024", 513, Some(1024), out)
}

/// Appends the line of a range.
fn put_range(
    ledger: &Ledger,
    tables: &Tables,
    label: &[u8],
    least: u64,
    greatest: Option<u64>,
    out: &mut Vec<u8>,
) -> Result<(), NoMemory>
    requires beside { IsBeside tables.now ledger.now }
    ensures appended { Appends (range_at ledger.now label.now least greatest) out.old out.new result }
    ensures kept { Extends out.old.items out.new.items }
{
    let calls = allocations(ledger, tables, least, greatest);
    put_bytes(out, label)?;
    put_bytes(out, b": ")?;
    put_dec(out, calls)?;
    put_bytes(out, b" calls\n")
}

/// How many allocations have a size of at least `least` bytes and at most `greatest`, where there is a greatest.
fn allocations(ledger: &Ledger, tables: &Tables, least: u64, greatest: Option<u64>) -> u64
    requires beside { IsBeside tables.now ledger.now }
    ensures { result ≡ allocations_at ledger.now least greatest }
{
    if ledger.totals().calls == 0 {
        return 0;
    }
    let mut calls = 0;
    'each_info: for info in 0..ledger.infos() {
        calls += allocations_of(ledger, tables, info, least, greatest);
    }
    calls
}

/// The allocations of a held info where its size is in the range, else none.
fn allocations_of(
    ledger: &Ledger,
    tables: &Tables,
    info: u32,
    least: u64,
    greatest: Option<u64>,
) -> u64
    requires beside { IsBeside tables.now ledger.now }
    requires held { info < length ledger.now.infos }
    ensures value { IsCountAt ledger.now least greatest info result }
    ensures within { result ≤ ledger.now.totals.calls }
{
    let Some((size, _)) = tables.info(info) else {
        return 0;
    };
    if is_in(size, least, greatest) {
        ledger.info_calls(info)
    } else {
        0
    }
}

/// Whether the size is in the range.
fn is_in(size: u64, least: u64, greatest: Option<u64>) -> bool
    ensures { result ≡ is_in least greatest size }
{
    match greatest {
        Some(greatest) => least <= size && size <= greatest,
        None => least <= size,
    }
}
