//! Numbers as a graph labels them: in the greatest unit that isn't above them.
#![tactic(auto, using(hp_num::proofs::Laws::extends_same, hp_num::proofs::Laws::extends_more, hp_num::proofs::Laws::extends_trans))]

ghost use Rattle.std.specs.Prelude.{◌≡◌, ◌+◌, ◌-◌, ◌<◌, ◌≤◌, ◌^◌, [], length, OnOk, IfOk, slice_index_or};
ghost use Rattle.ms_print.specs.Appends.{Appends};
ghost use Rattle.ms_print.specs.Labels.{factor_of, label_text, power_of, power_up_to, scaled_text, three_digits, unit_label, unit_names, without_point};

use hp_num::{NoMemory, put_bytes, put_dec};
use massif_file::TimeUnit;
use std::alloc::Global;

/// The greatest text of a number in a unit above the first, where its whole part has less than five digits.
const MOST: usize = 5;

/// A value's label, or `NoMemory`.
#[tactic(auto, unfolding(crate::specs::Labels::label_text))]
pub(crate) fn label_of(alloc: Global, unit: TimeUnit, value: u64) -> Result<Vec<u8>, NoMemory>
    ensures text { IfOk result (λ label. label.items ≡ label_text unit value) }
{
    let mut label = Vec::new(alloc);
    let power = power_of(unit, value);
    if power == 0 {
        put_dec(&mut label, value)?;
        return Ok(label);
    }
    put_scaled(factor_of(unit).pow(power), value, &mut label)?;
    Ok(label)
}

/// The name of the unit that a value's label is in.
#[tactic(auto, unfolding(crate::specs::Labels::unit_label))]
pub(crate) fn unit_label(unit: TimeUnit, value: u64) -> &'static [u8]
    ensures { result.now ≡ unit_label unit value }
{
    unit_name(unit, power_of(unit, value))
}

/// The name of a unit, or of one that is greater by a power of the factor.
fn unit_name(unit: TimeUnit, power: u32) -> &'static [u8]
    requires { power < length (unit_names unit) }
    ensures { result.now ≡ slice_index_or (unit_names unit) power [] }
{
    match (unit, power) {
        (TimeUnit::Bytes, 0) => b"B",
        (TimeUnit::Bytes, 1) => b"KB",
        (TimeUnit::Bytes, 2) => b"MB",
        (TimeUnit::Bytes, 3) => b"GB",
        (TimeUnit::Bytes, _) => b"TB",
        (TimeUnit::Instructions, 0) => b"i",
        (TimeUnit::Instructions, 1) => b"ki",
        (TimeUnit::Instructions, 2) => b"Mi",
        (TimeUnit::Instructions, 3) => b"Gi",
        (TimeUnit::Instructions, _) => b"Ti",
        (TimeUnit::Events, 0) => b"e",
        (TimeUnit::Events, 1) => b"ke",
        (TimeUnit::Events, 2) => b"Me",
        (TimeUnit::Events, 3) => b"Ge",
        (TimeUnit::Events, _) => b"Te",
        (TimeUnit::Milliseconds, _) => b"ms",
    }
}

/// Which power of the factor the greatest unit is that isn't above a value.
#[tactic(auto, unfolding(crate::specs::Labels::power_of))]
fn power_of(unit: TimeUnit, value: u64) -> u32
    ensures power { result ≡ power_of unit value }
    ensures held { result < length (unit_names unit) }
    ensures small { result ≤ 4 }
{
    let factor = factor_of(unit);
    let mut power = last_power(unit);
    'powers: while power > 0 && factor.pow(power) > value {
        power -= 1;
    }
    power
}

/// How many of a unit are the next one.
fn factor_of(unit: TimeUnit) -> u64
    ensures factor { result ≡ factor_of unit }
    ensures some { 0 < result }
    ensures small { result ≤ 1024 }
{
    match unit {
        TimeUnit::Bytes => 1024,
        TimeUnit::Instructions | TimeUnit::Milliseconds | TimeUnit::Events => 1000,
    }
}

/// The power of the greatest unit.
fn last_power(unit: TimeUnit) -> u32
    ensures last { result ≡ length (unit_names unit) - 1 }
    ensures small { result ≤ 4 }
{
    match unit {
        TimeUnit::Bytes | TimeUnit::Instructions | TimeUnit::Events => 4,
        TimeUnit::Milliseconds => 0,
    }
}

/// Appends a value in units of a size to a label that is empty.
#[tactic(auto, unfolding(crate::specs::Labels::scaled_text))]
fn put_scaled(size: u64, value: u64, label: &mut Vec<u8>) -> Result<(), NoMemory>
    requires some { 0 < size }
    requires small { size ≤ 1024 ^ 4 }
    requires empty { length label.old.items ≡ 0 }
    ensures text { OnOk result (label.new.items ≡ scaled_text size value) }
{
    let whole = value / size;
    put_dec(label, whole)?;
    if whole >= 10_000 {
        return Ok(());
    }
    put_bytes(label, b".")?;
    put_three_digits(value % size * 1000 / size, label)?;
    label.truncate(MOST);
    drop_point(label);
    Ok(())
}

/// Appends a number below 1,000 in three digits.
fn put_three_digits(n: u64, label: &mut Vec<u8>) -> Result<(), NoMemory>
    requires { n < 1000 }
    ensures appended { Appends (three_digits n) label.old label.new result }
{
    let digits = [
        b'0' + (n / 100) as u8,
        b'0' + (n / 10 % 10) as u8,
        b'0' + (n % 10) as u8,
    ];
    put_bytes(label, &digits)
}

/// Takes a point at the end away.
fn drop_point(label: &mut Vec<u8>)
    ensures { label.new.items ≡ without_point label.old.items }
{
    if label.last() == Some(&b'.') {
        label.pop();
    }
}
