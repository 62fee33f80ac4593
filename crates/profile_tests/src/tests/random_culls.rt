//! Culls of random arrays, beside a slow writer of the rule.

use crate::tests::culling::{Load, Settings, array_of, offer};
use hp_num::NoMemory;
use massif_cull::{Kind, SnapArray, SnapEntry, Taken};
use std::alloc::Global;
use std::cell::Cell;
use std::process::Abort;

/// The next of a row of drawn numbers.
fn draw(state: &mut u64) -> u64 {
    *state = state
        .wrapping_mul(6_364_136_223_846_793_005)
        .wrapping_add(1_442_695_040_888_963_407);
    *state >> 33
}

/// Where the snapshot stands that goes next, by the rule: of those with two neighbours that aren't the peak the first with the
/// least difference between the times of these.
fn goes_next(entries: &[SnapEntry]) -> usize {
    let mut found = 0;
    let mut least = u64::MAX;
    for place in 1..entries.len() {
        let (Some(before), Some(entry), Some(after)) = (
            entries.get(place - 1),
            entries.get(place),
            entries.get(place + 1),
        ) else {
            continue;
        };
        let gap = after.time.saturating_sub(before.time);
        if entry.kind != Kind::Peak && gap < least {
            least = gap;
            found = place;
        }
    }
    found
}

/// Removes half of the entries by the rule.
fn slow_cull(entries: &mut Vec<SnapEntry>) {
    for _ in 0..entries.len() / 2 {
        let place = goes_next(entries);
        if place < entries.len() {
            entries.remove(place);
        }
    }
}

/// Whether the two are the same.
fn is_same(a: &SnapEntry, b: &SnapEntry) -> bool {
    a.place == b.place && a.time == b.time && a.total == b.total && a.kind == b.kind
}

/// What is kept of these entries and of an offer that was taken so.
fn slow_step(
    entries: &mut Vec<SnapEntry>,
    time: u64,
    total: u64,
    taken: Taken,
    max: u32,
) -> Result<(), NoMemory> {
    let kind = match taken {
        Taken::No => return Ok(()),
        Taken::Normal => Kind::Normal,
        Taken::Detailed => Kind::Detailed,
        Taken::Peak => Kind::Peak,
    };
    if taken == Taken::Peak {
        end_peaks(entries);
    }
    entries.push(SnapEntry {
        place: time,
        time,
        total,
        kind,
    })?;
    if entries.len() >= max as usize {
        slow_cull(entries);
    }
    Ok(())
}

/// Makes each peak a normal entry.
fn end_peaks(entries: &mut [SnapEntry]) {
    for entry in entries.iter_mut() {
        if entry.kind == Kind::Peak {
            entry.kind = Kind::Normal;
        }
    }
}

/// Copies the entries.
fn entries_of(alloc: Global, array: &SnapArray<Load>) -> Result<Vec<SnapEntry>, NoMemory> {
    let mut entries = Vec::new(alloc);
    for i in 0..array.len() {
        entries.push(array.entry(i))?;
    }
    Ok(entries)
}

/// Makes an array random offers, few of whose times differ. After each it holds what the rule leaves.
fn compare(rt: &impl Abort, alloc: Global, seed: u64) {
    let drops = Cell::new(0);
    let mut state = seed;
    let max = (10 + draw(&mut state) % 12) as u32;
    let settings: Settings = (max, 3, 0);
    let mut array = array_of(rt, alloc, settings);
    let mut time = 0u64;
    for number in 0..80u64 {
        let mut expected = entries_of(alloc, &array).expect(rt, "memory");
        time = time.wrapping_add(draw(&mut state) % 4);
        let peak = number > 0 && draw(&mut state) % 3 == 0;
        let load = Load {
            number,
            drops: &drops,
        };
        let taken = offer(rt, &mut array, time, number, peak, load);
        slow_step(&mut expected, time, number, taken, max).expect(rt, "memory");
        let kept = entries_of(alloc, &array).expect(rt, "memory");
        assert_eq!(rt; kept.len(), expected.len());
        for (one, other) in kept.iter().zip(expected.iter()) {
            assert!(rt; is_same(one, other));
        }
    }
}

#[test]
fn random_culls(rt: HostRuntime) {
    for seed in 0..20u64 {
        compare(&rt, rt.alloc(), seed);
    }
}
