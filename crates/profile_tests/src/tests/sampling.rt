//! The worked case of peaks, event by event on a sampler. Whole profiles are runs of `massif` in `commands_tests`.
ghost use Rattle.std.specs.Prelude.{◌≡◌, ◌+◌, List, [], length, IfOk, IfSome};
ghost use Rattle.std.specs.Fn.{FnReturnsAt};
ghost use Rattle.live_ledger.specs.declared.event.Event.{Event};
ghost use Rattle.live_ledger.specs.LedgerState.{IsHeld};
ghost use Rattle.live_ledger.specs.StandsFor as ledger_spec;
ghost use Rattle.massif_sample.specs.FunctionNames.{AreStated, FunctionNames};
ghost use Rattle.massif_sample.specs.Options.{AreInRange};
ghost use Rattle.massif_sample.specs.StandsFor as sample_spec;

use cost_tree::FrameTest;
use hp_num::{NoMemory, put_bytes, put_dec};
use ht_trace::Tables;
use live_ledger::{Event, Ledger};
use massif_file::{HeapTree, Profile, Snap, TimeUnit};
use massif_sample::{MassifOptions, SampleFault, Sampler};
use std::alloc::Global;

/// What is done with a block.
#[derive(Clone, Copy)]
enum Change {
    Alloc,
    Free,
}

/// The bytes of a block of each info. All are of stack 0.
static SIZES: [u64; 3] = [1000, 10, 1];

const STEP_COUNT: usize = 8;

/// What is done with blocks of which infos.
static STEPS: [(Change, u32); STEP_COUNT] = [
    (Change::Alloc, 0),
    (Change::Free, 0),
    (Change::Alloc, 0),
    (Change::Alloc, 1),
    (Change::Free, 1),
    (Change::Alloc, 1),
    (Change::Alloc, 2),
    (Change::Free, 2),
];

/// The time of each snapshot, its bytes, and the lines of its tree. A peak must pass the last one by one percent: at the first free it
/// is 1000; at the second 1010 doesn't pass that by more than 10, and at the third 1011 does. Then the former peak has no tree.
const SNAPSHOTS: &str = "0 0 none 0
1000 1000 none 0
1000 1000 none 0
2000 0 none 0
3000 1000 none 0
3010 1010 none 0
3020 1000 none 0
3030 1010 none 0
3031 1011 none 0
3031 1011 peak 2
3032 1010 none 0
";

/// The options of the case: no bytes beside those of blocks, and all else as where nothing is asked.
fn options() -> MassifOptions
    ensures { AreInRange result }
{
    MassifOptions {
        threshold: 100,
        inaccuracy: 100,
        detailed_freq: 10,
        max_snapshots: 100,
        depth: 30,
        admin: 0,
        alignment: 1,
        unit: TimeUnit::Bytes,
    }
}

/// A ledger that holds the infos and has no event.
fn ledger_of(alloc: Global) -> Result<Ledger, NoMemory>
    ensures stands { IfOk result (λ ledger. ledger_spec.StandsFor ledger []) }
    ensures stacks { IfOk result (λ ledger. ledger.stacks ≡ 1) }
{
    let mut ledger = Ledger::new(alloc)?;
    ledger.grow_info(0, SIZES[0])?;
    ledger.grow_info(0, SIZES[1])?;
    ledger.grow_info(0, SIZES[2])?;
    Ok(ledger)
}

/// The event of a block of this info, or `None` where the ledger doesn't hold the info.
fn event_of(ledger: &Ledger, change: Change, info: u32) -> Option<Event>
    ensures { IfSome result (λ event. IsHeld ledger.now event) }
{
    let (size, stack) = ledger.info(info)?;
    match change {
        Change::Alloc => Some(Event::Alloc { info, stack, size }),
        Change::Free => Some(Event::Free { info, stack, size }),
    }
}

/// Gives the steps to a sampler and a ledger that have no event yet.
fn follow<A: Fn(&[u8]) -> bool, I: Fn(&[u8]) -> bool>(
    sampler: &mut Sampler<A, I>,
    ledger: &mut Ledger,
    tables: &Tables,
) -> Result<(), SampleFault>
    requires callable { A.IsAlwaysCallable sampler.old.alloc_fns.test }
    requires stacks { ledger.old.stacks ≡ length tables.now.nodes + 1 }
    requires judged { length sampler.old.judged.items ≡ length tables.now.nodes + 1 }
    requires none_yet { ledger.old.totals.events ≡ 0 }
    requires stands { (names : FunctionNames) × (events : List Event)
        × AreStated (FnReturnsAt A.Fn sampler.old.alloc_fns.test)
        (FnReturnsAt I.Fn sampler.old.ignore_fns.test) names
        × sample_spec.StandsFor sampler.old.judged.items sampler.old.samples names tables.now events
        × ledger_spec.StandsFor ledger.old events }
{
    'steps: for index in 0..STEP_COUNT {
        let (change, info) = STEPS[index];
        let Some(event) = event_of(ledger, change, info) else {
            return Err(SampleFault::FreeOfNothing);
        };
        sampler.event(event, ledger, tables)?;
    }
    Ok(())
}

/// The profile, where all steps were taken.
fn profile_if(
    followed: Result<(), SampleFault>,
    profile: Result<Profile, NoMemory>,
) -> Result<Profile, SampleFault> {
    match followed {
        Ok(()) => Ok(profile?),
        Err(fault) => {
            drop(profile);
            Err(fault)
        }
    }
}

/// The profile of the steps.
fn profile_of<A: Fn(&[u8]) -> bool, I: Fn(&[u8]) -> bool>(
    alloc: Global,
    alloc_fns: FrameTest<A>,
    ignore_fns: FrameTest<I>,
) -> Result<Profile, SampleFault>
    requires alloc_callable { A.IsAlwaysCallable alloc_fns.test }
    requires ignore_callable { I.IsAlwaysCallable ignore_fns.test }
    requires stated { (names : FunctionNames)
        × AreStated (FnReturnsAt A.Fn alloc_fns.test) (FnReturnsAt I.Fn ignore_fns.test) names }
{
    let mut ledger = ledger_of(alloc)?;
    let tables = Tables::new(alloc);
    let Ok(mut sampler) = Sampler::new(alloc, options(), alloc_fns, ignore_fns, &tables) else {
        drop(tables);
        drop(ledger);
        return Err(SampleFault::NoMemory);
    };
    let followed = follow(&mut sampler, &mut ledger, &tables);
    drop(tables);
    drop(ledger);
    let profile = sampler.finish(b"");
    profile_if(followed, profile)
}

/// How the mark of a snapshot is called here.
fn mark(tree: HeapTree) -> &'static [u8] {
    match tree {
        HeapTree::Empty => b" none ",
        HeapTree::Detailed => b" detailed ",
        HeapTree::Peak => b" peak ",
    }
}

/// Appends the line of a snapshot.
fn put_snapshot(snap: &Snap, out: &mut Vec<u8>) -> Result<(), NoMemory> {
    put_dec(out, snap.time)?;
    put_bytes(out, b" ")?;
    put_dec(out, snap.heap)?;
    put_bytes(out, mark(snap.mark))?;
    put_dec(out, snap.tree.len() as u64)?;
    put_bytes(out, b"\n")
}

/// Appends the lines of all snapshots.
fn put_snapshots(profile: &Profile, out: &mut Vec<u8>) -> Result<(), NoMemory> {
    for snap in profile.snaps.as_slice() {
        put_snapshot(snap, out)?;
    }
    Ok(())
}

#[test]
fn peaks_of_a_sampler(rt: HostRuntime) {
    let alloc_fns = FrameTest::new(|_name: &[u8]| false);
    let ignore_fns = FrameTest::new(|_name: &[u8]| false);
    let profile = profile_of(rt.alloc(), alloc_fns, ignore_fns).expect(&rt, "a profile");
    let mut out = Vec::new(rt.alloc());
    put_snapshots(&profile, &mut out).expect(&rt, "memory");
    assert_eq!(rt; out.as_slice(), SNAPSHOTS.as_bytes());
}
