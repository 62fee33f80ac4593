//! Reading a Massif file line by line: one short step for each line that may come next.
//! The lines' own forms are read elsewhere; skipped lines and repeated faults are the reader's part.
ghost use Rattle.std.specs.Prelude.{◌≡◌, [], Err, Ok, OnOk, IfErr, IfOk};
ghost use Rattle.massif_file.specs.declared.fault.ProfileFault.TheVariants as faults;
ghost use Rattle.massif_file.specs.Progress.{at_snapshot, end_of, in_descriptions, taken, with_snap};
ghost use Rattle.massif_file.specs.Descriptions.{joined};
ghost use Rattle.massif_file.specs.LastTime.{last_time};
ghost use Rattle.massif_file.specs.ReaderCalls.{TakesLine};
ghost use Rattle.massif_file.specs.Reading.{Goes, shown, shown_at};

use crate::fault::ProfileFault;
use crate::levels::Levels;
use crate::line::{header_value, is_skipped, key_number, mark_after, tree_fields, unit_after};
use crate::lists::Snaps;
use crate::profile::{HeapTree, Profile, Snap, TimeUnit};
use crate::tree::Tree;
use hp_num::{NoMemory, Text};
use std::alloc::Global;
use std::mem;

/// The levels that a tree may have: the root's is 0.
const MAX_LEVELS: usize = 257;

/// What comes next.
#[derive(Clone, Copy)]
pub enum Stage {
    Descriptions,
    Unit,
    Snapshot,
    Time,
    Heap,
    Extra,
    Stacks,
    Mark,
    Tree,
    Refused(ProfileFault),
}

/// What the lines said so far. Only what the stage implies to be read has a meaning.
#[derive(Drop)]
pub struct Reading {
    alloc: Global,
    pub stage: Stage,
    // The description, as long as lines of it may come. Then it is the profile's.
    desc: Vec<u8>,
    // The header and the whole snapshots.
    profile: Profile,
    // The snapshot that is being read.
    snap: Snap,
    levels: Levels,
}

impl Reading {
    pub fn new(alloc: Global) -> Reading
        ensures { shown result ≡ in_descriptions [] }
    {
        Reading {
            alloc,
            stage: Stage::Descriptions,
            desc: Vec::new(alloc),
            profile: Profile {
                desc: Text::from(Vec::new(alloc)),
                cmd: Text::from(Vec::new(alloc)),
                unit: TimeUnit::Bytes,
                snaps: Snaps::new(alloc),
            },
            snap: empty_snap(alloc),
            levels: Levels::new(alloc),
        }
    }

    /// Takes the next line, or answers why it is refused, and from then on that again.
    pub fn line(&mut self, line: &[u8]) -> Result<(), ProfileFault>
        ensures { TakesLine (shown self.old) line.now (shown self.new) result }
    {
        if let Stage::Refused(fault) = self.stage {
            return Err(fault);
        }
        if is_skipped(line) {
            return Ok(());
        }
        let result = self.take(line);
        if let Err(fault) = result {
            self.stage = Stage::Refused(fault);
        }
        result
    }

    /// Takes a line that isn't skipped.
    fn take(&mut self, line: &[u8]) -> Result<(), ProfileFault>
        ensures { Goes result (taken (shown self.old) line.now) (shown self.new) }
    {
        match self.stage {
            Stage::Descriptions => self.header(line),
            Stage::Unit => self.unit(line),
            Stage::Snapshot => self.number(line),
            Stage::Time => self.time(line),
            Stage::Heap => self.heap(line),
            Stage::Extra => self.extra(line),
            Stage::Stacks => self.stacks(line),
            Stage::Mark => self.mark(line),
            Stage::Tree => self.tree_line(line),
            Stage::Refused(fault) => Err(fault),
        }
    }

    /// The profile, where the lines may end here.
    pub fn end(self) -> Result<Profile, ProfileFault>
        ensures { result ≡ end_of (shown self) }
    {
        if let Err(fault) = self.whole() {
            drop(self);
            return Err(fault);
        }
        let Reading {
            profile,
            desc,
            snap,
            levels,
            ..
        } = self;
        drop(desc);
        drop(snap);
        drop(levels);
        Ok(profile)
    }

    /// The profile, lent, where the lines may end here.
    pub fn whole(&self) -> Result<&Profile, ProfileFault>
        ensures profile { IfOk result (λ profile. end_of (shown self.now) ≡ Ok profile.now) }
        ensures same { IfOk result (λ profile. profile.now ≡ self.now.profile) }
        ensures fault { IfErr result (λ fault. end_of (shown self.now) ≡ Err fault) }
    {
        match self.stage {
            Stage::Refused(fault) => Err(fault),
            Stage::Snapshot if self.profile.snaps.len() > 0 => Ok(&self.profile),
            _ => Err(ProfileFault::Truncated),
        }
    }

    #[tactic(auto, unfolding(crate::specs::Progress::taken))]
    fn header(&mut self, line: &[u8]) -> Result<(), ProfileFault>
        requires { self.old.stage ≡ Stage.Descriptions }
        ensures { Goes result (taken (shown_at Stage.Descriptions self.old) line.now)
            (shown self.new) }
    {
        if let Some(value) = header_value(b"desc:", line) {
            join(&mut self.desc, value)?;
            return Ok(());
        }
        let Some(cmd) = header_value(b"cmd:", line) else {
            return Err(ProfileFault::BadHeader);
        };
        self.profile.cmd = Text::new(self.alloc, cmd)?;
        let desc = mem::replace(&mut self.desc, Vec::new(self.alloc));
        self.profile.desc = Text::from(desc);
        self.stage = Stage::Unit;
        Ok(())
    }

    #[tactic(auto, unfolding(crate::specs::Progress::taken))]
    fn unit(&mut self, line: &[u8]) -> Result<(), ProfileFault>
        ensures { Goes result (taken (shown_at Stage.Unit self.old) line.now) (shown self.new) }
    {
        let Some(unit) = unit_after(line) else {
            return Err(ProfileFault::BadHeader);
        };
        self.profile.unit = unit;
        self.profile.snaps = Snaps::new(self.alloc);
        self.stage = Stage::Snapshot;
        Ok(())
    }

    #[tactic(auto, unfolding(crate::specs::Progress::taken))]
    fn number(&mut self, line: &[u8]) -> Result<(), ProfileFault>
        ensures { Goes result (taken (shown_at Stage.Snapshot self.old) line.now) (shown self.new) }
    {
        let number = key_number(b"snapshot=", line)?;
        if number != self.profile.snaps.len() as u64 {
            return Err(ProfileFault::WrongOrder);
        }
        self.stage = Stage::Time;
        Ok(())
    }

    #[tactic(auto, unfolding(crate::specs::Progress::taken))]
    fn time(&mut self, line: &[u8]) -> Result<(), ProfileFault>
        ensures { Goes result (taken (shown_at Stage.Time self.old) line.now) (shown self.new) }
    {
        let time = key_number(b"time=", line)?;
        if time < last_time(&self.profile.snaps) {
            return Err(ProfileFault::WrongOrder);
        }
        self.snap.time = time;
        self.stage = Stage::Heap;
        Ok(())
    }

    #[tactic(auto, unfolding(crate::specs::Progress::taken))]
    fn heap(&mut self, line: &[u8]) -> Result<(), ProfileFault>
        ensures { Goes result (taken (shown_at Stage.Heap self.old) line.now) (shown self.new) }
    {
        self.snap.heap = key_number(b"mem_heap_B=", line)?;
        self.stage = Stage::Extra;
        Ok(())
    }

    #[tactic(auto, unfolding(crate::specs::Progress::taken))]
    fn extra(&mut self, line: &[u8]) -> Result<(), ProfileFault>
        ensures { Goes result (taken (shown_at Stage.Extra self.old) line.now) (shown self.new) }
    {
        self.snap.extra = key_number(b"mem_heap_extra_B=", line)?;
        self.stage = Stage::Stacks;
        Ok(())
    }

    #[tactic(auto, unfolding(crate::specs::Progress::taken))]
    fn stacks(&mut self, line: &[u8]) -> Result<(), ProfileFault>
        ensures { Goes result (taken (shown_at Stage.Stacks self.old) line.now) (shown self.new) }
    {
        self.snap.stacks = key_number(b"mem_stacks_B=", line)?;
        self.stage = Stage::Mark;
        Ok(())
    }

    #[tactic(auto, unfolding(crate::specs::Progress::taken))]
    fn mark(&mut self, line: &[u8]) -> Result<(), ProfileFault>
        ensures { Goes result (taken (shown_at Stage.Mark self.old) line.now) (shown self.new) }
    {
        let Some(mark) = mark_after(line) else {
            return Err(ProfileFault::BadSnapshot);
        };
        self.snap.mark = mark;
        self.snap.tree = Tree::new(self.alloc);
        if mark == HeapTree::Empty {
            return self.end_snap();
        }
        self.levels.begin()?;
        self.stage = Stage::Tree;
        Ok(())
    }

    #[tactic(auto, unfolding(crate::specs::Progress::taken))]
    fn tree_line(&mut self, line: &[u8]) -> Result<(), ProfileFault>
        requires { self.old.stage ≡ Stage.Tree }
        ensures { Goes result (taken (shown_at Stage.Tree self.old) line.now) (shown self.new) }
    {
        if self.levels.len() > MAX_LEVELS {
            return Err(ProfileFault::BadTree);
        }
        let Some(fields) = tree_fields(line) else {
            return Err(ProfileFault::BadTree);
        };
        self.snap.tree.push(fields)?;
        self.levels.line(fields.children)?;
        if self.levels.len() == 0 {
            return self.end_snap();
        }
        Ok(())
    }

    /// The snapshot that is being read is whole.
    fn end_snap(&mut self) -> Result<(), ProfileFault>
        ensures ok { OnOk result
            (shown self.new ≡ at_snapshot (with_snap self.old.profile self.old.snap)) }
        ensures err { IfErr result (λ fault. fault ≡ faults.NoMemory) }
    {
        let snap = mem::replace(&mut self.snap, empty_snap(self.alloc));
        self.profile.snaps.push(snap)?;
        self.stage = Stage::Snapshot;
        Ok(())
    }
}

fn empty_snap(alloc: Global) -> Snap {
    Snap {
        time: 0,
        heap: 0,
        extra: 0,
        stacks: 0,
        mark: HeapTree::Empty,
        tree: Tree::new(alloc),
    }
}

/// The time of the last snapshot, and 0 where there is none.
fn last_time(snaps: &Snaps) -> u64
    ensures { result ≡ last_time snaps.now }
{
    match snaps.as_slice().last() {
        None => 0,
        Some(snap) => snap.time,
    }
}

/// Joins the value to the description by one blank, where neither is empty.
fn join(desc: &mut Vec<u8>, value: &[u8]) -> Result<(), NoMemory>
    ensures { OnOk result (desc.new.items ≡ joined desc.old.items value.now) }
{
    if value.is_empty() {
        return Ok(());
    }
    if !desc.is_empty() {
        desc.push(b' ')?;
    }
    desc.extend_from_slice(value)?;
    Ok(())
}
