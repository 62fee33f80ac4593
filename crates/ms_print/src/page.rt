//! The page of a profile, from its title to its last tree.
#![tactic(auto, using(hp_num::proofs::Laws::extends_same, hp_num::proofs::Laws::extends_more, hp_num::proofs::Laws::extends_trans))]

ghost use Rattle.std.specs.Prelude.{◌≡◌, OnErr};
ghost use Rattle.hp_num.specs.Extends.{Extends};
ghost use Rattle.massif_file.specs.IsWritable.{IsWritable};
ghost use Rattle.ms_print.specs.Appends.{Appends};
ghost use Rattle.ms_print.specs.PageOf.{page_of};
ghost use Rattle.ms_print.specs.PageText.{asked_text, named_line, title_text};

use crate::graph::put_graph;
use crate::options::PageOptions;
use crate::plot::plot_of;
use crate::snapshots::put_snapshots;
use crate::table::{put_rule, put_table};
use hp_num::{NoMemory, put_bytes};
use massif_file::Profile;

/// Appends the page of a profile: its title, the graph of its snapshots, which of them have a tree, and the table of all of them with
/// their trees. On `NoMemory`, `out` holds what it held before.
///
/// The profile must be one that may be written, as every profile is that was read.
pub fn put_page(options: &PageOptions, profile: &Profile, out: &mut Vec<u8>) -> Result<(), NoMemory>
    requires writable { IsWritable profile.now }
    ensures appended { Appends (page_of options.now profile.now) out.old out.new result }
    ensures unchanged { OnErr result (out.new.items ≡ out.old.items) }
{
    let before = out.len();
    let result = put_all(options, profile, out);
    if result.is_err() {
        out.truncate(before);
    }
    result
}

/// Appends the page. On `NoMemory`, some of it may stand at the end of `out`.
#[tactic(auto, unfolding(crate::specs::PageText::page_text))]
fn put_all(options: &PageOptions, profile: &Profile, out: &mut Vec<u8>) -> Result<(), NoMemory>
    requires writable { IsWritable profile.now }
    ensures appended { Appends (page_of options.now profile.now) out.old out.new result }
    ensures kept { Extends out.old.items out.new.items }
{
    let alloc = *out.allocator();
    let plot = plot_of(options.x, options.y, &profile.snaps);
    put_title(options.words.bytes(), profile, out)?;
    put_graph(alloc, profile.unit, plot, &profile.snaps, out)?;
    put_snapshots(&profile.snaps, out)?;
    put_table(alloc, options.threshold, profile.unit, &profile.snaps, out)
}

/// Appends the title of the page.
#[tactic(auto, unfolding(crate::specs::PageText::title_text))]
fn put_title(words: &[u8], profile: &Profile, out: &mut Vec<u8>) -> Result<(), NoMemory>
    ensures appended { Appends (title_text words.now profile.now) out.old out.new result }
    ensures kept { Extends out.old.items out.new.items }
{
    put_rule(out)?;
    put_asked(words, profile, out)?;
    put_rule(out)?;
    put_bytes(out, b"\n\n")
}

/// Appends the command, how the profile was made, and the words that ask for the page.
fn put_asked(words: &[u8], profile: &Profile, out: &mut Vec<u8>) -> Result<(), NoMemory>
    ensures appended { Appends (asked_text words.now profile.now) out.old out.new result }
    ensures kept { Extends out.old.items out.new.items }
{
    put_text(b"Command:            ", profile.cmd.bytes(), out)?;
    put_text(b"Massif arguments:   ", profile.desc.bytes(), out)?;
    put_text(b"ms_print arguments: ", words, out)
}

fn put_text(name: &[u8], text: &[u8], out: &mut Vec<u8>) -> Result<(), NoMemory>
    ensures appended { Appends (named_line name.now text.now) out.old out.new result }
    ensures kept { Extends out.old.items out.new.items }
{
    put_bytes(out, name)?;
    put_bytes(out, text)?;
    put_bytes(out, b"\n")
}
