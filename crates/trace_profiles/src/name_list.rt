//! Names in a list with semicolons between them, each once, and whether a name is one of them. What they name is no part of
//! it.
ghost use Rattle.std.specs.Prelude.{◌≡◌, IfOk, OnOk};
ghost use Rattle.trace_profiles.specs.ListedNames.{AddsPiece, SaysNamed, listed};

use hp_num::NoMemory;
use intern_tables::Names;
use std::alloc::Global;

/// The names of a list, each once: its pieces between semicolons without the empty ones. They are looked up by a hash.
/// `NoMemory` where memory is wanting.
pub fn names_of(alloc: Global, list: &[u8]) -> Result<Names, NoMemory>
    ensures { IfOk result (λ names. names ≡ listed list.now) }
{
    let mut names = Names::new(alloc);
    'pieces: for piece in list.split(|byte| *byte == b';') {
        add_piece(&mut names, piece)?;
    }
    Ok(names)
}

/// Adds a piece, unless it is empty.
fn add_piece(names: &mut Names, piece: &[u8]) -> Result<(), NoMemory>
    ensures { OnOk result (AddsPiece names.old names.new piece.now) }
{
    if piece.is_empty() {
        return Ok(());
    }
    names.intern(piece)?;
    Ok(())
}

/// Whether the name is one of a list's.
pub fn is_named(names: &Names, name: &[u8]) -> bool
    ensures { SaysNamed names.now name.now result }
{
    names.find(name).is_some()
}
