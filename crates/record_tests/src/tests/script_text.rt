//! Scripts as texts.

use hp_num::{NoMemory, put_bytes, put_hex};
use record_scripts::{ScriptFault, Scripts};
use std::alloc::Global;
use std::process::Abort;
use std::sync::Arc;

/// Adds the script of a thread.
fn add_script(scripts: &mut Scripts, text: &[u8]) -> Result<(), ScriptFault> {
    if scripts.threads() == 64 {
        return Ok(());
    }
    scripts.begin()?;
    for line in text.split(|byte| *byte == b'\n') {
        if scripts.threads() > 0 {
            scripts.line(line)?;
        }
    }
    Ok(())
}

/// Adds the scripts of a text.
fn add_scripts(scripts: &mut Scripts, text: &[u8]) -> Result<(), ScriptFault> {
    for script in text.split(|byte| *byte == b'|') {
        add_script(scripts, script)?;
    }
    Ok(())
}

/// The scripts of a text, which are parted by `|`. All together may have 1,000 events.
pub fn scripts_of(rt: &impl Abort, alloc: Global, text: &[u8]) -> Arc<Scripts> {
    let mut scripts = Scripts::new(alloc, 1000);
    add_scripts(&mut scripts, text).expect(rt, "scripts");
    scripts.share().expect(rt, "memory")
}

/// Appends a script of a hundred allocations, which a worker takes in two holds.
pub fn put_hundred(text: &mut Vec<u8>) -> Result<(), NoMemory> {
    for id in 1..101 {
        put_bytes(text, b"a ")?;
        put_hex(text, id)?;
        put_bytes(text, b" 8 400\n")?;
    }
    Ok(())
}

/// Appends so many of these scripts, parted by `|`.
pub fn put_hundreds(count: u32, text: &mut Vec<u8>) -> Result<(), NoMemory> {
    for script in 0..count {
        if script > 0 {
            put_bytes(text, b"|")?;
        }
        put_hundred(text)?;
    }
    Ok(())
}
