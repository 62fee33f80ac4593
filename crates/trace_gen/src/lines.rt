//! The lines of a generated trace, each with its line feed. Which numbers stand in them is decided by the generator.
ghost use Rattle.std.specs.Prelude.{◌≢◌, ◌<◌, ◌∷◌, ◌++◌, codes, OnOk, if◌then◌else◌};
ghost use Rattle.hp_num.specs.Hexadecimal.{hexadecimal};
ghost use Rattle.trace_gen.specs.GeneratedTrace.{instruction_line, name_line};
ghost use Rattle.trace_gen.specs.PutLine.{PutsLine};

use hp_num::{NoMemory, decimal_texts, hexadecimal_texts, put_bytes, put_dec, put_number_line};

/// The line of the name behind so many others.
pub fn put_name(line: &mut Vec<u8>, before: u64) -> Result<(), NoMemory>
    requires { before < 4000 }
    ensures put { OnOk result (PutsLine line.old.items line.new.items (name_line before)) }
{
    decimal_texts();
    put_bytes(line, b"s f")?;
    put_dec(line, before + 1)?;
    put_bytes(line, b"\n")
}

/// The line of the instruction behind so many others.
pub fn put_instruction(line: &mut Vec<u8>, before: u64) -> Result<(), NoMemory>
    requires { before < 4000 }
    ensures put { OnOk result (PutsLine line.old.items line.new.items (instruction_line before)) }
{
    hexadecimal_texts();
    put_number_line(line, b'i', &[before + 1, 1, before + 2])
}

/// A line of two numbers.
pub fn put_pair(line: &mut Vec<u8>, kind: u8, first: u64, second: u64) -> Result<(), NoMemory>
    requires kind { kind ≢ 10 }
    ensures put { OnOk result (PutsLine line.old.items line.new.items
        (kind ∷ 32 ∷ (hexadecimal first ++ (32 ∷ hexadecimal second)))) }
{
    hexadecimal_texts();
    put_number_line(line, kind, &[first, second])
}

/// The line of an event of an info.
pub fn put_event(line: &mut Vec<u8>, frees: bool, info: u64) -> Result<(), NoMemory>
    ensures put { OnOk result (PutsLine line.old.items line.new.items
        ((if frees then codes "- " else codes "+ ") ++ hexadecimal info)) }
{
    hexadecimal_texts();
    put_number_line(line, if frees { b'-' } else { b'+' }, &[info])
}
