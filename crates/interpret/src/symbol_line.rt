//! One line of a symbol table. The table and what overlaps in it are no part of it.
ghost use Rattle.std.specs.Prelude.{◌≡◌, ◌<◌, ◌∷◌, length, IfSome};
ghost use Rattle.std.specs.List.{position};
ghost use Rattle.std.specs.Option.{option_copied};
ghost use Rattle.interpret.specs.SymbolLine.{are_frames, are_texts, fields, is_tab, symbol_of};
ghost use Rattle.interpret.specs.SymbolEntries.{Says, following};

use hp_num::{parse_dec, parse_hex};

/// What a line says: the module, the offset where the range begins and the one after its last, and the texts with the tabs
/// between them. Name and texts are parts of the line.
#[derive(Clone, Copy)]
pub struct SymbolLine<'a> {
    pub name: &'a [u8],
    pub start: u64,
    pub end: u64,
    pub texts: &'a [u8],
}

/// Takes the first field off a text: that field, and what follows its tab, where there is one.
pub fn next_field(text: &[u8]) -> (&[u8], Option<&[u8]>)
    ensures fields { fields text.now ≡ result.0.now ∷ following (option_copied result.1) }
    ensures shorter { IfSome result.1 (λ rest. length rest.now < length text.now) }
{
    match first_tab(text) {
        Some(end) => (&text[..end], Some(&text[end + 1..])),
        None => (text, None),
    }
}

fn first_tab(text: &[u8]) -> Option<usize>
    ensures place { result ≡ position is_tab text.now }
    ensures within { IfSome result (λ place. place < length text.now) }
{
    text.iter().position(|byte| *byte == b'\t')
}

/// The symbol that the line says: `None` exactly where it says none. Comments aren't told from other lines here.
pub fn read_symbol(line: &[u8]) -> Option<SymbolLine<'_>>
    ensures said { Says result (symbol_of (fields line.now)) }
    ensures some { IfSome result (λ said. said.start < said.end) }
{
    let (name, rest) = next_field(line);
    let (start, rest) = next_field(rest?);
    let (size, texts) = next_field(rest?);
    let texts = texts?;
    let start = parse_hex(start)?;
    let size = parse_hex(size)?;
    let end = start.checked_add(size)?;
    if name.is_empty() || size == 0 || !are_texts(texts) {
        return None;
    }
    Some(SymbolLine {
        name,
        start,
        end,
        texts,
    })
}

/// Whether the texts are a function alone, or a function, a file and a line for each frame.
fn are_texts(texts: &[u8]) -> bool
    ensures { result ≡ are_texts (fields texts.now) }
{
    let (function, rest) = next_field(texts);
    match rest {
        Some(_) => are_frames(texts),
        None => !function.is_empty(),
    }
}

/// Whether the texts are a function, a file and a line for each frame.
fn are_frames(texts: &[u8]) -> bool
    ensures { result ≡ are_frames (fields texts.now) }
{
    let mut rest = Some(texts);
    'frames: while let Some(text) = rest {
        let (function, Some(after)) = next_field(text) else {
            return false;
        };
        let (file, Some(after)) = next_field(after) else {
            return false;
        };
        let (line, after) = next_field(after);
        if function.is_empty() || file.is_empty() || parse_dec(line).is_none() {
            return false;
        }
        rest = after;
    }
    true
}
