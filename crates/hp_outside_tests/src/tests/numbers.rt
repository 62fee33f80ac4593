//! Numbers and texts: what texts say as numbers, and what is appended for numbers.

use hp_num::{
    NoMemory, Text, hundredths, parse_dec, parse_hex, parse_percent, put_bytes, put_commas,
    put_dec, put_hex, put_number_line, put_percent, put_right,
};
use std::process::Abort;

/// Texts, and what each says as a hexadecimal number, as a decimal one, and as a percentage in hundredths.
static TEXTS: &str = "\
10500 | 66816 10500 -
0 | 0 0 0
00fF | 255 - -
ffffffffffffffff | 18446744073709551615 - -
00000000000000001 | - 1 -
00000000000000000132 | - 132 -
18446744073709551615 | - 18446744073709551615 -
18446744073709551616 | - - -
000000000000000000132 | - - -
 | - - -
0x1 | - - -
1  | - - -
+1 | - - -
1a | 26 - -
1 | 1 1 100
1.0 | - - 100
1.00 | - - 100
0.05 | - - 5
007.5 | - - 750
100.00 | - - 10000
100.01 | - - -
101 | 257 101 -
1. | - - -
.5 | - - -
0001 | 1 1 -
1.000 | - - -
1.5% | - - -
";

/// Appends a number behind a blank, or that there is none.
fn put_read(out: &mut Vec<u8>, number: Option<u64>) -> Result<(), NoMemory> {
    let Some(n) = number else {
        return put_bytes(out, b" -");
    };
    put_bytes(out, b" ")?;
    put_dec(out, n)
}

/// Appends the row of a text.
fn put_row(out: &mut Vec<u8>, text: &[u8]) -> Result<(), NoMemory> {
    put_bytes(out, text)?;
    put_bytes(out, b" |")?;
    put_read(out, parse_hex(text))?;
    put_read(out, parse_dec(text))?;
    put_read(out, parse_percent(text))?;
    put_bytes(out, b"\n")
}

/// Appends the rows of all texts, which stand there one after another.
fn put_rows(rt: &impl Abort, out: &mut Vec<u8>) {
    for row in TEXTS.split('\n') {
        if let Some((text, _)) = row.split_once(" | ") {
            put_row(out, text.as_bytes()).expect(rt, "memory");
            assert!(rt; TEXTS.as_bytes().starts_with(out), "at {row}");
        }
    }
    assert_eq!(rt; out.len(), TEXTS.len());
}

#[test]
fn texts_read(rt: HostRuntime) {
    let mut out = Vec::new(rt.alloc());
    put_rows(&rt, &mut out);
}

/// A line with a number in decimal and hexadecimal digits, and with commas.
fn put_forms(out: &mut Vec<u8>, n: u64) -> Result<(), NoMemory> {
    put_dec(out, n)?;
    put_bytes(out, b" ")?;
    put_hex(out, n)?;
    put_bytes(out, b" ")?;
    put_commas(out, n)?;
    put_bytes(out, b"\n")
}

/// A line with the share that a part is of a whole.
fn put_share(out: &mut Vec<u8>, part: u64, whole: u64) -> Result<(), NoMemory> {
    put_percent(out, hundredths(part.min(whole), whole))?;
    put_bytes(out, b"\n")
}

/// A line with bytes to the right of a column, behind a bar.
fn put_column(out: &mut Vec<u8>, bytes: &[u8], width: usize) -> Result<(), NoMemory> {
    put_bytes(out, b"|")?;
    put_right(out, bytes, width)?;
    put_bytes(out, b"\n")
}

/// Lines of hexadecimal numbers.
fn put_number_lines(out: &mut Vec<u8>) -> Result<(), NoMemory> {
    put_number_line(out, b'+', &[0x40, 0, u64::MAX])?;
    put_number_line(out, b'-', &[u64::MAX])?;
    put_number_line(out, b't', &[0xa0, 1])?;
    put_number_line(out, b'A', &[])
}

/// Numbers in all forms.
static NUMBERS: [u64; 5] = [0, 999, 0x10500, 1_234_567, u64::MAX];

/// Parts and wholes.
static SHARES: [(u64, u64); 6] = [
    (9000, 9072),
    (1, 3),
    (5, 100_000),
    (0, 0),
    (7, 7),
    (u64::MAX, u64::MAX),
];

/// Bytes and the width of their column.
static COLUMNS: [(&[u8], usize); 4] = [(b"12", 5), (b"12345", 5), (b"123456", 5), (b"", 2)];

/// Appends lines of all kinds.
fn put_all(out: &mut Vec<u8>) -> Result<(), NoMemory> {
    for n in &NUMBERS {
        put_forms(out, *n)?;
    }
    for (part, whole) in &SHARES {
        put_share(out, *part, *whole)?;
    }
    for (bytes, width) in &COLUMNS {
        put_column(out, bytes, *width)?;
    }
    put_number_lines(out)
}

/// What `put_all` appends.
static WRITTEN: &[u8] = b"\
a.c\xff
0 0 0
999 3e7 999
66816 10500 66,816
1234567 12d687 1,234,567
18446744073709551615 ffffffffffffffff 18,446,744,073,709,551,615
99.21%
33.33%
00.01%
00.00%
100.00%
100.00%
|   12
|12345
|123456
|\x20\x20
+ 40 0 ffffffffffffffff
- ffffffffffffffff
t a0 1
A
";

#[test]
fn numbers_written(rt: HostRuntime) {
    let begun = Text::new(rt.alloc(), b"a.c\xff\n").expect(&rt, "a text");
    let mut out = begun.into_bytes();
    put_all(&mut out).expect(&rt, "lines");
    assert_eq!(rt; Text::from(out).bytes(), WRITTEN);
}
