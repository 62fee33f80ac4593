//! Worked documents, read and written, and documents that are refused. Expected values are worked out by hand.

use dhat_json::{DhatFault, profile_text, read_profile};
use hp_num::{NoMemory, put_bytes};
use std::alloc::Global;
use std::process::Abort;

/// The profile of an empty trace.
const EMPTY: &str =
    r#"{"Mtu":"Mevents","bkacc":false,"bklt":true,"cmd":"(none)","dhatFileVersion":2,"ftbl":["[root]"],"mode":"heap","pid":0,"pps":[],"te":0,"tg":0,"tu":"events","tuth":500,"verb":"Allocated"}"#;

/// The profile of a trace of three events.
const DEMO: &str =
    r#"{"Mtu":"Mevents","bkacc":false,"bklt":true,"cmd":"demo","dhatFileVersion":2,"ftbl":["[root]","0x400: main (a.c:20)","0x500: f (a.c:10)"],"mode":"heap","pid":0,"pps":[{"eb":100,"ebk":1,"fs":[1],"gb":0,"gbk":0,"mb":100,"mbk":1,"tb":100,"tbk":1,"tl":0},{"eb":0,"ebk":0,"fs":[2,1],"gb":100,"gbk":1,"mb":100,"mbk":1,"tb":100,"tbk":1,"tl":1}],"te":3,"tg":1,"tu":"events","tuth":500,"verb":"Allocated"}"#;

/// A document of the form that Valgrind writes, with accesses.
const WITH_ACCESSES: &str =
    r#"{"dhatFileVersion":2,"mode":"heap","verb":"Allocated","bklt":true,"bkacc":true,"tu":"instrs","Mtu":"Minstr","tuth":500,"cmd":"./a","pid":7,"te":100,"tg":50,"pps":[{"tb":10,"tbk":1,"tl":40,"mb":10,"mbk":1,"gb":10,"gbk":1,"eb":0,"ebk":0,"rb":3,"wb":10,"acc":[-10,1],"fs":[1]}],"ftbl":["[root]","0x1: main (a.c:1)"]}"#;

/// The same as it is written again.
const WRITTEN: &str =
    r#"{"Mtu":"Minstr","bkacc":true,"bklt":true,"cmd":"./a","dhatFileVersion":2,"ftbl":["[root]","0x1: main (a.c:1)"],"mode":"heap","pid":7,"pps":[{"eb":0,"ebk":0,"fs":[1],"gb":10,"gbk":1,"mb":10,"mbk":1,"rb":3,"tb":10,"tbk":1,"tl":40,"wb":10}],"te":100,"tg":50,"tu":"instrs","tuth":500,"verb":"Allocated"}"#;

/// A document of the ad-hoc mode with units of its own, an escape and no optional times.
const AD_HOC: &str =
    r#" { "dhatFileVersion" : 2, "mode": "ad-hoc", "verb": "Allocated", "bklt": false, "bkacc": false, "bu": "unit", "bsu": "units", "bksu": "events", "tu": "µs", "Mtu": "s", "cmd": "a\n\u0022b\u0022", "pid": 18446744073709551615, "te": 1, "later": {"a": []}, "pps": [ { "tb": 0, "tbk": 1, "tl": true, "fs": [] } ], "ftbl": [] } "#;

/// The same as it is written again.
const AD_HOC_WRITTEN: &str =
    r#"{"Mtu":"s","bkacc":false,"bklt":false,"bksu":"events","bsu":"units","bu":"unit","cmd":"a\n\"b\"","dhatFileVersion":2,"ftbl":[],"mode":"ad-hoc","pid":18446744073709551615,"pps":[{"fs":[],"tb":0,"tbk":1}],"te":1,"tu":"µs","verb":"Allocated"}"#;

/// Documents, and as they are written again.
static DOCUMENTS: [(&str, &str); 4] = [
    (EMPTY, EMPTY),
    (DEMO, DEMO),
    (WITH_ACCESSES, WRITTEN),
    (AD_HOC, AD_HOC_WRITTEN),
];

/// The worked document.
static DOCUMENT: &str = WITH_ACCESSES;

/// Edits of the worked document: in each line a part of it, what stands in the part's place, and what it then is. The first ones
/// are of the document, then of the profile, of its points, and of several the first.
static EDITS: &str = r#"{ | [ | not JSON
./a | \ud800 | not JSON
"dhatFileVersion":2 | "dhatFileVersion":1 | file version not 2
"dhatFileVersion":2 | "dhatFileVersion":2.0 | file version not 2
"dhatFileVersion":2 | "dhatFileVersion":"2" | file version not 2
"dhatFileVersion":2 | "version":2 | missing key dhatFileVersion
"te":100, |  | missing key te
"tuth":500, |  | a profile
"tuth":500, | "tuth":null, | wrong kind of tuth
"heap" | 5,"bu":5 | wrong kind of mode
"heap" | "heap","bu":5 | wrong kind of bu
"bklt":true | "bklt":1 | wrong kind of bklt
"pid":7 | "pid":"7","pid":7 | a profile
"pid":7 | "pid":18446744073709551616 | wrong kind of pid
"tg":50 | "tg":-1 | wrong kind of tg
"[root]", | "[root]",{}, | wrong kind of ftbl
[{ | [[],{ | point 0: wrong kind of pps
"tb":10, | "tb":1e1, | point 0: wrong kind of tb
"ebk":0, |  | point 0: missing key ebk
"bklt":true | "bklt":false | a profile
"wb":10, |  | point 0: missing key wb
[-10,1] | {} | point 0: wrong kind of acc
"fs":[1] | "fs":[1,2] | point 0: frame 2 out of table
"fs":[1] | "fs":[0.0,2] | point 0: wrong kind of fs
"te":100,"tg":50,"pps":[{"tb" | "tg":50,"pps":[{"x" | missing key te
"acc":[-10,1],"fs":[1]} | "fs":[2]},{"tb":1} | point 0: frame 2 out of table
"acc":[-10,1],"fs":[1]} | "fs":[1]},{"tb":1},5 | point 1: missing key tbk
"#;

/// Reads the document, writes the profile and compares.
fn writes_again(rt: &impl Abort, alloc: Global, document: &str, written: &str) {
    let dhat = read_profile(alloc, document.as_bytes()).expect(rt, "a profile");
    let text = profile_text(alloc, &dhat).expect(rt, "memory");
    drop(dhat);
    assert!(rt; text.as_str() == written);
}

#[test]
fn writes_what_it_read(rt: HostRuntime) {
    for (document, written) in &DOCUMENTS {
        writes_again(&rt, rt.alloc(), document, written);
    }
}

/// Why the document is no profile.
fn fault_of(alloc: Global, document: &[u8]) -> Option<DhatFault> {
    read_profile(alloc, document).err()
}

/// Appends what the document is: a profile, or why it is none.
fn put_answer(alloc: Global, document: &[u8], out: &mut Vec<u8>) -> Result<(), NoMemory> {
    match fault_of(alloc, document) {
        Some(fault) => fault.put_message(out),
        None => put_bytes(out, b"a profile"),
    }
}

/// Makes an edit of the worked document, where `other` stands for `part`.
fn edit(rt: &impl Abort, part: &str, other: &str, document: &mut Vec<u8>) -> Result<(), NoMemory> {
    let (before, after) = DOCUMENT
        .split_once(part)
        .expect(rt, "a part of the document");
    document.clear();
    put_bytes(document, before.as_bytes())?;
    put_bytes(document, other.as_bytes())?;
    put_bytes(document, after.as_bytes())
}

/// Appends a line of the edits up to its answer.
fn put_front(part: &str, other: &str, out: &mut Vec<u8>) -> Result<(), NoMemory> {
    put_bytes(out, part.as_bytes())?;
    put_bytes(out, b" | ")?;
    put_bytes(out, other.as_bytes())?;
    put_bytes(out, b" | ")
}

/// Appends the lines of all edits, each with what the document then is. They stand there one after another.
fn put_edits(rt: &impl Abort, alloc: Global, document: &mut Vec<u8>, out: &mut Vec<u8>) {
    for line in EDITS.split('\n') {
        if let Some((part, rest)) = line.split_once(" | ") {
            let (other, _) = rest.split_once(" | ").expect(rt, "an answer");
            put_front(part, other, out).expect(rt, "memory");
            edit(rt, part, other, document).expect(rt, "memory");
            put_answer(alloc, document, out).expect(rt, "memory");
            put_bytes(out, b"\n").expect(rt, "memory");
            assert!(rt; EDITS.as_bytes().starts_with(out), "at {line}");
        }
    }
    assert_eq!(rt; out.len(), EDITS.len());
}

#[test]
fn edits(rt: HostRuntime) {
    let mut document = Vec::new(rt.alloc());
    let mut out = Vec::new(rt.alloc());
    put_edits(&rt, rt.alloc(), &mut document, &mut out);
}

#[test]
fn cut_documents(rt: HostRuntime) {
    let bytes = DOCUMENT.as_bytes();
    for (end, _) in bytes.iter().enumerate() {
        let fault = fault_of(rt.alloc(), &bytes[..end]);
        assert_eq!(rt; fault, Some(DhatFault::NotJson));
    }
    let no_text = fault_of(rt.alloc(), b"{\"\xff\":1}");
    assert_eq!(rt; no_text, Some(DhatFault::NotJson));
}
