//! Runs of each kind: by lines over one file and over two, and over a file that is read whole. Lines are refused, calls fail, and
//! outputs are full.
ghost use Rattle.std.specs.Prelude.{◌≡◌, IfOk};

use crate::echo::Echo;
use crate::refusing::Refusing;
use crate::signs::Signs;
use crate::tests::runs::{Outputs, TEXTS, folder, sink, two_files};
use command_frame::{PairNames, RunContext, deliver, run_document, run_one_file, run_pair};
use hp_num::NoMemory;
use hp_outside::{Limits, MemStore};
use std::alloc::Global;
use std::process::Abort;
use std::test::Fail;

/// What is run, and what its files hold.
#[derive(Clone, Copy)]
enum Input {
    /// The file of this name is echoed by lines, where `t` holds these bytes. Its end may be refused.
    Lines {
        name: &'static str,
        bytes: &'static str,
        refuses: bool,
    },
    /// Of two files, `a` and `b`, the first says what is made of the second.
    Pair {
        first: &'static str,
        second: &'static str,
        names: PairNames<'static>,
    },
    /// The file of this name, which may have so many bytes, is read whole, where `t` holds these.
    Document {
        name: &'static str,
        bytes: &'static str,
        most: u64,
    },
}

/// A run, and what is expected of it. A call of number 0 never fails.
#[derive(Clone, Copy)]
struct Case {
    input: Input,
    piece: usize,
    failing_store_call: u64,
    out_room: usize,
    failing_out_call: u64,
    failing_err_call: u64,
    status: u8,
    output: &'static str,
    message: &'static str,
}

/// Two lines are echoed, of which the second has no line feed.
const LINES: Case = Case {
    input: Input::Lines {
        name: "t",
        bytes: "a\nbc",
        refuses: false,
    },
    piece: 3,
    failing_store_call: 0,
    out_room: 99,
    failing_out_call: 0,
    failing_err_call: 0,
    status: 0,
    output: "a\nbc\nend\n",
    message: "",
};

/// A write fails.
const UNWRITTEN: Case = Case {
    status: 4,
    output: "",
    message: "echo: write failed\n",
    ..LINES
};

/// Two files are read.
const BOTH: Case = Case {
    input: Input::Pair {
        first: "xy\n+",
        second: "a\nbc",
        names: PairNames {
            first: "a",
            second: "b",
        },
    },
    output: "xya\nbc\nend\n",
    ..LINES
};

/// A document is read that has as many bytes as it may have.
const WHOLE: Case = Case {
    input: Input::Document {
        name: "t",
        bytes: "a\nbc",
        most: 4,
    },
    output: "a\nbc",
    ..LINES
};

/// The document `bad` is refused.
const BAD: Case = Case {
    input: Input::Document {
        name: "t",
        bytes: "bad",
        most: 4,
    },
    status: 1,
    output: "",
    message: "echo: t: bad\n",
    ..LINES
};

/// A document can't be read to its end.
const CANNOT_READ: Case = Case {
    status: 3,
    message: "echo: t: cannot read\n",
    ..BAD
};

/// A document has one byte too many.
const TOO_LONG: Case = Case {
    input: Input::Document {
        name: "t",
        bytes: "bad",
        most: 2,
    },
    status: 6,
    message: "echo: t: input too long\n",
    ..BAD
};

static CASES: [Case; 25] = [
    // A taker that writes while it reads.
    LINES,
    Case {
        input: Input::Lines {
            name: "t",
            bytes: "a\nbc",
            refuses: true,
        },
        status: 1,
        output: "a\nbc\n",
        message: "echo: t: bad\n",
        ..LINES
    },
    Case {
        input: Input::Lines {
            name: "t",
            bytes: "a\nbad\nbc\n",
            refuses: false,
        },
        status: 1,
        output: "a\n",
        message: "echo: t:2: bad\n",
        ..LINES
    },
    Case {
        input: Input::Lines {
            name: "u",
            bytes: "a\nbc",
            refuses: false,
        },
        status: 3,
        output: "",
        message: "echo: u: no such file\n",
        ..LINES
    },
    Case {
        failing_store_call: 1,
        status: 3,
        output: "",
        message: "echo: t: cannot open\n",
        ..LINES
    },
    // The first read takes the first line and the first byte of the second.
    Case {
        failing_store_call: 3,
        status: 3,
        output: "a\n",
        message: "echo: t: cannot read\n",
        ..LINES
    },
    // The lines are written at the file's end, and the rest behind them.
    Case {
        failing_out_call: 1,
        ..UNWRITTEN
    },
    Case {
        out_room: 4,
        output: "a\nbc",
        ..UNWRITTEN
    },
    Case {
        failing_out_call: 2,
        output: "a\nbc\n",
        ..UNWRITTEN
    },
    // A flush of either output fails.
    Case {
        failing_out_call: 3,
        status: 4,
        ..LINES
    },
    Case {
        failing_err_call: 1,
        status: 4,
        ..LINES
    },
    // Faults and failed calls in either of two files.
    BOTH,
    // The first file has no line.
    Case {
        input: Input::Pair {
            first: "",
            second: "a\nbc",
            names: PairNames {
                first: "a",
                second: "b",
            },
        },
        status: 1,
        output: "a\nbc\n",
        message: "echo: b: bad\n",
        ..BOTH
    },
    Case {
        input: Input::Pair {
            first: "xy\n+",
            second: "a\nbad\n",
            names: PairNames {
                first: "a",
                second: "b",
            },
        },
        status: 1,
        output: "xya\n",
        message: "echo: b:2: bad\n",
        ..BOTH
    },
    Case {
        input: Input::Pair {
            first: "xy\n+",
            second: "a\nbc",
            names: PairNames {
                first: "a",
                second: "c",
            },
        },
        status: 3,
        output: "xy",
        message: "echo: c: no such file\n",
        ..BOTH
    },
    // The first file takes an open and three reads; the second read of the other fails behind its first line.
    Case {
        failing_store_call: 3,
        status: 3,
        output: "xy",
        message: "echo: a: cannot read\n",
        ..BOTH
    },
    Case {
        failing_store_call: 7,
        status: 3,
        output: "xya\n",
        message: "echo: b: cannot read\n",
        ..BOTH
    },
    // The faults of a document, and their order.
    WHOLE,
    BAD,
    Case {
        input: Input::Document {
            name: "u",
            bytes: "bad",
            most: 4,
        },
        status: 3,
        message: "echo: u: no such file\n",
        ..BAD
    },
    Case {
        failing_store_call: 1,
        status: 3,
        message: "echo: t: cannot open\n",
        ..BAD
    },
    // The first read takes all bytes, and the one that would find the end fails.
    Case {
        failing_store_call: 3,
        ..CANNOT_READ
    },
    // One byte too many is told before any other fault, and with no look for the end.
    TOO_LONG,
    Case {
        failing_store_call: 3,
        ..TOO_LONG
    },
    // A read fails before that byte.
    Case {
        input: Input::Document {
            name: "t",
            bytes: "bad",
            most: 2,
        },
        piece: 1,
        failing_store_call: 3,
        ..CANNOT_READ
    },
];

/// The folder of a case.
fn store_of(alloc: Global, case: &Case) -> Result<MemStore, NoMemory>
    ensures unopened { IfOk result (λ store. store.store.opens ≡ 0) }
{
    match case.input {
        Input::Lines { bytes, .. } | Input::Document { bytes, .. } => {
            folder(alloc, case.piece, bytes.as_bytes(), case.failing_store_call)
        }
        Input::Pair { first, second, .. } => {
            two_files(alloc, case.piece, first, second, case.failing_store_call)
        }
    }
}

/// Outputs that fail as the case says.
fn outputs(alloc: Global, case: &Case) -> Result<Outputs, NoMemory> {
    Ok(Outputs {
        out: sink(alloc, case.out_room, case.failing_out_call)?,
        err: sink(alloc, 99, case.failing_err_call)?,
    })
}

fn context(alloc: Global, limits: Limits) -> RunContext {
    RunContext {
        alloc,
        limits,
        texts: TEXTS,
    }
}

/// The limits of a case. That on a line is none on a document.
fn limits_of(case: &Case) -> Limits {
    match case.input {
        Input::Document { most, .. } => Limits {
            input: most.min(99),
            line: 1,
            order: 1,
        },
        Input::Lines { .. } | Input::Pair { .. } => Limits::standard(),
    }
}

/// Runs a case over a folder, and gives the status.
fn status_of(alloc: Global, case: &Case, store: &mut MemStore, outputs: &mut Outputs) -> u8
    requires unopened { store.old.store.opens ≡ 0 }
{
    let context = context(alloc, limits_of(case));
    let Outputs { out, err } = outputs;
    match case.input {
        Input::Lines { name, refuses, .. } => {
            let ran = run_one_file(&context, name, Echo { refuses }, store, out);
            deliver(ran, &TEXTS, out, err)
        }
        Input::Pair { names, .. } => {
            let signs = Signs {
                at_once: false,
                taken: 0,
                called: 0,
            };
            let ran = run_pair(&context, &names, &Refusing, signs, store, out);
            deliver(ran, &TEXTS, out, err)
        }
        Input::Document { name, .. } => {
            let ran = run_document(&context, name, &Echo { refuses: false }, store);
            deliver(ran, &TEXTS, out, err)
        }
    }
}

/// Runs a case, and asserts the status and what both outputs hold.
fn expect(rt: &impl Abort, alloc: Global, case: &Case) -> Result<(), Fail> {
    let mut store = store_of(alloc, case)?;
    let mut outputs = outputs(alloc, case)?;
    let status = status_of(alloc, case, &mut store, &mut outputs);
    assert_eq!(rt;
        outputs.out.bytes(),
        case.output.as_bytes(),
        "standard output"
    );
    assert_eq!(rt;
        outputs.err.bytes(),
        case.message.as_bytes(),
        "standard error"
    );
    assert_eq!(rt; status, case.status, "status");
    Ok(())
}

#[test]
fn runs_of_each_kind(rt: HostRuntime) -> Result<(), Fail> {
    for case in &CASES {
        expect(&rt, rt.alloc(), case)?;
    }
    Ok(())
}
