//! Lines of lists that go on alone behind a front, and of those that share fronts.
ghost use Rattle.std.specs.Prelude.{◌≡◌, ◌^◌, ◌≤◌, All, IfOk, length, sum};
ghost use Rattle.cost_tree.specs.Texts.{AreTexts, IsText};

use crate::tests::trees::{have_sum, put_figures};
use cost_tree::{
    Chains, Costing, ForkedFronts, FrontLineTaker, Scale, ShownLine, ShownPlace, take_front_lines,
};
use hp_num::{NoMemory, put_bytes, put_dec};
use intern_tables::Names;
use std::alloc::Global;
use std::process::Abort;

/// Writes a line for each one that it takes: its level, how many lines belong to it, its cost, and its text, or in brackets how many
/// fronts are gathered.
#[derive(Drop)]
struct WrittenLines {
    out: Vec<u8>,
}

impl FrontLineTaker for WrittenLines {
    ghost takes = { λ _ _ _ _. Unit {0} };

    fn take_texts(&mut self, _names: &Names) -> Result<(), NoMemory> {
        Ok(())
    }

    fn take_line(&mut self, line: ShownLine) -> Result<(), NoMemory> {
        put_line(line, &mut self.out)
    }
}

fn put_line(line: ShownLine, out: &mut Vec<u8>) -> Result<(), NoMemory> {
    let figures = [line.level as u64, u64::from(line.children), line.cost];
    put_figures(&figures, out)?;
    put_place(line.shown, out)?;
    put_bytes(out, b"\n")
}

fn put_place(shown: ShownPlace, out: &mut Vec<u8>) -> Result<(), NoMemory> {
    match shown {
        ShownPlace::Front { text, .. } => put_bytes(out, text),
        ShownPlace::Gathered { places } => {
            put_bytes(out, b"[")?;
            put_dec(out, places)?;
            put_bytes(out, b"]")
        }
    }
}

/// Lists of texts: lists between `|`, texts between `;`. Two share `a;b`, two are equal, one is empty and one costs nothing. Behind
/// `h` a list goes on alone, and behind the first four texts of the first list, which is cut there.
static LISTS: &[u8] = b"a;b;c;d;e|a;b;f;g|h;i;j;k;l|m;n|m;n||p;q;r;s";

/// What the lists cost.
static COSTS: [u64; 7] = [10, 20, 5, 7, 8, 3, 0];

/// Thresholds and depths, and the lines of the lists, which cost 53. Of 20% `c` and `h` are too small for lines, and what goes on
/// alone behind them has none.
static CASES: [(u64, u32, &[u8]); 3] = [
    (
        0,
        6,
        b"0 3 53 \n1 1 30 a\n2 2 30 b\n3 1 20 f\n4 0 20 g\n3 1 10 c\n4 1 10 d\n5 0 10 e\n1 1 15 m\n2 0 15 n\n1 1 5 h\n2 1 5 i\n3 1 5 j\n4 1 5 k\n5 0 5 l\n",
    ),
    (
        0,
        3,
        b"0 3 53 \n1 1 30 a\n2 2 30 b\n3 0 20 f\n3 0 10 c\n1 1 15 m\n2 0 15 n\n1 1 5 h\n2 1 5 i\n3 0 5 j\n",
    ),
    (
        2000,
        6,
        b"0 3 53 \n1 1 30 a\n2 2 30 b\n3 1 20 f\n4 0 20 g\n3 0 10 [1]\n1 1 15 m\n2 0 15 n\n1 0 5 [1]\n",
    ),
];

/// The texts of the lists.
fn names_of(alloc: Global, lists: &[u8]) -> Result<Names, NoMemory> {
    let mut names = Names::new(alloc);
    for text in lists.split(|byte| *byte == b'|' || *byte == b';') {
        names.intern(text)?;
    }
    Ok(names)
}

/// The numbers of a list's texts, each of which must be a name; an empty list has none.
fn numbers_of(alloc: Global, names: &Names, list: &[u8]) -> Result<Vec<usize>, NoMemory>
    ensures { IfOk result (λ numbers. All (IsText names.now) numbers.items) }
{
    let mut numbers = Vec::new(alloc);
    if list.is_empty() {
        return Ok(numbers);
    }
    'each_text: for text in list.split(|byte| *byte == b';') {
        let Some(number) = names.find(text) else {
            return Ok(numbers);
        };
        numbers.push(number)?;
    }
    Ok(numbers)
}

/// The lists, by the numbers of their texts.
fn chains_of(alloc: Global, names: &Names, lists: &[u8]) -> Result<Chains, NoMemory>
    ensures { IfOk result (λ chains. AreTexts names.now chains) }
{
    let mut chains = Chains::new(alloc);
    'each_list: for list in lists.split(|byte| *byte == b'|') {
        if chains.len() == u32::MAX {
            return Ok(chains);
        }
        let numbers = numbers_of(alloc, names, list)?;
        chains.push_list(&numbers)?;
    }
    Ok(chains)
}

fn fronts_of(alloc: Global, lists: &[u8]) -> Result<ForkedFronts, NoMemory> {
    let names = names_of(alloc, lists)?;
    let chains = chains_of(alloc, &names, lists)?;
    ForkedFronts::new(alloc, names, chains)
}

/// What is written of the lines of lists with these costs, to so many texts, where the total is 53.
fn written(
    alloc: Global,
    fronts: &ForkedFronts,
    costs: &[u64],
    threshold: u64,
    depth: u32,
) -> Result<WrittenLines, NoMemory>
    requires as_many { length costs.now ≡ length fronts.now }
    requires bound { sum costs.now ≤ 2 ^ 62 }
{
    let costing = Costing::new(fronts.len(), |stack: u32| costs[stack as usize]);
    let scale = Scale {
        total: 53,
        threshold,
    };
    let lines = WrittenLines {
        out: Vec::new(alloc),
    };
    take_front_lines(alloc, fronts, &costing, scale, depth, lines)
}

/// The lines of lists are these.
fn lines_are(
    rt: &impl Abort,
    alloc: Global,
    fronts: &ForkedFronts,
    threshold: u64,
    depth: u32,
    lines: &[u8],
) {
    let costs: &[u64] = &COSTS;
    assert!(rt; have_sum(costs));
    assert_eq!(rt; fronts.len() as usize, costs.len());
    let written = written(alloc, fronts, costs, threshold, depth).expect(rt, "memory");
    assert_eq!(rt; written.out.as_slice(), lines);
}

#[test]
fn lists_that_go_on_alone(rt: HostRuntime) {
    let fronts = fronts_of(rt.alloc(), LISTS).expect(&rt, "memory");
    for (threshold, depth, lines) in &CASES {
        lines_are(&rt, rt.alloc(), &fronts, *threshold, *depth, lines);
    }
    drop(fronts);
}
