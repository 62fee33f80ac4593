//! Worked trees of lists, and of the stacks of a trace. What a tree shows is one text.
ghost use Rattle.std.specs.Prelude.{◌≡◌, ◌+◌, ◌^◌, ◌≤◌, IsTrue, length, sum};

use cost_tree::{CostTree, Costing, Fronts};
use hp_num::{NoMemory, put_bytes, put_dec};
use ht_trace::{LineError, Style, Tables};
use stack_trees::{Direction, OfStacks};
use std::alloc::Global;
use std::process::Abort;

/// Lists of texts with their costs, and what their tree shows.
struct Case {
    /// Lists between `|`, and texts between `;`. An empty list has no text, and an empty text is no lists.
    lists: &'static [u8],
    costs: &'static [u64],
    /// How many texts a front has at most.
    depth: u32,
    /// For each node a line: parent, cost, own cost, first stack, text, and after a colon each child with a comma.
    nodes: &'static [u8],
}

static CASES: [Case; 7] = [
    // The stacks of the worked trace, from the outermost frame and from the innermost: `main` alone and below `f` are two
    // fronts.
    Case {
        lists: b"|main (a.c:20)|main (a.c:20);f (a.c:10)",
        costs: &[0, 100, 100],
        depth: 4096,
        nodes: b"0 200 0 1 :1,\n0 200 100 1 main (a.c:20):2,\n1 100 100 2 f (a.c:10):\n",
    },
    Case {
        lists: b"|main|f;main",
        costs: &[0, 100, 100],
        depth: 4096,
        nodes: b"0 200 0 1 :1,2,\n0 100 100 1 main:\n0 100 0 2 f:3,\n2 100 100 2 main:\n",
    },
    // A text of a stack that costs nothing has no node, and the first stack is one that costs something.
    Case {
        lists: b"(no stack)|main;g|main;f",
        costs: &[0, 0, 100],
        depth: 4096,
        nodes: b"0 100 0 2 :1,\n0 100 0 2 main:2,\n1 100 100 2 f:\n",
    },
    Case {
        lists: b"main|",
        costs: &[0, 0],
        depth: 4096,
        nodes: b"0 0 0 0 :\n",
    },
    // The stack of three texts is the front of no node, an empty one that of node 0.
    Case {
        lists: b"a;a;a||a|a;|a;a",
        costs: &[1, 2, 4, 8, 16],
        depth: 2,
        nodes: b"0 31 2 0 :1,\n0 29 4 0 a:2,3,\n1 17 16 0 a:\n1 8 8 3 :\n",
    },
    Case {
        lists: b"main||f",
        costs: &[1, 2, 4],
        depth: 0,
        nodes: b"0 7 2 0 :\n",
    },
    // No stacks.
    Case {
        lists: b"",
        costs: &[],
        depth: 4096,
        nodes: b"0 0 0 0 :\n",
    },
];

/// Appends a list of texts between `;`.
fn push_list(rt: &impl Abort, fronts: &mut Fronts, list: &[u8]) -> Result<(), NoMemory> {
    assert!(rt; fronts.len() < u32::MAX);
    let number = fronts.begin()?;
    if list.is_empty() {
        return Ok(());
    }
    for text in list.split(|byte| *byte == b';') {
        assert!(rt; fronts.len() > number);
        fronts.push(text)?;
    }
    Ok(())
}

/// Appends lists between `|`, and none of an empty text.
fn push_lists(rt: &impl Abort, fronts: &mut Fronts, lists: &[u8]) -> Result<(), NoMemory> {
    if lists.is_empty() {
        return Ok(());
    }
    for list in lists.split(|byte| *byte == b'|') {
        push_list(rt, fronts, list)?;
    }
    Ok(())
}

/// Appends figures, each with a blank.
pub(crate) fn put_figures(figures: &[u64], out: &mut Vec<u8>) -> Result<(), NoMemory> {
    for figure in figures {
        put_dec(out, *figure)?;
        put_bytes(out, b" ")?;
    }
    Ok(())
}

/// Appends the figures and the text of a node.
fn put_node(rt: &impl Abort, tree: &CostTree, n: usize, out: &mut Vec<u8>) -> Result<(), NoMemory> {
    assert!(rt; n < tree.len());
    let node = tree.node(n);
    let figures = [
        node.parent as u64,
        node.cost,
        node.own,
        u64::from(node.first),
    ];
    put_figures(&figures, out)?;
    put_bytes(out, tree.text(n))
}

/// Appends the children of a node. The buffer is for their numbers.
fn put_children(
    rt: &impl Abort,
    tree: &CostTree,
    n: usize,
    children: &mut Vec<usize>,
    out: &mut Vec<u8>,
) -> Result<(), NoMemory> {
    assert!(rt; n < tree.len());
    tree.children_into(n, children)?;
    put_bytes(out, b":")?;
    for child in children.iter() {
        put_dec(out, *child as u64)?;
        put_bytes(out, b",")?;
    }
    put_bytes(out, b"\n")
}

/// Appends a line for each node of a tree. The buffer is for the numbers of children.
fn put_nodes(
    rt: &impl Abort,
    tree: &CostTree,
    children: &mut Vec<usize>,
    out: &mut Vec<u8>,
) -> Result<(), NoMemory> {
    for n in 0..tree.len() {
        put_node(rt, tree, n, out)?;
        put_children(rt, tree, n, children, out)?;
    }
    Ok(())
}

/// The most that costs may sum to: 2^62.
const MOST: u64 = 0x4000_0000_0000_0000;

/// Whether costs sum to no more than the most.
pub(crate) fn have_sum(costs: &[u64]) -> bool
    ensures { IsTrue result → sum costs.now ≤ 2 ^ 62 }
{
    let mut total: u64 = 0;
    for cost in costs {
        if *cost > MOST - total {
            return false;
        }
        total += *cost;
    }
    true
}

/// The tree shows these nodes.
fn shows(rt: &impl Abort, alloc: Global, tree: CostTree, nodes: &[u8]) {
    let mut children = Vec::new(alloc);
    let mut out = Vec::new(alloc);
    put_nodes(rt, &tree, &mut children, &mut out).expect(rt, "memory");
    drop(tree);
    assert_eq!(rt; out.as_slice(), nodes);
}

/// The tree of the lists with these costs.
fn tree_of_lists<'a>(
    alloc: Global,
    fronts: &'a Fronts,
    costs: &[u64],
    depth: u32,
) -> Result<CostTree<'a>, NoMemory>
    requires as_many { length costs.now ≡ length fronts.now }
    requires bound { sum costs.now ≤ 2 ^ 62 }
{
    let costing = Costing::new(fronts.len(), |stack: u32| costs[stack as usize]);
    CostTree::of_fronts(alloc, fronts, &costing, depth)
}

/// The tree of the lists with the costs of the case shows the nodes of the case.
fn lists_show(rt: &impl Abort, alloc: Global, fronts: &Fronts, case: &Case) {
    assert!(rt; have_sum(case.costs));
    assert_eq!(rt; fronts.len() as usize, case.costs.len());
    let tree = tree_of_lists(alloc, fronts, case.costs, case.depth).expect(rt, "memory");
    shows(rt, alloc, tree, case.nodes);
}

#[test]
fn lists(rt: HostRuntime) {
    for case in &CASES {
        let mut fronts = Fronts::new(rt.alloc());
        push_lists(&rt, &mut fronts, case.lists).expect(&rt, "memory");
        lists_show(&rt, rt.alloc(), &fronts, case);
        drop(fronts);
    }
}

/// The worked trace up to its stacks. Each line ends with a line feed but the last.
static WORKED: &[u8] =
    b"v 10500 2\ns app\ns main\ns f\ns a.c\ni 400 1 2 4 14\ni 500 1 3 4 a\nt 1 0\nt 2 1";

/// What its stacks cost.
static COSTS: [u64; 3] = [0, 100, 100];

/// From which end the texts of its stacks come, their style, and what their tree shows.
static OF_STACKS: [(Direction, Style, &[u8]); 2] = [
    (
        Direction::FromRoot,
        Style::Plain,
        b"0 200 0 1 :1,\n0 200 100 1 main (a.c:20):2,\n1 100 100 2 f (a.c:10):\n",
    ),
    (
        Direction::FromAllocation,
        Style::Addressed,
        b"0 200 0 1 :1,2,\n0 100 100 1 0x400: main (a.c:20):\n0 100 0 2 0x500: f (a.c:10):3,\n2 100 100 2 0x400: main (a.c:20):\n",
    ),
];

/// Reads the lines of the worked trace.
fn read_worked(rt: &impl Abort, tables: &mut Tables) -> Result<(), LineError> {
    for line in WORKED.split(|byte| *byte == b'\n') {
        assert!(rt; line.len() < 1000);
        tables.line(line)?;
    }
    Ok(())
}

/// The tree of a trace's stacks with these costs.
fn tree_of_stacks<'a>(
    alloc: Global,
    tables: &Tables,
    costs: &[u64],
    direction: Direction,
    style: Style,
) -> Result<CostTree<'a>, NoMemory>
    requires as_many { length costs.now ≡ length tables.now.nodes + 1 }
    requires bound { sum costs.now ≤ 2 ^ 62 }
{
    let costing = Costing::new(tables.stacks(), |stack: u32| costs[stack as usize]);
    CostTree::build(alloc, tables, &costing, direction, style, 4096)
}

/// The tree of a trace's stacks with these costs shows these nodes.
fn stacks_show(
    rt: &impl Abort,
    alloc: Global,
    tables: &Tables,
    costs: &[u64],
    direction: Direction,
    style: Style,
    nodes: &[u8],
) {
    assert!(rt; have_sum(costs));
    assert_eq!(rt; tables.stacks() as usize, costs.len());
    let tree = tree_of_stacks(alloc, tables, costs, direction, style).expect(rt, "memory");
    shows(rt, alloc, tree, nodes);
}

#[test]
fn stacks(rt: HostRuntime) {
    let mut tables = Tables::new(rt.alloc());
    read_worked(&rt, &mut tables).expect(&rt, "a trace");
    for (direction, style, nodes) in &OF_STACKS {
        stacks_show(&rt, rt.alloc(), &tables, &COSTS, *direction, *style, nodes);
    }
    drop(tables);
}
