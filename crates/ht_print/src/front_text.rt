//! The text of a node's front, which goes from one node's to another's: what both fronts begin with stays as it is.
//! It has room for the fronts of all nodes from the first on. What lines are made of it is no part of it.
ghost use Rattle.std.specs.Prelude.{◌≡◌, ◌<◌, ◌≤◌, ◌+◌, All, [], ◌++◌, length, IfOk, vec_capacity};
ghost use Rattle.stack_table.specs.Stack.{most_frames};
ghost use Rattle.ht_print.specs.Appends.{HasRoomFor};
ghost use Rattle.ht_print.specs.FlameText.{IsPathOf, flame_byte, flame_name};
ghost use Rattle.ht_print.specs.FlameWalk.{IsBelowRoot, last_text};
ghost use Rattle.ht_print.specs.FrontText.{CanClimb, CanGoTo, HasRoom, IsTextOf, KeepsRoom, LeadsTo, StillBetween, rest_text};

use cost_tree::CostTree;
use hp_num::NoMemory;
use stack_table::MOST_FRAMES;
use std::alloc::Global;

/// The texts of a node's front, with a semicolon before each.
#[derive(Drop)]
pub(crate) struct FrontText {
    pub(crate) node: usize,
    pub(crate) text: Vec<u8>,
    /// The nodes whose texts are to be appended.
    pub(crate) path: Vec<usize>,
}

/// Two nodes on the ways up from the text's node and from another one.
#[derive(Clone, Copy)]
pub(crate) struct Between {
    pub(crate) at: usize,
    pub(crate) above: usize,
}

impl FrontText {
    /// That of node 0, with room for fronts of at most so many bytes.
    pub(crate) fn new(alloc: Global, longest: usize) -> Result<FrontText, NoMemory>
        ensures node { IfOk result (λ front. front.node ≡ 0) }
        ensures text { IfOk result (λ front. front.text.items ≡ []) }
        ensures room { IfOk result (λ front. longest ≤ vec_capacity front.text) }
        ensures path_room { IfOk result (λ front. most_frames ≤ vec_capacity front.path) }
    {
        let text = Vec::with_capacity(alloc, longest)?;
        let path = Vec::with_capacity(alloc, MOST_FRAMES as usize)?;
        Ok(FrontText {
            node: 0,
            text,
            path,
        })
    }

    /// The texts with semicolons between them.
    pub(crate) fn path(&self) -> &[u8]
        ensures path { IsPathOf self.now.text.items result.now }
        ensures within { length result.now ≤ length self.now.text.items }
    {
        match self.text.split_first() {
            Some((_, path)) => path,
            None => &[],
        }
    }

    /// Goes to the front of node `n`.
    pub(crate) fn go_to(&mut self, tree: &CostTree, n: usize)
        requires { CanGoTo tree.now n self.old }
        ensures text { IsTextOf tree.now self.new }
        ensures node { self.new.node ≡ n }
        ensures room { HasRoom tree.now self.new }
    {
        self.cut_back(tree, n);
        put_rest(tree, &self.path, &mut self.text);
        self.node = n;
    }

    /// Leaves of the text what the front of node `n` begins with too, and in `path` the nodes that follow on the way to it.
    fn cut_back(&mut self, tree: &CostTree, n: usize)
        requires { CanGoTo tree.now n self.old }
        ensures left { LeadsTo tree.now n self.new.text.items self.new.path.items }
        ensures room { HasRoom tree.now self.new }
    {
        let mut between = Between {
            at: self.node,
            above: n,
        };
        self.path.clear();
        'upwards: while between.at != between.above {
            between = self.climb(tree, between);
        }
        self.path.reverse();
    }

    /// Goes up from the later one of two different nodes. Where this is on the way from the text's node, its own text is cut
    /// off, and else it is one of those whose texts are to be appended.
    fn climb(&mut self, tree: &CostTree, between: Between) -> Between
        requires { CanClimb tree.now self.old between }
        ensures between { StillBetween tree.now self.old between self.new result }
        ensures nearer { result.at + result.above < between.at + between.above }
        ensures node { self.new.node ≡ self.old.node }
        ensures room { KeepsRoom self.old self.new }
    {
        let Between { at, above } = between;
        if at < above {
            self.path.push_reserved(above);
            let parent = tree.node(above).parent;
            return Between { at, above: parent };
        }
        let own = tree.text(at).len();
        self.text.truncate(self.text.len().saturating_sub(own + 1));
        let parent = tree.node(at).parent;
        Between { at: parent, above }
    }
}

/// Appends the last texts of the nodes, with a semicolon before each. There is room for them.
fn put_rest(tree: &CostTree, rest: &[usize], out: &mut Vec<u8>)
    requires held { All (IsBelowRoot tree.now) rest.now }
    requires room { HasRoomFor (length (rest_text tree.now rest.now)) out.old }
    ensures appended { out.new.items ≡ out.old.items ++ rest_text tree.now rest.now }
    ensures capacity { vec_capacity out.new ≡ vec_capacity out.old }
{
    'each_node: for node in rest {
        out.push_reserved(b';');
        put_node(tree, *node, out);
    }
}

/// Appends the last text of the node.
fn put_node(tree: &CostTree, n: usize, out: &mut Vec<u8>)
    requires held { IsBelowRoot tree.now n }
    requires room { HasRoomFor (length (last_text tree.now n)) out.old }
    ensures appended { out.new.items ≡ out.old.items ++ flame_name (last_text tree.now n) }
    ensures capacity { vec_capacity out.new ≡ vec_capacity out.old }
{
    put_name(tree.text(n), out);
}

/// Appends a text with a colon for each semicolon.
fn put_name(text: &[u8], out: &mut Vec<u8>)
    requires room { HasRoomFor (length text.now) out.old }
    ensures appended { out.new.items ≡ out.old.items ++ flame_name text.now }
    ensures capacity { vec_capacity out.new ≡ vec_capacity out.old }
{
    'each_byte: for byte in text {
        out.push_reserved(plain_byte(*byte));
    }
}

/// A colon for a semicolon, which stands between texts.
fn plain_byte(byte: u8) -> u8
    ensures { result ≡ flame_byte byte }
{
    if byte == b';' { b':' } else { byte }
}
