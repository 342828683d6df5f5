// Which nodes are needed: marks of 64 places as the bits of one number.
#![tactic(auto)]

ghost use Rattle.std.specs.Prelude.{◌≡◌, min, take};
ghost use Rattle.limits.specs.Limits.{max_nodes};
ghost use Rattle.needed.specs.Marks.{mark, marked, needed, needed_for};
ghost use Rattle.needed.specs.Code.Steps.{mark_operand, mark_operands, mark_node};

use limits::MAX_NODES;
use table::Node;

// The marks with one more at place `at`; from place 64 on there is none.
pub fn mark(marks: u64, at: usize) -> u64
    ensures { result ≡ mark marks at }
{
    if at < MAX_NODES {
        return marks | 1 << at;
    }
    marks
}

// Whether there is a mark at place `at`.
pub fn is_marked(marks: u64, at: usize) -> bool
    ensures { result ≡ marked marks at }
{
    if at < MAX_NODES {
        return (marks >> at) % 2 == 1;
    }
    false
}

// An operand at `at` is marked, where its node at place i uses it and stands after it.
fn mark_operand(marks: u64, i: usize, used: bool, at: u8) -> u64
    ensures { result ≡ mark_operand marks i used at }
{
    let k = at as usize;
    if used & (k < i) {
        return mark(marks, k);
    }
    marks
}

// Both operands of the node n at place i.
fn mark_operands(marks: u64, i: usize, n: Node) -> u64
    ensures { result ≡ mark_operands marks i n }
{
    let uses = table::uses_of(n.kind);
    let half = mark_operand(marks, i, uses.left, n.left);
    mark_operand(half, i, uses.right, n.right)
}

// The same, where the node is marked.
fn mark_node(marks: u64, i: usize, n: Node) -> u64
    ensures { result ≡ mark_node marks i n }
{
    if is_marked(marks, i) {
        return mark_operands(marks, i, n);
    }
    marks
}

// How many nodes there are, if `count` are asked for.
fn at_most(count: usize) -> usize
    ensures { result ≡ min count max_nodes }
{
    count.min(MAX_NODES)
}

// The marks of all that is needed for the marked ones of the first `count` nodes, found from the last node to the first.
pub fn needed(nodes: [Node; MAX_NODES], count: usize, seed: u64) -> u64
    ensures { result ≡ needed seed (take count nodes) }
{
    let mut m = seed;
    // i is the place that is marked.
    for i in (0..at_most(count)).rev() {
        m = mark_node(m, i, nodes[i]);
    }
    m
}

// The marks of all that node k needs, itself included; none from place 64 on.
pub fn needed_for(nodes: [Node; MAX_NODES], k: usize) -> u64
    ensures { result ≡ needed_for k nodes }
{
    if MAX_NODES <= k {
        return 0;
    }
    needed(nodes, k + 1, mark(0, k))
}
