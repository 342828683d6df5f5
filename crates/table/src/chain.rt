// Measures of the nodes along a table, such as their delays, each from those before it; capped.
ghost use Rattle.std.specs.Prelude.{ℕ, ◌≡◌, map, ◌-◌, ◌≤◌, get_or, take};
ghost use Rattle.limits.specs.Limits.{max_nodes};
ghost use Rattle.mltl.specs.Mltl.{Formula};
ghost use Rattle.lists.specs.Sequence.{every};
ghost use Rattle.table.specs.Sound.{short};
ghost use Rattle.table.specs.Nodes.{MeasureStep, MeasureLaws, measures, step_at, step_over, cap};
ghost use Rattle.table.specs.Code.Steps.{left_delay, delay_measure, delay_step};
ghost use Rattle.table.specs.Code.Laws.{delay_laws};

use crate::{Node, Operator, Table};
use limits::{MAX_DELAY, MAX_NODES};

// Stands for every measure that is longer than any delay.
const OVERLONG: u16 = MAX_DELAY + 1;

// A measure of formulas that a node makes of those of its operands.
pub trait Measure: Copy {
    ghost of: { Self → Formula → ℕ };

    ghost step: { Self → MeasureStep };

    // The measure of a node, where those of its operands are a and b.
    fn at_node(self, n: Node, a: u16, b: u16) -> u32
        ensures { result ≡ step_at (step self) n a b };

    // The same over the measures of the nodes before a place.
    fn over(self, ms: &[u16; MAX_NODES], place: usize, n: Node) -> u32
        ensures { result ≡ step_over (step self) (take place ms.now) n }
    {
        self.at_node(
            n,
            measure_at(ms, place, n.left),
            measure_at(ms, place, n.right),
        )
    }

    // What each measure must prove.
    ghost laws: { (m : Self) → MeasureLaws (of m) (step m) };
}

// How many later states a verdict waits for; where `old`, as before A5.
#[derive(Clone, Copy)]
pub struct Delay {
    pub old: bool,
}

impl Measure for Delay {
    ghost of = { delay_measure };

    ghost step = { delay_step };

    ghost laws = { delay_laws };

    fn at_node(self, n: Node, a: u16, b: u16) -> u32 {
        let hi = n.hi as u32;
        match Operator::try_from(n.kind) {
            Ok(Operator::Not) => a as u32,
            Ok(Operator::And | Operator::Or) => a.max(b) as u32,
            Ok(Operator::Finally | Operator::Globally) => hi + a as u32,
            Ok(Operator::Until | Operator::Release) => {
                hi + left_delay(self.old, n, a).max(b) as u32
            }
            _ => 0,
        }
    }

    // A node without operands waits for nothing: none is looked up.
    fn over(self, ms: &[u16; MAX_NODES], place: usize, n: Node) -> u32 {
        match Operator::try_from(n.kind) {
            Ok(Operator::Signal | Operator::True | Operator::False) | Err(_) => 0,
            Ok(_) => self.at_node(
                n,
                measure_at(ms, place, n.left),
                measure_at(ms, place, n.right),
            ),
        }
    }
}

// What the left operand of U or R, whose delay is a, makes it wait beyond hi: all of it where it is read up to hi, else one state less, or none
// where lo is hi.
fn left_delay(whole: bool, n: Node, a: u16) -> u16
    ensures { result ≡ left_delay whole n.lo n.hi a }
{
    if whole {
        a
    } else if n.lo < n.hi {
        a.saturating_sub(1)
    } else {
        0
    }
}

// The measure at a place before `place`, and 0 for any other.
pub fn measure_at(ms: &[u16; MAX_NODES], place: usize, at: u8) -> u16
    ensures { result ≡ get_or (take place ms.now) at 0 }
{
    let k = at as usize;
    if k < place.min(MAX_NODES) { ms[k] } else { 0 }
}

// The measure of the node n at a place, capped, by those before it.
pub(crate) fn measure_from<M: Measure>(m: M, ms: &[u16; MAX_NODES], place: usize, n: Node) -> u16
    ensures { result ≡ cap (step_over (M.step m) (take place ms.now) n) }
{
    m.over(ms, place, n).min(OVERLONG as u32) as u16
}

// The measures of all nodes, capped.
pub fn measures<M: Measure>(m: M, t: Table) -> [u16; MAX_NODES]
    ensures { result ≡ map cap (measures (M.of m) t.nodes) }
{
    let mut ms = [0u16; MAX_NODES];
    // By index, since each measure is made of those before it in the same array.
    for i in 0..MAX_NODES {
        ms[i] = measure_from(m, &ms, i, t.nodes[i]);
    }
    ms
}

// No measure is too long.
pub(crate) fn all_short(ms: &[u16; MAX_NODES]) -> bool
    ensures { result ≡ every short 0 ms.now }
{
    ms.iter().all(|m| *m < OVERLONG)
}
