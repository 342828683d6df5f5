// How far one bad reading reaches: the ticks at which a rule's verdict may change when the state of one tick does.
#![tactic(auto)]

ghost use Rattle.std.specs.Prelude.{◌≡◌};
ghost use Rattle.reach.specs.Reach.{range_told, reached_by, reached, ticks_within};
ghost use Rattle.reach.specs.Code.Steps.{near_measure, near_step};
ghost use Rattle.reach.specs.Code.Laws.{near_laws};

use limits::MAX_NODES;
use refusals::Refusal;
use table::{Measure, Node, Operator, Table};

// The ticks from a first to a last one.
#[derive(Clone, Copy, Debug, PartialEq, Eq)]
pub struct Ticks {
    pub first: u64,
    pub last: u64,
}

// How many states after a verdict's tick the first state lies that it depends on.
#[derive(Clone, Copy)]
struct Near;

impl Measure for Near {
    ghost of = { near_measure };

    ghost step = { near_step };

    ghost laws = { near_laws };

    fn at_node(self, n: Node, a: u16, b: u16) -> u32 {
        let lo = n.lo as u32;
        match Operator::try_from(n.kind) {
            Ok(Operator::Not) => a as u32,
            Ok(Operator::And | Operator::Or) => a.min(b) as u32,
            Ok(Operator::Finally | Operator::Globally) => lo + a as u32,
            Ok(Operator::Until | Operator::Release) => lo + a.min(b) as u32,
            _ => 0,
        }
    }
}

// The ticks from tick - delay to tick - near, if there are any.
fn ticks_within(near: u16, delay: u16, tick: u64) -> Option<Ticks>
    ensures { range_told result ≡ ticks_within near delay tick }
{
    let last = tick.checked_sub(near as u64)?;
    let first = tick.saturating_sub(delay as u64);
    Some(Ticks { first, last })
}

// The ticks of a mission of so many states at which the verdict of a rule may depend on the state of `tick`.
pub fn reach(t: Table, rule: usize, length: u64, tick: u64) -> Result<Option<Ticks>, Refusal>
    ensures { reached_by result ≡ reached t rule length tick }
{
    let delay = table::delay(t, rule)?;
    if length <= tick {
        return Err(Refusal::Beyond);
    }
    let nears = table::measures(Near, t);
    let near = table::measure_at(&nears, MAX_NODES, t.rules[rule].watched);
    Ok(ticks_within(near, delay, tick))
}
