// Whole-trace verdicts: a register of bits for each node that the formula needs, run on words of 64.
#![tactic(auto)]

ghost use Rattle.std.specs.Prelude.{◌≡◌, List, ◌++◌, ℕ, ◌+◌, ◌*◌, ◌≤◌, ◌<◌, length};
ghost use Rattle.std.proofs.Math.Seq.{paste};
ghost use Rattle.limits.specs.Limits.{register_words, scratch_words};
ghost use Rattle.lists.specs.Bits.{words};
ghost use Rattle.refusals.specs.Refusals.{number};
ghost use Rattle.lists.specs.Choice.{first};
ghost use Rattle.column.specs.Column.{register};
ghost use Rattle.verdict.specs.Verdict.{with_verdicts, cleared, fits_to, enough, Judged, whole_rows, Answered};
ghost use Rattle.table.specs.Nodes.{formula_at};
ghost use Rattle.layout.specs.Layout.{Step, Computable, Runnable};
ghost use Rattle.verdict.specs.Code.Steps.{column_in, Columns, Judgeable};

use limits::{MAX_NODES, MAX_TRACE, SCRATCH_WORDS};
use refusals::Refusal;
use table::{Node, Operator, Table};

// ---- nodes

// The column of node x at place i.
fn node_step(s: &mut [u64], x: Node, i: u8, n: usize, older: &[u32], newer: &[u32])
    requires { Computable scratch_words i n x s.old }
    ensures { Step (register_words * i) (words n) (column_in x n (older.now ++ newer.now) s.old) s.old s.new }
{
    let p = layout::places(x, i, n);
    let m = p.words;
    match Operator::try_from(x.kind) {
        Ok(Operator::Signal) => operators::put_signal(s, p.result, m, older, newer, x.arg),
        Ok(Operator::True) => operators::put_fill(s, p.result, m, n),
        Ok(Operator::False) | Err(_) => operators::put_fill(s, p.result, m, 0),
        Ok(Operator::Not) => operators::put_not(s, p.left, p.result, m, n),
        Ok(Operator::And) => operators::put_and(s, p.left, p.right, p.result, m),
        Ok(Operator::Or) => operators::put_or(s, p.left, p.right, p.result, m),
        Ok(Operator::Finally) => operators::put_some(s, p.left, p.result, m, x.lo, x.hi),
        Ok(Operator::Globally) => operators::put_all(s, p.left, p.result, m, x.lo, x.hi, n),
        Ok(Operator::Until) => operators::put_until(s, p, x.lo, x.hi),
        Ok(Operator::Release) => operators::put_release(s, p, x.lo, x.hi, n),
    }
}

// ---- the evaluation

// The columns of the marked ones of the first `upto` nodes.
fn run(t: Table, marks: u64, upto: usize, older: &[u32], newer: &[u32], s: &mut [u64])
    requires { Runnable scratch_words upto t.nodes marks (older.now ++ newer.now) s.old }
    ensures { Columns upto t.nodes marks (older.now ++ newer.now) s.old s.new }
{
    let n = older.len() + newer.len();
    // i is the place of the node and of its mark.
    for i in 0..upto {
        let x = t.nodes[i];
        if needed::is_marked(marks, i) {
            node_step(s, x, i as u8, n, older, newer);
        }
    }
}

// The register at b becomes the first words of `out`.
fn copy_out(s: &[u64], b: usize, m: usize, out: &mut [u64])
    requires { (b + m ≤ length s.now) × (m ≤ length out.old) }
    ensures { out.new ≡ paste out.old 0 (register b m s.now) m }
{
    out[..m].copy_from_slice(&s[b..b + m]);
}

// The verdicts of node k at the first `count` ticks, with the scratch cleared.
fn evaluate(
    t: Table,
    k: usize,
    older: &[u32],
    newer: &[u32],
    count: usize,
    scratch: &mut [u64],
    out: &mut [u64],
)
    requires { Judgeable t.nodes k (older.now ++ newer.now) count scratch.old out.old }
    ensures { (out.new ≡ with_verdicts (formula_at t.nodes k) (older.now ++ newer.now) count out.old) × (scratch.new ≡ cleared scratch.old) }
{
    let m = layout::words_of(count);
    let nodes = t.nodes;
    let marks = needed::needed_for(nodes, k);
    run(t, marks, k + 1, older, newer, scratch);
    copy_out(scratch, layout::place_of(k as u8), m, out);
    column::keep_below(&mut out[0..m], count);
    scratch[..SCRATCH_WORDS].fill(0);
}

// Whether every node up to place k keeps the limits at its place.
fn fits_to(t: Table, k: usize) -> bool
    ensures { result ≡ fits_to t k }
{
    if MAX_NODES <= k {
        return false;
    }
    t.nodes[..k + 1]
        .iter()
        .enumerate()
        .all(|(i, x)| table::node_fits(*x, i))
}

// Whether the states are few enough, and enough for the verdicts, and the lent words enough for them.
fn has_enough(older: usize, newer: usize, count: usize, scratch: usize, out: usize) -> bool
    ensures { result ≡ enough (older + newer) count scratch out }
{
    let states = older.saturating_add(newer);
    (states <= MAX_TRACE)
        & (count <= states)
        & (SCRATCH_WORDS <= scratch)
        & (layout::words_of(count) <= out)
}

// The verdicts of the node at place k at the first `count` ticks of the trace `older` and then `newer`, which are read where they lie;
// whether they could be given.
pub fn judge(
    t: Table,
    k: usize,
    older: &[u32],
    newer: &[u32],
    count: usize,
    scratch: &mut [u64],
    out: &mut [u64],
) -> bool
    ensures { Judged t k (older.now ++ newer.now) count scratch.old out.old result scratch.new out.new }
{
    let fitting = fits_to(t, k);
    let room = has_enough(older.len(), newer.len(), count, scratch.len(), out.len());
    if fitting & room {
        evaluate(t, k, older, newer, count, scratch, out);
        return true;
    }
    false
}

// Whether a call on so many states is accepted, for a rule of a table that is sound or not and has `count` rules; the buffers have these lengths.
fn check_whole(
    sound: bool,
    count: usize,
    rule: usize,
    states: usize,
    scratch: usize,
    out: usize,
) -> Result<(), Refusal>
    ensures { number result ≡ first (whole_rows sound count rule states scratch out) }
{
    if !sound {
        return Err(Refusal::Unsound);
    }
    if count <= rule {
        return Err(Refusal::Absent);
    }
    if MAX_TRACE < states {
        return Err(Refusal::States);
    }
    if scratch < SCRATCH_WORDS || out < layout::words_of(states) {
        return Err(Refusal::Buffer);
    }
    Ok(())
}

// The verdicts of what a rule watches on a whole trace.
pub fn verdicts(
    t: Table,
    rule: usize,
    states: &[u32],
    scratch: &mut [u64],
    out: &mut [u64],
) -> Result<(), Refusal>
    ensures { Answered t rule states.now scratch.old out.old (number result) scratch.new out.new }
{
    check_whole(
        table::sound(t),
        t.rule_count,
        rule,
        states.len(),
        scratch.len(),
        out.len(),
    )?;
    let k = t.rules[rule].watched as usize;
    judge(t, k, &states[0..0], states, states.len(), scratch, out);
    Ok(())
}
