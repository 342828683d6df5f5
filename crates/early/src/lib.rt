// What is known of a rule while its trace still grows: yes, no or open. Each node that the formula needs has a yes column and a no column, in
// registers of the scratch's two halves; a tick is open where neither is set.
#![tactic(auto)]

ghost use Rattle.std.specs.Prelude.{◌≡◌, true, List, ℕ, ◌+◌, ◌*◌, ◌/◌, ◌%◌, ◌≤◌, ◌<◌, length, get_or};
ghost use Rattle.limits.specs.Limits.{register_words, scratch_words, early_scratch_words};
ghost use Rattle.lists.specs.Bits.{bit, words};
ghost use Rattle.refusals.specs.Refusals.{number};
ghost use Rattle.lists.specs.Choice.{first};
ghost use Rattle.mltl.specs.Known.{known};
ghost use Rattle.table.specs.Nodes.{formula_at, op_of, Not, Signal};
ghost use Rattle.layout.specs.Layout.{Step, Computable, Runnable};
ghost use Rattle.early.specs.Early.{decided, early_rows, both_cleared, Decides};
ghost use Rattle.early.specs.Code.Steps.{operates, constant, join_place, join_column_in, meet_column_in, NodeStep, Columns, value_by, Answerable};

use limits::{EARLY_SCRATCH_WORDS, MAX_TRACE, SCRATCH_WORDS};
use refusals::Refusal;
use table::{Node, Operator, Table};

// What is known of a verdict.
#[derive(Clone, Copy, Debug, PartialEq, Eq)]
pub enum Decision {
    No,
    Yes,
    Open,
}

// ---- one half

// Or, F or U of the operands' columns, by the class of the operator: and, or; F, G; U, R.
fn join_step(s: &mut [u64], x: Node, i: u8, n: usize)
    requires { Computable scratch_words i n x s.old × (operates (op_of x.kind) ≡ true) }
    ensures { Step (register_words * i) (words n) (join_column_in x n s.old) s.old s.new }
{
    let p = layout::places(x, i, n);
    let m = p.words;
    match Operator::try_from(x.kind) {
        Ok(Operator::And | Operator::Or) => operators::put_or(s, p.left, p.right, p.result, m),
        Ok(Operator::Finally | Operator::Globally) => {
            operators::put_some(s, p.left, p.result, m, x.lo, x.hi)
        }
        Ok(Operator::Until | Operator::Release) => operators::put_until(s, p, x.lo, x.hi),
        _ => {}
    }
}

// And, G or R of them over the whole interval.
fn meet_step(s: &mut [u64], x: Node, i: u8, n: usize)
    requires { Computable scratch_words i n x s.old × (operates (op_of x.kind) ≡ true) }
    ensures { Step (register_words * i) (words n) (meet_column_in x n s.old) s.old s.new }
{
    let p = layout::places(x, i, n);
    let m = p.words;
    match Operator::try_from(x.kind) {
        Ok(Operator::And | Operator::Or) => operators::put_and(s, p.left, p.right, p.result, m),
        Ok(Operator::Finally | Operator::Globally) => {
            operators::put_whole(s, p.left, p.result, m, x.lo, x.hi)
        }
        Ok(Operator::Until | Operator::Release) => operators::put_whole_release(s, p, x.lo, x.hi),
        _ => {}
    }
}

// ---- both halves: the yes column in the first, the no column in the second

// Where the half begins that is joined: the first for or, F and U, the second for and, G and R.
fn join_place(kind: u8) -> usize
    ensures { result ≡ join_place (op_of kind) }
{
    match Operator::try_from(kind) {
        Ok(Operator::Or | Operator::Finally | Operator::Until) => 0,
        _ => SCRATCH_WORDS,
    }
}

// A node with operands, of any operator but not: one half is joined, and the other met.
fn operator_step(s: &mut [u64], x: Node, i: u8, n: usize)
    requires { Computable early_scratch_words i n x s.old × (operates (op_of x.kind) ≡ true) }
    ensures { (states : List ℕ) → NodeStep x i n states s.old s.new }
{
    let j = join_place(x.kind);
    let w = SCRATCH_WORDS - j;
    join_step(&mut s[j..j + SCRATCH_WORDS], x, i, n);
    meet_step(&mut s[w..w + SCRATCH_WORDS], x, i, n);
}

// Not: the operand's columns exchanged.
fn not_step(s: &mut [u64], x: Node, i: u8, n: usize)
    requires { Computable early_scratch_words i n x s.old × (Not ≡ op_of x.kind) }
    ensures { (states : List ℕ) → NodeStep x i n states s.old s.new }
{
    let p = layout::places(x, i, n);
    operators::put_copy(s, SCRATCH_WORDS + p.left, p.result, p.words);
    operators::put_copy(s, p.left, SCRATCH_WORDS + p.result, p.words);
}

// A constant: the bits below n are set in one column.
fn constant_step(s: &mut [u64], x: Node, i: u8, n: usize)
    requires { Computable early_scratch_words i n x s.old × (constant (op_of x.kind) ≡ true) }
    ensures { (states : List ℕ) → NodeStep x i n states s.old s.new }
{
    let p = layout::places(x, i, n);
    let yes = layout::bits_of(x.kind, n);
    operators::put_fill(s, p.result, p.words, yes);
    operators::put_fill(s, SCRATCH_WORDS + p.result, p.words, n - yes);
}

// A signal, and the bits below n in which it is clear.
fn signal_step(s: &mut [u64], x: Node, i: u8, states: &[u32])
    requires { Computable early_scratch_words i (length states.now) x s.old × (Signal ≡ op_of x.kind) }
    ensures { NodeStep x i (length states.now) states.now s.old s.new }
{
    let n = states.len();
    let p = layout::places(x, i, n);
    operators::put_signal(s, p.result, p.words, &[], states, x.arg);
    operators::put_not(s, p.result, SCRATCH_WORDS + p.result, p.words, n);
}

// The columns of node x at place i.
fn node_step(s: &mut [u64], x: Node, i: u8, states: &[u32])
    requires { Computable early_scratch_words i (length states.now) x s.old }
    ensures { NodeStep x i (length states.now) states.now s.old s.new }
{
    let n = states.len();
    match Operator::try_from(x.kind) {
        Ok(Operator::Signal) => signal_step(s, x, i, states),
        Ok(Operator::True | Operator::False) | Err(_) => constant_step(s, x, i, n),
        Ok(Operator::Not) => not_step(s, x, i, n),
        Ok(_) => operator_step(s, x, i, n),
    }
}

// ---- the evaluation

// The columns of the marked ones of the first `upto` nodes.
fn run(t: Table, marks: u64, upto: usize, states: &[u32], s: &mut [u64])
    requires { Runnable early_scratch_words upto t.nodes marks states.now s.old }
    ensures { Columns upto t.nodes marks states.now s.old s.new }
{
    for i in 0..upto {
        let x = t.nodes[i];
        if needed::is_marked(marks, i) {
            node_step(s, x, i as u8, states);
        }
    }
}

// Bit `tick` of the register at b.
fn bit_at(s: &[u64], b: usize, tick: usize) -> bool
    requires { b + tick / 64 < length s.now }
    ensures { result ≡ bit (get_or s.now (b + tick / 64) 0) (tick % 64) }
{
    (s[b + tick / 64] >> (tick % 64)) % 2 == 1
}

// What two such bits say.
fn decision_of(yes: bool, no: bool) -> Decision
    ensures { decided result ≡ value_by yes no }
{
    match (yes, no) {
        (true, _) => Decision::Yes,
        (false, true) => Decision::No,
        (false, false) => Decision::Open,
    }
}

// What is known of node k at `tick`, with both halves of the scratch cleared.
fn evaluate(t: Table, k: usize, states: &[u32], tick: usize, scratch: &mut [u64]) -> Decision
    requires { Answerable t.nodes k states.now tick scratch.old }
    ensures { (decided result ≡ known (formula_at t.nodes k) states.now tick) × (scratch.new ≡ both_cleared scratch.old) }
{
    let nodes = t.nodes;
    let marks = needed::needed_for(nodes, k);
    run(t, marks, k + 1, states, scratch);
    let b = layout::place_of(k as u8);
    let yes = bit_at(scratch, b, tick);
    let no = bit_at(scratch, SCRATCH_WORDS + b, tick);
    scratch[..EARLY_SCRATCH_WORDS].fill(0);
    decision_of(yes, no)
}

// Whether a call on so many states is accepted, for a rule of a table that is sound or not and has `count` rules.
fn check_early(
    sound: bool,
    count: usize,
    rule: usize,
    states: usize,
    tick: usize,
    scratch: usize,
) -> Result<(), Refusal>
    ensures { number result ≡ first (early_rows sound count rule states tick scratch) }
{
    if !sound {
        return Err(Refusal::Unsound);
    }
    if count <= rule {
        return Err(Refusal::Absent);
    }
    if MAX_TRACE < states {
        return Err(Refusal::States);
    }
    if scratch < EARLY_SCRATCH_WORDS {
        return Err(Refusal::Buffer);
    }
    if states <= tick {
        return Err(Refusal::Tick);
    }
    Ok(())
}

// What is known at `tick`, of what a rule watches, when these states were seen.
pub fn decide(
    t: Table,
    rule: usize,
    states: &[u32],
    tick: usize,
    scratch: &mut [u64],
) -> Result<Decision, Refusal>
    ensures { Decides t rule states.now tick scratch.old result scratch.new }
{
    check_early(
        table::sound(t),
        t.rule_count,
        rule,
        states.len(),
        tick,
        scratch.len(),
    )?;
    let k = t.rules[rule].watched as usize;
    Ok(evaluate(t, k, states, tick, scratch))
}
