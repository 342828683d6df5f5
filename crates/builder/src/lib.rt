// Builds tables: adds one node or one rule, or refuses it by document 01's rows 5 to 10.
#![tactic(auto)]

ghost use Rattle.std.specs.Prelude.{◌≡◌};
ghost use Rattle.refusals.specs.Refusals.{number};
ghost use Rattle.lists.specs.Choice.{first};
ghost use Rattle.builder.specs.Adding.{bad_signal, operand_past, node_rows_by, bad_name, rule_rows_by, added_told, adding_node, adding_rule};

use limits::{MAX_DELAY, MAX_NAME, MAX_NODES, MAX_RULES, MAX_SIGNAL};
use refusals::Refusal;
use table::{Node, Operator, Rule, Table};

fn bad_signal(n: Node) -> bool
    ensures { result ≡ bad_signal n }
{
    (n.kind == Operator::Signal as u8) & (MAX_SIGNAL < n.arg)
}

fn operand_past(count: usize, n: Node) -> bool
    ensures { result ≡ operand_past count n }
{
    let u = table::uses_of(n.kind);
    (u.left & (count <= n.left as usize)) | (u.right & (count <= n.right as usize))
}

// Whether a node is accepted behind `count` nodes, with the delay d; or the first row that fits it.
pub fn check_node(count: usize, d: u16, n: Node) -> Result<(), Refusal>
    ensures { number result ≡ first (node_rows_by count d n) }
{
    if bad_signal(n) {
        return Err(Refusal::Argument);
    }
    if interval::bad_interval(n.lo, n.hi) {
        return Err(Refusal::Interval);
    }
    if operand_past(count, n) {
        return Err(Refusal::Operand);
    }
    if MAX_NODES <= count {
        return Err(Refusal::Full);
    }
    if MAX_DELAY < d {
        return Err(Refusal::Long);
    }
    Ok(())
}

// The table with a node, whose operands are places of earlier nodes, behind its nodes.
pub fn add_node(t: Table, n: Node) -> Result<Table, Refusal>
    ensures { added_told t result ≡ adding_node t n }
{
    let at = t.node_count;
    check_node(at, table::delay_over(t, n), n)?;
    let mut table = t;
    table.nodes[at] = n;
    table.node_count = at + 1;
    Ok(table)
}

fn bad_name(r: Rule) -> bool
    ensures { result ≡ bad_name r }
{
    (r.name == 0) | (MAX_NAME < r.name)
}

// Whether a rule of a table with `nodes` nodes is accepted behind `count` of these rules; or the first row that fits it.
pub fn check_rule(
    nodes: usize,
    rules: [Rule; MAX_RULES],
    count: usize,
    r: Rule,
) -> Result<(), Refusal>
    ensures { number result ≡ first (rule_rows_by nodes rules count r) }
{
    if bad_name(r) {
        return Err(Refusal::Argument);
    }
    if nodes <= r.watched as usize {
        return Err(Refusal::Operand);
    }
    if MAX_RULES <= count {
        return Err(Refusal::Full);
    }
    if !table::is_new(rules, count, r.name) {
        return Err(Refusal::Name);
    }
    Ok(())
}

// The table with a rule, which watches the place of a node, behind its rules.
pub fn add_rule(t: Table, r: Rule) -> Result<Table, Refusal>
    ensures { added_told t result ≡ adding_rule t r }
{
    let at = t.rule_count;
    check_rule(t.node_count, t.rules, at, r)?;
    let mut table = t;
    table.rules[at] = r;
    table.rule_count = at + 1;
    Ok(table)
}
