// The simplifier of tables: document 01's laws put to use until none fits.
#![tactic(auto)]

ghost use Rattle.std.specs.Prelude.{◌≡◌, ◌+◌, ◌≤◌, ◌<◌, length, get_or, take, ltb, if◌then◌else◌};
ghost use mathlib.Core.List.{map, foldl};
ghost use Rattle.limits.specs.Limits.{max_nodes, max_rules};
ghost use Rattle.table.specs.Sound.{Sound};
ghost use Rattle.simplify.specs.Code.Law.{node_within};
ghost use Rattle.simplify.specs.Code.Passes.{find, renamed, renamed_rule, no_build, pushed, nodes_of, places_of, enter, applied, step_of, Bounded, mark_rule, mark_watched, keep_by};
ghost use Rattle.simplify.specs.Promise.{Promised, simplified_told};

use limits::{MAX_NODES, MAX_RULES};
use refusals::Refusal;
use std::marker::Model;
use table::{Node, Rule, Table};

mod laws;

// What the laws make of a node: it stays, its value stands at a place, or another node has its value.
#[derive(Clone, Copy)]
enum Outcome {
    Stay,
    At(u8),
    Put(Node),
}

// What an old node comes to: its value stands at a place, or it is one more node.
#[derive(Clone, Copy)]
enum Entry {
    At(u8),
    New(Node),
}

// New nodes, and the new place of each old node so far: of the new nodes there are at most as many as of the places.
#[derive(Drop)]
struct Build {
    nodes: [Node; MAX_NODES],
    count: usize,
    places: [u8; MAX_NODES],
    done: usize,
}

impl Model for Build {
    ghost use Rattle.std.specs.Prelude.{◌≤◌};
    ghost use Rattle.limits.specs.Limits.{max_nodes};
    ghost use Rattle.simplify.specs.Code.Built.{Built};

    ghost Value = { Built };

    ghost view = { λ b. record { nodes = b.nodes; count = b.count; places = b.places; done = b.done } };

    ghost invariant = { λ b. (b.count ≤ b.done) × (b.done ≤ max_nodes) };
}

impl Build {
    fn new() -> Build
        ensures { result ≡ no_build }
    {
        Build {
            nodes: [Node::FREE; MAX_NODES],
            count: 0,
            places: [0u8; MAX_NODES],
            done: 0,
        }
    }

    // The new nodes so far.
    fn new_nodes(&self) -> &[Node]
        ensures nodes { result.now ≡ nodes_of self.now }
        ensures count { length result.now ≡ self.now.count }
        ensures few { length result.now ≤ max_nodes }
    {
        &self.nodes[..self.count]
    }

    // The new place of an old one, and 0 for any other.
    fn place_of(&self, at: u8) -> u8
        ensures { result ≡ get_or (places_of self.now) at 0 }
    {
        self.places[..self.done]
            .get(at as usize)
            .copied()
            .unwrap_or(0)
    }

    // A node over the new places of its operands.
    fn renamed(&self, n: Node) -> Node
        ensures { result ≡ renamed (places_of self.now) n }
    {
        Node {
            left: self.place_of(n.left),
            right: self.place_of(n.right),
            ..n
        }
    }

    fn renamed_rule(&self, r: Rule) -> Rule
        ensures { result ≡ renamed_rule (places_of self.now) r }
    {
        Rule {
            watched: self.place_of(r.watched),
            ..r
        }
    }

    fn renamed_rules(&self, rules: [Rule; MAX_RULES]) -> [Rule; MAX_RULES]
        ensures { result ≡ map (renamed_rule (places_of self.now)) rules }
    {
        rules.map(|r| self.renamed_rule(r))
    }

    // The place of an equal node, or n as a new one.
    fn found(&self, n: Node) -> Entry
        ensures { pushed self.now result ≡ enter self.now n }
    {
        match find(self.new_nodes(), n) {
            Some(at) => Entry::At(at as u8),
            None => Entry::New(n),
        }
    }

    // What the node n comes to, by what the laws make of it.
    fn applied(&self, n: Node, v: Outcome) -> Entry
        ensures { pushed self.now result ≡ applied self.now n v }
    {
        match v {
            Outcome::Stay => self.found(n),
            Outcome::At(p) => Entry::At(p),
            Outcome::Put(m) => self.found(m),
        }
    }

    // What an old node comes to under the laws.
    fn step(&self, n: Node) -> Entry
        requires { Bounded self.now n }
        ensures { pushed self.now result ≡ step_of self.now n }
    {
        let m = self.renamed(n);
        let v = laws::law(
            m,
            node_at(&self.nodes, m.left),
            node_at(&self.nodes, m.right),
        );
        self.applied(m, v)
    }

    // A marked node stays, under the new places.
    fn keep(&self, marks: u64, n: Node) -> Entry
        ensures { pushed self.now result ≡ keep_by marks self.now n }
    {
        if needed::is_marked(marks, self.done) {
            return Entry::New(self.renamed(n));
        }
        Entry::At(self.count as u8)
    }

    // One place more, and its node where it is new.
    fn push(&mut self, e: Entry)
        requires { self.old.done < max_nodes }
        ensures { self.new ≡ pushed self.old e }
    {
        match e {
            Entry::At(p) => self.places[self.done] = p,
            Entry::New(n) => {
                self.places[self.done] = self.count as u8;
                self.nodes[self.count] = n;
                self.count += 1;
            }
        }
        self.done += 1;
    }
}

// The place of the first node that equals `n`.
fn find(nodes: &[Node], n: Node) -> Option<usize>
    ensures { result ≡ (if ltb (find nodes.now n) (length nodes.now) then Some (find nodes.now n) else None) }
{
    nodes.iter().position(|x| *x == n)
}

fn node_at(nodes: &[Node], at: u8) -> Node
    ensures { result ≡ node_within nodes.now at }
{
    nodes.get(at as usize).copied().unwrap_or(Node::FREE)
}

fn rebuild(t: Table) -> Build
    requires { Sound t }
    ensures { result ≡ foldl step_of no_build (take t.node_count t.nodes) }
{
    let mut b = Build::new();
    for n in &t.nodes[..t.node_count] {
        let e = b.step(*n);
        b.push(e);
    }
    b
}

fn mark_rule(marks: u64, r: Rule) -> u64
    ensures { result ≡ mark_rule marks r }
{
    needed::mark(marks, r.watched as usize)
}

// The marks of the nodes that the rules watch.
fn mark_watched(rules: &[Rule]) -> u64
    ensures { result ≡ mark_watched rules.now }
{
    rules.iter().fold(0, |m, r| mark_rule(m, *r))
}

// The marked nodes, in order.
fn sweep(marks: u64, nodes: &[Node]) -> Build
    requires { length nodes.now ≤ max_nodes }
    ensures { result ≡ foldl (keep_by marks) no_build nodes.now }
{
    let mut b = Build::new();
    for n in nodes {
        let e = b.keep(marks, *n);
        b.push(e);
    }
    b
}

// Two passes: the nodes anew, each under the laws and looked up among the new ones; then the nodes that a rule needs.
// Each pass takes a node once, and one look-up compares it with at most all new nodes, so the cost is at most
// quadratic in the nodes.
pub fn simplify(t: Table) -> Result<Table, Refusal>
    ensures { Promised t (simplified_told t result) }
{
    if !table::sound(t) {
        return Err(Refusal::Unsound);
    }
    let first = rebuild(t);
    let rules = first.renamed_rules(t.rules);
    let marks = needed::needed(
        first.nodes,
        first.count,
        mark_watched(&rules[..t.rule_count]),
    );
    let second = sweep(marks, first.new_nodes());
    let table = Table {
        nodes: second.nodes,
        node_count: second.count,
        rules: second.renamed_rules(rules),
        rule_count: t.rule_count,
    };
    Ok(table)
}
