// Tables and sessions as bytes, for callers in other languages: a table is 546 bytes, a session 558.
#![tactic(auto)]

ghost use Rattle.std.specs.Prelude.{◌≡◌, ◌+◌, ◌*◌, ◌≤◌, ◌<◌, ◌++◌, length, take, drop};
ghost use Rattle.limits.specs.Limits.{max_nodes, max_rules, session_bytes};
ghost use Rattle.lists.specs.Sequence.{ticks, pair_at};
ghost use Rattle.flat.specs.Flat.{node_byte, rule_byte, table_byte, bytes_holding, written, node_from, rule_from, unpadded, table_from};
ghost use Rattle.flat.specs.Sessions.{four_at, put_four, eight_at, put_eight, session_from, session_written, renewed, narrow_from};

use limits::{MAX_NODES, MAX_RULES, NARROW_BYTES, SESSION_BYTES, TABLE_BYTES};
use narrow::NarrowSession;
use session::Session;
use std::array;
use table::{Node, Rule, Table};

// Where a session's rule number stands, and its count of states.
const RULE: usize = TABLE_BYTES;

const SEEN: usize = RULE + 4;

// N bytes from place `at` on.
fn bytes_at<const N: usize>(b: &[u8], at: usize) -> [u8; N]
    requires { at + N ≤ length b.now }
    ensures { result ≡ take N (drop at b.now) }
{
    let mut bytes = [0; N];
    bytes.copy_from_slice(&b[at..at + N]);
    bytes
}

// A number of two bytes from place `at` on.
fn pair_at(b: &[u8], at: usize) -> u16
    requires { at + 2 ≤ length b.now }
    ensures { result ≡ pair_at b.now at }
{
    u16::from_le_bytes(bytes_at(b, at))
}

// Node i.
fn node_from(b: &[u8; TABLE_BYTES], i: usize) -> Node
    requires { i < max_nodes }
    ensures { result ≡ node_from b.now i }
{
    let at = 2 + 8 * i;
    Node {
        kind: b[at],
        arg: b[at + 1],
        lo: pair_at(b, at + 2),
        hi: pair_at(b, at + 4),
        left: b[at + 6],
        right: b[at + 7],
    }
}

// Rule i.
fn rule_from(b: &[u8; TABLE_BYTES], i: usize) -> Rule
    requires { i < max_rules }
    ensures { result ≡ rule_from b.now i }
{
    let at = 514 + 4 * i;
    Rule {
        name: pair_at(b, at),
        watched: b[at + 2],
    }
}

// All nodes.
fn nodes_from(b: &[u8; TABLE_BYTES]) -> [Node; MAX_NODES]
    ensures { result ≡ ticks (node_from b.now) max_nodes }
{
    array::from_fn(|i| node_from(b, i))
}

// All rules.
fn rules_from(b: &[u8; TABLE_BYTES]) -> [Rule; MAX_RULES]
    ensures { result ≡ ticks (rule_from b.now) max_rules }
{
    array::from_fn(|i| rule_from(b, i))
}

// The bytes behind the rules are zero.
fn is_unpadded(b: &[u8; TABLE_BYTES]) -> bool
    ensures { result ≡ unpadded b.now }
{
    (0..MAX_RULES).all(|i| b[517 + 4 * i] == 0)
}

// The table that the bytes hold, and 'no table' where they are no table's.
pub fn read_table(b: &[u8]) -> Table
    ensures { result ≡ table_from b.now }
{
    let Some(b) = b.first_chunk() else {
        return table::no_table();
    };
    if !is_unpadded(b) {
        return table::no_table();
    }
    Table {
        nodes: nodes_from(b),
        node_count: b[0] as usize,
        rules: rules_from(b),
        rule_count: b[1] as usize,
    }
}

// The bytes of a node.
fn node_bytes(n: Node) -> [u8; 8]
    ensures { result ≡ ticks (node_byte n) 8 }
{
    let [lo_low, lo_high] = n.lo.to_le_bytes();
    let [hi_low, hi_high] = n.hi.to_le_bytes();
    [
        n.kind, n.arg, lo_low, lo_high, hi_low, hi_high, n.left, n.right,
    ]
}

// The bytes of a rule, and one that is zero.
fn rule_bytes(r: Rule) -> [u8; 4]
    ensures { result ≡ ticks (rule_byte r) 4 }
{
    let [low, high] = r.name.to_le_bytes();
    [low, high, r.watched, 0]
}

// The nodes, behind the counts.
fn put_nodes(t: Table, out: &mut [u8; TABLE_BYTES])
    requires { take 2 out.old ≡ ticks (table_byte t) 2 }
    ensures { out.new ≡ ticks (table_byte t) 514 ++ drop 514 out.old }
{
    for i in 0..MAX_NODES {
        let at = 2 + 8 * i;
        out[at..at + 8].copy_from_slice(&node_bytes(t.nodes[i]));
    }
}

// The rules, behind the counts and the nodes.
fn put_rules(t: Table, out: &mut [u8; TABLE_BYTES])
    requires { take 514 out.old ≡ ticks (table_byte t) 514 }
    ensures { out.new ≡ bytes_holding t }
{
    for i in 0..MAX_RULES {
        let at = 514 + 4 * i;
        out[at..at + 4].copy_from_slice(&rule_bytes(t.rules[i]));
    }
}

// The table's bytes, into the first places of a buffer that has room for them.
pub fn write_table(t: Table, out: &mut [u8])
    ensures { out.new ≡ written t out.old }
{
    let Some(out) = out.first_chunk_mut() else {
        return;
    };
    out[0] = (t.node_count % 256) as u8;
    out[1] = (t.rule_count % 256) as u8;
    put_nodes(t, out);
    put_rules(t, out);
}

// ---- sessions

// A number of four bytes from place `at` on.
fn four_at(b: &[u8], at: usize) -> u32
    requires { at + 4 ≤ length b.now }
    ensures { result ≡ four_at b.now at }
{
    u32::from_le_bytes(bytes_at(b, at))
}

// A number of eight bytes from place `at` on.
fn eight_at(b: &[u8], at: usize) -> u64
    requires { at + 8 ≤ length b.now }
    ensures { result ≡ eight_at b.now at }
{
    u64::from_le_bytes(bytes_at(b, at))
}

// Four bytes, from place `at` on.
fn put_four(b: &mut [u8; SESSION_BYTES], at: usize, x: u32)
    requires { at + 4 ≤ session_bytes }
    ensures { b.new ≡ put_four b.old at x }
{
    b[at..at + 4].copy_from_slice(&x.to_le_bytes());
}

// Eight bytes, from place `at` on.
fn put_eight(b: &mut [u8; SESSION_BYTES], at: usize, x: u64)
    requires { at + 8 ≤ session_bytes }
    ensures { b.new ≡ put_eight b.old at x }
{
    b[at..at + 8].copy_from_slice(&x.to_le_bytes());
}

// The session that the bytes hold.
pub fn read_session(b: &[u8; SESSION_BYTES]) -> Session
    ensures { result ≡ session_from b.now }
{
    let rule = four_at(b, RULE) as usize;
    let seen = eight_at(b, SEEN);
    Session::with(read_table(b), rule, seen)
}

// The session's bytes.
pub fn write_session(s: Session, b: &mut [u8; SESSION_BYTES])
    ensures { b.new ≡ session_written s b.old }
{
    write_table(s.table, b);
    put_four(b, RULE, (s.rule % 4294967296) as u32);
    put_eight(b, SEEN, s.seen);
}

// The bytes of a session that has seen so many states; all others stay.
pub fn write_seen(seen: u64, b: &mut [u8; SESSION_BYTES])
    ensures { b.new ≡ renewed seen b.old }
{
    put_eight(b, SEEN, seen);
}

// The narrow session that the bytes hold; over 'no table' where their count of states is above 32 bits.
pub fn read_narrow(b: &[u8; NARROW_BYTES]) -> NarrowSession
    ensures { result ≡ narrow_from b.now }
{
    let rule = four_at(b, RULE) as usize;
    let seen = four_at(b, SEEN);
    if four_at(b, SEEN + 4) != 0 {
        return NarrowSession {
            table: table::no_table(),
            rule,
            seen,
        };
    }
    NarrowSession {
        table: read_table(b),
        rule,
        seen,
    }
}
