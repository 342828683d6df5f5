// The records of a table's book, and their bytes.
ghost use Rattle.std.specs.Prelude.{◌≡◌, ◌+◌, ◌≤◌, ◌<◌, [], ◌++◌, length, take, drop};
ghost use Rattle.limits.specs.Limits.{max_nodes, record_bytes};
ghost use Rattle.lists.specs.Choice.{pick};
ghost use Rattle.table.specs.Sound.{Sound};
ghost use Rattle.book.specs.Writing.{bytes_of, plain_entry, node_entry, rule_entry, many, link_after, entry_for, book_of, book_length};

use crate::{Entry, entries};
use limits::RECORD_BYTES;
use table::{Node, Rule, Table};

// A record without an interval and a right operand; its name, 0 where it has none, in two bytes.
fn plain_entry(kind: u8, name: u16, left: u8, next: u8) -> Entry
    ensures { result ≡ plain_entry kind name left next }
{
    let [arg, upper] = name.to_le_bytes();
    Entry {
        kind,
        next,
        arg,
        left,
        upper,
        ..Entry::default()
    }
}

// The record of a node's place, or 0 where no operand is used.
fn operand(used: bool, place: u8) -> u8
    requires { place < max_nodes }
    ensures { result ≡ pick used (place + 1) 0 }
{
    if used { place + 1 } else { 0 }
}

fn node_entry(n: Node, next: u8) -> Entry
    requires { (n.left < max_nodes) × (n.right < max_nodes) }
    ensures { result ≡ node_entry n next }
{
    let used = entries::uses_in(n.kind);
    Entry {
        kind: n.kind,
        next,
        arg: n.arg,
        lo: n.lo,
        hi: n.hi,
        left: operand(used.left, n.left),
        right: operand(used.right, n.right),
        ..Entry::default()
    }
}

fn rule_entry(r: Rule, next: u8) -> Entry
    requires { r.watched < max_nodes }
    ensures { result ≡ rule_entry r next }
{
    plain_entry(11, r.name, r.watched + 1, next)
}

// The record after k, or 0 after the last.
fn link_after(t: Table, k: usize) -> u8
    requires { Sound t × (k ≤ many t) }
    ensures { result ≡ link_after t k }
{
    if k < t.node_count + t.rule_count {
        (k + 1) as u8
    } else {
        0
    }
}

// The record k: the head, a node or a rule, linked to the record after it.
fn entry_for(t: Table, k: usize) -> Entry
    requires { Sound t × (k ≤ many t) }
    ensures { result ≡ entry_for t k }
{
    let next = link_after(t, k);
    if k == 0 {
        return plain_entry(0, 0, 0, next);
    }
    if k <= t.node_count {
        return node_entry(t.nodes[k - 1], next);
    }
    rule_entry(t.rules[k - 1 - t.node_count], next)
}

fn bytes_of(e: Entry) -> [u8; RECORD_BYTES]
    ensures { result ≡ bytes_of e [] }
{
    let [lo_low, lo_high] = e.lo.to_le_bytes();
    let [hi_low, hi_high] = e.hi.to_le_bytes();
    [
        e.kind, e.arg, lo_low, lo_high, hi_low, hi_high, e.left, e.right, e.next, e.upper, e.tail0,
        e.tail1,
    ]
}

// The 12 bytes of a record, from place `at` on.
fn put_entry(out: &mut [u8], at: usize, e: Entry)
    requires { at + record_bytes ≤ length out.old }
    ensures { out.new ≡ take at out.old ++ bytes_of e (drop (at + record_bytes) out.old) }
{
    out[at..at + RECORD_BYTES].copy_from_slice(&bytes_of(e));
}

// The records one after the other, over the first places of an output that has room for them.
pub(crate) fn put_records(t: Table, out: &mut [u8])
    requires { Sound t × (book_length t ≤ length out.old) }
    ensures { out.new ≡ book_of t ++ drop (book_length t) out.old }
{
    let n = 1 + t.node_count + t.rule_count;
    // k is the number of the record.
    for k in 0..n {
        let e = entry_for(t, k);
        put_entry(out, RECORD_BYTES * k, e);
    }
}
