// Reads a book, document 01's term for a list of rules in records of 12 bytes, into a table; and writes the book of a table.
#![tactic(auto)]

ghost use Rattle.std.specs.Prelude.{◌≡◌, ◌+◌, ◌*◌, ◌-◌, ◌<◌, true, length, get_or};
ghost use Rattle.refusals.specs.Refusals.{number};
ghost use Rattle.lists.specs.Choice.{first};
ghost use Rattle.book.specs.Reading.{head_fault, reading_told, reading};
ghost use Rattle.book.specs.Writing.{writing_told, writing, written_into};
ghost use Rattle.book.specs.Code.Steps.{entered, place_by, node_by, rule_by, bad_link, record_rows, walk_told, node_step, rule_step, stepped, begun, walk_ended};

use limits::RECORD_BYTES;
use refusals::Refusal;
use table::{Node, Rule, Table};

mod entries;
mod writer;

// What a record of the book holds: its kind and the record that it links to, then the fields that its kind may use, where an operand
// is the number of a record and `upper` the upper half of a rule's name, and a tail that is to be zero.
#[derive(Clone, Copy, PartialEq, Eq, Default)]
struct Entry {
    kind: u8,
    next: u8,
    arg: u8,
    lo: u16,
    hi: u16,
    left: u8,
    right: u8,
    upper: u8,
    tail0: u8,
    tail1: u8,
}

// Where the walk along the chain stands: the table so far, and of each record 0 if it is not passed, 1 if it is
// passed and no node, and 2 + p if it is the node at place p.
#[derive(Clone, Copy)]
struct Walk {
    table: Table,
    seen: [u8; 256],
}

// Why a book is refused, and the record that it is about.
#[derive(Clone, Copy, Debug, PartialEq, Eq)]
pub struct Fault {
    pub refusal: Refusal,
    pub record: u8,
}

fn seen_at(w: Walk, r: u8) -> u8
    ensures { result ≡ get_or w.seen r 0 }
{
    w.seen[r as usize]
}

fn bad_link(n: usize, w: Walk, e: Entry) -> bool
    ensures { result ≡ bad_link n w e }
{
    e.next != 0 && (n <= RECORD_BYTES * e.next as usize || 0 < seen_at(w, e.next))
}

// The place of the node that a record is; of any other record 255, which is no place, or 0 where no place is asked for.
fn place_of(w: Walk, used: bool, r: u8) -> u8
    ensures { result ≡ place_by w used r }
{
    let s = seen_at(w, r);
    if s >= 2 {
        s - 2
    } else if used {
        255
    } else {
        0
    }
}

fn node_by(w: Walk, e: Entry) -> Node
    ensures { result ≡ node_by w e }
{
    let used = table::uses_of(e.kind);
    Node {
        kind: e.kind,
        arg: e.arg,
        lo: e.lo,
        hi: e.hi,
        left: place_of(w, used.left, e.left),
        right: place_of(w, used.right, e.right),
    }
}

fn rule_by(w: Walk, e: Entry) -> Rule
    ensures { result ≡ rule_by w e }
{
    Rule {
        name: entries::name_of(e),
        watched: place_of(w, true, e.left),
    }
}

// The rows that are about the record itself: its link and its form.
fn check_record(n: usize, w: Walk, e: Entry) -> Result<(), Refusal>
    ensures { number result ≡ first (record_rows n w e) }
{
    if bad_link(n, w, e) {
        return Err(Refusal::Link);
    }
    if entries::bad_form(e) {
        return Err(Refusal::Form);
    }
    Ok(())
}

fn enter(w: Walk, r: u8) -> Walk
    ensures { result ≡ entered w r }
{
    let mut v = w;
    v.seen[r as usize] = 1;
    v
}

fn add_node(w: Walk, r: u8, e: Entry) -> Result<Walk, Refusal>
    ensures { walk_told result ≡ node_step w r e }
{
    let at = w.table.node_count;
    let table = builder::add_node(w.table, node_by(w, e))?;
    let mut v = w;
    v.table = table;
    v.seen[r as usize] = (2 + at) as u8;
    Ok(v)
}

fn add_rule(w: Walk, e: Entry) -> Result<Walk, Refusal>
    ensures { walk_told result ≡ rule_step w e }
{
    let table = builder::add_rule(w.table, rule_by(w, e))?;
    let mut v = w;
    v.table = table;
    Ok(v)
}

// The walk with a record added, or the first row of document 01's table that fits the record.
fn try_record(n: usize, w: Walk, r: u8, e: Entry) -> Result<Walk, Refusal>
    ensures { walk_told result ≡ stepped n w r e }
{
    check_record(n, w, e)?;
    if entries::is_node(e.kind) {
        add_node(w, r, e)
    } else {
        add_rule(w, e)
    }
}

fn begin() -> Walk
    ensures { result ≡ begun }
{
    let mut seen = [0u8; 256];
    seen[0] = 1;
    Walk {
        table: table::no_table(),
        seen,
    }
}

// The table of a chain that has ended.
fn end(w: Walk) -> Result<Table, Fault>
    ensures { reading_told result ≡ walk_ended w }
{
    if w.table.rule_count == 0 {
        return Err(Fault {
            refusal: Refusal::Ruleless,
            record: 0,
        });
    }
    Ok(w.table)
}

// The rows that are about the whole book and its head.
fn check_head(s: &[u8]) -> Result<(), Refusal>
    ensures { number result ≡ head_fault s.now }
{
    if entries::bad_length(s.len()) {
        return Err(Refusal::Length);
    }
    let e = entries::entry_of(s, 0);
    if entries::bad_head(e) {
        return Err(Refusal::Head);
    }
    if bad_link(s.len(), begin(), e) {
        return Err(Refusal::Link);
    }
    Ok(())
}

// The table of a book that is accepted.
pub fn read(book: &[u8]) -> Result<Table, Fault>
    ensures { reading_told result ≡ reading book.now }
{
    if let Err(refusal) = check_head(book) {
        return Err(Fault { refusal, record: 0 });
    }
    let head = entries::entry_of(book, 0);
    let mut w = begin();
    let mut at = head.next;
    // Each record links to the next one.
    while at != 0 {
        let v = enter(w, at);
        let e = entries::entry_of(book, at);
        w = match try_record(book.len(), v, at, e) {
            Ok(next) => next,
            Err(refusal) => {
                return Err(Fault {
                    refusal,
                    record: at,
                });
            }
        };
        at = e.next;
    }
    end(w)
}

// ---- the book of a table

// Writes the book of a sound table over the first places of an output that is long enough: how many bytes it has. Where it is refused, nothing
// is written.
pub fn write(t: Table, out: &mut [u8]) -> Result<usize, Refusal>
    ensures { (writing_told result ≡ writing t (length out.old)) × (out.new ≡ written_into t out.old) }
{
    if !table::sound(t) {
        return Err(Refusal::Unsound);
    }
    let behind = t.node_count + t.rule_count;
    let length = RECORD_BYTES * (1 + behind);
    if out.len() < length {
        return Err(Refusal::Output);
    }
    writer::put_records(t, out);
    Ok(length)
}
