// The records of a book, and the tests of one record by itself.
ghost use Rattle.std.specs.Prelude.{◌≡◌, ◌+◌, ◌*◌, ◌-◌, ◌≤◌, ◌<◌, true, false, length};
ghost use Rattle.limits.specs.Limits.{record_bytes};
ghost use Rattle.lists.specs.Sequence.{pair_at};
ghost use Rattle.book.specs.Entries.{entry_from, entry_of, uses_in, is_node, name_of, formed_by, bad_form, bad_length, bad_head};

use crate::Entry;
use limits::{BOOK_BYTES, RECORD_BYTES};
use table::Uses;

fn pair_at(s: &[u8], at: usize) -> u16
    requires { at + 2 ≤ length s.now }
    ensures { result ≡ pair_at s.now at }
{
    u16::from_le_bytes([s[at], s[at + 1]])
}

fn entry_from(s: &[u8], at: usize) -> Entry
    requires { at + record_bytes ≤ length s.now }
    ensures { result ≡ entry_from s.now at }
{
    Entry {
        kind: s[at],
        arg: s[at + 1],
        lo: pair_at(s, at + 2),
        hi: pair_at(s, at + 4),
        left: s[at + 6],
        right: s[at + 7],
        next: s[at + 8],
        upper: s[at + 9],
        tail0: s[at + 10],
        tail1: s[at + 11],
    }
}

pub(crate) fn entry_of(s: &[u8], r: u8) -> Entry
    requires { record_bytes * r + record_bytes ≤ length s.now }
    ensures { result ≡ entry_of s.now r }
{
    entry_from(s, RECORD_BYTES * (r as usize))
}

// The fields that a kind uses.
#[tactic(auto, unfolding(crate::specs::Entries::uses_in))]
pub(crate) fn uses_in(kind: u8) -> Uses
    ensures { result ≡ uses_in kind }
{
    if kind == 11 {
        return Uses {
            arg: true,
            interval: false,
            left: true,
            right: false,
        };
    }
    table::uses_of(kind)
}

pub(crate) fn is_node(k: u8) -> bool
    ensures { result ≡ is_node k }
{
    (1..=10).contains(&k)
}

fn formed_by(used: Uses, upper: bool, e: Entry) -> bool
    ensures { result ≡ formed_by used upper e }
{
    (1 <= e.kind)
        & (e.kind <= 11)
        & (used.arg | (e.arg == 0))
        & (used.interval | ((e.lo == 0) & (e.hi == 0)))
        & (used.left | (e.left == 0))
        & (used.right | (e.right == 0))
        & (upper | (e.upper == 0))
        & (e.tail0 == 0)
        & (e.tail1 == 0)
}

pub(crate) fn bad_form(e: Entry) -> bool
    ensures { result ≡ bad_form e }
{
    !formed_by(uses_in(e.kind), e.kind == 11, e)
}

// The name of a rule's record.
pub(crate) fn name_of(e: Entry) -> u16
    ensures { result ≡ name_of e }
{
    u16::from_le_bytes([e.arg, e.upper])
}

pub(crate) fn bad_length(n: usize) -> bool
    ensures { result ≡ bad_length n }
{
    n % RECORD_BYTES != 0 || !(RECORD_BYTES..=BOOK_BYTES).contains(&n)
}

pub(crate) fn bad_head(e: Entry) -> bool
    ensures { result ≡ bad_head e }
{
    e != Entry {
        next: e.next,
        ..Entry::default()
    }
}
