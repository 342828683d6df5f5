// The tape that a line's nodes are put on, five words each, of which the first 65 are kept; and the prefixes of a unary, before they are put there.
ghost use Rattle.std.specs.Prelude.{◌≡◌, ◌-◌};
ghost use Rattle.grammar.specs.Machine.{orred, puts};
ghost use Rattle.grammar.specs.Tape.{tape, tapes, emitted};
ghost use Rattle.table.specs.Operators.{kind_of};
ghost use Rattle.parser.specs.Code.{prefix_item, held_in, last_prefixes, left_of};

use crate::TAPE_WORDS;
use grammar::Item;
use limits::MAX_NODES;
use table::Operator;

// One more than a table holds: the 65th node is refused, whatever stands behind it.
pub(crate) const KEPT_NODES: usize = MAX_NODES + 1;

// The node made last.
pub(crate) fn last_node(count: u32) -> u32
    ensures { result ≡ count - 1 }
{
    count.saturating_sub(1)
}

// One more node with its left operand, where there is room.
pub(crate) fn emit(cells: &mut [u32; TAPE_WORDS], count: u32, it: Item, left: u32) -> u32
    ensures { tape cells.new result ≡ emitted (tape cells.old count) it left }
{
    if (count as usize) < KEPT_NODES {
        let i = 5 * (count as usize);
        cells[i] = u32::from(it.kind);
        cells[i + 1] = it.arg;
        cells[i + 2] = it.lo;
        cells[i + 3] = it.hi;
        cells[i + 4] = left;
        return count + 1;
    }
    count
}

// An atom or a prefix.
pub(crate) fn put(cells: &mut [u32; TAPE_WORDS], count: u32, it: Item) -> u32
    ensures { tape cells.new result ≡ emitted (tape cells.old count) it (count - 1) }
{
    emit(cells, count, it, last_node(count))
}

// The or of a disjunction with its left operand, if there is one.
pub(crate) fn or_if(cells: &mut [u32; TAPE_WORDS], count: u32, left: Option<u32>) -> u32
    ensures { tape cells.new result ≡ orred tapes (left_of left) (tape cells.old count) }
{
    match left {
        Some(left) => emit(cells, count, Item::new(Operator::Or.kind(), 0, 0, 0), left),
        None => count,
    }
}

// ---- the prefixes of a unary: the last 65, in a ring

// A prefix: its operator's kind, and the bounds of F or G. It has no room for the field of an item that no prefix uses, since for each open bracket
// a ring may lie on the stack, and no gap, so that a ring is cleared at once.
#[derive(Clone, Copy)]
pub(crate) struct Prefix {
    pub kind: u32,
    pub lo: u32,
    pub hi: u32,
}

impl Prefix {
    pub(crate) fn new(o: Operator, lo: u32, hi: u32) -> Prefix
        ensures { result ≡ record { kind = kind_of o; lo = lo; hi = hi } }
    {
        Prefix {
            kind: u32::from(o.kind()),
            lo,
            hi,
        }
    }

    // The item that it is.
    fn item(self) -> Item
        ensures { result ≡ prefix_item self }
    {
        Item::new((self.kind % 256) as u8, 0, self.lo, self.hi)
    }
}

// What a ring holds where no prefix was held yet.
pub(crate) const NO_PREFIX: Prefix = Prefix {
    kind: 0,
    lo: 0,
    hi: 0,
};

// One prefix more, the nth from 0.
pub(crate) fn hold(ring: &mut [Prefix; KEPT_NODES], n: usize, p: Prefix)
    ensures { ring.new ≡ held_in ring.old n p }
{
    ring[n % KEPT_NODES] = p;
}

// The last 65 of n prefixes, put on the tape, the last one first.
pub(crate) fn apply(
    ring: &[Prefix; KEPT_NODES],
    cells: &mut [u32; TAPE_WORDS],
    n: usize,
    count: u32,
) -> u32
    ensures { tape cells.new result ≡ puts tapes (tape cells.old count) (last_prefixes ring.now n) }
{
    let mut c = count;
    for k in (n.saturating_sub(KEPT_NODES)..n).rev() {
        c = put(cells, c, ring[k % KEPT_NODES].item());
    }
    c
}
