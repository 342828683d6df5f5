// Where the registers of a table's nodes lie in a scratch: node i's begins at REGISTER_WORDS * i. For U and R two more follow those of 64 nodes. Also
// how many bits of a constant's column are set.
#![tactic(auto)]

ghost use Rattle.std.specs.Prelude.{◌≡◌, ◌*◌, eqb};
ghost use Rattle.limits.specs.Limits.{register_words};
ghost use Rattle.lists.specs.Bits.{words};
ghost use Rattle.lists.specs.Choice.{pick};
ghost use Rattle.layout.specs.Layout.{places};

use limits::{MAX_NODES, REGISTER_WORDS};
use operators::Places;
use table::{Node, Operator};

// One for a copy of the left operand, and one to work in.
pub const LEFT: usize = MAX_NODES * REGISTER_WORDS;

pub const WORK: usize = LEFT + REGISTER_WORDS;

// How many words n bits take.
pub fn words_of(n: usize) -> usize
    ensures { result ≡ words n }
{
    n.div_ceil(64)
}

// Where the register of node i begins.
pub fn place_of(i: u8) -> usize
    ensures { result ≡ register_words * i }
{
    REGISTER_WORDS * i as usize
}

// The registers of node x at place i and of its operands, for columns of n bits.
pub fn places(x: Node, i: u8, n: usize) -> Places
    ensures { result ≡ places x i n }
{
    Places {
        left: place_of(x.left),
        right: place_of(x.right),
        result: place_of(i),
        copy: LEFT,
        work: WORK,
        words: words_of(n),
    }
}

// How many bits of a constant's column are set: n for true.
pub fn bits_of(kind: u8, n: usize) -> usize
    ensures { result ≡ pick (eqb kind 2) n 0 }
{
    match Operator::try_from(kind) {
        Ok(Operator::True) => n,
        _ => 0,
    }
}
