// Rules typed as text (document 02, A2): the grammar, the reading of a line byte by byte, and their laws in specs/ and proofs/.
#![tactic(auto)]

ghost use Rattle.std.specs.Prelude.{◌≡◌};
ghost use Rattle.grammar.specs.Machine.{item as item_of};

// A node without its operands: the numbers of its kind as they were typed.
#[derive(Clone, Copy)]
pub struct Item {
    pub kind: u8,
    pub arg: u32,
    pub lo: u32,
    pub hi: u32,
}

impl Item {
    pub fn new(kind: u8, arg: u32, lo: u32, hi: u32) -> Item
        ensures { result ≡ item_of kind arg lo hi }
    {
        Item { kind, arg, lo, hi }
    }
}

// A node with the place of its left operand among the nodes of its line; its right operand, or its only one, is the node before it.
#[derive(Clone, Copy)]
pub struct Made {
    pub it: Item,
    pub left: u32,
}
