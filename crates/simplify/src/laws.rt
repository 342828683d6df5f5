// What the laws make of one node over its operands.
ghost use Rattle.std.specs.Prelude.{◌≡◌, ◌+◌, ◌<◌};
ghost use Rattle.table.specs.Nodes.{op_of};
ghost use Rattle.table.specs.Operators.{kind_of};
ghost use Rattle.simplify.specs.Code.Law.{is, constant, over_one, is_inside, left_stays, law_not, law_one_by, law_two, law_join, law_as};

use crate::Outcome;
use table::{Node, Operator};

// A node with no field but its kind.
pub(crate) fn constant(o: Operator) -> Node
    ensures { result ≡ constant (kind_of o) }
{
    Node {
        kind: o.kind(),
        ..Node::FREE
    }
}

fn is(o: Operator, n: Node) -> bool
    ensures { result ≡ is (kind_of o) n }
{
    n.kind == o.kind()
}

fn law_not(l: Node) -> Outcome
    ensures { result ≡ law_not l }
{
    match Operator::try_from(l.kind) {
        Ok(Operator::Not) => Outcome::At(l.left),
        Ok(Operator::True) => Outcome::Put(constant(Operator::False)),
        Ok(Operator::False) => Outcome::Put(constant(Operator::True)),
        _ => Outcome::Stay,
    }
}

// F, and G: `fixed` is the constant that it leaves as it is, `both` the node that stands for n over an l of its kind.
fn law_one(fixed: Operator, n: Node, l: Node, both: Node) -> Outcome
    ensures { result ≡ law_one_by (kind_of fixed) n l both }
{
    if (n.hi == 0) | is(fixed, l) {
        return Outcome::At(n.left);
    }
    if l.kind == n.kind {
        return Outcome::Put(both);
    }
    Outcome::Stay
}

// U, and R: `fixed` is the constant on the right that it leaves as it is.
fn law_two(fixed: Operator, n: Node, r: Node) -> Outcome
    ensures { result ≡ law_two (kind_of fixed) n r }
{
    if (n.hi == 0) | is(fixed, r) {
        return Outcome::At(n.right);
    }
    Outcome::Stay
}

fn over_one(o: Operator, l: Node, r: Node) -> bool
    ensures { result ≡ over_one (kind_of o) l r }
{
    is(o, l) & is(o, r) & (l.left == r.left)
}

fn is_inside(l: Node, r: Node) -> bool
    ensures { result ≡ is_inside l r }
{
    (r.lo <= l.lo) & (l.hi <= r.hi)
}

// What and, and or, do with their operands: the constants that they drop and that they become, the operators of which the inner and the outer
// interval stays.
#[derive(Clone, Copy)]
struct Join {
    neutral: Operator,
    absorbing: Operator,
    inner: Operator,
    outer: Operator,
}

const AND: Join = Join {
    neutral: Operator::True,
    absorbing: Operator::False,
    inner: Operator::Finally,
    outer: Operator::Globally,
};

const OR: Join = Join {
    neutral: Operator::False,
    absorbing: Operator::True,
    inner: Operator::Globally,
    outer: Operator::Finally,
};

impl Join {
    // The left operand l has the value of both.
    fn left_stays(self, l: Node, r: Node) -> bool
        ensures { result ≡ left_stays (kind_of self.neutral) (kind_of self.absorbing) (kind_of self.inner) (kind_of self.outer) l r }
    {
        is(self.neutral, r)
            | is(self.absorbing, l)
            | (over_one(self.inner, l, r) & is_inside(l, r))
            | (over_one(self.outer, l, r) & is_inside(r, l))
    }

    fn law(self, n: Node, l: Node, r: Node) -> Outcome
        ensures { result ≡ law_join (kind_of self.neutral) (kind_of self.absorbing) (kind_of self.inner) (kind_of self.outer) n l r }
    {
        if (n.left == n.right) | self.left_stays(l, r) {
            return Outcome::At(n.left);
        }
        if self.left_stays(r, l) {
            return Outcome::At(n.right);
        }
        Outcome::Stay
    }
}

// What the laws make of the node n over the operands l and r.
pub(crate) fn law(n: Node, l: Node, r: Node) -> Outcome
    requires { (n.lo + l.lo < 65536) × (n.hi + l.hi < 65536) }
    ensures { result ≡ law_as n l r (op_of n.kind) }
{
    // F F as one F, G G as one G
    let both = Node {
        kind: n.kind,
        lo: n.lo + l.lo,
        hi: n.hi + l.hi,
        left: l.left,
        ..Node::FREE
    };
    match Operator::try_from(n.kind) {
        Ok(Operator::Not) => law_not(l),
        Ok(Operator::And) => AND.law(n, l, r),
        Ok(Operator::Or) => OR.law(n, l, r),
        Ok(Operator::Finally) => law_one(Operator::False, n, l, both),
        Ok(Operator::Globally) => law_one(Operator::True, n, l, both),
        Ok(Operator::Until) => law_two(Operator::False, n, r),
        Ok(Operator::Release) => law_two(Operator::True, n, r),
        _ => Outcome::Stay,
    }
}
