// Reads a typed line: its name, and its nodes in table order on a tape; or tells the place of its earliest fault.
#![tactic(auto)]

ghost use Rattle.grammar.specs.Tape.{tape};
ghost use Rattle.table.specs.Operators.{kind_of};
ghost use Rattle.parser.specs.Reads.{number_of, line_end, name_of, count_of, LineRead};
ghost use Rattle.parser.specs.Code.{place_of, value_of, NoPrefix, SignalRead, ConstantRead, AtomRead, UnaryRead, ConjRead, DisjRead, FormulaRead};

use grammar::Item;
use limits::MAX_DEPTH;
use table::Operator;

mod faults;
mod tape;
mod tokens;

pub use faults::Fault;

// The name of a line that is read, the place behind it, and the count of the nodes on the tape.
#[derive(Clone, Copy)]
pub struct Lined {
    pub at: usize,
    pub name: u32,
    pub count: u32,
}

// The words of a tape: five for each node.
pub const TAPE_WORDS: usize = 5 * tape::KEPT_NODES;

// ---- the readers answer the count of the nodes on the tape and the place behind what they read, or a fault

// ---- atoms without brackets

// A signal, whose s is read.
fn signal(
    text: &[u8],
    cells: &mut [u32; TAPE_WORDS],
    at: usize,
    count: u32,
) -> Result<(u32, usize), Fault>
    ensures { SignalRead text.now at (tape cells.old count) (number_of result) (place_of result) (tape cells.new (value_of result)) }
{
    let (s, end) = tokens::number(text, at)?;
    let more = tape::put(cells, count, Item::new(Operator::Signal.kind(), s, 0, 0));
    Ok((more, end))
}

// A constant, whose first letter is read, by the letters behind it and its operator.
fn constant(
    text: &[u8],
    w: &[u8],
    cells: &mut [u32; TAPE_WORDS],
    at: usize,
    o: Operator,
    count: u32,
) -> Result<(u32, usize), Fault>
    ensures { ConstantRead text.now at w.now (kind_of o) (tape cells.old count) (number_of result) (place_of result) (tape cells.new (value_of result)) }
{
    let end = tokens::spell(text, at, w)?;
    let more = tape::put(cells, count, Item::new(o.kind(), 0, 0, 0));
    Ok((more, end))
}

// ---- the five readers; `depth` is how many brackets may still be opened

#[cycle(atom_conjunction_disjunction_formula_prefixed_unary)]
fn atom(
    text: &[u8],
    cells: &mut [u32; TAPE_WORDS],
    at: usize,
    depth: usize,
    count: u32,
) -> Result<(u32, usize), Fault>
    requires { NoPrefix text.now at }
    ensures { AtomRead text.now at depth (tape cells.old count) (number_of result) (place_of result) (tape cells.new (value_of result)) }
{
    if tokens::is_at(text, at, b's') {
        return signal(text, cells, at + 1, count);
    }
    if tokens::is_at(text, at, b't') {
        return constant(text, b"rue", cells, at + 1, Operator::True, count);
    }
    if tokens::is_at(text, at, b'f') {
        return constant(text, b"alse", cells, at + 1, Operator::False, count);
    }
    if !tokens::is_at(text, at, b'(') {
        return Err(Fault::syntax(at));
    }
    if depth == 0 {
        return Err(Fault::deep(at));
    }
    let (more, i) = formula(text, cells, at + 1, depth - 1, count)?;
    let end = tokens::expect(text, i, b')')?;
    Ok((more, end))
}

#[cycle(atom_conjunction_disjunction_formula_prefixed_unary)]
fn unary(
    text: &[u8],
    cells: &mut [u32; TAPE_WORDS],
    at: usize,
    depth: usize,
    count: u32,
) -> Result<(u32, usize), Fault>
    ensures { UnaryRead text.now at depth (tape cells.old count) (number_of result) (place_of result) (tape cells.new (value_of result)) }
{
    let (item, i) = tokens::prefix(text, at)?;
    if item.is_some() {
        return prefixed(text, cells, at, depth, count);
    }
    atom(text, cells, i, depth, count)
}

// A unary with prefixes: a function of its own, since only these need a ring. Inlined, it would put one on the stack for every bracket.
#[inline(never)]
#[cycle(atom_conjunction_disjunction_formula_prefixed_unary)]
fn prefixed(
    text: &[u8],
    cells: &mut [u32; TAPE_WORDS],
    at: usize,
    depth: usize,
    count: u32,
) -> Result<(u32, usize), Fault>
    ensures { UnaryRead text.now at depth (tape cells.old count) (number_of result) (place_of result) (tape cells.new (value_of result)) }
{
    let mut ring = [tape::NO_PREFIX; tape::KEPT_NODES];
    let mut n: usize = 0;
    let mut i = at;
    // A reader goes on where the one before it stopped.
    loop {
        let (item, next) = tokens::prefix(text, i)?;
        let Some(p) = item else {
            let (more, end) = atom(text, cells, next, depth, count)?;
            let all = tape::apply(&ring, cells, n, more);
            return Ok((all, end));
        };
        tape::hold(&mut ring, n, p);
        n += 1;
        i = next;
    }
}

// A conjunction whose first unary is read.
#[cycle(atom_conjunction_disjunction_formula_prefixed_unary)]
fn conjunction(
    text: &[u8],
    cells: &mut [u32; TAPE_WORDS],
    at: usize,
    depth: usize,
    count: u32,
) -> Result<(u32, usize), Fault>
    ensures { ConjRead text.now at depth (tape cells.old count) (number_of result) (place_of result) (tape cells.new (value_of result)) }
{
    let mut i = at;
    let mut n = count;
    // A reader goes on where the one before it stopped.
    loop {
        let s = tokens::skip(text, i);
        if !tokens::is_at(text, s, b'&') {
            return Ok((n, s));
        }
        let (more, next) = unary(text, cells, s + 1, depth, n)?;
        n = tape::emit(
            cells,
            more,
            Item::new(Operator::And.kind(), 0, 0, 0),
            tape::last_node(n),
        );
        i = next;
    }
}

// A disjunction whose first unary is read.
#[cycle(atom_conjunction_disjunction_formula_prefixed_unary)]
fn disjunction(
    text: &[u8],
    cells: &mut [u32; TAPE_WORDS],
    at: usize,
    depth: usize,
    count: u32,
) -> Result<(u32, usize), Fault>
    ensures { DisjRead text.now at depth (tape cells.old count) (number_of result) (place_of result) (tape cells.new (value_of result)) }
{
    let mut i = at;
    let mut n = count;
    let mut left = None;
    // A reader goes on where the one before it stopped.
    loop {
        let (more, s) = conjunction(text, cells, i, depth, n)?;
        let m = tape::or_if(cells, more, left);
        if !tokens::is_at(text, s, b'|') {
            return Ok((m, s));
        }
        let (next_count, next) = unary(text, cells, s + 1, depth, m)?;
        left = Some(tape::last_node(m));
        n = next_count;
        i = next;
    }
}

#[cycle(atom_conjunction_disjunction_formula_prefixed_unary)]
fn formula(
    text: &[u8],
    cells: &mut [u32; TAPE_WORDS],
    at: usize,
    depth: usize,
    count: u32,
) -> Result<(u32, usize), Fault>
    ensures { FormulaRead text.now at depth (tape cells.old count) (number_of result) (place_of result) (tape cells.new (value_of result)) }
{
    let (first, j) = unary(text, cells, at, depth, count)?;
    let i = tokens::skip(text, j);
    let Some(o) = tokens::between(text, i) else {
        return disjunction(text, cells, i, depth, first);
    };
    let ((lo, hi), next) = tokens::interval(text, i + 1)?;
    let (more, end) = unary(text, cells, next, depth, first)?;
    let all = tape::emit(
        cells,
        more,
        Item::new(o.kind(), 0, lo, hi),
        tape::last_node(first),
    );
    Ok((all, end))
}

// A line: its name, a colon, a formula and byte 10.
pub fn line(text: &[u8], cells: &mut [u32; TAPE_WORDS], at: usize) -> Result<Lined, Fault>
    ensures { LineRead text.now at cells.old (number_of result) (line_end result) (name_of result) (tape cells.new (count_of result)) }
{
    let (name, i) = tokens::bound(text, at, b':')?;
    let (count, j) = formula(text, cells, i, MAX_DEPTH, 0)?;
    let end = tokens::expect(text, j, b'\n')?;
    Ok(Lined {
        at: end,
        name,
        count,
    })
}
