// Decimal lines: a part of the input is read into a block of states.
#![tactic(auto)]

ghost use Rattle.std.specs.Prelude.{◌≡◌, ◌+◌, ◌-◌, length, drop};
ghost use Rattle.std.proofs.lemmas.List.Edits.{sets};
ghost use Rattle.lines.specs.Lines.{empty, with_byte, is_state, filling, filled_from};
ghost use Rattle.lines.specs.Code.Steps.{scanned};

use limits::MAX_STATE;

// The most digits of a line; one more stands for a line that is bad already.
const MAX_DIGITS: u32 = 10;

const BAD: u32 = MAX_DIGITS + 1;

// A line so far: how many digits it has, and their value.
#[derive(Clone, Copy)]
pub struct Line {
    pub digits: u32,
    pub value: u64,
}

// How far a part of the input was read, the line so far, the states in the block, and whether a bad line stopped it.
#[derive(Clone, Copy)]
pub struct Filled {
    pub at: usize,
    pub line: Line,
    pub count: usize,
    pub bad: bool,
}

// A line with no byte yet.
pub fn start() -> Line
    ensures { result ≡ empty }
{
    Line {
        digits: 0,
        value: 0,
    }
}

// The states of whole lines, from `at` on, go to the block from place `count` on; until the part is used up, the block is full, or a line is bad.
pub fn fill(part: &[u8], at: usize, line: Line, block: &mut [u32], count: usize) -> Filled
    ensures value { result ≡ filled_from at count (filling (length block.old - count) line (drop at part.now)) }
    ensures block_after { block.new ≡ sets block.old count (filling (length block.old - count) line (drop at part.now)).states }
{
    let mut i = at;
    let mut l = line;
    let mut k = count;
    // Two places, of the part and of the block, which move at different paces.
    while (i < part.len()) & (k < block.len()) {
        let scan = scan_line(part, i, l);
        let Some(next) = scan.end else {
            return Filled {
                at: part.len(),
                line: scan.line,
                count: k,
                bad: false,
            };
        };
        if !is_state(scan.line) {
            return Filled {
                at: next,
                line: start(),
                count: k,
                bad: true,
            };
        }
        block[k] = scan.line.value as u32;
        k += 1;
        l = start();
        i = next;
    }
    Filled {
        at: i,
        line: l,
        count: k,
        bad: false,
    }
}

// A line up to its end, with the place after it, or up to the end of the part.
#[derive(Clone, Copy)]
struct Scan {
    line: Line,
    end: Option<usize>,
}

// The bytes of the part from a place on, up to the next line end or the end of the part.
fn scan_line(part: &[u8], at: usize, line: Line) -> Scan
    ensures { result ≡ scanned (drop at part.now) at line }
{
    let mut l = line;
    // The place behind the line end is the answer.
    for i in at..part.len() {
        if part[i] == b'\n' {
            return Scan {
                line: l,
                end: Some(i + 1),
            };
        }
        l = with_byte(l, part[i]);
    }
    Scan { line: l, end: None }
}

// The line with one byte more, which is no line end.
#[tactic(auto, unfolding(crate::specs::Lines::with_byte))]
fn with_byte(l: Line, b: u8) -> Line
    ensures { result ≡ with_byte l b }
{
    if l.digits < MAX_DIGITS && b.is_ascii_digit() && l.value <= MAX_STATE {
        return Line {
            digits: l.digits + 1,
            value: l.value * 10 + u64::from(b - b'0'),
        };
    }
    Line {
        digits: BAD,
        value: 0,
    }
}

// A line that ends here is a state.
fn is_state(l: Line) -> bool
    ensures { result ≡ is_state l }
{
    (1..=MAX_DIGITS).contains(&l.digits) && l.value <= MAX_STATE
}
