// Reads typed rules (document 02, A2) into a table, line by line.
#![tactic(auto)]

ghost use Rattle.std.specs.Prelude.{◌≡◌, ◌+◌, ◌-◌, ◌≤◌, ◌<◌, min, length};
ghost use Rattle.builder.specs.Built.{Delays};
ghost use Rattle.grammar.specs.Tape.{kept_nodes};
ghost use Rattle.text.specs.Code.{LineTold, LineAdded};
ghost use Rattle.text.specs.Typing.{in_byte, in_two_bytes, node_of, name_held, watching, line_added, Placed, typed_told, typed, made_at, mades_of};

use grammar::{Item, Made};
use limits::MAX_NODES;
use parser::{Lined, TAPE_WORDS};
use refusals::Refusal;
use table::{Node, Rule, Table};

// Why a text is refused, and the place of the fault, or the line.
#[derive(Clone, Copy, Debug, PartialEq, Eq)]
pub struct Fault {
    pub refusal: Refusal,
    pub place: usize,
}

impl From<parser::Fault> for Fault {
    ghost from_gives = { Placed };

    fn from(f: parser::Fault) -> Fault {
        Fault {
            refusal: f.refusal,
            place: f.at,
        }
    }
}

// ---- numbers held at what a field can hold

fn as_byte(n: usize) -> u8
    ensures { result ≡ in_byte n }
{
    n.min(255) as u8
}

fn as_two(n: u32) -> u16
    ensures { result ≡ in_two_bytes n }
{
    n.min(65535) as u16
}

// ---- nodes

// The node at a place of the tape.
fn made_at(cells: &[u32; TAPE_WORDS], k: usize) -> Made
    requires { k < kept_nodes }
    ensures { result ≡ made_at cells.now k }
{
    let i = 5 * k;
    let it = Item {
        kind: as_byte(cells[i] as usize),
        arg: cells[i + 1],
        lo: cells[i + 2],
        hi: cells[i + 3],
    };
    Made {
        it,
        left: cells[i + 4],
    }
}

// The place of a left operand, held above the last place of a table.
fn left_place(base: usize, left: u32) -> u8
    ensures { result ≡ in_byte (in_byte base + min left 64) }
{
    as_byte(as_byte(base) as usize + left.min(64) as usize)
}

// The place before one.
fn before(n: usize) -> u8
    ensures { result ≡ in_byte (n - 1) }
{
    as_byte(n.saturating_sub(1))
}

fn node_of(m: Made, base: usize, count: usize) -> Node
    ensures { result ≡ node_of base count m }
{
    let it = m.it;
    let used = table::uses_of(it.kind);
    Node {
        kind: it.kind,
        arg: as_byte(it.arg as usize),
        lo: as_two(it.lo),
        hi: as_two(it.hi),
        left: if used.left {
            left_place(base, m.left)
        } else {
            0
        },
        right: if used.right { before(count) } else { 0 },
    }
}

// ---- lines

// A name above the largest is taken for 0, which is refused as it is.
fn as_name(n: u32) -> u16
    ensures { result ≡ name_held n }
{
    u16::try_from(n).unwrap_or(0)
}

// The rule of a line, which watches the last of `count` nodes.
fn rule_of(count: usize, name: u32) -> Rule
    ensures { result ≡ watching count name }
{
    Rule {
        name: as_name(name),
        watched: before(count),
    }
}

// The table with the nodes of the tape and the rule that watches the last of them, where none of them is refused; ds are the delays of its nodes.
fn add_line(
    t: Table,
    ds: &mut [u16; MAX_NODES],
    cells: &[u32; TAPE_WORDS],
    count: usize,
    name: u32,
) -> Result<Table, Refusal>
    requires { (count ≤ kept_nodes) × Delays t ds.old }
    ensures { LineAdded (line_added t name (mades_of cells.now count)) result ds.new }
{
    let base = t.node_count;
    let mut u = t;
    // A node is five words of the tape, which is read by its place.
    for k in 0..count {
        let at = u.node_count;
        let n = node_of(made_at(cells, k), base, at);
        let d = table::delay_among(ds, n);
        builder::check_node(at, d, n)?;
        u.nodes[at] = n;
        u.node_count = at + 1;
        ds[at] = d;
    }
    let r = rule_of(u.node_count, name);
    let at = u.rule_count;
    builder::check_rule(u.node_count, u.rules, at, r)?;
    u.rules[at] = r;
    u.rule_count = at + 1;
    Ok(u)
}

// The line at a place of the text, its nodes on the tape.
fn line_at(text: &[u8], cells: &mut [u32; TAPE_WORDS], at: usize) -> Result<Lined, Fault>
    ensures { LineTold text.now at cells.old result cells.new }
{
    Ok(parser::line(text, cells, at)?)
}

// The table of a text that is accepted.
pub fn read(text: &[u8]) -> Result<Table, Fault>
    ensures { typed_told result ≡ typed text.now }
{
    if text.is_empty() {
        return Err(Fault {
            refusal: Refusal::Ruleless,
            place: 0,
        });
    }
    let mut cells = [0u32; TAPE_WORDS];
    let mut ds = [0u16; MAX_NODES];
    let mut t = table::no_table();
    let mut i: usize = 0;
    let mut line: usize = 1;
    // How long a line is, its reader tells.
    while i < text.len() {
        let l = line_at(text, &mut cells, i)?;
        t = match add_line(t, &mut ds, &cells, l.count as usize, l.name) {
            Ok(u) => u,
            Err(refusal) => {
                return Err(Fault {
                    refusal,
                    place: line,
                });
            }
        };
        i = l.at;
        line += 1;
    }
    Ok(t)
}
