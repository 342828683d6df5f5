// What the program rules tells of a text that is refused: a line for machines, then what is wrong, for people.
#![tactic(auto)]

ghost use Rattle.std.specs.Prelude.{◌≡◌, ◌+◌, ◌-◌, ◌≤◌, min, length};
ghost use Rattle.lists.specs.Ascii.{ascii};
ghost use Rattle.lists.specs.Choice.{pick};
ghost use Rattle.rows.specs.Rows.{Put};
ghost use Rattle.message.specs.Message.{max_text, refusal_message, long_message, machine_line, sentences, said, place_shown, where_line, shown_line, mark_line};
ghost use Rattle.message.specs.Message.{placed as is_placed, shown, dots, lines_before, line_start, up_to_end, shown_bytes, shown_from, shown_byte, mark_at};
ghost use Rattle.message.specs.Code.Steps.{PutInRoom, indent_most};

use refusals::Refusal;

// The numbers that are told of a text.
const ARGUMENT: u8 = Refusal::Argument as u8;

const INTERVAL: u8 = Refusal::Interval as u8;

const FULL: u8 = Refusal::Full as u8;

const LONG: u8 = Refusal::Long as u8;

const NAME: u8 = Refusal::Name as u8;

const RULELESS: u8 = Refusal::Ruleless as u8;

const SYNTAX: u8 = Refusal::Syntax as u8;

const DEEP: u8 = Refusal::Deep as u8;

// The longest text that is read, in bytes.
pub const MAX_TEXT: usize = 1048576;

// At most so many bytes of a line are shown; of a longer one at most so many before the place.
const SHOWN_BYTES: usize = 72;

const SHOWN_BEFORE: usize = 36;

// The most spaces before the mark: three stand under dots.
const MAX_INDENT: usize = 3 + SHOWN_BYTES;

// The longest message: its line for machines, its sentence, and the three lines of its place.
pub const MESSAGE_BYTES: usize = 52 + 92 + (56 + 79 + MAX_INDENT + 2);

// What is told of a text that is refused with a number and a place or a line: how many bytes it takes, from the start.
pub fn put_refusal(out: &mut [u8; MESSAGE_BYTES], text: &[u8], number: u8, place: usize) -> usize
    ensures { Put out.old 0 (refusal_message text.now number place) out.new result }
{
    let a = put_machine_line(out, number, place);
    let b = put_sentence(out, a, number);
    if !placed(number) {
        return b;
    }
    if text.len() > MAX_TEXT {
        return b;
    }
    put_place(out, b, text, place.min(text.len()))
}

// What is told of a text that is too long.
pub fn put_long(out: &mut [u8; MESSAGE_BYTES]) -> usize
    ensures { Put out.old 0 long_message out.new result }
{
    rows::put_text(out, 0, b"The text is longer than 1048576 bytes.\n")
}

// ---- the line for machines

// The number is told with a place, and not with a line.
fn placed(number: u8) -> bool
    ensures { result ≡ is_placed number }
{
    matches!(number, SYNTAX | DEEP)
}

fn put_machine_line(out: &mut [u8], number: u8, place: usize) -> usize
    ensures { PutInRoom out.old 0 (machine_line number place) out.new result }
{
    let a = rows::put_text(out, 0, b"text ");
    let b = rows::put_decimal(out, a, number as u64);
    let c = put_between(out, b, number);
    let d = rows::put_decimal(out, c, place as u64);
    rows::put_text(out, d, b"\n")
}

// What stands before a place, or a line.
fn put_between(out: &mut [u8], at: usize, number: u8) -> usize
    ensures { PutInRoom out.old at (pick (is_placed number) (ascii " ") (ascii " line ")) out.new result }
{
    if placed(number) {
        return rows::put_text(out, at, b" ");
    }
    rows::put_text(out, at, b" line ")
}

// ---- what is wrong

fn put_sentence(out: &mut [u8], at: usize, number: u8) -> usize
    ensures { PutInRoom out.old at (said sentences number) out.new result }
{
    rows::put_text(out, at, sentence(number))
}

// The sentence of a number, if it has one.
fn sentence(number: u8) -> &'static [u8]
    ensures { result.now ≡ said sentences number }
{
    match number {
        ARGUMENT => b"A signal is above s31, or the rule's name is 0 or above 65535.\n",
        INTERVAL => b"An interval [a,b] has a above b, or b above 4095.\n",
        FULL => {
            b"Up to this line there are more than 64 atoms and operators, or more than 8 rules.\n"
        }
        LONG => b"The rule or a part of it waits for more than 4095 later states.\n",
        NAME => b"An earlier line has the same name.\n",
        RULELESS => b"The text is empty: it has no rule.\n",
        SYNTAX => {
            b"At the mark the line goes on, or ends, as no rule does; the last line needs a line end too.\n"
        }
        DEEP => b"The bracket at the mark is the 33rd that is open; at most 32 may be.\n",
        _ => b"",
    }
}

// ---- where a place of a text stands

// How many lines end in the bytes before a place.
fn lines_before(before: &[u8]) -> usize
    ensures { (result ≡ lines_before before.now (length before.now)) × (result ≤ length before.now) }
{
    before.iter().filter(|&&b| b == b'\n').count()
}

// Where the line of the place begins.
fn line_start(before: &[u8]) -> usize
    ensures { (result ≡ line_start before.now (length before.now)) × (result ≤ length before.now) }
{
    // The place is the answer.
    for i in (0..before.len()).rev() {
        if before[i] == b'\n' {
            return i + 1;
        }
    }
    0
}

// How many of its bytes stand from the place on.
fn up_to_end(rest: &[u8]) -> usize
    ensures { (result ≡ up_to_end rest.now) × (result ≤ length rest.now) }
{
    rest.iter().position(|&b| b == b'\n').unwrap_or(rest.len())
}

// ---- the place, the line, and the mark

fn put_place(out: &mut [u8], at: usize, text: &[u8], p: usize) -> usize
    requires { (p ≤ length text.now) × (length text.now ≤ max_text) }
    ensures { PutInRoom out.old at (place_shown text.now p) out.new result }
{
    let (before, rest) = text.split_at(p);
    let n = lines_before(before);
    let s = line_start(before);
    let e = p + up_to_end(rest);
    let a = put_where(out, at, n + 1, p - s + 1);
    let b = put_line(out, a, text, s, e, p);
    put_mark(out, b, s, e, p)
}

fn put_where(out: &mut [u8], at: usize, line: usize, column: usize) -> usize
    ensures { PutInRoom out.old at (where_line line column) out.new result }
{
    let a = rows::put_text(out, at, b"line ");
    let b = rows::put_decimal(out, a, line as u64);
    let c = rows::put_text(out, b, b", column ");
    let d = rows::put_decimal(out, c, column as u64);
    rows::put_text(out, d, b":\n")
}

// The part of a line from s to e that is shown.
fn shown_from(s: usize, e: usize, p: usize) -> usize
    requires { (s ≤ p) × (p ≤ e) }
    ensures { (result ≡ shown_from s e p) × (s ≤ result) × (result ≤ p) × (p - result ≤ shown_bytes) }
{
    if e - s <= SHOWN_BYTES {
        s
    } else {
        s.max(p.saturating_sub(SHOWN_BEFORE))
    }
}

fn shown_to(from: usize, e: usize) -> usize
    requires { from ≤ e }
    ensures { (result ≡ min e (from + shown_bytes)) × (from ≤ result) × (result ≤ e) × (result - from ≤ shown_bytes) }
{
    e.min(from.saturating_add(SHOWN_BYTES))
}

fn put_line(out: &mut [u8], at: usize, text: &[u8], s: usize, e: usize, p: usize) -> usize
    requires { (s ≤ p) × (p ≤ e) × (e ≤ length text.now) }
    ensures { PutInRoom out.old at (shown_line text.now s e p) out.new result }
{
    let from = shown_from(s, e, p);
    let to = shown_to(from, e);
    let a = put_dots(out, at, s < from);
    let b = put_bytes(out, a, text, from, to);
    let c = put_dots(out, b, to < e);
    rows::put_text(out, c, b"\n")
}

// How many spaces stand before the mark.
fn mark_at(s: usize, e: usize, p: usize) -> usize
    requires { (s ≤ p) × (p ≤ e) }
    ensures { (result ≡ mark_at s e p) × (result ≤ indent_most) }
{
    let from = shown_from(s, e, p);
    let dots = if s < from { 3 } else { 0 };
    dots + (p - from)
}

fn put_mark(out: &mut [u8], at: usize, s: usize, e: usize, p: usize) -> usize
    requires { (s ≤ p) × (p ≤ e) }
    ensures { PutInRoom out.old at (mark_line s e p) out.new result }
{
    let indent = mark_at(s, e, p);
    let spaces = [32u8; MAX_INDENT];
    let a = rows::put_text(out, at, &spaces[..indent]);
    rows::put_text(out, a, b"^\n")
}

fn put_dots(out: &mut [u8], at: usize, cut: bool) -> usize
    ensures { PutInRoom out.old at (dots cut) out.new result }
{
    if cut {
        return rows::put_text(out, at, b"...");
    }
    at
}

// A byte as it is shown.
fn shown_byte(b: u8) -> u8
    ensures { result ≡ shown_byte b }
{
    if (32..=126).contains(&b) { b } else { b'?' }
}

// The bytes from one place up to another.
fn put_bytes(out: &mut [u8], at: usize, text: &[u8], from: usize, to: usize) -> usize
    requires { (from ≤ to) × (to ≤ length text.now) }
    ensures { PutInRoom out.old at (shown text.now from to) out.new result }
{
    let mut next = at;
    for &b in &text[from..to] {
        next = rows::put_text(out, next, &[shown_byte(b)]);
    }
    next
}
