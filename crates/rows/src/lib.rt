// Lines of output as text: rows of verdicts, and what is told of a refusal; and pieces of which other texts are made.
#![tactic(auto)]

ghost use Rattle.std.specs.Prelude.{◌≡◌, ◌+◌, ◌-◌, ◌*◌, ◌^◌, ◌≤◌, ◌<◌, [], ◌∷◌, eqb, length};
ghost use Rattle.lists.specs.Choice.{pick};
ghost use Rattle.lists.specs.Bits.{bit_at, digit};
ghost use Rattle.lists.specs.Sequence.{ticks};
ghost use Rattle.rows.specs.Rows.{Put, PutIfRoom, decimal, rows_from, fitting, book_line, bad_line, feed_line};
ghost use Rattle.rows.specs.Code.Steps.{row_end, Fronted};

use limits::CLOSE_WORDS;

// The most rows of one text, each of 32 bytes at most: those of a close.
const MAX_ROWS: usize = 64 * CLOSE_WORDS;

pub const TEXT_BYTES: usize = 32 * MAX_ROWS;

// Rows for `count` verdicts, the first of them that of `tick`: verdict i is bit i % 64 of word i / 64. Answers how many bytes they take, from the
// text's start; none for more rows than a text has room for, or where the tick after the last passes 64 bits.
pub fn put_rows(
    text: &mut [u8; TEXT_BYTES],
    name: u16,
    tick: u64,
    words: &[u64; CLOSE_WORDS],
    count: usize,
) -> usize
    ensures { Put text.old 0 (fitting name tick words.now count) text.new result }
{
    if (count > MAX_ROWS) | (u64::MAX - tick < count as u64) {
        return 0;
    }
    let mut digits = [0u8; 20];
    let k = io::decimal(name as u64, &mut digits);
    put_each(text, &digits[..k], tick, words, count)
}

// `book NUMBER RECORD`
pub fn put_book(text: &mut [u8; TEXT_BYTES], number: u8, place: u8) -> usize
    ensures { Put text.old 0 (book_line number place) text.new result }
{
    let a = put(text, 0, b"book ");
    let b = put_number(text, a, number as u64);
    let c = put_byte(text, b, b' ');
    let d = put_number(text, c, place as u64);
    put_byte(text, d, b'\n')
}

// `bad line N`, where N is the sum of two numbers, which may pass 64 bits.
pub fn put_bad_line(text: &mut [u8; TEXT_BYTES], before: u64, more: u64) -> usize
    ensures { Put text.old 0 (bad_line (before + more)) text.new result }
{
    let a = put(text, 0, b"bad line ");
    let b = put_sum(text, a, before, more);
    put_byte(text, b, b'\n')
}

// `feed NUMBER`
pub fn put_feed(text: &mut [u8; TEXT_BYTES], number: u8) -> usize
    ensures { Put text.old 0 (feed_line number) text.new result }
{
    let a = put(text, 0, b"feed ");
    let b = put_number(text, a, number as u64);
    put_byte(text, b, b'\n')
}

// ---- pieces of other texts

// All of s, into out from a place on, if there is room for it: the place after it. Otherwise nothing, and the place itself.
pub fn put_text(out: &mut [u8], at: usize, s: &[u8]) -> usize
    ensures { PutIfRoom out.old at s.now out.new result }
{
    if at > out.len() {
        return at;
    }
    if out.len() - at < s.len() {
        return at;
    }
    put(out, at, s)
}

// The same of a number in decimal.
pub fn put_decimal(out: &mut [u8], at: usize, n: u64) -> usize
    ensures { PutIfRoom out.old at (decimal n) out.new result }
{
    let mut digits = [0u8; 20];
    let k = io::decimal(n, &mut digits);
    put_text(out, at, &digits[..k])
}

// ---- the steps

fn put_each(out: &mut [u8], name: &[u8], tick: u64, words: &[u64], count: usize) -> usize
    requires { (32 * count ≤ length out.old) × (length name.now ≤ 5) × (count ≤ 64 * length words.now) × (tick + count < 2 ^ 64) }
    ensures { Put out.old 0 (rows_from name.now tick (ticks (bit_at words.now) count)) out.new result }
{
    let mut space = [0u8; 32];
    let front: &mut [u8] = &mut space;
    let mut k = put_front(front, name, tick);
    let mut at = 0;
    // i is the number of the verdict and of its tick.
    for i in 0..count {
        let t = tick + i as u64;
        at = put_row(out, at, &front[..k], t, verdict_at(words, i));
        k = renew(front, k, name, t + 1);
    }
    at
}

// A row: its front, the tick's last digit, and the verdict.
fn put_row(out: &mut [u8], at: usize, front: &[u8], tick: u64, verdict: u8) -> usize
    requires { (at + 32 ≤ length out.old) × (length front.now ≤ 28) × (verdict < 2) }
    ensures put { Put out.old at (row_end front.now tick verdict) out.new result }
    ensures upper_bound { result ≤ at + 32 }
{
    let a = put(out, at, front);
    let b = put_byte(out, a, b'0' + (tick % 10) as u8);
    let c = put_byte(out, b, b' ');
    let d = put_byte(out, c, b'0' + verdict);
    put_byte(out, d, b'\n')
}

// The front of the row of a tick, where that of the tick before is there: it changes only with every tenth tick.
fn renew(front: &mut [u8], k: usize, name: &[u8], tick: u64) -> usize
    requires { (32 ≤ length front.old) × (length name.now ≤ 5) × (0 < tick) × Fronted name.now (tick - 1) front.old k }
    ensures { Fronted name.now tick front.new result }
{
    if tick % 10 != 0 {
        return k;
    }
    put_front(front, name, tick)
}

// The front of a row: the name, a space, and all digits of the tick but the last.
fn put_front(front: &mut [u8], name: &[u8], tick: u64) -> usize
    requires { (32 ≤ length front.old) × (length name.now ≤ 5) }
    ensures { Fronted name.now tick front.new result }
{
    let a = put(front, 0, name);
    let b = put_byte(front, a, b' ');
    if tick < 10 {
        return b;
    }
    put_number(front, b, tick / 10)
}

// Verdict t: 1 or 0.
fn verdict_at(words: &[u64], t: usize) -> u8
    requires { t < 64 * length words.now }
    ensures { result ≡ digit (bit_at words.now t) }
{
    ((words[t / 64] >> (t % 64) as u32) % 2) as u8
}

// A number in decimal, which has 20 digits at most.
fn put_number(out: &mut [u8], at: usize, n: u64) -> usize
    requires { at + 20 ≤ length out.old }
    ensures put { Put out.old at (decimal n) out.new result }
    ensures upper_bound { result ≤ at + 20 }
{
    put_decimal(out, at, n)
}

// The same, but nothing for 0.
fn put_positive(out: &mut [u8], at: usize, n: u64) -> usize
    requires { at + 20 ≤ length out.old }
    ensures put { Put out.old at (pick (eqb n 0) [] (decimal n)) out.new result }
    ensures upper_bound { result ≤ at + 20 }
{
    if n == 0 {
        return at;
    }
    put_number(out, at, n)
}

// The sum of two numbers in decimal: all its digits but the last, and the last.
fn put_sum(out: &mut [u8], at: usize, a: u64, b: u64) -> usize
    requires { at + 21 ≤ length out.old }
    ensures put { Put out.old at (decimal (a + b)) out.new result }
    ensures upper_bound { result ≤ at + 21 }
{
    let low = a % 10 + b % 10;
    let c = put_positive(out, at, a / 10 + b / 10 + low / 10);
    put_byte(out, c, b'0' + (low % 10) as u8)
}

fn put_byte(out: &mut [u8], at: usize, b: u8) -> usize
    requires { at + 1 ≤ length out.old }
    ensures { Put out.old at (b ∷ []) out.new result }
{
    out[at] = b;
    at + 1
}

// All of s, into out from a place on: the place after it.
fn put(out: &mut [u8], at: usize, s: &[u8]) -> usize
    requires { at + length s.now ≤ length out.old }
    ensures { Put out.old at s.now out.new result }
{
    out[at..at + s.len()].copy_from_slice(s);
    at + s.len()
}
