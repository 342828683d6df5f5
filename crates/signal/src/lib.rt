// A signal's column, packed from a trace that is lent in two parts. Both are read where they lie; the register alone is written.
#![tactic(auto)]

ghost use Rattle.std.specs.Prelude.{◌≡◌, ◌++◌, ◌+◌, ◌-◌, ◌*◌, ◌/◌, ◌%◌, ◌^◌, ◌≤◌, ◌<◌, min, length};
ghost use Rattle.std.specs.Int.Bits.{bit_or};
ghost use Rattle.limits.specs.Limits.{max_signal, register_words};
ghost use Rattle.lists.specs.Bits.{bit, digit, number};
ghost use Rattle.column.specs.Column.{WordOf, Swept};
ghost use Rattle.signal.specs.Signal.{signal_column, SignalPacked};
ghost use Rattle.signal.specs.Code.Steps.{fourths, Lanes};

use limits::{MAX_SIGNAL, REGISTER_WORDS};

// How many signals a state has.
const SIGNALS: usize = MAX_SIGNAL as usize + 1;

// Bit i of a state as a digit.
fn digit_of(state: u32, i: usize) -> u32
    requires { i ≤ max_signal }
    ensures { result ≡ digit (bit state i) }
{
    state >> i & 1
}

// ---- whole words

// Bit i of every fourth one of the 32 states from `from` on, each at its place.
fn every_fourth(states: &[u32], i: usize, from: usize) -> u32
    requires { (i ≤ max_signal) × (from + 29 ≤ length states.now) }
    ensures { result ≡ number 32 (fourths (λ j. signal_column i states.now (from + j))) }
{
    let mut x: u32 = 0;
    // k is also the place of the bits.
    for k in 0..8 {
        x |= digit_of(states[from + 4 * k], i) << (4 * k);
    }
    x
}

// The same from each of four states that follow each other on, and once more 32 states later. The compiler takes the four at once.
fn lanes_from(states: &[u32], i: usize, from: usize) -> [u32; 8]
    requires { (i ≤ max_signal) × (from + 64 ≤ length states.now) }
    ensures { Lanes (signal_column i states.now) from 4 result }
{
    let mut l = [0u32; 8];
    // k is also the place of the states.
    for k in 0..4 {
        l[k] = every_fourth(states, i, from + k);
        l[k + 4] = every_fourth(states, i, from + 32 + k);
    }
    l
}

// The 32 bits of `low` and then those of `high`.
fn both(low: u32, high: u32) -> u64
    ensures { result ≡ bit_or low (high * 2 ^ 32 % 2 ^ 64) }
{
    low as u64 | (high as u64) << 32
}

// Bit i of the 64 states from `from` on.
fn whole_word(states: &[u32], i: usize, from: usize) -> u64
    requires { (i ≤ max_signal) × (from + 64 ≤ length states.now) }
    ensures { result ≡ number 64 (λ j. signal_column i states.now (from + j)) }
{
    let l = lanes_from(states, i, from);
    both(l[0], l[4]) | both(l[1], l[5]) << 1 | both(l[2], l[6]) << 2 | both(l[3], l[7]) << 3
}

// ---- other words

// Bit i of the `count` states from `from` on.
fn part_word(states: &[u32], i: usize, from: usize, count: usize) -> u64
    requires { (i ≤ max_signal) × (from + count ≤ length states.now) × (count ≤ 64) }
    ensures { result ≡ number count (λ j. signal_column i states.now (from + j)) }
{
    let mut x: u64 = 0;
    // j is also the place of the bit.
    for j in 0..count {
        x |= (digit_of(states[from + j], i) as u64) << j;
    }
    x
}

// Bit i of the 64 states from `from` on, and clear past the last one.
fn last_word(states: &[u32], i: usize, from: usize) -> u64
    requires { i ≤ max_signal }
    ensures { result ≡ number 64 (λ j. signal_column i states.now (from + j)) }
{
    let n = states.len().saturating_sub(from);
    if 64 <= n {
        return whole_word(states, i, from);
    }
    if n == 0 {
        return 0;
    }
    part_word(states, i, from, n)
}

// The same of a trace in two parts, whose state at `from` is in the older one.
fn joint_word(older: &[u32], newer: &[u32], i: usize, from: usize) -> u64
    requires { (i ≤ max_signal) × (from < length older.now) }
    ensures { result ≡ number 64 (λ j. signal_column i (older.now ++ newer.now) (from + j)) }
{
    let k = older.len() - from;
    if 64 <= k {
        return whole_word(older, i, from);
    }
    let low = part_word(older, i, from, k);
    let high = part_word(newer, i, 0, newer.len().min(64 - k));
    low | high << k
}

// Word w of a signal's column.
fn signal_word(older: &[u32], newer: &[u32], i: usize, w: usize) -> u64
    requires { (i ≤ max_signal) × (w < register_words) }
    ensures { WordOf (signal_column i (older.now ++ newer.now)) w result }
{
    let from = 64 * w;
    let m = older.len();
    if m <= from {
        return last_word(newer, i, from - m);
    }
    joint_word(older, newer, i, from)
}

// ---- the words of a register

// The `count` words from `at` on become those of the states from `from` on.
fn whole_words(s: &mut [u64], at: usize, count: usize, states: &[u32], i: usize, from: usize)
    requires { (i ≤ max_signal) × (at + count ≤ length s.old) × (64 * count ≤ length states.now - from) }
    ensures { Swept at (λ t. signal_column i states.now (from + t)) count s.old s.new }
{
    // w is also the place of the states.
    for w in 0..count {
        s[at + w] = whole_word(states, i, from + 64 * w);
    }
}

// The `count` words from `at` on become those of the column, whatever states they have.
fn other_words(s: &mut [u64], at: usize, count: usize, older: &[u32], newer: &[u32], i: usize)
    requires { (i ≤ max_signal) × (at + count ≤ length s.old) × (at + count ≤ register_words) }
    ensures { Swept at (λ t. signal_column i (older.now ++ newer.now) (64 * at + t)) count s.old s.new }
{
    // w is also the place of the column.
    for w in 0..count {
        s[at + w] = signal_word(older, newer, i, at + w);
    }
}

// How many words of 64 the states from `from` on fill, at most `room`.
fn filled_words(states: usize, from: usize, room: usize) -> usize
    ensures { result ≡ min room ((states - from) / 64) }
{
    room.min(states.saturating_sub(from) / 64)
}

// The words that the older part fills, and the one after them, in which it ends: how many they are, at most `words`.
fn older_words(s: &mut [u64], words: usize, older: &[u32], newer: &[u32], i: usize) -> usize
    requires { (i ≤ max_signal) × (words ≤ length s.old) × (words ≤ register_words) }
    ensures { (result ≡ min words (length older.now / 64 + 1)) × Swept 0 (signal_column i (older.now ++ newer.now)) result s.old s.new }
{
    let a = filled_words(older.len(), 0, words);
    let b = words.min(a + 1);
    whole_words(s, 0, a, older, i, 0);
    other_words(s, a, b - a, older, newer, i);
    b
}

// The words from the next one on, up to `words`: those that the newer part fills, and the rest.
fn newer_words(s: &mut [u64], at: usize, words: usize, older: &[u32], newer: &[u32], i: usize)
    requires { (i ≤ max_signal) × (words ≤ length s.old) × (words ≤ register_words) × (at ≡ min words (length older.now / 64 + 1)) }
    ensures { Swept at (λ t. signal_column i (older.now ++ newer.now) (64 * at + t)) (words - at) s.old s.new }
{
    let from = (64 * at).saturating_sub(older.len());
    let c = filled_words(newer.len(), from, words - at);
    let b = at + c;
    whole_words(s, at, c, newer, i, from);
    other_words(s, b, words - b, older, newer, i);
}

// Bit t of the first register becomes bit i of state t; past the last signal every bit is clear.
pub fn pack_signal(s: &mut [u64], older: &[u32], newer: &[u32], i: usize)
    ensures { SignalPacked i (min register_words (length s.old)) (older.now ++ newer.now) s.old s.new }
{
    let words = REGISTER_WORDS.min(s.len());
    if SIGNALS <= i {
        column::fill(&mut s[0..words], 0);
        return;
    }
    let at = older_words(s, words, older, newer, i);
    newer_words(s, at, words, older, newer, i);
}
