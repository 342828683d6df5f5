// A register's column moved down, alone and with itself. `bridge` and `sustain` take two registers in one slice, as crate pair has them; the others take the
// whole slice as one.
#![tactic(auto)]

ghost use Rattle.std.specs.Prelude.{◌≡◌, Bool, ◌+◌, ◌-◌, ◌/◌, ◌%◌, ◌≤◌, ◌<◌, length};
ghost use Rattle.column.specs.Column.{Turned, WordOf, Swept, register};
ghost use Rattle.pair.specs.Pair.{IntoFirst};
ghost use Rattle.moves.specs.Moves.{moved, joined, met, bridged, sustained, with_moved, BitwiseThree};

// Word w of a register's column moved down, where both words that it comes from are there; and its last word. The register has the first `words` words.
fn near_word(s: &[u64], words: usize, by: usize, w: usize) -> u64
    requires { (words ≤ length s.now) × (w + by / 64 + 1 < words) }
    ensures { WordOf (moved by (register 0 words s.now)) w result }
{
    let q = w + by / 64;
    let r = by % 64;
    s[q] >> r | s[q + 1] << 1 << (63 - r)
}

fn last_word(s: &[u64], words: usize, by: usize, w: usize) -> u64
    requires { (words ≤ length s.now) × (w + by / 64 + 1 ≡ words) }
    ensures { WordOf (moved by (register 0 words s.now)) w result }
{
    s[w + by / 64] >> (by % 64)
}

// The same of every word, where `by` is a number of whole words.
fn whole_word(s: &[u64], words: usize, by: usize, w: usize) -> u64
    requires { (words ≤ length s.now) × (w + by / 64 < words) × (by % 64 ≡ 0) }
    ensures { WordOf (moved by (register 0 words s.now)) w result }
{
    s[w + by / 64]
}

// How many words of a register have bits of its column moved down.
fn words_left(words: usize, by: usize) -> usize
    ensures { result ≡ words - by / 64 }
{
    words.saturating_sub(by / 64)
}

// Those words of the first register become what `f` makes of the word itself, that of the second register, and that of the first one's column moved down.
fn sweep_left<F: Fn(u64, u64, u64) -> u64>(s: &mut [u64], d: usize, words: usize, by: usize, f: F)
    requires callable { F.IsAlwaysCallable f }
    requires room { words ≤ length s.old - d }
    ensures { (op : Bool → Bool → Bool → Bool) → BitwiseThree (F.post f) op → Swept 0 (with_moved op by (register 0 words s.old) (register d words s.old)) (words - by / 64) s.old s.new }
{
    let left = words_left(words, by);
    if left == 0 {
        return;
    }
    let last = left - 1;
    // By index, since each word is made of two others of the same slice.
    for w in 0..last {
        s[w] = f(s[w], s[d + w], near_word(s, words, by, w));
    }
    s[last] = f(s[last], s[d + last], last_word(s, words, by, last));
}

// The same of all its words: past those that are left the column moved down is clear.
fn sweep<F: Fn(u64, u64, u64) -> u64 + Copy>(s: &mut [u64], d: usize, words: usize, by: usize, f: F)
    requires callable { F.IsAlwaysCallable f }
    requires room { words ≤ length s.old - d }
    ensures { (op : Bool → Bool → Bool → Bool) → BitwiseThree (F.post f) op → Swept 0 (with_moved op by (register 0 words s.old) (register d words s.old)) words s.old s.new }
{
    sweep_left(s, d, words, by, f);
    for w in words_left(words, by)..words {
        s[w] = f(s[w], s[d + w], 0);
    }
}

// ---- the whole slice: no second register is looked at

// Bit t becomes bit t + by.
fn move_register(s: &mut [u64], by: usize)
    ensures { Turned (moved by s.old) s.old s.new }
{
    let words = s.len();
    sweep(s, 0, words, by, |_own, _other, moved| moved);
}

// The same, at once where nothing moves.
pub fn move_down(s: &mut [u64], by: usize)
    ensures { Turned (moved by s.old) s.old s.new }
{
    if by == 0 {
        return;
    }
    move_register(s, by);
}

// Bit t becomes bit t and bit t + by.
pub fn meet_moved(s: &mut [u64], by: usize)
    ensures { Turned (met by s.old) s.old s.new }
{
    let words = s.len();
    sweep(s, 0, words, by, |own, _other, moved| own & moved);
}

// Bit t becomes bit t or bit t + by.
fn join_register(s: &mut [u64], by: usize)
    ensures { Turned (joined by s.old) s.old s.new }
{
    let words = s.len();
    sweep(s, 0, words, by, |own, _other, moved| own | moved);
}

// The same, where `by` is a number of whole words.
fn join_words(s: &mut [u64], by: usize)
    requires { by % 64 ≡ 0 }
    ensures { Turned (joined by s.old) s.old s.new }
{
    let words = s.len();
    let left = words_left(words, by);
    // By index, since each word is made of two of the same slice.
    for w in 0..left {
        s[w] |= whole_word(s, words, by, w);
    }
}

// The same, word by word where `by` is a number of whole words.
pub fn join_moved(s: &mut [u64], by: usize)
    ensures { Turned (joined by s.old) s.old s.new }
{
    if by % 64 == 0 {
        join_words(s, by);
        return;
    }
    join_register(s, by);
}

// ---- two registers

// Bit t of the first register becomes that bit, or bit t of the second and bit t + by of the first.
pub fn bridge(s: &mut [u64], d: usize, by: usize)
    ensures { IntoFirst (bridged by) d s.old s.new }
{
    let words = pair::room_of(s.len(), d);
    sweep(s, d, words, by, |own, other, moved| own | other & moved);
}

// Bit t of the first register becomes that bit, and bit t of the second or bit t + by of the first.
pub fn sustain(s: &mut [u64], d: usize, by: usize)
    ensures { IntoFirst (sustained by) d s.old s.new }
{
    let words = pair::room_of(s.len(), d);
    sweep(s, d, words, by, |own, other, moved| own & (other | moved));
}
