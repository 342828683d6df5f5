// Two registers in one slice, which begins with the first and ends with the second. The second begins `d` words in: each has as many words as there are
// from d on, and at most d.
#![tactic(auto)]

ghost use Rattle.std.specs.Prelude.{◌≡◌, Bool, ◌||◌, ◌&&◌, ◌-◌, min};
ghost use Rattle.lists.specs.Bits.{bit_at};
ghost use Rattle.column.specs.Column.{Bitwise};
ghost use Rattle.pair.specs.Pair.{both, IntoSecond, IntoFirst};

// How many words each of two registers has in a slice of `len`.
pub fn room_of(len: usize, d: usize) -> usize
    ensures { result ≡ min (len - d) d }
{
    len.saturating_sub(d).min(d)
}

// Bit t of the second register becomes bit t of the first.
pub fn copy_into(s: &mut [u64], d: usize)
    ensures { IntoSecond (λ b a. bit_at a) d s.old s.new }
{
    let words = room_of(s.len(), d);
    if words > 0 {
        s.copy_within(..words, d);
    }
}

// Bit t of the first register becomes bit t of the second.
pub fn copy_back(s: &mut [u64], d: usize)
    ensures { IntoFirst (λ a b. bit_at b) d s.old s.new }
{
    let words = room_of(s.len(), d);
    if words > 0 {
        s.copy_within(d..d + words, 0);
    }
}

// Each word of the second register becomes what `f` makes of it and of that word of the first.
fn into_second<F: Fn(u64, u64) -> u64>(s: &mut [u64], d: usize, f: F)
    requires { F.IsAlwaysCallable f }
    ensures { (op : Bool → Bool → Bool) → Bitwise (F.post f) op → IntoSecond (both op) d s.old s.new }
{
    let words = room_of(s.len(), d);
    // By index, since both registers lie in one slice.
    for w in 0..words {
        s[d + w] = f(s[d + w], s[w]);
    }
}

// Bit t of the second register becomes that bit and bit t of the first.
pub fn and_into(s: &mut [u64], d: usize)
    ensures { IntoSecond (both ◌&&◌) d s.old s.new }
{
    into_second(s, d, |own, other| own & other);
}

// Bit t of the second register becomes that bit or bit t of the first.
pub fn or_into(s: &mut [u64], d: usize)
    ensures { IntoSecond (both ◌||◌) d s.old s.new }
{
    into_second(s, d, |own, other| own | other);
}
