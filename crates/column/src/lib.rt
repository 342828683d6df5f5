// Passes over one register, a column of bits on words of 64 that is the whole slice: bit t of a register is bit t % 64 of its word t / 64.
#![tactic(auto)]

ghost use Rattle.std.specs.Prelude.{◌≡◌, Bool, length, replicate};
ghost use Rattle.lists.specs.Bits.{below, bit_at};
ghost use Rattle.column.specs.Column.{filled, flipped, masked, Turned, WordOf, Bitwise};

// Word w of the column that has the bits below n set.
fn below_word(n: usize, w: usize) -> u64
    ensures { WordOf (filled n) w result }
{
    let q = n / 64;
    if w < q {
        return 0xffff_ffff_ffff_ffff;
    }
    if q < w {
        return 0;
    }
    (1 << (n % 64)) - 1
}

// Each word becomes what `f` makes of the bits below n and of it.
fn mask<F: Fn(u64, u64) -> u64>(s: &mut [u64], n: usize, f: F)
    requires { F.IsAlwaysCallable f }
    ensures { (op : Bool → Bool → Bool) → Bitwise (F.post f) op → Turned (masked op n s.old) s.old s.new }
{
    // By index, since w is also the place of the mask, and an adapter of `iter_mut` says nothing of the slice afterwards.
    for w in 0..s.len() {
        s[w] = f(below_word(n, w), s[w]);
    }
}

// The bits below n are flipped, and the others are clear.
pub fn complement(s: &mut [u64], n: usize)
    ensures { Turned (flipped n s.old) s.old s.new }
{
    mask(s, n, |below, word| below & !word);
}

// The bits below n stay, and the others are clear.
pub fn keep_below(s: &mut [u64], n: usize)
    ensures { Turned (below n (bit_at s.old)) s.old s.new }
{
    mask(s, n, |below, word| below & word);
}

// The bits below n are set, and the others are clear.
pub fn fill(s: &mut [u64], n: usize)
    ensures { Turned (filled n) s.old s.new }
{
    mask(s, n, |below, _word| below);
}

// Every word becomes 0.
pub fn clear(s: &mut [u64])
    ensures { s.new ≡ replicate (length s.old) 0 }
{
    s.fill(0);
}
