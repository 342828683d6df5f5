// The operators on registers of one slice, m words each: those of the operands at a and c, that of the result at b. Where they would overlap or not fit, or
// the interval of F, G, U or R is refused, the slice stays as it was.
#![tactic(auto)]

ghost use Rattle.std.specs.Fn.{FnOnceReturnsAtMut};
ghost use Rattle.std.specs.Prelude.{◌≡◌, ℕ, Bool, ◌&&◌, ◌||◌, not, ◌++◌, ◌+◌, ◌-◌, leb, length};
ghost use Rattle.lists.specs.Bits.{bit_at};
ghost use Rattle.lists.specs.Choice.{pick};
ghost use Rattle.interval.specs.Parts.{bad_interval, parts};
ghost use Rattle.column.specs.Column.{register, lay, Laid};
ghost use Rattle.pair.specs.Pair.{both, IntoSecond};
ghost use Rattle.operators.specs.Operators.{one_fits, copy_fits, two_fit, four_fit, signal_laid, fill_laid, copy_laid, not_laid, and_laid, or_laid, some_laid, all_laid, whole_laid, until_laid, release_laid, whole_release_laid, worked, Operand, Turns, Reaches};

// Where the registers of U and R begin, and how many words each has: those of the operands and of the result, and behind it one for a copy of the left
// operand and one to work in.
#[derive(Clone, Copy, Debug, PartialEq, Eq)]
pub struct Places {
    pub left: usize,
    pub right: usize,
    pub result: usize,
    pub copy: usize,
    pub work: usize,
    pub words: usize,
}

// ---- tests

// Whether a register of m words at a ends at b or before.
fn apart(a: usize, b: usize, m: usize) -> bool
    ensures { result ≡ leb (a + m) b }
{
    a <= b && m <= b - a
}

// Whether the registers at a and b fit into `len` words.
fn one_fits(a: usize, b: usize, m: usize, len: usize) -> bool
    ensures { result ≡ one_fits a b m len }
{
    apart(a, b, m) & apart(b, len, m)
}

// The same with one more operand at c.
fn two_fit(a: usize, c: usize, b: usize, m: usize, len: usize) -> bool
    ensures { result ≡ two_fit a c b m len }
{
    one_fits(a, b, m, len) & apart(c, b, m)
}

// The registers of U and R.
fn four_fit(p: Places, len: usize) -> bool
    ensures { result ≡ four_fit p.left p.right p.result p.copy p.work p.words len }
{
    two_fit(p.left, p.right, p.result, p.words, p.copy)
        & apart(p.copy, p.work, p.words)
        & apart(p.work, len, p.words)
}

// ---- steps

// Bit t of the register at b becomes bit t of the register at a.
fn load(s: &mut [u64], a: usize, b: usize, m: usize)
    requires { Operand a b m s.old }
    ensures { Laid b m (bit_at (register a m s.old)) s.old s.new }
{
    let e = b + m;
    pair::copy_into(&mut s[a..e], b - a);
}

// The same, where the register at b lies before that at a.
fn load_back(s: &mut [u64], a: usize, b: usize, m: usize)
    requires { Operand b a m s.old }
    ensures { Laid b m (bit_at (register a m s.old)) s.old s.new }
{
    let e = a + m;
    pair::copy_back(&mut s[b..e], a - b);
}

// ---- no operand

// Bit t becomes signal i in state t of `older` and then `newer`, in as many words as a register has.
pub fn put_signal(s: &mut [u64], b: usize, m: usize, older: &[u32], newer: &[u32], i: u8)
    ensures { s.new ≡ pick (leb (b + m) (length s.old)) (signal_laid b m (older.now ++ newer.now) i s.old) s.old }
{
    if !apart(b, s.len(), m) {
        return;
    }
    let e = b + m;
    signal::pack_signal(&mut s[b..e], older, newer, i as usize);
}

// The bits below n are set, and the others are clear.
pub fn put_fill(s: &mut [u64], b: usize, m: usize, n: usize)
    ensures { s.new ≡ pick (leb (b + m) (length s.old)) (fill_laid b m n s.old) s.old }
{
    if !apart(b, s.len(), m) {
        return;
    }
    let e = b + m;
    column::fill(&mut s[b..e], n);
}

// ---- registers bit by bit

// Bit t becomes the operand's, which may lie on either side of the result.
pub fn put_copy(s: &mut [u64], a: usize, b: usize, m: usize)
    ensures { s.new ≡ pick (copy_fits a b m (length s.old)) (copy_laid a b m s.old) s.old }
{
    if one_fits(a, b, m, s.len()) {
        load(s, a, b, m);
        return;
    }
    if !one_fits(b, a, m, s.len()) {
        return;
    }
    load_back(s, a, b, m);
}

// The bits below n are the operand's flipped, and the others are clear.
pub fn put_not(s: &mut [u64], a: usize, b: usize, m: usize, n: usize)
    ensures { s.new ≡ pick (one_fits a b m (length s.old)) (not_laid a b m n s.old) s.old }
{
    if !one_fits(a, b, m, s.len()) {
        return;
    }
    let e = b + m;
    load(s, a, b, m);
    column::complement(&mut s[b..e], n);
}

// The register at b becomes a copy of the left operand's, and then what `join` makes of both operands.
fn put_pair<F: FnOnce(&mut [u64], usize)>(
    s: &mut [u64],
    a: usize,
    c: usize,
    b: usize,
    m: usize,
    join: F,
)
    requires { F.IsAlwaysCallable join }
    ensures { (op : Bool → Bool → Bool) → ((part left : _) (d : ℕ) → F.post join part d tt left → IntoSecond (both op) d part.now left.now) → s.new ≡ pick (two_fit a c b m (length s.old)) (lay b m (both op (register a m s.old) (register c m s.old)) s.old) s.old }
{
    if !two_fit(a, c, b, m, s.len()) {
        return;
    }
    let e = b + m;
    load(s, a, b, m);
    join(&mut s[c..e], b - c);
}

// Bit t is set where it is in both operands.
pub fn put_and(s: &mut [u64], a: usize, c: usize, b: usize, m: usize)
    ensures { s.new ≡ pick (two_fit a c b m (length s.old)) (and_laid a c b m s.old) s.old }
{
    put_pair(s, a, c, b, m, |part, d| pair::and_into(part, d));
}

// Bit t is set where it is in one of the operands.
pub fn put_or(s: &mut [u64], a: usize, c: usize, b: usize, m: usize)
    ensures { s.new ≡ pick (two_fit a c b m (length s.old)) (or_laid a c b m s.old) s.old }
{
    put_pair(s, a, c, b, m, |part, d| pair::or_into(part, d));
}

// ---- windows

// The register at b becomes what `run` makes of a copy of the operand's.
fn put_window<F: FnOnce(&mut [u64])>(
    s: &mut [u64],
    a: usize,
    b: usize,
    m: usize,
    lo: u16,
    hi: u16,
    run: F,
)
    requires { F.IsAlwaysCallable run }
    ensures { (op : ℕ → (ℕ → Bool) → ℕ → Bool) → Turns (λ xs ys. FnOnceReturnsAtMut F.FnOnce run xs tt ys) (bad_interval lo hi) op → s.new ≡ pick (one_fits a b m (length s.old) && not (bad_interval lo hi)) (lay b m (op m (bit_at (register a m s.old))) s.old) s.old }
{
    let fit = one_fits(a, b, m, s.len()) & !interval::bad_interval(lo, hi);
    if !fit {
        return;
    }
    let e = b + m;
    load(s, a, b, m);
    run(&mut s[b..e]);
}

// F: bit t becomes whether one of the operand's bits from t + lo to t + hi is set.
pub fn put_some(s: &mut [u64], a: usize, b: usize, m: usize, lo: u16, hi: u16)
    ensures { s.new ≡ pick (one_fits a b m (length s.old) && not (bad_interval lo hi)) (some_laid a b m lo hi s.old) s.old }
{
    put_window(s, a, b, m, lo, hi, |part| windows::some_later(part, lo, hi));
}

// G: bit t becomes whether all of the operand's bits from t + lo to t + hi that lie below n are set; from n on every bit is clear.
pub fn put_all(s: &mut [u64], a: usize, b: usize, m: usize, lo: u16, hi: u16, n: usize)
    ensures { s.new ≡ pick (one_fits a b m (length s.old) && not (bad_interval lo hi)) (all_laid a b m lo hi n s.old) s.old }
{
    put_window(
        s,
        a,
        b,
        m,
        lo,
        hi,
        |part| windows::all_later(part, lo, hi, n),
    );
}

// F's no and G's yes while a trace grows: bit t becomes whether all of the operand's bits from t + lo to t + hi are set, those past the words included, which
// are clear.
pub fn put_whole(s: &mut [u64], a: usize, b: usize, m: usize, lo: u16, hi: u16)
    ensures { s.new ≡ pick (one_fits a b m (length s.old) && not (bad_interval lo hi)) (whole_laid a b m lo hi s.old) s.old }
{
    put_window(
        s,
        a,
        b,
        m,
        lo,
        hi,
        |part| windows::whole_later(part, lo, hi),
    );
}

// The result's register becomes a copy of the right operand's, and then what `run` makes of it and of a copy of the left operand's.
fn put_reach<F: FnOnce(&mut [u64], usize, usize)>(
    s: &mut [u64],
    p: Places,
    lo: u16,
    hi: u16,
    run: F,
)
    requires { F.IsAlwaysCallable run }
    ensures { (Q : ℕ → (ℕ → Bool) → ℕ → Bool) (op : ℕ → (ℕ → Bool) → (ℕ → Bool) → ℕ → Bool) (moves : ℕ → (ℕ → Bool) → ℕ → Bool) → ((part left : _) (d e : ℕ) → F.post run part d e tt left → Reaches (bad_interval lo hi) Q op moves (parts (hi - lo)) d e part.now left.now) → s.new ≡ pick (four_fit p.left p.right p.result p.copy p.work p.words (length s.old) && not (bad_interval lo hi)) (worked Q p.result p.copy p.work p.words (parts (hi - lo)) (op p.words (bit_at (register p.left p.words s.old)) (bit_at (register p.right p.words s.old))) (moves p.words (bit_at (register p.left p.words s.old))) s.old) s.old }
{
    let fit = four_fit(p, s.len()) & !interval::bad_interval(lo, hi);
    if !fit {
        return;
    }
    let b = p.result;
    let e = p.work + p.words;
    load(s, p.right, b, p.words);
    load(s, p.left, p.copy, p.words);
    run(&mut s[b..e], p.copy - b, p.work - b);
}

// U of the operands.
pub fn put_until(s: &mut [u64], p: Places, lo: u16, hi: u16)
    ensures { s.new ≡ pick (four_fit p.left p.right p.result p.copy p.work p.words (length s.old) && not (bad_interval lo hi)) (until_laid p.left p.right p.result p.copy p.work p.words lo hi s.old) s.old }
{
    put_reach(
        s,
        p,
        lo,
        hi,
        |part, d, e| windows::until_later(part, d, e, lo, hi),
    );
}

// R of the operands, columns of n bits.
pub fn put_release(s: &mut [u64], p: Places, lo: u16, hi: u16, n: usize)
    ensures { s.new ≡ pick (four_fit p.left p.right p.result p.copy p.work p.words (length s.old) && not (bad_interval lo hi)) (release_laid p.left p.right p.result p.copy p.work p.words lo hi n s.old) s.old }
{
    put_reach(
        s,
        p,
        lo,
        hi,
        |part, d, e| windows::release_later(part, d, e, lo, hi, n),
    );
}

// U's no and R's yes while a trace grows: bit t becomes whether each bit of the right operand from t + lo to t + hi is set or has a set bit of the left one
// before it, from t + lo on; those past the words count too, which are clear.
pub fn put_whole_release(s: &mut [u64], p: Places, lo: u16, hi: u16)
    ensures { s.new ≡ pick (four_fit p.left p.right p.result p.copy p.work p.words (length s.old) && not (bad_interval lo hi)) (whole_release_laid p.left p.right p.result p.copy p.work p.words lo hi s.old) s.old }
{
    put_reach(
        s,
        p,
        lo,
        hi,
        |part, d, e| windows::whole_release_later(part, d, e, lo, hi),
    );
}
