// F, G, U and R on registers, columns of bits on words of 64: windows of 2 ^ k bits by doubling, those of F and G widened by what is left over, those of U
// and R part by part, and begun later.
#![tactic(auto)]

ghost use Rattle.std.specs.Prelude.{◌≡◌, Bool, ◌||◌, ◌&&◌, ℕ, ◌+◌, ◌-◌, ◌^◌, ◌≤◌, ◌<◌, length, get_or};
ghost use Rattle.lists.specs.Bits.{bit_at, pack};
ghost use Rattle.lists.specs.Choice.{pick};
ghost use Rattle.interval.specs.Parts.{bad_interval};
ghost use Rattle.column.specs.Column.{register, flipped, Turned};
ghost use Rattle.pair.specs.Pair.{IntoFirst};
ghost use Rattle.moves.specs.Moves.{moved};
ghost use Rattle.windows.specs.Laws.{Unary, Binary};
ghost use Rattle.windows.specs.Windows.{span, some_later, all_later, whole_later, later, third, misplaced, until_later, release_later, whole_release_later, Three};
ghost use Rattle.windows.specs.Code.Steps.{Two, Within, by_parts};

// ---- one register, the whole slice

// How two windows that overlap or meet are made one.
trait Joining {
    ghost join: { Bool → Bool → Bool };

    // Each bit is joined with the one that stands `by` bits later.
    fn join_moved(s: &mut [u64], by: usize)
        ensures { Turned (λ t. join (bit_at s.old t) (bit_at s.old (t + by))) s.old s.new };
}

// One of the bits is set.
struct AnyBit;

impl Joining for AnyBit {
    ghost join = { ◌||◌ };

    fn join_moved(s: &mut [u64], by: usize) {
        moves::join_moved(s, by);
    }
}

// All of the bits are set.
struct EveryBit;

impl Joining for EveryBit {
    ghost join = { ◌&&◌ };

    fn join_moved(s: &mut [u64], by: usize) {
        moves::meet_moved(s, by);
    }
}

// Bit t becomes that of the window of the 2 ^ k bits from t on.
fn within<J: Joining>(s: &mut [u64], k: usize)
    requires { k < 64 }
    ensures { (W : ℕ → ℕ → ℕ → (ℕ → Bool) → ℕ → Bool) → Unary W J.join → Turned (W (span s.old) 0 (2 ^ k - 1) (bit_at s.old)) s.old s.new }
{
    for j in 0..k {
        J::join_moved(s, 1 << j);
    }
}

// Bit t becomes that of the window of the bits from t + lo to t + hi. Nothing changes where the interval is refused.
fn later<J: Joining>(s: &mut [u64], lo: u16, hi: u16)
    ensures { (W : ℕ → ℕ → ℕ → (ℕ → Bool) → ℕ → Bool) → Unary W J.join → s.new ≡ pick (bad_interval lo hi) s.old (pack (length s.old) (W (span s.old) lo hi (bit_at s.old))) }
{
    let Ok(cut) = interval::double(lo, hi) else {
        return;
    };
    let by = cut.leftover as usize;
    moves::move_down(s, lo as usize);
    within::<J>(s, cut.exponent as usize);
    if by > 0 {
        J::join_moved(s, by);
    }
}

// F: bit t becomes whether one of the bits from t + lo to t + hi is set. Nothing changes where the interval is refused.
pub fn some_later(s: &mut [u64], lo: u16, hi: u16)
    ensures { s.new ≡ pick (bad_interval lo hi) s.old (some_later lo hi s.old) }
{
    later::<AnyBit>(s, lo, hi);
}

// Bit t becomes whether all of the bits from t + lo to t + hi are set, those past the words included, which are clear: F's no and G's yes while a trace
// grows. Nothing changes where the interval is refused.
pub fn whole_later(s: &mut [u64], lo: u16, hi: u16)
    ensures { s.new ≡ pick (bad_interval lo hi) s.old (whole_later lo hi s.old) }
{
    later::<EveryBit>(s, lo, hi);
}

// G: bit t becomes whether all of the bits from t + lo to t + hi that lie below n are set. Nothing changes where the interval is refused.
pub fn all_later(s: &mut [u64], lo: u16, hi: u16, n: usize)
    ensures { s.new ≡ pick (bad_interval lo hi) s.old (all_later lo hi n s.old) }
{
    if interval::bad_interval(lo, hi) {
        return;
    }
    column::complement(s, n);
    some_later(s, lo, hi);
    column::complement(s, n);
}

// ---- U and R: the right operand in the first register of a slice, the left one in the second, d words in

// How such windows double: what becomes of the first register by the second. The second's bits are joined.
trait Reaching: Joining {
    ghost step: { Bool → Bool → Bool → Bool };

    fn reach(s: &mut [u64], d: usize, by: usize)
        ensures { IntoFirst (λ c e t. step (bit_at c t) (bit_at e t) (bit_at c (t + by))) d s.old s.new };
}

// U: the second window counts where the left operand holds at every bit of the first.
impl Reaching for EveryBit {
    ghost step = { λ x y z. x || y && z };

    fn reach(s: &mut [u64], d: usize, by: usize) {
        moves::bridge(s, d, by);
    }
}

// R over the whole interval: the second window counts where the left operand holds at no bit of the first.
impl Reaching for AnyBit {
    ghost step = { λ x y z. x && (y || z) };

    fn reach(s: &mut [u64], d: usize, by: usize) {
        moves::sustain(s, d, by);
    }
}

// Bit t of the first register becomes that of the window of the 2 ^ k bits from t on. The second is used up.
fn reach_within<R: Reaching>(s: &mut [u64], d: usize, k: usize)
    requires { (d ≤ length s.old) × (length s.old ≤ d + d) × (k < 64) }
    ensures { (W : ℕ → ℕ → ℕ → (ℕ → Bool) → (ℕ → Bool) → ℕ → Bool) (Q : ℕ → (ℕ → Bool) → ℕ → Bool) → Binary W Q R.step R.join → Within W Q d k s.old s.new }
{
    for j in 0..k {
        R::reach(s, d, 1 << j);
        R::join_moved(&mut s[d..], 1 << j);
    }
}

// The next functions take a slice with a third register, to work in, e words in. Each of the three has as many words as there are from e on.

// Whether in a slice of `len` words one register does not end before the next begins, or the slice ends before e.
fn misplaced(len: usize, d: usize, e: usize) -> bool
    ensures { result ≡ misplaced d e len }
{
    e < d || len < e || d < len - e || e - d < len - e
}

// The first register's windows are widened by 2 ^ k - 1 bits for each part k.
fn reach_parts<R: Reaching>(s: &mut [u64], d: usize, e: usize, ks: &[u8])
    requires three { Three d e s.old }
    requires small { (i : ℕ) → i < length ks.now → get_or ks.now i 0 < 64 }
    ensures { (W : ℕ → ℕ → ℕ → (ℕ → Bool) → (ℕ → Bool) → ℕ → Bool) (Q : ℕ → (ℕ → Bool) → ℕ → Bool) → Binary W Q R.step R.join → s.new ≡ by_parts W Q d e (length ks.now) ks.now s.old }
{
    for k in ks {
        pair::copy_into(&mut s[d..], e - d);
        reach_within::<R>(s, e, *k as usize);
    }
}

// The first two registers are moved down.
fn two_down(s: &mut [u64], d: usize, e: usize, by: usize)
    requires { Three d e s.old }
    ensures { Two d (third e s.old) (moved by (register 0 (third e s.old) s.old)) (moved by (register d (third e s.old) s.old)) s.old s.new }
{
    let m = s.len() - e;
    let end = d + m;
    moves::move_down(&mut s[0..m], by);
    moves::move_down(&mut s[d..end], by);
}

// The first n bits of the first two registers are flipped, and the others are clear.
fn two_flipped(s: &mut [u64], d: usize, e: usize, n: usize)
    requires { Three d e s.old }
    ensures { Two d (third e s.old) (flipped n (register 0 (third e s.old) s.old)) (flipped n (register d (third e s.old) s.old)) s.old s.new }
{
    let m = s.len() - e;
    let end = d + m;
    column::complement(&mut s[0..m], n);
    column::complement(&mut s[d..end], n);
}

// Bit t of the first register becomes that of the window of the bits from t + lo to t + hi. Nothing changes where the interval is refused or the registers
// are misplaced.
fn reach_later<R: Reaching>(s: &mut [u64], d: usize, e: usize, lo: u16, hi: u16)
    ensures { (W : ℕ → ℕ → ℕ → (ℕ → Bool) → (ℕ → Bool) → ℕ → Bool) (Q : ℕ → (ℕ → Bool) → ℕ → Bool) → Binary W Q R.step R.join → s.new ≡ pick (bad_interval lo hi || misplaced d e (length s.old)) s.old (later W Q d e lo hi s.old) }
{
    if misplaced(s.len(), d, e) {
        return;
    }
    let Ok(cut) = interval::split(lo, hi) else {
        return;
    };
    two_down(s, d, e, lo as usize);
    reach_parts::<R>(s, d, e, &cut.ks[..cut.count]);
}

// U: bit t of the first register becomes whether it is set at one of the bits from t + lo to t + hi, with that of the second set from t + lo on and before.
// Nothing changes where the interval is refused or the registers are misplaced.
pub fn until_later(s: &mut [u64], d: usize, e: usize, lo: u16, hi: u16)
    ensures { s.new ≡ pick (bad_interval lo hi || misplaced d e (length s.old)) s.old (until_later d e lo hi s.old) }
{
    reach_later::<EveryBit>(s, d, e, lo, hi);
}

// The same registers for U's no and R's yes while a trace grows: bit t of the first one becomes whether each of its bits from t + lo to t + hi is set or has a
// set bit of the second before it, from t + lo on; those past the words count too, which are clear. Nothing changes in the same cases.
pub fn whole_release_later(s: &mut [u64], d: usize, e: usize, lo: u16, hi: u16)
    ensures { s.new ≡ pick (bad_interval lo hi || misplaced d e (length s.old)) s.old (whole_release_later d e lo hi s.old) }
{
    reach_later::<AnyBit>(s, d, e, lo, hi);
}

// R: the same of the registers' opposites below n, and its opposite below n. Nothing changes in the same cases.
pub fn release_later(s: &mut [u64], d: usize, e: usize, lo: u16, hi: u16, n: usize)
    ensures { s.new ≡ pick (bad_interval lo hi || misplaced d e (length s.old)) s.old (release_later d e lo hi n s.old) }
{
    if interval::bad_interval(lo, hi) | misplaced(s.len(), d, e) {
        return;
    }
    let m = s.len() - e;
    two_flipped(s, d, e, n);
    until_later(s, d, e, lo, hi);
    column::complement(&mut s[0..m], n);
}
