// Two splittings of an interval: its width into parts of 2^k - 1, each as large as fits in what is left; and its length into a power of two and what is
// left over.
#![tactic(auto)]

ghost use Rattle.std.specs.Prelude.{◌≡◌, ◌+◌, ◌≤◌, length};
ghost use Rattle.std.proofs.lemmas.List.Edits.{sets};
ghost use Rattle.limits.specs.Limits.{max_interval, max_parts};
ghost use Rattle.interval.specs.Parts.{top, left, parts, bad_interval, split_told, splitting};
ghost use Rattle.interval.specs.Doubling.{moves_for, double_told, doubling};

use limits::{MAX_INTERVAL, MAX_PARTS};
use refusals::Refusal;

// The parts k in order, unused places 0, and their count.
#[derive(Clone, Copy, Debug, PartialEq, Eq)]
pub struct Parts {
    pub ks: [u8; MAX_PARTS],
    pub count: usize,
}

// The exponent of the largest power of two that is at most the length, what the length has beyond it, and how many moves make a window of the
// length.
#[derive(Clone, Copy, Debug, PartialEq, Eq)]
pub struct Moves {
    pub exponent: u8,
    pub leftover: u16,
    pub count: u8,
}

// The largest k with 2^k - 1 at most rest: one less than the bits of rest + 1.
fn largest(rest: u32) -> u32
    requires { rest ≤ max_interval }
    ensures { (result ≡ top rest) × (result ≤ max_parts) }
{
    31 - u32::leading_zeros(rest + 1)
}

// What is left of rest without its largest part, that of k.
fn without(rest: u32, k: u32) -> u32
    requires { (rest ≤ max_interval) × (k ≡ top rest) }
    ensures { result ≡ left rest }
{
    rest - ((1 << k) - 1)
}

// The parts of rest, behind those that were found.
fn fill(rest: u32, found: Parts) -> Parts
    requires { (rest ≤ max_interval) × (found.count + length (parts rest) ≤ max_parts) }
    ensures { (result.ks ≡ sets found.ks found.count (parts rest)) × (result.count ≡ found.count + length (parts rest)) }
{
    if rest == 0 {
        return found;
    }
    let k = largest(rest);
    let n = found.count;
    let mut ks = found.ks;
    ks[n] = k as u8;
    let count = n + 1;
    fill(without(rest, k), Parts { ks, count })
}

// Whether [lo, hi] is refused.
pub fn bad_interval(lo: u16, hi: u16) -> bool
    ensures { result ≡ bad_interval lo hi }
{
    (hi < lo) | (MAX_INTERVAL < hi)
}

// The splitting of [lo, hi].
pub fn split(lo: u16, hi: u16) -> Result<Parts, Refusal>
    ensures { split_told result ≡ splitting lo hi }
{
    if bad_interval(lo, hi) {
        return Err(Refusal::Interval);
    }
    let none = Parts {
        ks: [0; MAX_PARTS],
        count: 0,
    };
    Ok(fill((hi - lo) as u32, none))
}

// How many moves there are: k doublings and, with a leftover, one move more.
fn moves_for(k: u32, leftover: u32) -> u32
    requires { k ≤ max_parts }
    ensures { (result ≡ moves_for k leftover) × (result ≤ max_parts + 1) }
{
    if leftover == 0 {
        return k;
    }
    k + 1
}

// The shorter splitting of [lo, hi], for F and G.
pub fn double(lo: u16, hi: u16) -> Result<Moves, Refusal>
    ensures { double_told result ≡ doubling lo hi }
{
    if bad_interval(lo, hi) {
        return Err(Refusal::Interval);
    }
    let v = (hi - lo) as u32;
    let k = largest(v);
    let leftover = without(v, k);
    let count = moves_for(k, leftover);
    Ok(Moves {
        exponent: k as u8,
        leftover: leftover as u16,
        count: count as u8,
    })
}
