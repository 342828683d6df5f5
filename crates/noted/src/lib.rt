// The session's calls with the status registers beside them: each makes the session's call as it is, and notes what it came to.
#![tactic(auto)]

ghost use Rattle.std.specs.Prelude.{◌≡◌, [], ◌-◌, ◌≤◌, Ok};
ghost use Rattle.limits.specs.Limits.{max_seen};
ghost use Rattle.lists.specs.Sequence.{ticks};
ghost use Rattle.lists.specs.Bits.{bit_at};
ghost use Rattle.mltl.specs.Mltl.{delay, old_delay};
ghost use Rattle.table.specs.Nodes.{wait_of};
ghost use Rattle.table.specs.Sound.{rule_delay_by};
ghost use Rattle.session.specs.Session.{opening_told, opening, answer_told, feeding, closing_by, closing, closing_old};
ghost use Rattle.narrow.specs.Narrow.{wide_of, widening};
ghost use Rattle.registers.specs.declared.Kind.{Kind};
ghost use Rattle.registers.specs.Registers.{outcome_told, after_call};
ghost use Rattle.noted.specs.Noted.{place_of_no, outcome_of, open_outcome, widen_outcome, given, feed_outcome, close_outcome};
ghost use Rattle.noted.specs.Code.Steps.{Countable};

use limits::STATUS_BYTES;
use narrow::NarrowSession;
use refusals::Refusal;
use registers::{Kind, Outcome, Verdicts};
use session::{Given, Session};
use table::Table;

// The place of the first no among so many verdicts; their count where all are yes.
fn first_no(words: &[u64], count: usize) -> usize
    ensures { result ≡ place_of_no (ticks (bit_at words.now) count) }
{
    for w in 0..words.len() {
        let left = count - 64 * w;
        let yes = words[w].trailing_ones() as usize;
        if yes < 64 || left <= 64 {
            return 64 * w + yes.min(left);
        }
    }
    64 * words.len()
}

// How many verdicts a fit session has given; where `old`, by the delay before A5.
fn given_by(old: bool, s: Session) -> u64
    ensures { (result ≡ s.seen - (rule_delay_by (wait_of old) s.table s.rule).delay) × (s.seen ≤ max_seen) }
{
    let d = table::delay_under(old, s.table, s.rule).unwrap_or(0);
    s.seen.saturating_sub(d as u64)
}

// The first `count` verdicts of the words, as an accepted call on the session gave them.
fn verdicts_of(old: bool, s: Session, words: &[u64], count: usize) -> Verdicts
    requires { Countable old s count }
    ensures { (k : Kind) → outcome_told k (Ok result) ≡ outcome_of k 0 (ticks (bit_at words.now) count) (given (wait_of old) s) }
{
    let place = first_no(words, count);
    if place < count {
        Verdicts::No(given_by(old, s) + place as u64)
    } else if 0 < count {
        Verdicts::Yes
    } else {
        Verdicts::Nothing
    }
}

// Notes what an open or a widening came to: neither gives a verdict.
fn note_opening(registers: &mut [u8; STATUS_BYTES], kind: Kind, o: Result<Session, Refusal>)
    ensures { registers.new ≡ after_call (outcome_of kind (opening_told o).number [] 0) registers.old }
{
    let came = match o {
        Ok(_) => Ok(Verdicts::Nothing),
        Err(e) => Err(e),
    };
    registers::note(registers, Outcome::of(kind, came));
}

// Notes what a feed or a close of the session came to, whose verdicts are in the words.
fn note_given(
    registers: &mut [u8; STATUS_BYTES],
    kind: Kind,
    old: bool,
    s: Session,
    r: Result<Given, Refusal>,
    words: &[u64],
)
    requires { Countable old s (answer_told s r).count }
    ensures { registers.new ≡ after_call (outcome_of kind (answer_told s r).number (ticks (bit_at words.now) (answer_told s r).count) (given (wait_of old) s)) registers.old }
{
    let came = match r {
        Ok(g) => Ok(verdicts_of(old, s, words, g.count)),
        Err(e) => Err(e),
    };
    registers::note(registers, Outcome::of(kind, came));
}

// Session::open.
pub fn open(
    registers: &mut [u8; STATUS_BYTES],
    table: Table,
    rule: usize,
) -> Result<Session, Refusal>
    ensures { (opening_told result ≡ opening table rule) × (registers.new ≡ after_call (open_outcome (opening table rule)) registers.old) }
{
    let o = Session::open(table, rule);
    note_opening(registers, Kind::Open, o);
    o
}

// NarrowSession::widen.
pub fn widen(registers: &mut [u8; STATUS_BYTES], narrow: NarrowSession) -> Result<Session, Refusal>
    ensures { (opening_told result ≡ widening (wide_of narrow)) × (registers.new ≡ after_call (widen_outcome (widening (wide_of narrow))) registers.old) }
{
    let w = narrow.widen();
    note_opening(registers, Kind::Widen, w);
    w
}

// Session::feed.
pub fn feed(
    registers: &mut [u8; STATUS_BYTES],
    s: Session,
    block: &[u32],
    history: &mut [u32],
    scratch: &mut [u64],
    out: &mut [u64],
) -> Result<Given, Refusal>
    ensures { (record { answer = answer_told s result; history = history.new; scratch = scratch.new; out = out.new } ≡ feeding s block.now history.old scratch.old out.old) × (registers.new ≡ after_call (feed_outcome delay s (feeding s block.now history.old scratch.old out.old)) registers.old) }
{
    let r = s.feed(block, history, scratch, out);
    note_given(registers, Kind::Feed, false, s, r, out);
    r
}

// A close; where `old`, by the delay before A5.
pub fn close_under(
    registers: &mut [u8; STATUS_BYTES],
    old: bool,
    s: Session,
    history: &[u32],
    scratch: &mut [u64],
    out: &mut [u64],
) -> Result<Given, Refusal>
    ensures { (record { answer = answer_told s result; history = history.now; scratch = scratch.new; out = out.new } ≡ closing_by (wait_of old) s history.now scratch.old out.old) × (registers.new ≡ after_call (close_outcome (wait_of old) s (closing_by (wait_of old) s history.now scratch.old out.old)) registers.old) }
{
    let r = session::close_under(old, s, history, scratch, out);
    note_given(registers, Kind::Close, old, s, r, out);
    r
}

// Session::close.
pub fn close(
    registers: &mut [u8; STATUS_BYTES],
    s: Session,
    history: &[u32],
    scratch: &mut [u64],
    out: &mut [u64],
) -> Result<Given, Refusal>
    ensures { (record { answer = answer_told s result; history = history.now; scratch = scratch.new; out = out.new } ≡ closing s history.now scratch.old out.old) × (registers.new ≡ after_call (close_outcome delay s (closing s history.now scratch.old out.old)) registers.old) }
{
    close_under(registers, false, s, history, scratch, out)
}

// Session::close_old.
pub fn close_old(
    registers: &mut [u8; STATUS_BYTES],
    s: Session,
    history: &[u32],
    scratch: &mut [u64],
    out: &mut [u64],
) -> Result<Given, Refusal>
    ensures { (record { answer = answer_told s result; history = history.now; scratch = scratch.new; out = out.new } ≡ closing_old s history.now scratch.old out.old) × (registers.new ≡ after_call (close_outcome old_delay s (closing_old s history.now scratch.old out.old)) registers.old) }
{
    close_under(registers, true, s, history, scratch, out)
}
