// The scheduler: several rules over one table, served in turn (A9). Its functions take what one pass over the list of records has found, and
// answer what the list gets; they do not hold the list.
#![tactic(auto)]

ghost use Rattle.std.specs.Prelude.{◌≡◌, ◌+◌, ◌*◌, ◌≤◌, ◌<◌, length};
ghost use Rattle.limits.specs.Limits.{max_list, max_seen, history_words, scratch_words};
ghost use Rattle.refusals.specs.Refusals.{number_of, number};
ghost use Rattle.lists.specs.Choice.{pick, first};
ghost use Rattle.table.specs.Sound.{is_sound};
ghost use Rattle.verdict.specs.Verdict.{cleared};
ghost use Rattle.scheduler.specs.Rotation.{start_of, stepped, waits_at, next};
ghost use Rattle.scheduler.specs.Scheduler.{part_of, session_of, leave_rows, turn_rows, close_rows};
ghost use Rattle.session.specs.Session.{answer_told, step_told};
ghost use Rattle.scheduler.specs.Work.{leaving_told, turning_told, closing_told, next_place, misfits, told_of, leave_work, fed_in, turn_work, closed_in, close_work, Servable, Endable};

use limits::{
    CLOSE_WORDS, FEED_WORDS, HISTORY_WORDS, MAX_BLOCK, MAX_LIST, MAX_SEEN, SCRATCH_WORDS,
    WAITING_WORDS,
};
use records::{Change, Record, Summary};
use refusals::Refusal;
use session::{Given, Session};
use table::Table;

// What a turn that serves a record gives: the record's place, the count of verdicts, and what the list gets.
#[derive(Clone, Copy)]
pub struct Served {
    pub place: usize,
    pub count: usize,
    pub change: Change,
}

// What an accepted close gives: the count of verdicts, and what the list gets.
#[derive(Clone, Copy)]
pub struct Closed {
    pub count: usize,
    pub change: Change,
}

// ---- the next record

// A block waits with the record at a place; with none past the end.
fn waits(rs: &[Record], i: usize) -> bool
    ensures { result ≡ waits_at rs.now i }
{
    0 < records::record_at(rs, i).waiting
}

// Where a search begins.
fn start_of(n: usize, from: usize) -> usize
    ensures { result ≡ start_of n from }
{
    if from < n { from + 1 } else { 0 }
}

// The first of n records after `from`, wrapping round, that waits; n if none does.
fn next_waiting(rs: &[Record], n: usize, from: usize) -> usize
    ensures { result ≡ next (waits_at rs.now) n from }
{
    let start = start_of(n, from);
    let mut places = (start..n).chain(0..start);
    places.find(|i| waits(rs, *i)).unwrap_or(n)
}

// The same for any number: n if there are too many.
fn next_place(rs: &[Record], n: usize, from: usize) -> usize
    ensures { result ≡ next_place rs.now n from }
{
    if MAX_LIST < n {
        return n;
    }
    next_waiting(rs, n, from)
}

// ---- what is refused

// A record does not fit a table of so many rules.
fn misfit(s: Summary, rules: usize) -> bool
    ensures { result ≡ misfits rules s }
{
    (0 < s.count && rules <= s.highest) || MAX_BLOCK < s.longest
}

// Whether the table is sound.
fn check_sound(t: Table) -> Result<(), Refusal>
    ensures { number result ≡ told_of t 0 }
{
    if !table::sound(t) {
        return Err(Refusal::Unsound);
    }
    Ok(())
}

// A table that is not sound is told before any other refusal.
fn told(t: Table, e: Refusal) -> Refusal
    ensures { number_of result ≡ told_of t (number_of e) }
{
    if table::sound(t) { e } else { Refusal::Unsound }
}

// Whether k states may be left at place i with record r, among n.
fn check_leave(
    bad: bool,
    n: usize,
    r: Record,
    i: usize,
    k: usize,
    waiting: usize,
) -> Result<(), Refusal>
    ensures { number result ≡ first (leave_rows bad n r i k waiting) }
{
    if bad {
        return Err(Refusal::Unsound);
    }
    if MAX_BLOCK < k {
        return Err(Refusal::States);
    }
    if waiting / WAITING_WORDS < n {
        return Err(Refusal::Buffer);
    }
    if k == 0 || n <= i || MAX_LIST < n {
        return Err(Refusal::List);
    }
    if 0 < r.waiting {
        return Err(Refusal::Waiting);
    }
    if MAX_SEEN - (r.seen as usize) < k {
        return Err(Refusal::Seen);
    }
    Ok(())
}

// Whether a turn may serve record r.
fn check_turn(
    bad: bool,
    n: usize,
    r: Record,
    history: usize,
    waiting: usize,
    scratch: usize,
    out: usize,
) -> Result<(), Refusal>
    ensures { number result ≡ first (turn_rows bad n r history waiting scratch out) }
{
    if bad {
        return Err(Refusal::Unsound);
    }
    if history / HISTORY_WORDS < n
        || waiting / WAITING_WORDS < n
        || scratch < SCRATCH_WORDS
        || out < FEED_WORDS
    {
        return Err(Refusal::Buffer);
    }
    if MAX_LIST < n {
        return Err(Refusal::List);
    }
    if MAX_SEEN - (r.seen as usize) < r.waiting {
        return Err(Refusal::Seen);
    }
    Ok(())
}

// Whether record r may be closed at place i.
fn check_close(
    bad: bool,
    n: usize,
    r: Record,
    i: usize,
    history: usize,
    scratch: usize,
    out: usize,
) -> Result<(), Refusal>
    ensures { number result ≡ first (close_rows bad n r i history scratch out) }
{
    if bad {
        return Err(Refusal::Unsound);
    }
    if history / HISTORY_WORDS < n || scratch < SCRATCH_WORDS || out < CLOSE_WORDS {
        return Err(Refusal::Buffer);
    }
    if n <= i || MAX_LIST < n {
        return Err(Refusal::List);
    }
    if 0 < r.waiting {
        return Err(Refusal::Waiting);
    }
    Ok(())
}

// ---- leaving a block

// A block is left with the record at place i.
pub fn leave(
    t: Table,
    s: Summary,
    i: usize,
    block: &[u32],
    waiting: &mut [u32],
) -> Result<Change, Refusal>
    ensures { record { done = leaving_told s.count result; waiting = waiting.new } ≡ leave_work t s i block.now waiting.old }
{
    let r = records::record_at(&s.records, i);
    let k = block.len();
    let bad = misfit(s, t.rule_count);
    check_sound(t)?;
    check_leave(bad, s.count, r, i, k, waiting.len())?;
    let at = WAITING_WORDS * i;
    waiting[at..at + k].copy_from_slice(block);
    Ok(Change {
        place: i,
        seen: r.seen,
        waiting: k,
    })
}

// ---- a turn

// Nobody waits: the scratch is cleared.
fn pass_by(t: Table, scratch: &mut [u64]) -> Result<(), Refusal>
    requires { scratch_words ≤ length scratch.old }
    ensures { (number result ≡ told_of t 0) × (scratch.new ≡ pick (is_sound t) (cleared scratch.old) scratch.old) }
{
    check_sound(t)?;
    scratch[0..SCRATCH_WORDS].fill(0);
    Ok(())
}

// The session of record r, at place p, is fed the block that waits.
fn feed_at(
    t: Table,
    r: Record,
    p: usize,
    history: &mut [u32],
    waiting: &[u32],
    scratch: &mut [u64],
    out: &mut [u64],
) -> Result<usize, Refusal>
    requires { Servable p history.old waiting.now }
    ensures { record { step = step_told result; history = history.new; scratch = scratch.new; out = out.new } ≡ fed_in t r p history.old waiting.now scratch.old out.old }
{
    let w = WAITING_WORDS * p;
    let h = HISTORY_WORDS * p;
    let k = r.waiting.min(WAITING_WORDS);
    session::feed_rule(
        t,
        r.rule,
        r.seen,
        &waiting[w..w + k],
        &mut history[h..h + HISTORY_WORDS],
        scratch,
        out,
    )
}

// A turn: the first waiting record after the place `from` is fed its block; none where nobody waits.
pub fn turn(
    t: Table,
    s: Summary,
    from: usize,
    history: &mut [u32],
    waiting: &[u32],
    scratch: &mut [u64],
    out: &mut [u64],
) -> Result<Option<Served>, Refusal>
    ensures { record { done = turning_told from s.count result; history = history.new; scratch = scratch.new; out = out.new } ≡ turn_work t s from history.old waiting.now scratch.old out.old }
{
    let n = s.count;
    let p = next_place(&s.records, n, from);
    let r = records::record_at(&s.records, p);
    let bad = misfit(s, t.rule_count);
    if let Err(e) = check_turn(
        bad,
        n,
        r,
        history.len(),
        waiting.len(),
        scratch.len(),
        out.len(),
    ) {
        return Err(told(t, e));
    }
    if n <= p {
        pass_by(t, scratch)?;
        return Ok(None);
    }
    let count = feed_at(t, r, p, history, waiting, scratch, out)?;
    let change = Change {
        place: p,
        seen: r.seen + r.waiting as u64,
        waiting: 0,
    };
    Ok(Some(Served {
        place: p,
        count,
        change,
    }))
}

// ---- a close

// The session of record r, at place i, is closed.
fn close_at(
    t: Table,
    r: Record,
    i: usize,
    history: &[u32],
    scratch: &mut [u64],
    out: &mut [u64],
) -> Result<Given, Refusal>
    requires { Endable i history.now }
    ensures { record { answer = answer_told (session_of t r) result; history = part_of history_words i history.now; scratch = scratch.new; out = out.new } ≡ closed_in t r i history.now scratch.old out.old }
{
    let h = HISTORY_WORDS * i;
    let session = Session::with(t, r.rule, r.seen);
    session.close(&history[h..h + HISTORY_WORDS], scratch, out)
}

// The record at place i is closed.
pub fn close(
    t: Table,
    s: Summary,
    i: usize,
    history: &[u32],
    scratch: &mut [u64],
    out: &mut [u64],
) -> Result<Closed, Refusal>
    ensures { record { done = closing_told s.count result; scratch = scratch.new; out = out.new } ≡ close_work t s i history.now scratch.old out.old }
{
    let n = s.count;
    let r = records::record_at(&s.records, i);
    let bad = misfit(s, t.rule_count);
    if let Err(e) = check_close(bad, n, r, i, history.len(), scratch.len(), out.len()) {
        return Err(told(t, e));
    }
    let given = close_at(t, r, i, history, scratch, out)?;
    let change = Change {
        place: i,
        seen: given.session.seen,
        waiting: 0,
    };
    Ok(Closed {
        count: given.count,
        change,
    })
}
