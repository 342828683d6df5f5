// Sessions: states come in blocks, and verdicts are given as soon as they are settled.
#![tactic(auto)]

ghost use Rattle.std.specs.Prelude.{false, ◌≡◌, ◌++◌, ◌+◌, ◌-◌, ◌≤◌, min, length, take, drop};
ghost use Rattle.limits.specs.Limits.{max_block, max_seen};
ghost use Rattle.refusals.specs.Refusals.{number};
ghost use Rattle.lists.specs.Choice.{first};
ghost use Rattle.table.specs.Nodes.{formula_at, wait_of};
ghost use Rattle.verdict.specs.Verdict.{cleared};
ghost use Rattle.session.specs.Session.{session_with, no_session, verdict_words, opening_told, opening, feed_rows, answer_told, step_told, fed, feeding, step_effect, close_rows, closed, closing_by, closing, closing_old};
ghost use Rattle.session.specs.Code.Steps.{Writable, Feedable, Closable};

use limits::{CLOSE_WORDS, FEED_WORDS, HISTORY_WORDS, MAX_BLOCK, MAX_SEEN, SCRATCH_WORDS};
use refusals::Refusal;
use table::Table;

// Document 01's term: a table, the number of the rule that is watched, and how many states it has seen.
#[derive(Clone, Copy)]
pub struct Session {
    pub table: Table,
    pub rule: usize,
    pub seen: u64,
}

// What an accepted feed or close gives: the count of verdicts, and the session handed back.
#[derive(Clone, Copy)]
pub struct Given {
    pub count: usize,
    pub session: Session,
}

impl Session {
    pub fn with(table: Table, rule: usize, seen: u64) -> Session
        ensures { result ≡ session_with table rule seen }
    {
        Session { table, rule, seen }
    }

    // A session over a sound table, that watches one of its rules.
    pub fn open(table: Table, rule: usize) -> Result<Session, Refusal>
        ensures { opening_told result ≡ opening table rule }
    {
        table::delay(table, rule)?;
        Ok(Session::with(table, rule, 0))
    }

    // The verdicts that a block of states settles, in the first 16 words of out.
    pub fn feed(
        self,
        block: &[u32],
        history: &mut [u32],
        scratch: &mut [u64],
        out: &mut [u64],
    ) -> Result<Given, Refusal>
        ensures { record { answer = answer_told self result; history = history.new; scratch = scratch.new; out = out.new } ≡ feeding self block.now history.old scratch.old out.old }
    {
        let count = feed_rule(
            self.table, self.rule, self.seen, block, history, scratch, out,
        )?;
        let seen = self.seen + block.len() as u64;
        Ok(Given {
            count,
            session: Session { seen, ..self },
        })
    }

    // The verdicts of the states that history still holds, in the first 64 words of out.
    pub fn close(
        self,
        history: &[u32],
        scratch: &mut [u64],
        out: &mut [u64],
    ) -> Result<Given, Refusal>
        ensures { record { answer = answer_told self result; history = history.now; scratch = scratch.new; out = out.new } ≡ closing self history.now scratch.old out.old }
    {
        close_under(false, self, history, scratch, out)
    }

    // The same for a session that was opened and fed under the delay before A5.
    pub fn close_old(
        self,
        history: &[u32],
        scratch: &mut [u64],
        out: &mut [u64],
    ) -> Result<Given, Refusal>
        ensures { record { answer = answer_told self result; history = history.now; scratch = scratch.new; out = out.new } ≡ closing_old self history.now scratch.old out.old }
    {
        close_under(true, self, history, scratch, out)
    }
}

// Document 01's 'no session'.
pub fn no_session() -> Session
    ensures { result ≡ no_session }
{
    Session::with(table::no_table(), 0, 0)
}

// The m states from place `by` on go to the first places. From a whole block on, a number that it knows, the compiler moves all at once.
fn shift(s: &mut [u32], by: usize, m: usize)
    requires { by + m ≤ length s.old }
    ensures { s.new ≡ take m (drop by s.old) ++ drop m s.old }
{
    if by == MAX_BLOCK {
        s.copy_within(MAX_BLOCK..MAX_BLOCK + m, 0);
    } else {
        s.copy_within(by..by + m, 0);
    }
}

// Of the first h states of history and then the block, the last `left` go to history's first places.
fn keep(history: &mut [u32], h: usize, block: &[u32], left: usize)
    requires { (h ≤ left) × (left ≤ h + length block.now) × (left ≤ length history.old) × (length block.now ≤ max_block) × (max_block ≤ length history.old) }
    ensures { history.new ≡ drop (h + length block.now - left) (take h history.old ++ block.now) ++ drop left history.old }
{
    let skip = h + block.len() - left;
    let m = h.saturating_sub(skip);
    shift(history, skip, m);
    history[m..left].copy_from_slice(&block[skip.saturating_sub(h)..]);
}

// The verdicts of the first `count` ticks of a trace, in the first m words of out, the others of which become zero.
fn write_verdicts(
    t: Table,
    place: usize,
    older: &[u32],
    newer: &[u32],
    count: usize,
    m: usize,
    scratch: &mut [u64],
    out: &mut [u64],
)
    requires { Writable t place (older.now ++ newer.now) count m scratch.old out.old }
    ensures { (scratch.new ≡ cleared scratch.old) × (out.new ≡ verdict_words m count (formula_at t.nodes place) (older.now ++ newer.now) out.old) }
{
    verdict::judge(t, place, older, newer, count, scratch, out);
    let w = (count + 63) / 64;
    out[w..m].fill(0);
}

// Whether a feed of k states to a fit session is accepted, where the buffers have these lengths.
fn check_feed(
    seen: u64,
    k: usize,
    history: usize,
    scratch: usize,
    out: usize,
) -> Result<(), Refusal>
    ensures { number result ≡ first (feed_rows max_seen false seen k history scratch out) }
{
    if MAX_BLOCK < k {
        return Err(Refusal::States);
    }
    if history < HISTORY_WORDS || scratch < SCRATCH_WORDS || out < FEED_WORDS {
        return Err(Refusal::Buffer);
    }
    if MAX_SEEN - (seen as usize) < k {
        return Err(Refusal::Seen);
    }
    Ok(())
}

// The same of a close.
fn check_close(history: usize, scratch: usize, out: usize) -> Result<(), Refusal>
    ensures { number result ≡ first (close_rows false history scratch out) }
{
    if history < HISTORY_WORDS || scratch < SCRATCH_WORDS || out < CLOSE_WORDS {
        return Err(Refusal::Buffer);
    }
    Ok(())
}

// A close; where `old`, by the delay before A5.
pub fn close_under(
    old: bool,
    s: Session,
    history: &[u32],
    scratch: &mut [u64],
    out: &mut [u64],
) -> Result<Given, Refusal>
    ensures { record { answer = answer_told s result; history = history.now; scratch = scratch.new; out = out.new } ≡ closing_by (wait_of old) s history.now scratch.old out.old }
{
    let Ok(d) = table::delay_under(old, s.table, s.rule) else {
        return Err(Refusal::Unsound);
    };
    check_close(history.len(), scratch.len(), out.len())?;
    Ok(finish(s, d as usize, history, scratch, out))
}

// A feed of a rule of a table that has seen so many states: how many verdicts it gives; all of it but the session that is handed back.
pub fn feed_rule(
    t: Table,
    rule: usize,
    seen: u64,
    block: &[u32],
    history: &mut [u32],
    scratch: &mut [u64],
    out: &mut [u64],
) -> Result<usize, Refusal>
    ensures { record { step = step_told result; history = history.new; scratch = scratch.new; out = out.new } ≡ step_effect (feeding (session_with t rule seen) block.now history.old scratch.old out.old) }
{
    let Ok(d) = table::delay(t, rule) else {
        return Err(Refusal::Unsound);
    };
    check_feed(seen, block.len(), history.len(), scratch.len(), out.len())?;
    Ok(advance(
        t,
        rule,
        seen as usize,
        d as usize,
        block,
        history,
        scratch,
        out,
    ))
}

// How many states history holds, of so many that were seen; d is the delay.
fn held(seen: usize, d: usize) -> usize
    ensures { result ≡ min seen d }
{
    seen.min(d)
}

// How many ticks are settled by so many states; d is the delay.
fn settled(seen: usize, d: usize) -> usize
    ensures { result ≡ seen - d }
{
    seen.saturating_sub(d)
}

// A feed that is accepted: the count of verdicts; d is the delay.
fn advance(
    t: Table,
    rule: usize,
    seen: usize,
    d: usize,
    block: &[u32],
    history: &mut [u32],
    scratch: &mut [u64],
    out: &mut [u64],
) -> usize
    requires { Feedable (session_with t rule seen) d block.now history.old scratch.old out.old }
    ensures { record { answer = record { number = 0; count = result; session = session_with t rule (seen + length block.now) }; history = history.new; scratch = scratch.new; out = out.new } ≡ fed d (session_with t rule seen) block.now history.old scratch.old out.old }
{
    let place = t.rules[rule].watched as usize;
    let after = seen + block.len();
    let h = held(seen, d);
    let count = settled(after, d) - settled(seen, d);
    write_verdicts(
        t,
        place,
        &history[0..h],
        block,
        count,
        FEED_WORDS,
        scratch,
        out,
    );
    keep(history, h, block, held(after, d));
    count
}

// A close that is accepted; d is the delay.
fn finish(s: Session, d: usize, history: &[u32], scratch: &mut [u64], out: &mut [u64]) -> Given
    requires { Closable s d history.now scratch.old out.old }
    ensures { record { answer = record { number = 0; count = result.count; session = result.session }; history = history.now; scratch = scratch.new; out = out.new } ≡ closed d s history.now scratch.old out.old }
{
    let t = s.table;
    let rule = s.rule;
    let place = t.rules[rule].watched as usize;
    let count = held(s.seen as usize, d);
    write_verdicts(
        t,
        place,
        &history[0..count],
        &history[0..0],
        count,
        CLOSE_WORDS,
        scratch,
        out,
    );
    Given {
        count,
        session: Session { seen: 0, ..s },
    }
}
