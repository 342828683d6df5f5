// What the exported functions do over bytes, each answer as one number. A refused call writes nothing but the status registers that it is
// lent.
#![tactic(auto)]

ghost use Rattle.std.specs.Prelude.{true, ◌≡◌, ◌*◌, ◌≤◌, ◌<◌};
ghost use Rattle.limits.specs.Limits.{max_delay, max_list};
ghost use Rattle.refusals.specs.Refusals.{number};
ghost use Rattle.mltl.specs.Mltl.{delay};
ghost use Rattle.table.specs.Nodes.{wait_of};
ghost use Rattle.book.specs.Reading.{refused as refused_book, code_of};
ghost use Rattle.text.specs.Typing.{refused as refused_text};
ghost use Rattle.session.specs.Session.{feeding, closing_by};
ghost use Rattle.scheduler.specs.Scheduler.{leave_effect, turn_effect, close_effect};
ghost use Rattle.scheduler.specs.Work.{unchanged, leave_work, turn_work, close_work};
ghost use Rattle.registers.specs.Registers.{after_call};
ghost use Rattle.noted.specs.Noted.{feed_outcome, close_outcome};
ghost use Rattle.flat.specs.Flat.{table_from};
ghost use Rattle.flat.specs.Sessions.{session_from, renewed};
ghost use Rattle.shell.specs.Answers.{text_answer, early_answer, reach_answer, range_after, number_said, early_said, reach_said, stored_by, Called};
ghost use Rattle.shell.specs.Scheduler.{turn_answer, leave_call, turn_call, close_call, leave_in, turn_in, close_in};

use early::Decision;
use limits::{SESSION_BYTES, STATUS_BYTES, TABLE_BYTES};
use reach::Ticks;
use records::{Change, Record, Summary};
use refusals::{Reason, Refusal};
use scheduler::Served;
use session::Session;

// ---- what an accepted call writes

// The session that a call gives; 0, or the number of the refusal.
pub fn put_session<E: Reason>(r: Result<Session, E>, b: &mut [u8; SESSION_BYTES]) -> u32
    ensures { (result ≡ number_said E.told r) × (b.new ≡ stored_by r b.old) }
{
    match r {
        Ok(s) => {
            flat::write_session(s, b);
            0
        }
        Err(e) => e.told() as u32,
    }
}

// The first and the last tick, where there is a range.
pub fn put_range<E: Reason>(r: Result<Option<Ticks>, E>, range: &mut [u64; 2])
    ensures { range.new ≡ range_after (reach_said E.told r) range.old }
{
    if let Ok(Some(t)) = r {
        *range = [t.first, t.last];
    }
}

// ---- answers as one number

// 0, or the number of the refusal.
pub fn code(r: Result<(), Refusal>) -> u32
    ensures { result ≡ number r }
{
    match r {
        Ok(()) => 0,
        Err(e) => e.number() as u32,
    }
}

// Of a book that is refused, at a record.
pub fn book_code<E: Reason>(refusal: E, at: u8) -> u32
    ensures { result ≡ code_of (refused_book (E.told refusal) at) }
{
    refusal.told() as u32 + 256 * (at as u32)
}

// The largest place or line that an answer holds, 2^56 - 1: no machine has a text so long.
const MAX_PLACE: usize = 72057594037927935;

// Of a text that is refused, at a place or line.
pub fn text_code<E: Reason>(refusal: E, place: usize) -> u64
    ensures { result ≡ text_answer (refused_text (E.told refusal) place) }
{
    refusal.told() as u64 + 256 * (place.min(MAX_PLACE) as u64)
}

// The number of the refusal, or 256 times the value.
pub fn early_code<E: Reason>(r: Result<Decision, E>) -> u32
    ensures { result ≡ early_answer (early_said E.told r) }
{
    match r {
        Ok(Decision::No) => 0,
        Ok(Decision::Yes) => 256,
        Ok(Decision::Open) => 512,
        Err(e) => e.told() as u32,
    }
}

// The number of the refusal, or 256 where there is a range.
pub fn range_code<E: Reason>(r: Result<Option<Ticks>, E>) -> u32
    ensures { result ≡ reach_answer (reach_said E.told r) }
{
    match r {
        Ok(None) => 0,
        Ok(Some(_)) => 256,
        Err(e) => e.told() as u32,
    }
}

// ---- sessions

// What an accepted call gives: the count of states seen, in the session's bytes, and the count of verdicts, as the answer.
fn put_given(count: usize, seen: u64, b: &mut [u8; SESSION_BYTES]) -> u64
    requires { count ≤ max_delay }
    ensures { (result ≡ 4294967296 * count) × (b.new ≡ renewed seen b.old) }
{
    flat::write_seen(seen, b);
    4294967296 * (count as u64)
}

// The verdicts that a block of states settles.
pub fn feed(
    session: &mut [u8; SESSION_BYTES],
    block: &[u32],
    history: &mut [u32],
    scratch: &mut [u64],
    out: &mut [u64],
) -> u64
    ensures { Called renewed (feeding (session_from session.old) block.now history.old scratch.old out.old) session.old result session.new history.new scratch.new out.new }
{
    let s = flat::read_session(session);
    match session::feed_rule(s.table, s.rule, s.seen, block, history, scratch, out) {
        Ok(count) => put_given(count, s.seen + block.len() as u64, session),
        Err(e) => e.number() as u64,
    }
}

// The verdicts of the states that history still holds; where `old`, by the delay before A5.
pub fn close(
    old: bool,
    session: &mut [u8; SESSION_BYTES],
    history: &[u32],
    scratch: &mut [u64],
    out: &mut [u64],
) -> u64
    ensures { Called renewed (closing_by (wait_of old) (session_from session.old) history.now scratch.old out.old) session.old result session.new history.now scratch.new out.new }
{
    let s = flat::read_session(session);
    match session::close_under(old, s, history, scratch, out) {
        Ok(g) => put_given(g.count, g.session.seen, session),
        Err(e) => e.number() as u64,
    }
}

// ---- sessions with the status registers beside them

pub fn feed_noted(
    registers: &mut [u8; STATUS_BYTES],
    session: &mut [u8; SESSION_BYTES],
    block: &[u32],
    history: &mut [u32],
    scratch: &mut [u64],
    out: &mut [u64],
) -> u64
    ensures { Called renewed (feeding (session_from session.old) block.now history.old scratch.old out.old) session.old result session.new history.new scratch.new out.new × (registers.new ≡ after_call (feed_outcome delay (session_from session.old) (feeding (session_from session.old) block.now history.old scratch.old out.old)) registers.old) }
{
    let s = flat::read_session(session);
    match noted::feed(registers, s, block, history, scratch, out) {
        Ok(g) => put_given(g.count, g.session.seen, session),
        Err(e) => e.number() as u64,
    }
}

pub fn close_noted(
    registers: &mut [u8; STATUS_BYTES],
    old: bool,
    session: &mut [u8; SESSION_BYTES],
    history: &[u32],
    scratch: &mut [u64],
    out: &mut [u64],
) -> u64
    ensures { Called renewed (closing_by (wait_of old) (session_from session.old) history.now scratch.old out.old) session.old result session.new history.now scratch.new out.new × (registers.new ≡ after_call (close_outcome (wait_of old) (session_from session.old) (closing_by (wait_of old) (session_from session.old) history.now scratch.old out.old)) registers.old) }
{
    let s = flat::read_session(session);
    match noted::close_under(registers, old, s, history, scratch, out) {
        Ok(g) => put_given(g.count, g.session.seen, session),
        Err(e) => e.number() as u64,
    }
}

// ---- the scheduler: the work on what one pass over the list has found, and what the list gets

// The number of a refusal or 0, and what the list gets.
#[derive(Clone, Copy)]
pub struct Numbered {
    pub number: u32,
    pub change: Change,
}

// The answer as one number, and what the list gets.
#[derive(Clone, Copy)]
pub struct Coded {
    pub code: u64,
    pub change: Change,
}

// The list of so many records stays as it is: the place is past its end.
fn unchanged(count: usize) -> Change
    ensures { result ≡ unchanged count }
{
    Change {
        place: count,
        seen: 0,
        waiting: 0,
    }
}

// A block is left with the record at a place.
pub fn leave_by(
    table: &[u8; TABLE_BYTES],
    s: Summary,
    place: usize,
    block: &[u32],
    waiting: &mut [u32],
) -> Numbered
    ensures { record { done = result; waiting = waiting.new } ≡ leave_in (leave_work (table_from table.now) s place block.now waiting.old) }
{
    let t = flat::read_table(table);
    match scheduler::leave(t, s, place, block, waiting) {
        Ok(change) => Numbered { number: 0, change },
        Err(e) => Numbered {
            number: e.number() as u32,
            change: unchanged(s.count),
        },
    }
}

// Of a turn that served a record.
fn turn_code(k: Served) -> u64
    requires { (k.place < max_list) × (k.count ≤ max_delay) }
    ensures { result ≡ turn_answer 0 true k.place k.count }
{
    256 + 65536 * (k.place as u64) + 4294967296 * (k.count as u64)
}

// The first record after the place that has a block waiting is fed it.
pub fn turn_by(
    table: &[u8; TABLE_BYTES],
    s: Summary,
    place: usize,
    history: &mut [u32],
    waiting: &[u32],
    scratch: &mut [u64],
    out: &mut [u64],
) -> Coded
    ensures { record { done = result; history = history.new; scratch = scratch.new; out = out.new } ≡ turn_in (turn_work (table_from table.now) s place history.old waiting.now scratch.old out.old) }
{
    let t = flat::read_table(table);
    match scheduler::turn(t, s, place, history, waiting, scratch, out) {
        Ok(Some(k)) => Coded {
            code: turn_code(k),
            change: k.change,
        },
        Ok(None) => Coded {
            code: 0,
            change: unchanged(s.count),
        },
        Err(e) => Coded {
            code: e.number() as u64,
            change: unchanged(s.count),
        },
    }
}

// The record at a place is closed.
pub fn close_by(
    table: &[u8; TABLE_BYTES],
    s: Summary,
    place: usize,
    history: &[u32],
    scratch: &mut [u64],
    out: &mut [u64],
) -> Coded
    ensures { record { done = result; scratch = scratch.new; out = out.new } ≡ close_in (close_work (table_from table.now) s place history.now scratch.old out.old) }
{
    let t = flat::read_table(table);
    match scheduler::close(t, s, place, history, scratch, out) {
        Ok(k) => Coded {
            code: 4294967296 * (k.count as u64),
            change: k.change,
        },
        Err(e) => Coded {
            code: e.number() as u64,
            change: unchanged(s.count),
        },
    }
}

// ---- the scheduler: one pass over the list, the work on what it has found, and the change of the list

// A block is left with the record at a place.
pub fn leave(
    list: &mut [Record],
    table: &[u8; TABLE_BYTES],
    place: usize,
    block: &[u32],
    waiting: &mut [u32],
) -> u32
    ensures { record { answer = result; records = list.new; waiting = waiting.new } ≡ leave_call (leave_effect (table_from table.now) list.old place block.now waiting.old) }
{
    let s = records::scan(list);
    let k = leave_by(table, s, place, block, waiting);
    records::apply(list, k.change);
    k.number
}

// The first record after the place that has a block waiting is fed it.
pub fn turn(
    list: &mut [Record],
    table: &[u8; TABLE_BYTES],
    place: usize,
    history: &mut [u32],
    waiting: &[u32],
    scratch: &mut [u64],
    out: &mut [u64],
) -> u64
    ensures { record { answer = result; records = list.new; history = history.new; scratch = scratch.new; out = out.new } ≡ turn_call (turn_effect (table_from table.now) list.old place history.old waiting.now scratch.old out.old) }
{
    let s = records::scan(list);
    let k = turn_by(table, s, place, history, waiting, scratch, out);
    records::apply(list, k.change);
    k.code
}

// The record at a place is closed.
pub fn close_record(
    list: &mut [Record],
    table: &[u8; TABLE_BYTES],
    place: usize,
    history: &[u32],
    scratch: &mut [u64],
    out: &mut [u64],
) -> u64
    ensures { record { answer = result; records = list.new; scratch = scratch.new; out = out.new } ≡ close_call (close_effect (table_from table.now) list.old place history.now scratch.old out.old) }
{
    let s = records::scan(list);
    let k = close_by(table, s, place, history, scratch, out);
    records::apply(list, k.change);
    k.code
}
