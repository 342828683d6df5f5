// The interface for programs in other languages: include/juntreak.h declares each function. A table is 546 bytes, a session 558. A refused
// call writes nothing but the status registers that it is lent.
#![tactic(auto)]

ghost use Rattle.std.specs.Prelude.{◌≡◌, length};
ghost use Rattle.interval.specs.Parts.{splitting};
ghost use Rattle.interval.specs.Doubling.{doubling};
ghost use Rattle.mltl.specs.Mltl.{delay, old_delay};
ghost use Rattle.table.specs.Sound.{rule_delay};
ghost use Rattle.book.specs.Reading.{reading, code_of};
ghost use Rattle.book.specs.Writing.{writing, written_into};
ghost use Rattle.text.specs.Typing.{typed};
ghost use Rattle.verdict.specs.Verdict.{Answered};
ghost use Rattle.early.specs.Early.{early_told, early_scratch};
ghost use Rattle.reach.specs.Reach.{reached};
ghost use Rattle.session.specs.Session.{opening, feeding, closing, closing_old};
ghost use Rattle.scheduler.specs.Scheduler.{leave_effect, turn_effect, close_effect};
ghost use Rattle.narrow.specs.Narrow.{wide_of, widening};
ghost use Rattle.registers.specs.Registers.{after_call, after_write, place_number, reading_of};
ghost use Rattle.noted.specs.Noted.{open_outcome, widen_outcome, feed_outcome, close_outcome};
ghost use Rattle.flat.specs.Flat.{table_from, written};
ghost use Rattle.flat.specs.Sessions.{session_from, renewed, narrow_from};
ghost use Rattle.shell.specs.Answers.{leaves, text_answer, write_answer, delay_answer, split_answer, moves_answer, register_answer, early_answer, reach_answer, range_after, Simplifies, stored, Called};
ghost use Rattle.shell.specs.Scheduler.{leave_call, turn_call, close_call};

use limits::{MAX_PARTS, NARROW_BYTES, SESSION_BYTES, STATUS_BYTES, TABLE_BYTES};
use records::Record;
use session::Session;

// ---- books, typed rules and tables

// 0 for a book that is accepted, or the number of the refusal and 256 times the record.
#[unsafe(no_mangle)]
pub extern "C" fn juntreak_check_book(book: &[u8]) -> u32
    ensures { result ≡ code_of (reading book.now) }
{
    if let Err(f) = book::read(book) {
        return shell::book_code(f.refusal, f.record);
    }
    0
}

// The same, with the table of a book that is accepted.
#[unsafe(no_mangle)]
pub extern "C" fn juntreak_read(book: &[u8], table: &mut [u8; TABLE_BYTES]) -> u32
    ensures { (result ≡ code_of (reading book.now)) × (table.new ≡ leaves (reading book.now).number (written (reading book.now).table table.old) table.old) }
{
    match book::read(book) {
        Ok(t) => {
            flat::write_table(t, table);
            0
        }
        Err(f) => shell::book_code(f.refusal, f.record),
    }
}

// 0 for typed rules that are accepted, or the number of the refusal and 256 times its place or line; with the table of those accepted.
#[unsafe(no_mangle)]
pub extern "C" fn juntreak_read_text(text: &[u8], table: &mut [u8; TABLE_BYTES]) -> u64
    ensures { (result ≡ text_answer (typed text.now)) × (table.new ≡ leaves (typed text.now).number (written (typed text.now).table table.old) table.old) }
{
    match text::read(text) {
        Ok(t) => {
            flat::write_table(t, table);
            0
        }
        Err(f) => shell::text_code(f.refusal, f.place),
    }
}

// The book of the table: 0 and 65536 times its length in bytes, or the number of the refusal.
#[unsafe(no_mangle)]
pub extern "C" fn juntreak_write(table: &[u8; TABLE_BYTES], out: &mut [u8]) -> u32
    ensures { (result ≡ write_answer (writing (table_from table.now) (length out.old))) × (out.new ≡ written_into (table_from table.now) out.old) }
{
    let t = flat::read_table(table);
    match book::write(t, out) {
        Ok(length) => 65536 * (length as u32),
        Err(e) => e.number() as u32,
    }
}

// The delay of a rule of the table.
#[unsafe(no_mangle)]
pub extern "C" fn juntreak_delay(table: &[u8; TABLE_BYTES], rule: u32) -> u32
    ensures { result ≡ delay_answer (rule_delay (table_from table.now) rule) }
{
    let t = flat::read_table(table);
    match table::delay(t, rule as usize) {
        Ok(delay) => 65536 * (delay as u32),
        Err(e) => e.number() as u32,
    }
}

// The splitting of [lo, hi], with its parts.
#[unsafe(no_mangle)]
pub extern "C" fn juntreak_split(lo: u16, hi: u16, parts: &mut [u8; MAX_PARTS]) -> u32
    ensures { (result ≡ split_answer (splitting lo hi)) × (parts.new ≡ leaves (splitting lo hi).number (splitting lo hi).parts parts.old) }
{
    match interval::split(lo, hi) {
        Ok(s) => {
            let ks = s.ks;
            *parts = ks;
            256 * (s.count as u32)
        }
        Err(e) => e.number() as u32,
    }
}

// The shorter splitting of [lo, hi], for F and G: the exponent, the count of moves and the leftover.
#[unsafe(no_mangle)]
pub extern "C" fn juntreak_moves(lo: u16, hi: u16) -> u64
    ensures { result ≡ moves_answer (doubling lo hi) }
{
    match interval::double(lo, hi) {
        Ok(m) => {
            256 * (m.exponent as u64) + 65536 * (m.count as u64) + 4294967296 * (m.leftover as u64)
        }
        Err(e) => e.number() as u64,
    }
}

// The verdicts of a rule on a whole trace.
#[unsafe(no_mangle)]
pub extern "C" fn juntreak_verdicts(
    table: &[u8; TABLE_BYTES],
    rule: u32,
    states: &[u32],
    scratch: &mut [u64],
    out: &mut [u64],
) -> u32
    ensures { Answered (table_from table.now) rule states.now scratch.old out.old result scratch.new out.new }
{
    let t = flat::read_table(table);
    shell::code(verdict::verdicts(t, rule as usize, states, scratch, out))
}

// What is known of a rule at a tick when these states were seen.
#[unsafe(no_mangle)]
pub extern "C" fn juntreak_early(
    table: &[u8; TABLE_BYTES],
    rule: u32,
    states: &[u32],
    tick: usize,
    scratch: &mut [u64],
) -> u32
    ensures { (result ≡ early_answer (early_told (table_from table.now) rule states.now tick scratch.old)) × (scratch.new ≡ early_scratch (table_from table.now) rule states.now tick scratch.old) }
{
    let t = flat::read_table(table);
    shell::early_code(early::decide(t, rule as usize, states, tick, scratch))
}

// The ticks of a mission of so many states at which the verdict of a rule may depend on the state of `tick`.
#[unsafe(no_mangle)]
pub extern "C" fn juntreak_reach(
    table: &[u8; TABLE_BYTES],
    rule: u32,
    length: u64,
    tick: u64,
    range: &mut [u64; 2],
) -> u32
    ensures { (result ≡ reach_answer (reached (table_from table.now) rule length tick)) × (range.new ≡ range_after (reached (table_from table.now) rule length tick) range.old) }
{
    let t = flat::read_table(table);
    let r = reach::reach(t, rule as usize, length, tick);
    shell::put_range(r, range);
    shell::range_code(r)
}

// The table simplified, in its place.
#[unsafe(no_mangle)]
pub extern "C" fn juntreak_simplify(table: &mut [u8; TABLE_BYTES]) -> u32
    ensures { Simplifies table.old result table.new }
{
    let t = flat::read_table(table);
    match simplify::simplify(t) {
        Ok(u) => {
            flat::write_table(u, table);
            0
        }
        Err(e) => e.number() as u32,
    }
}

// ---- sessions

// A session over the table, that watches the rule.
#[unsafe(no_mangle)]
pub extern "C" fn juntreak_open(
    table: &[u8; TABLE_BYTES],
    rule: u32,
    session: &mut [u8; SESSION_BYTES],
) -> u32
    ensures { (result ≡ (opening (table_from table.now) rule).number) × (session.new ≡ stored (opening (table_from table.now) rule) session.old) }
{
    let t = flat::read_table(table);
    shell::put_session(Session::open(t, rule as usize), session)
}

// A narrow session as one with a wide count.
#[unsafe(no_mangle)]
pub extern "C" fn juntreak_widen(
    narrow: &[u8; NARROW_BYTES],
    session: &mut [u8; SESSION_BYTES],
) -> u32
    ensures { (result ≡ (widening (wide_of (narrow_from narrow.now))).number) × (session.new ≡ stored (widening (wide_of (narrow_from narrow.now))) session.old) }
{
    shell::put_session(flat::read_narrow(narrow).widen(), session)
}

// The verdicts that a block of states settles.
#[unsafe(no_mangle)]
pub extern "C" fn juntreak_feed(
    session: &mut [u8; SESSION_BYTES],
    block: &[u32],
    history: &mut [u32],
    scratch: &mut [u64],
    out: &mut [u64],
) -> u64
    ensures { Called renewed (feeding (session_from session.old) block.now history.old scratch.old out.old) session.old result session.new history.new scratch.new out.new }
{
    shell::feed(session, block, history, scratch, out)
}

// The verdicts of the states that history still holds.
#[unsafe(no_mangle)]
pub extern "C" fn juntreak_close(
    session: &mut [u8; SESSION_BYTES],
    history: &[u32],
    scratch: &mut [u64],
    out: &mut [u64],
) -> u64
    ensures { Called renewed (closing (session_from session.old) history.now scratch.old out.old) session.old result session.new history.now scratch.new out.new }
{
    shell::close(false, session, history, scratch, out)
}

// The same for a session that was opened and fed under the delay before A5.
#[unsafe(no_mangle)]
pub extern "C" fn juntreak_close_old(
    session: &mut [u8; SESSION_BYTES],
    history: &[u32],
    scratch: &mut [u64],
    out: &mut [u64],
) -> u64
    ensures { Called renewed (closing_old (session_from session.old) history.now scratch.old out.old) session.old result session.new history.now scratch.new out.new }
{
    shell::close(true, session, history, scratch, out)
}

// ---- sessions with the status registers beside them

#[unsafe(no_mangle)]
pub extern "C" fn juntreak_open_noted(
    registers: &mut [u8; STATUS_BYTES],
    table: &[u8; TABLE_BYTES],
    rule: u32,
    session: &mut [u8; SESSION_BYTES],
) -> u32
    ensures { (result ≡ (opening (table_from table.now) rule).number) × (session.new ≡ stored (opening (table_from table.now) rule) session.old) × (registers.new ≡ after_call (open_outcome (opening (table_from table.now) rule)) registers.old) }
{
    let t = flat::read_table(table);
    shell::put_session(noted::open(registers, t, rule as usize), session)
}

#[unsafe(no_mangle)]
pub extern "C" fn juntreak_widen_noted(
    registers: &mut [u8; STATUS_BYTES],
    narrow: &[u8; NARROW_BYTES],
    session: &mut [u8; SESSION_BYTES],
) -> u32
    ensures { (result ≡ (widening (wide_of (narrow_from narrow.now))).number) × (session.new ≡ stored (widening (wide_of (narrow_from narrow.now))) session.old) × (registers.new ≡ after_call (widen_outcome (widening (wide_of (narrow_from narrow.now)))) registers.old) }
{
    let n = flat::read_narrow(narrow);
    shell::put_session(noted::widen(registers, n), session)
}

#[unsafe(no_mangle)]
pub extern "C" fn juntreak_feed_noted(
    registers: &mut [u8; STATUS_BYTES],
    session: &mut [u8; SESSION_BYTES],
    block: &[u32],
    history: &mut [u32],
    scratch: &mut [u64],
    out: &mut [u64],
) -> u64
    ensures { Called renewed (feeding (session_from session.old) block.now history.old scratch.old out.old) session.old result session.new history.new scratch.new out.new × (registers.new ≡ after_call (feed_outcome delay (session_from session.old) (feeding (session_from session.old) block.now history.old scratch.old out.old)) registers.old) }
{
    shell::feed_noted(registers, session, block, history, scratch, out)
}

#[unsafe(no_mangle)]
pub extern "C" fn juntreak_close_noted(
    registers: &mut [u8; STATUS_BYTES],
    session: &mut [u8; SESSION_BYTES],
    history: &[u32],
    scratch: &mut [u64],
    out: &mut [u64],
) -> u64
    ensures { Called renewed (closing (session_from session.old) history.now scratch.old out.old) session.old result session.new history.now scratch.new out.new × (registers.new ≡ after_call (close_outcome delay (session_from session.old) (closing (session_from session.old) history.now scratch.old out.old)) registers.old) }
{
    shell::close_noted(registers, false, session, history, scratch, out)
}

#[unsafe(no_mangle)]
pub extern "C" fn juntreak_close_old_noted(
    registers: &mut [u8; STATUS_BYTES],
    session: &mut [u8; SESSION_BYTES],
    history: &[u32],
    scratch: &mut [u64],
    out: &mut [u64],
) -> u64
    ensures { Called renewed (closing_old (session_from session.old) history.now scratch.old out.old) session.old result session.new history.now scratch.new out.new × (registers.new ≡ after_call (close_outcome old_delay (session_from session.old) (closing_old (session_from session.old) history.now scratch.old out.old)) registers.old) }
{
    shell::close_noted(registers, true, session, history, scratch, out)
}

// Writes a byte to a place of the registers.
#[unsafe(no_mangle)]
pub extern "C" fn juntreak_register_write(
    registers: &mut [u8; STATUS_BYTES],
    place: usize,
    value: u8,
) -> u32
    ensures { (result ≡ place_number place) × (registers.new ≡ after_write place value registers.old) }
{
    shell::code(registers::write(registers, place, value))
}

// The byte at a place of the registers: 0 and 256 times the byte, or the number of the refusal.
#[unsafe(no_mangle)]
pub extern "C" fn juntreak_register_read(registers: &[u8; STATUS_BYTES], place: usize) -> u32
    ensures { result ≡ register_answer (reading_of place registers.now) }
{
    match registers::read(registers, place) {
        Ok(value) => 256 * (value as u32),
        Err(e) => e.number() as u32,
    }
}

// ---- the scheduler

// A block is left with the record at a place of the list.
#[unsafe(no_mangle)]
pub extern "C" fn juntreak_leave(
    list: &mut [Record],
    table: &[u8; TABLE_BYTES],
    place: usize,
    block: &[u32],
    waiting: &mut [u32],
) -> u32
    ensures { record { answer = result; records = list.new; waiting = waiting.new } ≡ leave_call (leave_effect (table_from table.now) list.old place block.now waiting.old) }
{
    shell::leave(list, table, place, block, waiting)
}

// The first record after the place that has a block waiting is fed it.
#[unsafe(no_mangle)]
pub extern "C" fn juntreak_turn(
    list: &mut [Record],
    table: &[u8; TABLE_BYTES],
    place: usize,
    history: &mut [u32],
    waiting: &[u32],
    scratch: &mut [u64],
    out: &mut [u64],
) -> u64
    ensures { record { answer = result; records = list.new; history = history.new; scratch = scratch.new; out = out.new } ≡ turn_call (turn_effect (table_from table.now) list.old place history.old waiting.now scratch.old out.old) }
{
    shell::turn(list, table, place, history, waiting, scratch, out)
}

// The record at a place of the list is closed.
#[unsafe(no_mangle)]
pub extern "C" fn juntreak_close_record(
    list: &mut [Record],
    table: &[u8; TABLE_BYTES],
    place: usize,
    history: &[u32],
    scratch: &mut [u64],
    out: &mut [u64],
) -> u64
    ensures { record { answer = result; records = list.new; scratch = scratch.new; out = out.new } ≡ close_call (close_effect (table_from table.now) list.old place history.now scratch.old out.old) }
{
    shell::close_record(list, table, place, history, scratch, out)
}
