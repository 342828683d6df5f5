// The program watch: reads the book in rules.bin and simplifies it, then a state from each line of standard input, and writes a row for each verdict
// of the book's first rule.
#![tactic(auto)]

ghost use Rattle.std.specs.Prelude.{◌≡◌, false, ◌≤◌, length, IfOk, IfSome};
ghost use Rattle.limits.specs.Limits.{max_block};
ghost use Rattle.watch.specs.Steps.{Ready, ReadyIfGoing, Begins, Fed, Steps, Closes, Consumed, Completed};

use book::Fault;
use limits::{BOOK_BYTES, CLOSE_WORDS, HISTORY_WORDS, MAX_BLOCK, SCRATCH_WORDS};
use lines::Line;
use rows::TEXT_BYTES;
use session::Session;
use std::fs::{File, Files};
use std::io::{self, Eprint, ErrorKind, Read, Write};
use table::Table;

// The room for a book has a byte more than the longest, to show a longer one.
const ROOM: usize = BOOK_BYTES + 1;

const BOOK_NAME: &str = "rules.bin";

// How many bytes of standard input are asked for at once.
const PART_BYTES: usize = 65536;

// What is kept from one part of the input to the next: the session, the rule's name, the line so far, how many states wait in the block, the tick of
// the next verdict, and whether the program goes on.
#[derive(Clone, Copy)]
struct Progress {
    session: Session,
    name: u16,
    line: Line,
    count: usize,
    tick: u64,
    going: bool,
}

// After a step: how far the part was read, and how many bytes of the text are to be written.
#[derive(Clone, Copy)]
struct StepAnswer {
    progress: Progress,
    at: usize,
    used: usize,
}

// What the steps work on: the states that wait, those that were fed last, words for the session and its verdicts, and the text that is written.
#[derive(Drop)]
struct Buffers {
    block: [u32; MAX_BLOCK],
    history: [u32; HISTORY_WORDS],
    scratch: [u64; SCRATCH_WORDS],
    out: [u64; CLOSE_WORDS],
    text: [u8; TEXT_BYTES],
}

impl Buffers {
    fn new() -> Buffers {
        Buffers {
            block: [0; MAX_BLOCK],
            history: [0; HISTORY_WORDS],
            scratch: [0; SCRATCH_WORDS],
            out: [0; CLOSE_WORDS],
            text: [0; TEXT_BYTES],
        }
    }

    // Lines of the part, from `at` on, up to a full block, which is fed, a bad line, or the part's end.
    fn step(&mut self, p: Progress, part: &[u8], at: usize) -> StepAnswer
        requires { Ready p }
        ensures { Steps p part.now at self.old.history self.old.block self.new.history self.new.block self.new.text result }
    {
        let f = lines::fill(part, at, p.line, &mut self.block, p.count);
        let next = Progress {
            line: f.line,
            count: f.count,
            going: true,
            ..p
        };
        if f.bad {
            let used = rows::put_bad_line(&mut self.text, p.session.seen, f.count as u64 + 1);
            return StepAnswer {
                progress: Progress {
                    going: false,
                    ..next
                },
                at: f.at,
                used,
            };
        }
        if f.count < MAX_BLOCK {
            return StepAnswer {
                progress: next,
                at: f.at,
                used: 0,
            };
        }
        self.feed(next, f.at)
    }

    // Feeds the states that wait.
    fn feed(&mut self, p: Progress, at: usize) -> StepAnswer
        requires { (p.count ≤ max_block) × (p.tick ≤ p.session.seen) }
        ensures fed { Fed p at self.old.history self.old.block self.new.history self.new.text result }
        ensures block { self.new.block ≡ self.old.block }
    {
        let fed = p.session.feed(
            &self.block[..p.count],
            &mut self.history,
            &mut self.scratch,
            &mut self.out,
        );
        match fed {
            Ok(given) => {
                let used = rows::put_rows(&mut self.text, p.name, p.tick, &self.out, given.count);
                StepAnswer {
                    progress: Progress {
                        session: given.session,
                        count: 0,
                        tick: p.tick + given.count as u64,
                        going: true,
                        ..p
                    },
                    at,
                    used,
                }
            }
            Err(refusal) => {
                let used = rows::put_feed(&mut self.text, refusal.number());
                StepAnswer {
                    progress: Progress { going: false, ..p },
                    at,
                    used,
                }
            }
        }
    }

    // Closes the session.
    fn close(&mut self, p: Progress) -> usize
        ensures { Closes p self.old.history self.new.text result }
    {
        let closed = p
            .session
            .close(&self.history, &mut self.scratch, &mut self.out);
        match closed {
            Ok(given) => rows::put_rows(&mut self.text, p.name, p.tick, &self.out, given.count),
            Err(_) => 0,
        }
    }
}

// Tells on standard error what cannot be read or written. Where that fails too, there is nobody to tell.
fn fail(rt: &impl Eprint, name: &str, error: io::Error) {
    let _ = eprintln!(rt; "{name}: {error}");
}

// Writes the first bytes of the text; answers whether all were taken. No step uses more bytes than the text has: the first test makes this function
// total.
fn write<W: Write>(rt: &impl Eprint, to: &mut W, text: &[u8], used: usize) -> bool {
    if used > text.len() {
        return false;
    }
    match to.write_all(&text[..used]) {
        Ok(()) => true,
        Err(error) => {
            fail(rt, "standard output", error);
            false
        }
    }
}

// The progress of a program that ends here.
fn ended(p: Progress) -> Progress
    ensures { (result.going ≡ false) × (result.line ≡ p.line) }
{
    Progress { going: false, ..p }
}

// All lines of a part, step by step; after each step its text is written.
fn consume<W: Write>(
    rt: &impl Eprint,
    to: &mut W,
    first: Progress,
    part: &[u8],
    buffers: &mut Buffers,
) -> Progress
    requires { Ready first }
    ensures { Consumed first part.now buffers.old.history buffers.old.block buffers.new.history buffers.new.block result }
{
    let mut p = first;
    let mut at = 0;
    // How far a step goes, it tells.
    while at < part.len() {
        let o = buffers.step(p, part, at);
        if !write(rt, to, &buffers.text, o.used) {
            return ended(o.progress);
        }
        if !o.progress.going {
            return o.progress;
        }
        p = o.progress;
        at = o.at;
    }
    p
}

// All of standard input. A proved loop has to end, so its reads are counted, up to 2^64 - 1 rounds of 2^64 - 1: more than any mission has, since a
// state takes 11 bytes at most and a read gives one at least.
fn run<R: Read, W: Write>(
    rt: &impl Eprint,
    input: &mut R,
    to: &mut W,
    first: Progress,
    buffers: &mut Buffers,
) -> Progress
    requires { Ready first }
    ensures { ReadyIfGoing result }
{
    let mut buf = [0u8; PART_BYTES];
    let mut p = first;
    for _ in 0..u64::MAX {
        for _ in 0..u64::MAX {
            let n = match input.read(&mut buf) {
                Ok(n) => n,
                Err(error) => {
                    fail(rt, "standard input", error);
                    return ended(p);
                }
            };
            if n == 0 {
                return p;
            }
            p = consume(rt, to, p, &buf[..n], buffers);
            if !p.going {
                return p;
            }
        }
    }
    p
}

// The line end that the last line may lack.
fn last_line<W: Write>(rt: &impl Eprint, to: &mut W, p: Progress, buffers: &mut Buffers) -> Progress
    requires { Ready p }
    ensures { Completed p buffers.old.history buffers.old.block buffers.new.history buffers.new.block result }
{
    if p.line.digits == 0 {
        return p;
    }
    let o = buffers.step(p, b"\n", 0);
    if write(rt, to, &buffers.text, o.used) {
        return o.progress;
    }
    ended(o.progress)
}

// The end of the input: the last line, the last block, and the close.
fn finish<W: Write>(rt: &impl Eprint, to: &mut W, first: Progress, buffers: &mut Buffers)
    requires { Ready first }
{
    let p = last_line(rt, to, first, buffers);
    if !p.going {
        return;
    }
    let o = buffers.feed(p, 0);
    if !write(rt, to, &buffers.text, o.used) {
        return;
    }
    if !o.progress.going {
        return;
    }
    let used = buffers.close(o.progress);
    write(rt, to, &buffers.text, used);
}

// The first rule of a table that was read, simplified and opened.
fn begin(t: Table) -> Progress
    ensures { Begins t result × Ready result }
{
    let table = simplify::simplify(t).unwrap_or(t);
    Progress {
        session: Session::open(table, 0).unwrap_or(session::no_session()),
        name: table.rules[0].name,
        line: lines::start(),
        count: 0,
        tick: 0,
        going: true,
    }
}

// Watches the first rule of a table that was read.
fn watch<R: Read, W: Write>(
    rt: &impl Eprint,
    input: &mut R,
    to: &mut W,
    t: Table,
    buffers: &mut Buffers,
) {
    let last = run(rt, input, to, begin(t), buffers);
    if last.going {
        finish(rt, to, last, buffers);
    }
}

// Reads to the end, or until the buffer is full: how many bytes came.
fn fill<R: Read>(file: &mut R, book: &mut [u8]) -> io::Result<usize>
    ensures bound { IfOk result (λ n. n ≤ length book.new) }
{
    let mut at = 0;
    // How many bytes a read gives, it tells.
    while at < book.len() {
        let n = file.read(&mut book[at..])?;
        if n == 0 {
            return Ok(at);
        }
        at += n;
    }
    Ok(at)
}

// The book in rules.bin, which counts as empty if it is missing: how many bytes it has. One that cannot be read is told.
fn load<R: Files + Eprint>(rt: &R, book: &mut [u8]) -> Option<usize>
    ensures bound { IfSome result (λ n. n ≤ length book.new) }
{
    let read = match File::open(rt, BOOK_NAME) {
        Ok(mut file) => fill(&mut file, book),
        Err(error) if error.kind() == ErrorKind::NotFound => Ok(0),
        Err(error) => Err(error),
    };
    match read {
        Ok(n) => Some(n),
        Err(error) => {
            fail(rt, BOOK_NAME, error);
            None
        }
    }
}

// A refused book.
fn tell<W: Write>(rt: &impl Eprint, to: &mut W, fault: Fault, text: &mut [u8; TEXT_BYTES]) {
    let used = rows::put_book(text, fault.refusal.number(), fault.record);
    write(rt, to, text, used);
}

fn main(rt: HostRuntime) {
    let mut bytes = [0u8; ROOM];
    let Some(n) = load(&rt, &mut bytes) else {
        return;
    };
    let mut buffers = Buffers::new();
    match book::read(&bytes[..n]) {
        Ok(table) => watch(&rt, &mut rt.stdin(), &mut rt.stdout(), table, &mut buffers),
        Err(fault) => tell(&rt, &mut rt.stdout(), fault, &mut buffers.text),
    }
}
