// The program rules: reads typed rules from standard input and writes their book to standard output, or tells on standard error why they are refused.
#![tactic(auto)]

ghost use Rattle.std.specs.Prelude.{◌≡◌, ◌+◌, ◌≤◌, ◌<◌, length, take, IfOk, OnOk};
ghost use Rattle.std.specs.Io.KnownBytes.{Appends, Consumes, IsAtEnd};
ghost use Rattle.message.specs.Message.{max_text};
ghost use Rattle.rules.specs.Output.{Compiles};

use limits::WRITTEN_BYTES;
use message::{MAX_TEXT, MESSAGE_BYTES};
use std::io;
use std::io::{Read, Write};

// The room for a text has a byte more than the longest, to show a longer one.
const ROOM: usize = MAX_TEXT + 1;

// How many bytes of the book and of the message are to be written.
#[derive(Clone, Copy)]
struct Compiled {
    book_bytes: usize,
    message_bytes: usize,
}

// The book of a text, or what is told of its refusal.
fn compile(
    text: &[u8],
    book: &mut [u8; WRITTEN_BYTES],
    message: &mut [u8; MESSAGE_BYTES],
) -> Compiled
    ensures { Compiles text.now book.old message.old book.new message.new result }
{
    if text.len() > MAX_TEXT {
        let used = message::put_long(message);
        return Compiled {
            book_bytes: 0,
            message_bytes: used,
        };
    }
    match text::read(text) {
        Ok(table) => Compiled {
            book_bytes: book::write(table, book).unwrap_or(0),
            message_bytes: 0,
        },
        Err(fault) => {
            let number = fault.refusal.number();
            let used = message::put_refusal(message, text, number, fault.place);
            Compiled {
                book_bytes: 0,
                message_bytes: used,
            }
        }
    }
}

// The room for a text. The length is all that lending it needs.
fn room() -> [u8; ROOM]
    ensures { max_text + 1 ≡ length result }
{
    [0; ROOM]
}

// Reads the input to its end, or until the buffer is full: how many bytes came.
fn load<R: Read>(input: &mut R, text: &mut [u8]) -> io::Result<usize>
    ensures bound { IfOk result (λ n. n ≤ length text.new) }
    ensures bytes { IfOk result (λ n. Consumes (R.remaining input.old) (R.remaining input.new) (take n text.new)) }
    ensures end { IfOk result (λ n. n < length text.new → IsAtEnd (R.remaining input.new)) }
{
    let mut at = 0;
    // How many bytes a read gives, it tells.
    while at < text.len() {
        let n = input.read(&mut text[at..])?;
        if n == 0 {
            return Ok(at);
        }
        at += n;
    }
    Ok(at)
}

// Writes the first bytes of a buffer. No step uses more bytes than there are: the first test makes this function total.
fn write<W: Write>(to: &mut W, bytes: &[u8], used: usize) -> io::Result<()>
    ensures { OnOk result (used ≤ length bytes.now → Appends (W.contents to.old) (W.contents to.new) (take used bytes.now)) }
{
    if used > bytes.len() {
        return Ok(());
    }
    to.write_all(&bytes[..used])
}

// Tells on standard error what cannot be read or written. Where that fails too, there is nobody to tell.
fn tell(rt: &impl Eprint, name: &str, error: io::Error) {
    let _ = eprintln!(rt; "{name}: {error}");
}

// A read or a write that fails is told on standard error, and the exit status is 0 all the same.
fn main(rt: HostRuntime) {
    let mut text = room();
    match load(&mut rt.stdin(), &mut text) {
        Ok(n) => {
            let mut book = [0u8; WRITTEN_BYTES];
            let mut message = [0u8; MESSAGE_BYTES];
            let c = compile(&text[..n], &mut book, &mut message);
            if let Err(error) = write(&mut rt.stdout(), &book, c.book_bytes) {
                tell(&rt, "standard output", error);
            }
            if let Err(error) = write(&mut rt.stderr(), &message, c.message_bytes) {
                tell(&rt, "standard error", error);
            }
        }
        Err(error) => tell(&rt, "standard input", error),
    }
}
