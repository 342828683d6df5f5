// The status registers: sixteen bytes for a program that looks on while sessions run.
#![tactic(auto)]

ghost use Rattle.std.specs.Prelude.{◌≡◌};
ghost use Rattle.std.specs.Prelude.{Ok};
ghost use Rattle.refusals.specs.Refusals.{number_of, number};
ghost use Rattle.registers.specs.Registers.{gives_by, fails_by, tick_by, outcome_told, flags_from, byte_of, share, bytes_of, registers_from, running_after, first_after, accepted_by, after_call, cleared, enabled, after_write, place_number, reading_told, reading_of, tick_of, refused_by};

use limits::STATUS_BYTES;
use refusals::Refusal;

// Bits 0 to 3 of status and of enable: running, verdicts ready, a no was given, a call was refused.
#[derive(Clone, Copy)]
pub struct Flags {
    pub running: bool,
    pub ready: bool,
    pub failed: bool,
    pub refused: bool,
}

// What the bytes hold: beside status and enable the number of the last refused call, and the tick of the first no as 8 bytes.
#[derive(Clone, Copy)]
pub struct Registers {
    pub status: Flags,
    pub enable: Flags,
    pub number: u8,
    pub first: [u8; 8],
}

// The session's calls; Close is either close.
#[derive(Clone, Copy)]
pub enum Kind {
    Open,
    Widen,
    Feed,
    Close,
}

// The verdicts that an accepted call gave: none, all of them yes, or with the tick of its first no.
#[derive(Clone, Copy)]
pub enum Verdicts {
    Nothing,
    Yes,
    No(u64),
}

impl Verdicts {
    // A verdict is given.
    fn gives(self) -> bool
        ensures { result ≡ gives_by self }
    {
        match self {
            Verdicts::Nothing => false,
            Verdicts::Yes | Verdicts::No(_) => true,
        }
    }

    // A no is given.
    fn fails(self) -> bool
        ensures { result ≡ fails_by self }
    {
        match self {
            Verdicts::Nothing | Verdicts::Yes => false,
            Verdicts::No(_) => true,
        }
    }

    // The tick of the first no; 0 where there is none.
    fn tick(self) -> u64
        ensures { result ≡ tick_by self }
    {
        match self {
            Verdicts::Nothing | Verdicts::Yes => 0,
            Verdicts::No(tick) => tick,
        }
    }
}

// What a session call came to: its number, whether it gave a verdict and whether a no, and the tick of its first no.
#[derive(Clone, Copy)]
pub struct Outcome {
    pub kind: Kind,
    pub number: u8,
    pub gives: bool,
    pub fails: bool,
    pub tick: u64,
}

impl Outcome {
    // Of a call of this kind, by what it answered.
    pub fn of(kind: Kind, came: Result<Verdicts, Refusal>) -> Outcome
        ensures { result ≡ outcome_told kind came }
    {
        match came {
            Ok(v) => Outcome {
                kind,
                number: 0,
                gives: v.gives(),
                fails: v.fails(),
                tick: v.tick(),
            },
            Err(e) => Outcome {
                kind,
                number: e.number(),
                gives: false,
                fails: false,
                tick: 0,
            },
        }
    }
}

// ---- bytes

impl Flags {
    // The low four bits.
    fn from_byte(x: u8) -> Flags
        ensures { result ≡ flags_from x }
    {
        Flags {
            running: x % 2 == 1,
            ready: x / 2 % 2 == 1,
            failed: x / 4 % 2 == 1,
            refused: x / 8 % 2 == 1,
        }
    }

    // The flags as the low four bits of a byte.
    fn byte(self) -> u8
        ensures { result ≡ byte_of self }
    {
        self.running as u8
            + 2 * (self.ready as u8)
            + 4 * (self.failed as u8)
            + 8 * (self.refused as u8)
    }

    // A flag is set in both.
    fn shares(self, other: Flags) -> bool
        ensures { result ≡ share self other }
    {
        (self.running && other.running)
            || (self.ready && other.ready)
            || (self.failed && other.failed)
            || (self.refused && other.refused)
    }
}

impl Registers {
    // What the sixteen bytes hold.
    fn load(b: &[u8; STATUS_BYTES]) -> Registers
        ensures { result ≡ registers_from b.now }
    {
        Registers {
            status: Flags::from_byte(b[0]),
            enable: Flags::from_byte(b[1]),
            number: b[3],
            first: [b[4], b[5], b[6], b[7], b[8], b[9], b[10], b[11]],
        }
    }

    // The sixteen bytes; byte 2 is the interrupt.
    fn bytes(self) -> [u8; STATUS_BYTES]
        ensures { result ≡ bytes_of self }
    {
        let mut b = [0; STATUS_BYTES];
        b[0] = self.status.byte();
        b[1] = self.enable.byte();
        b[2] = self.status.shares(self.enable) as u8;
        b[3] = self.number;
        b[4..12].copy_from_slice(&self.first);
        b
    }
}

// ---- session calls

// Bit 0: an accepted open sets it, and an accepted close clears it.
fn running_after(kind: Kind, was: bool) -> bool
    ensures { result ≡ running_after kind was }
{
    match kind {
        Kind::Open => true,
        Kind::Widen | Kind::Feed => was,
        Kind::Close => false,
    }
}

// The tick of the first no; 0 where there is none.
fn tick_of(o: Outcome) -> u64
    ensures { result ≡ tick_of o }
{
    if o.fails { o.tick } else { 0 }
}

// The bytes of the first no's tick: they stay where it is `set`.
fn first_after(set: bool, first: [u8; 8], tick: u64) -> [u8; 8]
    ensures { result ≡ first_after set first tick }
{
    if set { first } else { tick.to_le_bytes() }
}

// After an accepted call.
fn accepted_by(o: Outcome, r: Registers) -> Registers
    ensures { result ≡ accepted_by o r }
{
    let was = r.status;
    let status = Flags {
        running: running_after(o.kind, was.running),
        ready: was.ready || o.gives,
        failed: was.failed || o.fails,
        ..was
    };
    let first = first_after(was.failed, r.first, tick_of(o));
    Registers { status, first, ..r }
}

// After a refused call.
fn refused_by(o: Outcome, r: Registers) -> Registers
    ensures { result ≡ refused_by o r }
{
    let status = Flags {
        refused: true,
        ..r.status
    };
    Registers {
        status,
        number: o.number,
        ..r
    }
}

// Notes a session call.
pub fn note(b: &mut [u8; STATUS_BYTES], o: Outcome)
    ensures { b.new ≡ after_call o b.old }
{
    let r = Registers::load(b);
    if o.number == 0 {
        *b = accepted_by(o, r).bytes();
    } else {
        *b = refused_by(o, r).bytes();
    }
}

// ---- writes and reads

// Clears those of bits 1 to 3 of the status that are set in `by`.
fn cleared_by(by: Flags, r: Registers) -> Registers
    ensures { result ≡ cleared by r }
{
    let was = r.status;
    let status = Flags {
        ready: was.ready && !by.ready,
        failed: was.failed && !by.failed,
        refused: was.refused && !by.refused,
        ..was
    };
    let first = first_after(status.failed, r.first, 0);
    Registers { status, first, ..r }
}

// With the flags of enable set anew.
fn enabled_by(by: Flags, r: Registers) -> Registers
    ensures { result ≡ enabled by r }
{
    Registers { enable: by, ..r }
}

// There are sixteen places.
fn check_place(place: usize) -> Result<(), Refusal>
    ensures { number result ≡ place_number place }
{
    if place < STATUS_BYTES {
        Ok(())
    } else {
        Err(Refusal::Place)
    }
}

// Writes a byte to a place: clears bits of the status, or sets enable.
pub fn write(b: &mut [u8; STATUS_BYTES], place: usize, value: u8) -> Result<(), Refusal>
    ensures { (number result ≡ place_number place) × (b.new ≡ after_write place value b.old) }
{
    match place {
        0 => {
            *b = cleared_by(Flags::from_byte(value), Registers::load(b)).bytes();
            Ok(())
        }
        1 => {
            *b = enabled_by(Flags::from_byte(value), Registers::load(b)).bytes();
            Ok(())
        }
        _ => check_place(place),
    }
}

// The byte at a place.
pub fn read(b: &[u8; STATUS_BYTES], place: usize) -> Result<u8, Refusal>
    ensures { reading_told result ≡ reading_of place b.now }
{
    b.get(place).copied().ok_or(Refusal::Place)
}
