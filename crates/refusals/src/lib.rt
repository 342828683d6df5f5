// The refusals of documents 01 and 02. include/juntreak.h has the same names and numbers with JUNTREAK_ before each; the numbers are also
// definitions, in specs/Numbers.
#![tactic(auto)]

ghost use Rattle.std.specs.Prelude.{ℕ, ◌≡◌};
ghost use Rattle.refusals.specs.Refusals.{number_of};

// Why a call is refused.
#[derive(Clone, Copy, Debug, PartialEq, Eq)]
pub enum Refusal {
    // ---- books, told with a record; Interval also of a splitting
    Length = 1,
    Head = 2,
    Link = 3,
    Form = 4,
    Argument = 5,
    Interval = 6,
    Operand = 7,
    Full = 8,
    Long = 9,
    Name = 10,
    Ruleless = 11,
    // ---- written books
    Output = 34,
    // ---- typed rules
    Syntax = 32,
    Deep = 33,
    // ---- tables and sessions
    Unsound = 25,
    Absent = 21,
    States = 22,
    Buffer = 23,
    Seen = 24,
    Tick = 31,
    Beyond = 35,
    // ---- the scheduler
    List = 36,
    Waiting = 37,
    // ---- the status registers
    Place = 38,
}

impl Refusal {
    // The number that a caller in C is told.
    pub fn number(self) -> u8
        ensures { result ≡ number_of self }
    {
        self as u8
    }
}

// What a refused call is told by: a refusal, or a number alone, which may be any.
pub trait Reason: Copy {
    ghost told: { Self → ℕ };

    // The number that a caller in C is told.
    fn told(self) -> u8
        ensures { result ≡ told self };
}

impl Reason for Refusal {
    ghost told = { number_of };

    fn told(self) -> u8 {
        self.number()
    }
}

impl Reason for u8 {
    ghost told = { λ n. n };

    fn told(self) -> u8 {
        self // as it is
    }
}
