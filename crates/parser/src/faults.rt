// Where a line is at fault.
ghost use Rattle.std.specs.Prelude.{◌≡◌};
ghost use Rattle.refusals.specs.Numbers.{SYNTAX, DEEP};
ghost use Rattle.refusals.specs.Refusals.{number_of};

use refusals::Refusal;

// The refusal of a line, and the place of its earliest fault.
#[derive(Clone, Copy, Debug, PartialEq, Eq)]
pub struct Fault {
    pub refusal: Refusal,
    pub at: usize,
}

impl Fault {
    // With the byte at the place, or the end there, no line goes on.
    pub(crate) fn syntax(at: usize) -> Fault
        ensures number { number_of result.refusal ≡ SYNTAX }
        ensures place { result.at ≡ at }
    {
        Fault {
            refusal: Refusal::Syntax,
            at,
        }
    }

    // The bracket at the place is one too many.
    pub(crate) fn deep(at: usize) -> Fault
        ensures number { number_of result.refusal ≡ DEEP }
        ensures place { result.at ≡ at }
    {
        Fault {
            refusal: Refusal::Deep,
            at,
        }
    }
}
