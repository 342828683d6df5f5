// Sessions that were opened when the count of states had 32 bits, and their widening.
#![tactic(auto)]

ghost use Rattle.std.specs.Prelude.{◌≡◌};
ghost use Rattle.session.specs.Session.{opening_told};
ghost use Rattle.narrow.specs.Narrow.{wide_of, widening};

use refusals::Refusal;
use session::Session;
use table::Table;

// A session whose count of states has 32 bits. No call opens, feeds or closes one any more.
#[derive(Clone, Copy)]
pub struct NarrowSession {
    pub table: Table,
    pub rule: usize,
    pub seen: u32,
}

impl NarrowSession {
    // The session with a wide count, and all else as it was.
    pub fn widen(self) -> Result<Session, Refusal>
        ensures { opening_told result ≡ widening (wide_of self) }
    {
        let Ok(_) = table::delay(self.table, self.rule) else {
            return Err(Refusal::Unsound);
        };
        Ok(Session::with(self.table, self.rule, self.seen as u64))
    }
}
