// Why calls refuse, by the published table.
ghost use Rattle.std.specs.Prelude.{◌≡◌};
ghost use Rattle.ticket.specs.declared.Answer.{Answer};
ghost use Rattle.ticket.specs.Rules.{answered, reason_number, refusal};

use crate::Answer;

// The tests of the published table, by their numbers.
#[derive(Clone, Copy, Debug, PartialEq, Eq)]
pub enum Reason {
    Sizes = 1,
    Numbers = 2,
    Fit = 3,
    Length = 4,
    Form = 5,
    Residue = 6,
    Entry = 7,
    Quotient = 8,
    Remainder = 9,
    ListLength = 10,
    ListNumber = 11,
    Caught = 12,
    OperandLength = 13,
    OperandEntry = 14,
    Output = 15,
    Claim = 16,
    BiasBound = 17,
    BiasEntry = 18,
    Rounding = 19,
    NoWidth = 20,
    ZeroVector = 21,
    Addition = 22,
}

impl Reason {
    // The number of the test.
    pub fn number(self) -> u32
        ensures { result ≡ reason_number self }
    {
        self as u32
    }
}

// The first test that fails, and where.
#[derive(Clone, Copy, Debug, PartialEq, Eq)]
pub struct Refusal {
    pub reason: Reason,
    pub place: u32,
}

// A test that has one place only.
impl From<Reason> for Refusal {
    ghost from_gives = { λ reason refused. refused ≡ record { reason = reason; place = 0 } };

    fn from(reason: Reason) -> Refusal {
        Refusal { reason, place: 0 }
    }
}

impl From<Refusal> for Answer {
    ghost from_gives = { λ refused answer. answer ≡ refusal (reason_number refused.reason) refused.place };

    fn from(refusal: Refusal) -> Answer {
        Answer {
            number: refusal.reason.number(),
            place: refusal.place,
            row: 0,
            products: 0,
        }
    }
}
