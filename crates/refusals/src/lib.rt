// What a request is refused for, and where: the fault with the number that the page answers, and its place.
#![tactic(auto)]

ghost use Rattle.std.specs.Prelude.{◌≡◌};
ghost use Rattle.refusals.specs.Numbers.{number};

use std::error::Error;
use std::fmt;

// The faults, each with its number: in reading up to `BytesAfter`, then of the plan.
#[derive(Clone, Copy, Debug, PartialEq, Eq)]
pub enum Fault {
    CutShort = 1,
    OtherKind = 2,
    OutOfOrder = 3,
    OutOfRange = 4,
    BadLabel = 5,
    BytesAfter = 6,
    FewRows = 7,
    Cycle = 8,
    LowBudget = 9,
    Late = 11,
}

impl Fault {
    // The number of the refusal.
    pub fn number(self) -> u64
        ensures { result ≡ number self }
    {
        self as u64
    }
}

// A fault and its place: an offset in reading; else what the fault is told by, as the number of tasks or a task.
#[derive(Clone, Copy, Debug, PartialEq, Eq)]
pub struct Refusal {
    pub fault: Fault,
    pub place: u64,
}

impl Refusal {
    // A fault at an offset, or told by another number of this size.
    pub fn at(fault: Fault, place: usize) -> Refusal
        ensures { result ≡ record { fault = fault; place = place } }
    {
        Refusal {
            fault,
            place: place as u64,
        }
    }
}

impl fmt::Display for Refusal {
    ghost use Rattle.std.specs.Prelude.{Some};
    ghost use Rattle.refusals.specs.Numbers.{refusal_text};

    // "`no `, number, place"
    ghost output = { λ r. Some (refusal_text r) };

    fn fmt<W: fmt::Write>(&self, f: &mut fmt::Formatter<W>) -> fmt::Result {
        let number = self.fault.number();
        let place = self.place;
        write!(f, "no {number} {place}")
    }
}

impl Error for Refusal {}
