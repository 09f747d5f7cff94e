// What is told in structs of numbers that C can read: answers, costs, reasons, a deadline and a share.
#![tactic(auto)]

ghost use Rattle.std.specs.Prelude.{◌≡◌};
ghost use Rattle.reader.specs.Meaning.{meant_deadline, meant_share};
ghost use Rattle.planner.specs.Planned.{meant_answer, meant_costs};
ghost use Rattle.reasons.specs.Meant.{meant_why};
ghost use Rattle.rules.specs.Answer.{refused};
ghost use Rattle.rules.specs.Range.{no_range};
ghost use Rattle.told.specs.Told.{told_deadline, told_given, told_share, told_answer, told_costs, told_why};

use planner::{Answer, Range};
use reasons::Why;
use refusals::Refusal;

// The minutes of a deadline; 0 for none.
pub fn deadline_minutes(deadline: Option<u64>) -> u64
    ensures { result ≡ told_deadline (meant_deadline deadline) }
{
    deadline.unwrap_or(0)
}

// 1 for a share, 0 for none.
pub fn is_given(share: Option<u64>) -> u64
    ensures { result ≡ told_given (meant_share share) }
{
    u64::from(share.is_some())
}

// The thousandths of a share; 0 for none.
pub fn thousandths(share: Option<u64>) -> u64
    ensures { result ≡ told_share (meant_share share) }
{
    share.unwrap_or(0)
}

// How a request is answered. `number` is that of the refusal, 1 to 9 or 11, with its place; or 0 for a plan, with its number of tasks, its length, its cost and
// the budget left.
#[repr(C)]
#[derive(Clone, Copy, Debug, Default, PartialEq, Eq)]
pub struct ZabgurinAnswer {
    pub number: u64,
    pub place: u64,
    pub tasks: u64,
    pub length: u64,
    pub cost: u64,
    pub left: u64,
}

impl ZabgurinAnswer {
    // A refusal by any number, with its place.
    pub fn refused(number: u64, place: u64) -> ZabgurinAnswer
        ensures { result ≡ told_answer (refused number place) }
    {
        ZabgurinAnswer {
            number,
            place,
            ..ZabgurinAnswer::default()
        }
    }
}

impl From<Answer> for ZabgurinAnswer {
    ghost from_gives = { λ answer told. told ≡ told_answer (meant_answer answer) };

    fn from(answer: Answer) -> ZabgurinAnswer {
        match answer {
            Ok(plan) => ZabgurinAnswer {
                tasks: plan.n,
                length: plan.length,
                cost: plan.cost,
                left: plan.left,
                ..ZabgurinAnswer::default()
            },
            Err(refusal) => ZabgurinAnswer::refused(refusal.fault.number(), refusal.place),
        }
    }
}

// What the cheapest plan and the HEFT plan cost. `number` is that of the refusal that both get, 1 to 6 or 8, with its place; or 0, with the costs.
#[repr(C)]
#[derive(Clone, Copy, Debug, Default, PartialEq, Eq)]
pub struct ZabgurinCosts {
    pub number: u64,
    pub place: u64,
    pub cheapest: u64,
    pub heft: u64,
}

impl ZabgurinCosts {
    // A refusal by any number, with its place.
    pub fn refused(number: u64, place: u64) -> ZabgurinCosts
        ensures { result ≡ told_costs (no_range number place) }
    {
        ZabgurinCosts {
            number,
            place,
            ..ZabgurinCosts::default()
        }
    }
}

impl From<Result<Range, Refusal>> for ZabgurinCosts {
    ghost from_gives = { λ costs told. told ≡ told_costs (meant_costs costs) };

    fn from(costs: Result<Range, Refusal>) -> ZabgurinCosts {
        match costs {
            Ok(range) => ZabgurinCosts {
                cheapest: range.cheapest,
                heft: range.heft,
                ..ZabgurinCosts::default()
            },
            Err(refusal) => ZabgurinCosts::refused(refusal.fault.number(), refusal.place),
        }
    }
}

// Why a task does not start at a minute. `number` is that of the refusal, with its place; or 0, with what is so in `reason`. 1: the data from `task` arrives at
// `begin`; 2: its processor is down from `begin` up to `end`; 3: its processor runs `task` from `begin` up to `end`; 4: its own start is `begin`, so that minute is
// not sooner; 5: there is no such task, the request has `task` of them. All else is 0.
#[repr(C)]
#[derive(Clone, Copy, Debug, Default, PartialEq, Eq)]
pub struct ZabgurinWhy {
    pub number: u64,
    pub place: u64,
    pub reason: u64,
    pub task: u64,
    pub begin: u64,
    pub end: u64,
}

impl From<Why> for ZabgurinWhy {
    ghost from_gives = { λ why told. told ≡ told_why (meant_why why) };

    #[tactic(auto, unfolding(reasons::specs::Meant::meant_why))]
    fn from(why: Why) -> ZabgurinWhy {
        match why {
            Why::LateData { from, minute } => ZabgurinWhy {
                reason: 1,
                task: from,
                begin: minute,
                ..ZabgurinWhy::default()
            },
            Why::InWindow { begin, end } => ZabgurinWhy {
                reason: 2,
                begin,
                end,
                ..ZabgurinWhy::default()
            },
            Why::BesideRow { task, begin, end } => ZabgurinWhy {
                reason: 3,
                task,
                begin,
                end,
                ..ZabgurinWhy::default()
            },
            Why::OwnStart { start } => ZabgurinWhy {
                reason: 4,
                begin: start,
                ..ZabgurinWhy::default()
            },
            Why::NoTask { tasks } => ZabgurinWhy {
                reason: 5,
                task: tasks,
                ..ZabgurinWhy::default()
            },
            Why::NoPlan { number, place } => ZabgurinWhy {
                number,
                place,
                ..ZabgurinWhy::default()
            },
        }
    }
}
