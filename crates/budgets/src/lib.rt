// What every plan is made of, whatever its answer: the budget that is in force, and all tasks placed, once what this takes is computed.
#![tactic(auto)]

ghost use Rattle.std.specs.Prelude.{◌≤◌, ◌≡◌, []};
ghost use Rattle.rules.specs.Reading.{no_deadline};
ghost use Rattle.rules.specs.Budget.{in_force, budget_between, budget_of};
ghost use Rattle.rules.specs.Answer.{too_late};
ghost use Rattle.laws.specs.Bounds.{total_most, budget_most};
ghost use Rattle.choosing.specs.Named.{meant_method};
ghost use Rattle.reader.specs.Meaning.{meant_deadline, meant_share};
ghost use Rattle.lookup.specs.Flow.{flow};
ghost use Rattle.budgets.specs.Prepared.{IsPrepared, RowsAre, PlacedWith, held_to_none};

use charges::Charges;
use choosing::Method;
use lookup::Request;
use placing::Placing;

// The rows of all tasks, each field in an array: at i that of task i, and 0 for a task that has no row.
#[derive(Clone, Copy, Debug, PartialEq, Eq)]
pub struct Rows {
    pub processors: [u64; 64],
    pub starts: [u64; 64],
    pub finishes: [u64; 64],
    pub costs: [u64; 64],
}

impl Rows {
    // No task has a row.
    pub fn none() -> Rows
        ensures { RowsAre [] result }
    {
        Rows {
            processors: [0; 64],
            starts: [0; 64],
            finishes: [0; 64],
            costs: [0; 64],
        }
    }
}

// What is computed of a good request before its tasks are placed: what its processors charge, the tasks' ranks, where each task's edges begin, and the cheapest total.
#[derive(Clone, Copy)]
pub struct Prepared<'a> {
    pub charges: &'a Charges,
    pub ranks: &'a [u64; 64],
    pub edges_at: &'a [u16; 65],
    pub cheapest: u64,
}

// "length above the deadline"
#[tactic(auto, unfolding(rules::specs::Answer::too_late))]
pub fn too_late(deadline: Option<u64>, length: u64) -> bool
    ensures { result ≡ too_late (meant_deadline deadline) length }
{
    deadline.is_some_and(|minutes| minutes < length)
}

// Places all tasks by a method within a budget, beside the windows, which are read for it, and from minute 0 on.
pub fn place_all(
    r: &Request<'_>,
    method: Method,
    budget: u64,
    prepared: &Prepared,
    rows: &mut Rows,
) -> Placing
    requires prepared { IsPrepared r.now.bytes.now r.now.view prepared.now }
    requires budget_le_budget_most { budget ≤ budget_most }
    requires none { RowsAre [] rows.old }
    ensures { PlacedWith (meant_method method) (in_force budget no_deadline (flow r.now)) rows.new result }
{
    let outset = downtime::busy_at_first(r);
    let clock: u64 = 0;
    let charges = prepared.charges;
    placing::place(
        r,
        method,
        budget,
        &charges.prices,
        &charges.minimums,
        prepared.ranks,
        prepared.edges_at,
        prepared.cheapest,
        outset,
        clock,
        &mut rows.processors,
        &mut rows.starts,
        &mut rows.finishes,
        &mut rows.costs,
    )
}

// "budget = cheapest + floor(k x (HEFT cost - cheapest) / 1000)"
fn budget_between(k: u64, cheapest: u64, heft_cost: u64) -> u64
    requires { (k ≤ 1_000) × (cheapest ≤ total_most) × (heft_cost ≤ total_most) }
    ensures { (result ≡ budget_between k cheapest heft_cost) × (result ≤ budget_most) }
{
    cheapest + k * heft_cost.saturating_sub(cheapest) / 1_000
}

// The budget in force: that of `H`, or the one that a `K` sets. For this the HEFT plan is placed, and its rows are taken back.
pub fn budget_of(r: &Request<'_>, prepared: &Prepared, rows: &mut Rows) -> u64
    requires prepared { IsPrepared r.now.bytes.now r.now.view prepared.now }
    requires none { RowsAre [] rows.old }
    ensures { (result ≡ budget_of (meant_share r.now.view.share) (flow r.now)) × (result ≤ budget_most) × RowsAre [] rows.new }
{
    let Some(k) = r.view.share else {
        return r.view.budget;
    };
    let heft = place_all(r, Method::Heft, 0, prepared, rows);
    *rows = Rows::none();
    budget_between(k, prepared.cheapest, heft.cost)
}

// Whether a method is held to no budget.
#[tactic(auto, unfolding(choosing::specs::Named::meant_method))]
pub fn alone(method: Method) -> bool
    ensures { result ≡ held_to_none (meant_method method) }
{
    match method {
        Method::Hbcs => false,
        Method::Cheapest | Method::Heft => true,
    }
}
