// The plan of a good request by the method that is asked for: the answer, and the rows.
#![tactic(auto)]

ghost use Rattle.std.specs.Prelude.{◌≡◌, false, [], Ok};
ghost use Rattle.rules.specs.Cycle.{cyclic};
ghost use Rattle.rules.specs.Method.{by_HBCS};
ghost use Rattle.rules.specs.Answer.{outcome_by};
ghost use Rattle.choosing.specs.Named.{meant_method};
ghost use Rattle.lookup.specs.Flow.{flow};
ghost use Rattle.successors.specs.Begins.{BeginsFrom};
ghost use Rattle.placing.specs.Placed.{RanksOf};
ghost use Rattle.budgets.specs.Prepared.{IsPrepared, RowsAre};
ghost use Rattle.planner.specs.Planned.{PlanOf, planned_in, workflow_by, later_by, plan_alone, rows_told};

use budgets::{Prepared, Rows};
use choosing::Method;
use lookup::Request;
use refusals::{Fault, Refusal};

// "a plan summary (n, length, cost, budget left)"
#[derive(Clone, Copy, Debug, PartialEq, Eq)]
pub struct Summary {
    pub n: u64,
    pub length: u64,
    pub cost: u64,
    pub left: u64,
}

// "Either a plan summary (n, length, cost, budget left) or a refusal (number, place)."
pub type Answer = Result<Summary, Refusal>;

// The answer, and the rows of all tasks; a refusal has none.
#[derive(Clone, Copy, Debug, PartialEq, Eq)]
pub struct Planning {
    pub answer: Answer,
    pub rows: Rows,
}

// "the cheapest plan's cost, the HEFT plan's cost"
#[derive(Clone, Copy, Debug, PartialEq, Eq)]
pub struct Range {
    pub cheapest: u64,
    pub heft: u64,
}

// HBCS: check 9, placing within the budget in force, and check 11, which takes the rows back.
fn plan_within(r: &Request<'_>, prepared: &Prepared, rows: &mut Rows) -> Answer
    requires prepared { IsPrepared r.now.bytes.now r.now.view prepared.now }
    requires none { RowsAre [] rows.old }
    ensures { PlanOf (later_by by_HBCS (workflow_by by_HBCS r.now.bytes.now r.now.view)) (planned_in rows.new result) }
{
    let cheapest = prepared.cheapest;
    let in_force = budgets::budget_of(r, prepared, rows);
    if in_force < cheapest {
        return Err(Refusal {
            fault: Fault::LowBudget,
            place: cheapest,
        });
    }
    let p = budgets::place_all(r, Method::Hbcs, in_force, prepared, rows);
    let deadline = r.view.deadline;
    if budgets::too_late(deadline, p.length) {
        *rows = Rows::none();
        return Err(Refusal {
            fault: Fault::Late,
            place: p.length,
        });
    }
    Ok(Summary {
        n: r.view.tasks as u64,
        length: p.length,
        cost: p.cost,
        left: p.left,
    })
}

// "Asked for alone, these two are held to no budget", so that nothing is left of it.
fn plan_alone(r: &Request<'_>, method: Method, prepared: &Prepared, rows: &mut Rows) -> Summary
    requires prepared { IsPrepared r.now.bytes.now r.now.view prepared.now }
    requires none { RowsAre [] rows.old }
    ensures { PlanOf (plan_alone (meant_method method) (flow r.now)) (planned_in rows.new (Ok result)) }
{
    let q = budgets::place_all(r, method, 0, prepared, rows);
    Summary {
        n: r.view.tasks as u64,
        length: q.length,
        cost: q.cost,
        left: 0,
    }
}

// What the processors charge is read once. Then the plan by the method.
fn plan_ranked(
    r: &Request<'_>,
    method: Method,
    ranks: &[u64; 64],
    edges_at: &[u16; 65],
    rows: &mut Rows,
) -> Answer
    requires ranks_of { RanksOf (flow r.now) ranks.now }
    requires v_value { (cyclic (flow r.now) ≡ false) × BeginsFrom (flow r.now) 0 edges_at.now }
    requires none { RowsAre [] rows.old }
    ensures { PlanOf (later_by (meant_method method) (workflow_by (meant_method method) r.now.bytes.now r.now.view)) (planned_in rows.new result) }
{
    let charges = charges::charges_of(r);
    let cheapest = costs::cheapest_total(r, &charges.prices, &charges.minimums);
    let prepared = Prepared {
        charges: &charges,
        ranks,
        edges_at,
        cheapest,
    };
    if budgets::alone(method) {
        return Ok(plan_alone(r, method, &prepared, rows));
    }
    plan_within(r, &prepared, rows)
}

// The plan of a good request, by its view, with so many rows lent: checks 7 and 8, then the rest. No task has a row at first; the tasks of a plan have theirs then,
// and for a refusal none has one.
pub fn plan_good(r: &Request<'_>, method: Method, lent: usize, rows: &mut Rows) -> Answer
    requires { RowsAre [] rows.old }
    ensures { PlanOf (outcome_by (meant_method method) (workflow_by (meant_method method) r.now.bytes.now r.now.view) lent) (planned_in rows.new result) }
{
    if lent < r.view.tasks {
        return Err(Refusal::at(Fault::FewRows, r.view.tasks));
    }
    let edges_at = successors::begins_all(r);
    let mut ranks = [0u64; 64];
    if !ranking::rank_all(r, &edges_at, &mut ranks) {
        return Err(Refusal::at(Fault::Cycle, cycles::lowest_in_cycle(r)));
    }
    plan_ranked(r, method, &ranks, &edges_at, rows)
}

// How many rows an answer comes with, whatever a refusal is told by.
pub fn rows_of<E: Drop>(answer: Result<Summary, E>) -> u64
    ensures { result ≡ rows_told answer }
{
    answer.map_or(0, |plan| plan.n)
}
