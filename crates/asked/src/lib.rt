// The plan of a request by the method that is asked for, and the range that a budget is set in: of every byte string.
#![tactic(auto)]

ghost use Rattle.std.specs.Prelude.{◌≡◌, []};
ghost use Rattle.rules.specs.Answer.{outcome_asked, answer_asked};
ghost use Rattle.rules.specs.Range as rules;
ghost use Rattle.choosing.specs.Named.{meant_method};
ghost use Rattle.budgets.specs.Prepared.{RowsAre};
ghost use Rattle.planner.specs.Planned.{meant_answer, meant_costs, PlanOf, planned_in};

use budgets::Rows;
use choosing::Method;
use lookup::Request;
use planner::{Answer, Planning, Range};
use refusals::Refusal;

// The plan of a request by a method, with so many rows lent: checks 1 to 6, then 7, 8, and for HBCS 9, then placing, then 11. No task has a row at first, as for
// the plan of a good request.
pub fn plan_columns(request: &[u8], method: Method, lent: usize, rows: &mut Rows) -> Answer
    requires { RowsAre [] rows.old }
    ensures { PlanOf (outcome_asked (meant_method method) request.now lent) (planned_in rows.new result) }
{
    // No `?`: with it an edit that puts another place into the refusal would be refused for its form, and not for the place.
    match Request::read(request) {
        Ok(r) => planner::plan_good(&r, method, lent, rows),
        Err(refusal) => Err(refusal),
    }
}

// The plan of a request by a method, with so many rows lent, by value.
pub fn plan(request: &[u8], method: Method, lent: usize) -> Planning
    ensures { PlanOf (outcome_asked (meant_method method) request.now lent) result }
{
    let mut rows = Rows::none();
    let answer = plan_columns(request, method, lent, &mut rows);
    Planning { answer, rows }
}

// The answer by a method with 64 rows lent, which are not looked at.
fn answered(request: &[u8], method: Method) -> Answer
    ensures { meant_answer result ≡ answer_asked (meant_method method) request.now 64 }
{
    let mut rows = Rows::none();
    plan_columns(request, method, 64, &mut rows)
}

// The range that a budget is set in: what the cheapest plan and the HEFT plan cost, each asked for alone.
pub fn range(request: &[u8]) -> Result<Range, Refusal>
    ensures { meant_costs result ≡ rules.range request.now }
{
    let cheapest = answered(request, Method::Cheapest)?;
    let heft = answered(request, Method::Heft)?;
    Ok(Range {
        cheapest: cheapest.cost,
        heft: heft.cost,
    })
}
