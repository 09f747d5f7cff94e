// Why a task does not start sooner than in the plan that the page answers with, by a request's bytes.
#![tactic(auto)]

ghost use Rattle.std.specs.Prelude.{◌≡◌};
ghost use Rattle.rules.specs.Method.{by_HBCS};
ghost use Rattle.rules.specs.Answer.{outcome_by};
ghost use Rattle.rules.specs.Why.{no_plan, why_of, why_not};
ghost use Rattle.refusals.specs.Numbers.{number};
ghost use Rattle.planner.specs.Planned.{workflow_by};
ghost use Rattle.reasons.specs.Meant.{meant_why};

use budgets::Rows;
use choosing::Method;
use lookup::Request;
use reasons::Why;
use refusals::Refusal;

// That there is no plan.
#[tactic(auto, unfolding(reasons::specs::Meant::meant_why))]
fn no_plan(refusal: Refusal) -> Why
    ensures { meant_why result ≡ no_plan (number refusal.fault) refusal.place }
{
    Why::NoPlan {
        number: refusal.fault.number(),
        place: refusal.place,
    }
}

// What stands against a start of a task of a good request, by its view: in the plan by HBCS, which is made for it.
fn why_good(r: &Request<'_>, task: usize, start: u64) -> Why
    ensures { meant_why result ≡ why_of (outcome_by by_HBCS (workflow_by by_HBCS r.now.bytes.now r.now.view) 64) task start }
{
    let mut rows = Rows::none();
    let answer = planner::plan_good(r, Method::Hbcs, 64, &mut rows);
    if let Err(refusal) = answer {
        return no_plan(refusal);
    }
    if r.view.tasks <= task {
        return Why::NoTask {
            tasks: r.view.tasks as u64,
        };
    }
    reasons::why_placed(
        r,
        &rows.processors,
        &rows.starts,
        &rows.finishes,
        task,
        start,
    )
}

// What stands against a start of a task of any request: in the plan that the page answers with, or that there is none.
pub fn why_not(request: &[u8], task: usize, start: u64) -> Why
    ensures { meant_why result ≡ why_not request.now task start }
{
    match Request::read(request) {
        Ok(r) => why_good(&r, task, start),
        Err(refusal) => no_plan(refusal),
    }
}
