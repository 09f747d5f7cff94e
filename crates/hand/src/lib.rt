// The task in hand: its start and finish on each processor, and the row that it gets.
#![tactic(auto)]

ghost use Rattle.std.specs.Prelude.{◌≡◌, ◌≤◌, ◌<◌};
ghost use Rattle.rules.specs.Ranks.{cost};
ghost use Rattle.rules.specs.Method as rules;
ghost use Rattle.lookup.specs.Flow.{flow};
ghost use Rattle.laws.specs.Bounds.{ready_most, total_most, budget_most};
ghost use Rattle.laws.specs.Stores.{at};
ghost use Rattle.laws.specs.Filled.{AtMost, Filled};
ghost use Rattle.busy.specs.Kept.{kept_by, EndBy};
ghost use Rattle.choosing.specs.Named.{meant_method};
ghost use Rattle.hand.specs.Hand.{finish_by, row_by};

use busy::Processors;
use choosing::Method;
use lookup::Request;

// The row of the task in hand.
#[derive(Clone, Copy)]
pub struct Row {
    pub processor: usize,
    pub start: u64,
    pub finish: u64,
    pub cost: u64,
}

// The task's finish on each processor, by when its data is ready there.
fn finish_on_all(r: &Request<'_>, ready: &[u64; 16], busy: &Processors, task: usize) -> [u64; 16]
    requires task_lt_tasks { (task < r.now.view.tasks) × AtMost ready_most ready.now }
    requires end_by { EndBy ready_most busy.now.begins busy.now.ends busy.now.first }
    ensures { Filled r.now.view.processors (finish_by (flow r.now) (at ready.now) (kept_by busy.now) task) result }
{
    let mut all = [0u64; 16];
    for j in 0..r.view.processors {
        let minutes = r.minutes(task, j);
        all[j] = busy.start_on(j, ready[j], minutes) + minutes;
    }
    all
}

// The row that the task gets, by the method's choice from its costs and finishes, RB and RCB.
pub fn row_for(
    r: &Request<'_>,
    method: Method,
    ready: &[u64; 16],
    busy: &Processors,
    costs: &[u64; 16],
    task: usize,
    rb: u64,
    rcb: u64,
) -> Row
    requires task_lt_tasks { (task < r.now.view.tasks) × AtMost ready_most ready.now }
    requires end_by { EndBy ready_most busy.now.begins busy.now.ends busy.now.first }
    requires filled { Filled r.now.view.processors (cost (flow r.now) task) costs.now × (rb ≤ budget_most) × (rcb ≤ total_most) }
    ensures { result ≡ row_by (flow r.now) (at ready.now) (kept_by busy.now) task (rules.method (meant_method method)) rb rcb }
{
    let finishes = finish_on_all(r, ready, busy, task);
    let j = choosing::choose(method, r.view.processors, costs, &finishes, rb, rcb);
    let finish = finishes[j];
    let cost = costs[j];
    Row {
        processor: j,
        start: finish - r.minutes(task, j),
        finish,
        cost,
    }
}
