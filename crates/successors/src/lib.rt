// The edges out of each task, which stand one after the other in a request: where they begin, and how many of the edges into each task come from one that is
// not placed yet.
#![tactic(auto)]

ghost use Rattle.std.specs.Prelude.{◌≡◌, false, ◌+◌, ◌<◌, get_or, replicate};
ghost use Rattle.lookup.specs.Flow.{flow};
ghost use Rattle.successors.specs.Begins.{Begins, BeginsFrom};
ghost use Rattle.successors.specs.Held.{Held, released};

use lookup::Request;

// Where the edges of a task begin, which end at `end`.
fn begin_of(r: &Request<'_>, task: usize, end: usize) -> usize
    requires { Begins (flow r.now) (task + 1) end }
    ensures { Begins (flow r.now) task result }
{
    for before in (0..end).rev() {
        if r.from(before) < task {
            return before + 1;
        }
    }
    0
}

// Where the edges of each task begin; past the last task, where all edges end.
#[tactic(auto, using(lookup::specs::Views::view_tasks, lookup::specs::Views::view_edges))]
pub fn begins_all(r: &Request<'_>) -> [u16; 65]
    ensures { BeginsFrom (flow r.now) 0 result }
{
    let mut begins = [0u16; 65];
    let mut end = r.view.edges;
    begins[r.view.tasks] = end as u16;
    for task in (0..r.view.tasks).rev() {
        end = begin_of(r, task, end);
        begins[task] = end as u16;
    }
    begins
}

// How many edges lead to each task, in a lent array in which none is counted yet.
#[tactic(auto, using(lookup::specs::Views::view_tasks, lookup::specs::Views::view_edges))]
pub fn count_all(r: &Request<'_>, held: &mut [u64; 64])
    requires { held.old ≡ replicate 64 0 }
    ensures { Held (flow r.now) (λ i. false) held.new }
{
    for e in 0..r.view.edges {
        let to = r.to(e);
        held[to] += 1;
    }
}

// The task is placed: it is held back from now on, and its successors are no more held back by it.
#[tactic(auto, using(lookup::specs::Views::view_tasks, lookup::specs::Views::view_edges))]
pub fn release(r: &Request<'_>, begins: &[u16; 65], task: usize, held: &mut [u64; 64])
    requires task_lt_tasks { task < r.now.view.tasks }
    requires begins_from { BeginsFrom (flow r.now) 0 begins.now }
    ensures { held.new ≡ released (flow r.now) (get_or begins.now task 0) (get_or begins.now (task + 1) 0) task held.old }
{
    held[task] = 1;
    let begin = usize::from(begins[task]);
    let end = usize::from(begins[task + 1]);
    for e in begin..end {
        let to = r.to(e);
        held[to] = held[to].saturating_sub(1);
    }
}
