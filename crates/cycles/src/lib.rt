// The lowest task with a path back to itself, where a request's edges have a cycle.
#![tactic(auto)]

ghost use Rattle.std.specs.Prelude.{◌≡◌, true, false, ◌||◌, ◌<◌, eqb, get_or};
ghost use Rattle.rules.specs.Cycle.{back_to_itself, cyclic, lowest_in_cycle};
ghost use Rattle.lookup.specs.Flow.{flow};
ghost use Rattle.laws.specs.Turned.{Turned};
ghost use Rattle.cycles.specs.Marked.{MarkedSoFar, Followed, AllFollowed};

use lookup::Request;

// Whether a task is the start or is marked.
fn reached(marks: &[bool; 64], start: usize, task: usize) -> bool
    requires { task < 64 }
    ensures { result ≡ (eqb task start || get_or marks.now task false) }
{
    task == start || marks[task]
}

// Marks the task that an edge leads to, if the one that it leads from is reached. Answers how many are left.
#[tactic(auto, using(lookup::specs::Views::view_tasks))]
fn mark_end(
    r: &Request<'_>,
    marks: &mut [bool; 64],
    start: usize,
    edge: usize,
    left: usize,
) -> usize
    requires { (edge < r.now.view.edges) × MarkedSoFar (flow r.now) start marks.old left }
    ensures { Turned (MarkedSoFar (flow r.now) start) (λ marks. Followed (flow r.now) start marks edge) marks.entry.now marks.exit.now left result }
{
    let to = r.to(edge);
    if marks[to] {
        return left;
    }
    if reached(marks, start, r.from(edge)) {
        marks[to] = true;
        return left - 1;
    }
    left
}

// Marks along all edges. Answers how many are left.
fn mark_pass(r: &Request<'_>, marks: &mut [bool; 64], start: usize, left: usize) -> usize
    requires { MarkedSoFar (flow r.now) start marks.old left }
    ensures { Turned (MarkedSoFar (flow r.now) start) (AllFollowed (flow r.now) start r.now.view.edges) marks.old marks.new left result }
{
    let mut now_left = left;
    for e in 0..r.view.edges {
        now_left = mark_end(r, marks, start, e, now_left);
    }
    now_left
}

// Whether a task has a path back to itself.
#[tactic(auto, using(lookup::specs::Views::view_tasks))]
fn leads_back(r: &Request<'_>, start: usize) -> bool
    requires { start < r.now.view.tasks }
    ensures { result ≡ back_to_itself (flow r.now) start }
{
    let mut marks = [false; 64];
    let mut left = r.view.tasks;
    while 0 < left {
        let before = left;
        left = mark_pass(r, &mut marks, start, before);
        if left == before {
            return marks[start];
        }
    }
    true
}

// The lowest task with a path back to itself, where the edges have a cycle.
pub fn lowest_in_cycle(r: &Request<'_>) -> usize
    requires { cyclic (flow r.now) ≡ true }
    ensures { result ≡ lowest_in_cycle (flow r.now) }
{
    for task in 0..r.view.tasks {
        if leads_back(r, task) {
            return task;
        }
    }
    unreachable!()
}
