// The ranks of a request's tasks, where its edges have no cycle. A rank may be 0, so an array of them has 1 more than the rank of each task that is
// ranked, and 0 for one that is not ranked yet: an array of Options would take twice the memory.
#![tactic(auto)]

ghost use Rattle.std.specs.Prelude.{◌≡◌, ℕ, ◌+◌, ◌≤◌, ◌<◌, get_or};
ghost use Rattle.rules.specs.Folds.{sum};
ghost use Rattle.laws.specs.Bounds.{rank_most};
ghost use Rattle.lookup.specs.Flow.{flow};
ghost use Rattle.laws.specs.Turned.{Turned};
ghost use Rattle.successors.specs.Begins.{Begins, BeginsFrom};
ghost use Rattle.ranking.specs.Ranked.{RankedSoFar, NextRank, HeldUp, AllHeldUp, RankedAs};

use lookup::Request;

// The minutes of a task on all processors together.
fn all_minutes(r: &Request<'_>, task: usize) -> u64
    requires { task < r.now.view.tasks }
    ensures { (result ≡ sum r.now.view.processors ((flow r.now).minutes task)) × (result ≤ 32_000) }
{
    let mut minutes: u64 = 0;
    for j in 0..r.view.processors {
        minutes += r.minutes(task, j);
    }
    minutes
}

// 1 more than the rank of a task once its successors have theirs; 0 while one has not, as the array has it, and so no Option.
#[tactic(auto, using(lookup::specs::Views::view_tasks, lookup::specs::Views::view_edges))]
fn rank_of(r: &Request<'_>, ranks: &[u64; 64], task: usize, begin: usize, end: usize) -> u64
    requires task_lt_tasks { (task < r.now.view.tasks) × ((k : ℕ) → get_or ranks.now k 0 ≤ 1 + rank_most) }
    requires begins { Begins (flow r.now) task begin × Begins (flow r.now) (task + 1) end }
    ensures { NextRank (flow r.now) ranks.now task result }
{
    let processors = r.view.processors as u64;
    let mut most: u64 = 0;
    for e in begin..end {
        let onward = ranks[r.to(e)];
        if onward == 0 {
            return 0;
        }
        most = most.max(processors * r.transfer(e) + (onward - 1));
    }
    all_minutes(r, task) + most + 1
}

// Ranks a task, if it can be. Answers how many are left.
#[tactic(auto, using(lookup::specs::Views::view_tasks))]
fn rank_task(
    r: &Request<'_>,
    ranks: &mut [u64; 64],
    task: usize,
    begin: usize,
    end: usize,
    left: usize,
) -> usize
    requires task_lt_tasks { (task < r.now.view.tasks) × RankedSoFar (flow r.now) ranks.old left }
    requires begins { Begins (flow r.now) task begin × Begins (flow r.now) (task + 1) end }
    ensures { Turned (RankedSoFar (flow r.now)) (λ ranks. HeldUp (flow r.now) ranks task) ranks.entry.now ranks.exit.now left result }
{
    if 0 < ranks[task] {
        return left;
    }
    let rank = rank_of(r, ranks, task, begin, end);
    if rank == 0 {
        return left;
    }
    ranks[task] = rank;
    left - 1
}

// Ranks the tasks that can be, from the highest number down. Answers how many are left.
#[tactic(auto, using(lookup::specs::Views::view_tasks, lookup::specs::Views::view_edges))]
fn rank_pass(r: &Request<'_>, begins: &[u16; 65], ranks: &mut [u64; 64], left: usize) -> usize
    requires begins_from { BeginsFrom (flow r.now) 0 begins.now }
    requires ranked_so_far { RankedSoFar (flow r.now) ranks.old left }
    ensures { Turned (RankedSoFar (flow r.now)) (AllHeldUp (flow r.now) 0) ranks.old ranks.new left result }
{
    let mut now_left = left;
    for task in (0..r.view.tasks).rev() {
        let begin = usize::from(begins[task]);
        let end = usize::from(begins[task + 1]);
        now_left = rank_task(r, ranks, task, begin, end, now_left);
    }
    now_left
}

// Ranks all tasks in a lent array in which none is ranked yet, each once its successors have theirs: the array has 1 more than each rank. Answers
// whether all are ranked, which they are without a cycle; with one the array is 0 throughout.
pub fn rank_all(r: &Request<'_>, begins: &[u16; 65], ranks: &mut [u64; 64]) -> bool
    requires begins_from { BeginsFrom (flow r.now) 0 begins.now }
    requires ranked_so_far { RankedSoFar (flow r.now) ranks.old r.now.view.tasks }
    ensures { RankedAs (flow r.now) ranks.new result }
{
    let mut left = r.view.tasks;
    while 0 < left {
        let before = left;
        left = rank_pass(r, begins, ranks, before);
        if left == before {
            *ranks = [0u64; 64];
            return false;
        }
    }
    true
}
