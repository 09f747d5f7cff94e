// What a task costs on each processor, the lowest of its costs, and the cheapest total, by what the processors charge.
#![tactic(auto)]

ghost use Rattle.std.specs.Prelude.{◌≡◌, ◌≤◌, ◌<◌};
ghost use Rattle.rules.specs.Folds.{lowest};
ghost use Rattle.rules.specs.Ranks.{cost, cheapest_total};
ghost use Rattle.lookup.specs.Flow.{flow};
ghost use Rattle.charges.specs.Charges.{ChargesOf};
ghost use Rattle.laws.specs.Bounds.{total_most};
ghost use Rattle.laws.specs.Stores.{at};
ghost use Rattle.laws.specs.Filled.{Filled};

use lookup::Request;

// The task's cost on each processor.
#[tactic(auto, using(lookup::specs::Views::view_processors))]
pub fn cost_on_all<'a>(
    r: &Request<'_>,
    prices: &'a [u64; 16],
    minimums: &'a [u64; 16],
    task: usize,
) -> [u64; 16]
    requires charges_of { ChargesOf (flow r.now) prices.now minimums.now }
    requires task_lt_tasks { task < r.now.view.tasks }
    ensures { Filled r.now.view.processors (cost (flow r.now) task) result }
{
    let mut all = [0u64; 16];
    for j in 0..r.view.processors {
        all[j] = minimums[j].max(r.minutes(task, j) * prices[j]);
    }
    all
}

// The lowest of the first m numbers.
pub fn lowest_of(m: usize, all: &[u64; 16]) -> u64
    requires { (1 ≤ m) × (m ≤ 16) }
    ensures { result ≡ lowest m (at all.now) }
{
    let mut low = all[0];
    for j in 1..m {
        low = low.min(all[j]);
    }
    low
}

// The cheapest total: the sum of all tasks' lowest costs.
pub fn cheapest_total<'a>(r: &Request<'_>, prices: &'a [u64; 16], minimums: &'a [u64; 16]) -> u64
    requires { ChargesOf (flow r.now) prices.now minimums.now }
    ensures { (result ≡ cheapest_total (flow r.now)) × (result ≤ total_most) }
{
    let mut total: u64 = 0;
    for i in 0..r.view.tasks {
        let costs = cost_on_all(r, prices, minimums, i);
        total += lowest_of(r.view.processors, &costs);
    }
    total
}
