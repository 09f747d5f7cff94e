// When a task's data is ready on each processor.
#![tactic(auto)]

ghost use Rattle.std.specs.Prelude.{◌≡◌, ◌≤◌, ◌<◌, length};
ghost use Rattle.rules.specs.Start.{arrived};
ghost use Rattle.lookup.specs.Flow.{flow};
ghost use Rattle.links.specs.Links.{Linked};
ghost use Rattle.laws.specs.Bounds.{finish_most};
ghost use Rattle.laws.specs.Stores.{at};
ghost use Rattle.laws.specs.Filled.{AtMost};
ghost use Rattle.ready.specs.Ready.{WaitedFor, FromClock};

use lookup::Request;

// Moves the minutes at which data is ready on the first m processors to those at which an edge's has arrived: `here` on the processor `on`, `across` on
// the others.
fn wait_for(ready: &mut [u64; 16], m: usize, on: u64, here: u64, across: u64)
    requires { (m ≤ 16) × (length ready.old ≡ 16) }
    ensures { WaitedFor m on here across ready.old ready.new }
{
    for j in 0..m {
        let arrival = if on == j as u64 { here } else { across };
        ready[j] = ready[j].max(arrival);
    }
}

// When the task's data is ready on each processor, by the links of the edges into it, and by where each placed task sits and when it ends; not before the
// clock.
#[tactic(auto, using(lookup::specs::Views::view_tasks, lookup::specs::Views::view_processors, lookup::specs::Views::view_edges))]
pub fn ready_on_all<'a>(
    r: &Request<'_>,
    last: &'a [u16; 64],
    before: &'a [u16; 512],
    sits: &[u64; 64],
    ends: &[u64; 64],
    task: usize,
    clock: u64,
) -> [u64; 16]
    requires { (task < r.now.view.tasks) × Linked (flow r.now) r.now.view.edges last.now before.now × AtMost finish_most ends.now }
    ensures { FromClock clock r.now.view.processors (arrived (flow r.now) (at sits.now) (at ends.now) task) result }
{
    let mut all = [clock; 16];
    let mut next = usize::from(last[task]);
    while 0 < next {
        let e = next - 1;
        let from = r.from(e);
        let here = ends[from];
        wait_for(
            &mut all,
            r.view.processors,
            sits[from],
            here,
            here + r.transfer(e),
        );
        next = usize::from(before[e]);
    }
    all
}
