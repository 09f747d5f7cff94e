// Why a task does not start sooner: what stands against another start of it, by the rows of a plan in arrays.
#![tactic(auto)]

ghost use Rattle.std.specs.Prelude.{◌≡◌, ◌≤◌, ◌<◌};
ghost use Rattle.rules.specs.Start as rules;
ghost use Rattle.rules.specs.Start.{arrived, overlap};
ghost use Rattle.rules.specs.Why.{last_to_arrive, earliest_met, meets_row, lowest_met, why_placed};
ghost use Rattle.laws.specs.Bounds.{finish_most};
ghost use Rattle.laws.specs.Stores.{at};
ghost use Rattle.laws.specs.Filled.{AtMost};
ghost use Rattle.lookup.specs.Flow.{flow};
ghost use Rattle.reasons.specs.Meant.{meant_why, meant_interval, meant_met};
ghost use Rattle.reasons.specs.MetLaws.{met_with};

use lookup::{Request, Window};

// What stands against a start: data that arrives later, a window or a row that the task would overlap; or that the start is not below the task's own; or that
// there is no such task, or no plan.
#[derive(Clone, Copy)]
pub enum Why {
    LateData { from: u64, minute: u64 },
    InWindow { begin: u64, end: u64 },
    BesideRow { task: u64, begin: u64, end: u64 },
    OwnStart { start: u64 },
    NoTask { tasks: u64 },
    NoPlan { number: u64, place: u64 },
}

// The edge into a task whose data is the last on a processor, and its minute; edge 0 and minute 0 where there is none, as the rules have it: no start is before
// minute 0, so an Option would add a test and be no plainer.
#[derive(Clone, Copy)]
struct Arrival {
    edge: usize,
    minute: u64,
}

// The minutes from `begin` on, up to `end`.
#[derive(Clone, Copy)]
struct Interval {
    begin: u64,
    end: u64,
}

impl Interval {
    // Whether two intervals have a minute in common.
    fn overlaps(self, other: Interval) -> bool
        ensures { result ≡ overlap (meant_interval self) (meant_interval other) }
    {
        self.begin.max(other.begin) < self.end.min(other.end)
    }
}

// The minute that an edge has the task wait for on a processor; 0 where it does not lead to the task.
#[tactic(auto, using(lookup::specs::Views::view_tasks))]
fn awaited(
    r: &Request<'_>,
    sits: &[u64; 64],
    ends: &[u64; 64],
    task: usize,
    processor: u64,
    edge: usize,
) -> u64
    requires { (edge < r.now.view.edges) × AtMost finish_most ends.now }
    ensures { result ≡ rules.awaited (flow r.now) (at sits.now) (at ends.now) task processor edge }
{
    if r.to(edge) != task {
        return 0;
    }
    let from = r.from(edge);
    if sits[from] == processor {
        return ends[from];
    }
    ends[from] + r.transfer(edge)
}

// The edge whose data arrives last on a processor, the lower one of two; by where each task sits and when it ends.
fn last_to_arrive(
    r: &Request<'_>,
    sits: &[u64; 64],
    ends: &[u64; 64],
    task: usize,
    processor: u64,
) -> Arrival
    requires { AtMost finish_most ends.now }
    ensures { (result.edge ≡ last_to_arrive (flow r.now) (at sits.now) (at ends.now) task processor) × (result.minute ≡ arrived (flow r.now) (at sits.now) (at ends.now) task processor) }
{
    let mut last = Arrival { edge: 0, minute: 0 };
    for edge in 0..r.view.edges {
        let minute = awaited(r, sits, ends, task, processor, edge);
        if last.minute < minute {
            last = Arrival { edge, minute };
        }
    }
    last
}

// What is met by a task on a processor, with one window more: the one that begins earlier, where it would overlap both.
fn with_window(
    so_far: Option<Interval>,
    window: Window,
    processor: u64,
    task: Interval,
) -> Option<Interval>
    ensures { meant_met result ≡ met_with window.processor (record { begin = window.begin; end = window.end }) processor (meant_interval task) (meant_met so_far) }
{
    let down = Interval {
        begin: window.begin,
        end: window.end,
    };
    if window.processor as u64 != processor {
        return so_far;
    }
    if !task.overlaps(down) {
        return so_far;
    }
    match so_far {
        Some(met) if met.begin <= down.begin => so_far,
        _ => Some(down),
    }
}

// The earliest window of a processor that a task of so many minutes would overlap, started at `start`.
fn window_met(r: &Request<'_>, processor: u64, minutes: u64, start: u64) -> Option<Interval>
    requires { (start ≤ finish_most) × (minutes ≤ 2_000) }
    ensures { meant_met result ≡ earliest_met ((flow r.now).busy_at_first processor) minutes start }
{
    let task = Interval {
        begin: start,
        end: start + minutes,
    };
    let mut met = None;
    for w in 0..r.view.windows {
        met = with_window(met, r.window(w), processor, task);
    }
    met
}

// Whether a task of so many minutes, started at `start`, would overlap the row of `other`, which is another task on its processor.
fn meets_row(
    sits: &[u64; 64],
    begins: &[u64; 64],
    ends: &[u64; 64],
    minutes: u64,
    task: usize,
    start: u64,
    other: usize,
) -> bool
    requires { (task < 64) × (other < 64) × (start ≤ finish_most) × (minutes ≤ 2_000) }
    ensures { result ≡ meets_row (at sits.now) (at begins.now) (at ends.now) minutes task start other }
{
    if other == task {
        return false;
    }
    if sits[other] != sits[task] {
        return false;
    }
    let run = Interval {
        begin: start,
        end: start + minutes,
    };
    run.overlaps(Interval {
        begin: begins[other],
        end: ends[other],
    })
}

// The lowest of the first n tasks whose row a task would overlap; 0 where there is none, which is what `lowest_met` of the rules gives, and so no Option.
fn row_met(
    n: usize,
    sits: &[u64; 64],
    begins: &[u64; 64],
    ends: &[u64; 64],
    minutes: u64,
    task: usize,
    start: u64,
) -> usize
    requires { (n ≤ 64) × (task < 64) × (start ≤ finish_most) × (minutes ≤ 2_000) }
    ensures { (result ≡ lowest_met n (at sits.now) (at begins.now) (at ends.now) minutes task start) × (result < 64) }
{
    for k in 0..n {
        if meets_row(sits, begins, ends, minutes, task, start, k) {
            return k;
        }
    }
    0
}

// What stands against a start of a task, by the rows of a plan: that it is not below its own; or "data, then windows, then rows".
#[tactic(auto, using(lookup::specs::Views::view_tasks))]
pub fn why_placed(
    r: &Request<'_>,
    processors: &[u64; 64],
    starts: &[u64; 64],
    finishes: &[u64; 64],
    task: usize,
    start: u64,
) -> Why
    requires task_lt_tasks { (task < r.now.view.tasks) × (at processors.now task < r.now.view.processors) }
    requires task_bound { (at starts.now task ≤ finish_most) × AtMost finish_most finishes.now }
    ensures { meant_why result ≡ why_placed (flow r.now) (at processors.now) (at starts.now) (at finishes.now) task start }
{
    let own = starts[task];
    if own <= start {
        return Why::OwnStart { start: own };
    }
    let processor = processors[task];
    let last = last_to_arrive(r, processors, finishes, task, processor);
    if start < last.minute {
        return Why::LateData {
            from: r.from(last.edge) as u64,
            minute: last.minute,
        };
    }
    let minutes = r.minutes(task, processor as usize);
    let met = window_met(r, processor, minutes, start);
    if let Some(Interval { begin, end }) = met {
        return Why::InWindow { begin, end };
    }
    let row = row_met(
        r.view.tasks,
        processors,
        starts,
        finishes,
        minutes,
        task,
        start,
    );
    Why::BesideRow {
        task: row as u64,
        begin: starts[row],
        end: finishes[row],
    }
}
