// The plan of a request by the method that is asked for, its rows as structs: in a lent slice, or 64 of them by value.
#![tactic(auto)]

ghost use Rattle.std.specs.Prelude.{◌≡◌, ◌<◌, ◌≤◌, length};
ghost use Rattle.laws.specs.Overwritten.{overwritten};
ghost use Rattle.choosing.specs.Named.{meant_method};
ghost use Rattle.rows.specs.Planned.{row_at, PlannedRows, PlannedWhole};

use budgets::Rows;
use choosing::Method;
use planner::Answer;

// "row i for task i: processor, start, finish, cost". Its numbers are those of the four arrays; the processor of `hand::Row` is an index.
#[derive(Clone, Copy, Debug, PartialEq, Eq)]
pub struct Row {
    pub processor: u64,
    pub start: u64,
    pub finish: u64,
    pub cost: u64,
}

// Row i: the numbers at i in the four arrays.
fn row_of(columns: &Rows, i: usize) -> Row
    requires { i < 64 }
    ensures { result ≡ row_at columns.now i }
{
    Row {
        processor: columns.processors[i],
        start: columns.starts[i],
        finish: columns.finishes[i],
        cost: columns.costs[i],
    }
}

// Stores the first n rows; the later ones keep their content.
#[tactic(auto, using(laws::specs::Overwritten::overwritten_more), unfolding(rules::specs::Folds::listing))]
fn store(rows: &mut [Row], n: usize, columns: &Rows)
    requires { (n ≤ length rows.old) × (n ≤ 64) }
    ensures { rows.new ≡ overwritten n (row_at columns.now) rows.old }
{
    for (i, row) in rows[..n].iter_mut().enumerate() {
        *row = row_of(columns, i);
    }
}

// Plans a request by the method that is asked for, with as many rows lent as the slice has. A plan writes rows 0 to n-1 and keeps what stands after them; a
// refusal changes nothing.
pub fn plan(request: &[u8], method: Method, rows: &mut [Row]) -> Answer
    ensures { PlannedRows (meant_method method) request.now rows.old rows.new result }
{
    let lent = rows.len();
    let planning = asked::plan(request, method, lent);
    let n = planner::rows_of(planning.answer) as usize;
    store(rows, n, &planning.rows);
    planning.answer
}

// The answer, and 64 rows, as many as a request has tasks at the most.
#[derive(Clone, Copy, Debug, PartialEq, Eq)]
pub struct WholePlan {
    pub answer: Answer,
    pub rows: [Row; 64],
}

// Plans a request by the method that is asked for, with 64 rows that hold `blank`: those that the plan does not write still hold it.
pub fn plan_whole(request: &[u8], method: Method, blank: Row) -> WholePlan
    ensures { PlannedWhole (meant_method method) request.now blank result }
{
    let mut rows = [blank; 64];
    let answer = plan(request, method, &mut rows);
    WholePlan { answer, rows }
}
