// The plan of a request by the method that is asked for, its rows in four lent buffers of numbers.
#![tactic(auto)]

ghost use Rattle.std.specs.Prelude.{◌≡◌, ◌++◌, ◌≤◌, min, length, drop};
ghost use Rattle.rules.specs.Folds.{listing};
ghost use Rattle.laws.specs.Stores.{at};
ghost use Rattle.choosing.specs.Named.{meant_method};
ghost use Rattle.buffers.specs.Into.{four, PlannedInto};

use budgets::Rows;
use choosing::Method;
use planner::Answer;

// Stores the first n numbers of a column; the rest of the buffer keeps its content.
fn store(buffer: &mut [u64], column: &[u64; 64], n: usize)
    requires { (n ≤ 64) × (n ≤ length buffer.old) }
    ensures { buffer.new ≡ listing n (at column.now) ++ drop n buffer.old }
{
    buffer[..n].copy_from_slice(&column[..n]);
}

// The shortest of four lengths.
fn shortest(a: usize, b: usize, c: usize, d: usize) -> usize
    ensures { result ≡ min (min a b) (min c d) }
{
    a.min(b).min(c.min(d))
}

// The plan of a request by the method that is asked for, its rows in four lent buffers: row i in the numbers at i. As many rows are lent as the shortest
// buffer has numbers. A plan writes rows 0 to n-1 and keeps what stands after them; a refusal changes nothing. Four buffers, since C lends them so.
pub fn plan_into(
    request: &[u8],
    method: Method,
    processors: &mut [u64],
    starts: &mut [u64],
    finishes: &mut [u64],
    costs: &mut [u64],
) -> Answer
    ensures { PlannedInto (meant_method method) request.now (four processors.old starts.old finishes.old costs.old) (four processors.new starts.new finishes.new costs.new) result }
{
    let lent = shortest(processors.len(), starts.len(), finishes.len(), costs.len());
    let mut rows = Rows::none();
    let answer = asked::plan_columns(request, method, lent, &mut rows);
    let n = planner::rows_of(answer) as usize;
    store(processors, &rows.processors, n);
    store(starts, &rows.starts, n);
    store(finishes, &rows.finishes, n);
    store(costs, &rows.costs, n);
    answer
}
