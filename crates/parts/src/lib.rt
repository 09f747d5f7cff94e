// Reads the parts of a request that hold several records: each record in order, a refusal handed straight up.
#![tactic(auto)]

ghost use Rattle.std.specs.Prelude.{◌≡◌, ℕ};
ghost use Rattle.rules.specs.Fields.{size};
ghost use Rattle.rules.specs.Records.{Read, Record, minutes_at};
ghost use Rattle.rules.specs.Reading.{each, run_part, prices_part, windows_part, task_part, tasks_part, edges_part};
ghost use Rattle.good.specs.Reading.{Steps};
ghost use Rattle.fields.specs.Meaning.{meant_kind};
ghost use Rattle.records.specs.Meaning.{meant};
ghost use Rattle.parts.specs.Meaning.{meant_part, past, Reads};

use fields::Kind;
use records::{Cursor, Read};
use refusals::Refusal;

// The first n of the parts that `part` reads, each from where the one before ends.
fn each<F: Fn(Cursor, usize) -> Result<Cursor, Refusal>>(
    c: Cursor,
    n: usize,
    part: F,
) -> Result<Cursor, Refusal>
    requires { F.IsAlwaysCallable part }
    ensures { (due : ℕ → ℕ → Read (Unit {0})) → Reads (F.post part) due → meant_part result tt ≡ each due c.at n }
{
    let mut next = c;
    for k in 0..n {
        next = part(next, k)?;
    }
    Ok(next)
}

// Records of one kind, as many as stand there: how many. One more than the limit is refused, so that no more are looked for (`windows_enough` and
// `edges_enough`, crate `good`).
fn run<F: Fn(Cursor, usize) -> Result<Cursor, Refusal>>(
    s: &[u8],
    c: Cursor,
    kind: Kind,
    most: usize,
    part: F,
) -> Read<usize>
    requires { F.IsAlwaysCallable part }
    ensures { (due : ℕ → ℕ → Read Record) → Reads (F.post part) (λ at k. past (due at k)) → Steps due (size (meant_kind kind))
        → meant (λ k. k) result ≡ run_part s.now (meant_kind kind) due c.at most }
{
    let mut next = c;
    for k in 0..most {
        if !next.stands(s, kind) {
            return Ok((k, next));
        }
        next = part(next, k)?;
    }
    Ok((most, next))
}

// The records of processors 0 to m - 1, each a `P` or a `Q`.
pub fn read_prices(s: &[u8], c: Cursor, m: usize) -> Result<Cursor, Refusal>
    ensures { meant_part result tt ≡ prices_part s.now m c.at }
{
    each(
        c,
        m,
        |next, j| records::read_processor(s, next, j).map(|(_, after)| after),
    )
}

// Windows, each after those before it.
pub fn read_windows(s: &[u8], c: Cursor, m: usize) -> Read<usize>
    ensures { meant (λ k. k) result ≡ windows_part s.now m c.at }
{
    run(
        s,
        c,
        Kind::Window,
        65,
        |next, k| windows::read_window(s, next, m, k).map(|(_, after)| after),
    )
}

// The minutes of a task on processors 0 to m - 1.
pub fn read_row(s: &[u8], c: Cursor, task: usize, m: usize) -> Result<Cursor, Refusal>
    ensures { meant_part result tt ≡ each (λ at j. minutes_at s.now at task j) c.at m }
{
    each(
        c,
        m,
        |next, j| records::read_minutes(s, next, task, j).map(|(_, after)| after),
    )
}

// A task: its `T`, then its minutes.
pub fn read_task(s: &[u8], c: Cursor, task: usize, m: usize) -> Result<Cursor, Refusal>
    ensures { meant_part result tt ≡ task_part s.now m c.at task }
{
    let (_, after) = records::read_task(s, c, task)?;
    read_row(s, after, task, m)
}

// Tasks 0 to n - 1.
pub fn read_tasks(s: &[u8], c: Cursor, n: usize, m: usize) -> Result<Cursor, Refusal>
    ensures { meant_part result tt ≡ tasks_part s.now n m c.at }
{
    each(c, n, |next, i| read_task(s, next, i, m))
}

// Edges, each after those before it.
pub fn read_edges(s: &[u8], c: Cursor, n: usize) -> Read<usize>
    ensures { meant (λ k. k) result ≡ edges_part s.now n c.at }
{
    run(
        s,
        c,
        Kind::Edge,
        513,
        |next, k| edges::read_edge(s, next, n, k).map(|(_, after)| after),
    )
}
