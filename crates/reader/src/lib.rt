// Reads a whole request: its parts in order, each refusal handed straight up, and nothing after the last.
#![tactic(auto)]

ghost use Rattle.std.specs.Prelude.{◌≡◌, ℕ, eqb};
ghost use Rattle.rules.specs.Fields.{byte, kind_byte};
ghost use Rattle.rules.specs.Records.{Read};
ghost use Rattle.rules.specs.Reading.{deadline_part, share_part, read_request};
ghost use Rattle.fields.specs.Meaning.{meant_kind};
ghost use Rattle.records.specs.Meaning.{meant};
ghost use Rattle.reader.specs.Meaning.{one_or_none, meant_deadline, meant_share, meant_reading};

use fields::Kind;
use records::{Cursor, Read};
use refusals::{Fault, Refusal};

// At most one record of a kind: what `value` reads where one stands at the cursor, else none.
fn optional<F: FnOnce(Cursor) -> Read<u64>>(
    s: &[u8],
    c: Cursor,
    kind: Kind,
    value: F,
) -> Read<Option<u64>>
    requires { F.IsAlwaysCallable value }
    ensures { (due : Read ℕ) → ((r : _) → F.post value c r → meant (λ x. x) r ≡ due)
        → meant (λ x. x) result ≡ one_or_none (eqb (byte s.now c.at) (kind_byte (meant_kind kind))) due c.at }
{
    if !c.stands(s, kind) {
        return Ok((None, c));
    }
    let (given, after) = value(c)?;
    Ok((Some(given), after))
}

// After the header: a `D`, where one stands there. "No `D` means no deadline."
fn read_deadline(s: &[u8], c: Cursor) -> Read<Option<u64>>
    ensures { meant meant_deadline result ≡ deadline_part s.now c.at }
{
    optional(s, c, Kind::Deadline, |c| records::read_deadline(s, c))
}

// After the header and any deadline: a `K`, where one stands there, beside this budget in the header. "No `K` means the budget of `H`."
fn read_share(s: &[u8], c: Cursor, budget: u64) -> Read<Option<u64>>
    ensures { meant meant_share result ≡ share_part s.now budget c.at }
{
    optional(s, c, Kind::Share, |c| records::read_share(s, c, budget))
}

// A good request: its numbers, and where its parts begin. Windows, minutes and edges are read where they stand; one walks over the processor records, each as
// long as its kind.
#[derive(Clone, Copy)]
pub struct View {
    pub tasks: usize,
    pub processors: usize,
    pub budget: u64,
    pub deadline: Option<u64>,
    pub share: Option<u64>,
    pub prices_at: usize,
    pub windows_at: usize,
    pub windows: usize,
    pub tasks_at: usize,
    pub edges_at: usize,
    pub edges: usize,
}

// The request that these bytes are: a view of it where it is good, else the first fault.
pub fn read_request(s: &[u8]) -> Result<View, Refusal>
    ensures { meant_reading s.now result ≡ read_request s.now }
{
    let (header, headed) = records::read_header(s, Cursor { at: 0 })?;
    let (deadline, dated) = read_deadline(s, headed)?;
    let (share, prices) = read_share(s, dated, header.budget)?;
    let windows = parts::read_prices(s, prices, header.processors)?;
    let (windows_read, tasks) = parts::read_windows(s, windows, header.processors)?;
    let edges = parts::read_tasks(s, tasks, header.tasks, header.processors)?;
    let (edges_read, last) = parts::read_edges(s, edges, header.tasks)?;
    let (_, end) = records::read_end(s, last)?;
    end.check(s.len() <= end.at, Fault::BytesAfter)?;
    Ok(View {
        tasks: header.tasks,
        processors: header.processors,
        budget: header.budget,
        deadline,
        share,
        prices_at: prices.at,
        windows_at: windows.at,
        windows: windows_read,
        tasks_at: tasks.at,
        edges_at: edges.at,
        edges: edges_read,
    })
}
