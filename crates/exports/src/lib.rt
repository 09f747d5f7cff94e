// What a program in C or Rust links: numbers, structs of numbers and slices. A slice is passed as its pointer and its length.
#![tactic(auto, unfolding(choosing::specs::Named::meant_method))]

ghost use Rattle.std.specs.Prelude.{◌≡◌};
ghost use Rattle.label.specs.Label.{ListedTold, LabelLength};
ghost use Rattle.rules.specs.Reading.{read_request};
ghost use Rattle.rules.specs.Labels.{label_lookup};
ghost use Rattle.rules.specs.Method.{by_HBCS, by_cheapest, by_HEFT};
ghost use Rattle.rules.specs.Text.{text_asked};
ghost use Rattle.rules.specs.Range.{range};
ghost use Rattle.rules.specs.Why.{why_not};
ghost use Rattle.choosing.specs.Named.{meant_method};
ghost use Rattle.lookup.specs.Lookup.{meant_part};
ghost use Rattle.buffers.specs.Into.{four};
ghost use Rattle.told.specs.Told.{told_costs, told_why};
ghost use Rattle.exports.specs.Told.{told, told_part, PlanTold, TextTold};

use choosing::Method;
use lookup::Part;
use text::TooSmall;
use told::{ZabgurinAnswer, ZabgurinCosts, ZabgurinWhy};

// Whether a byte stands in the list.
#[unsafe(no_mangle)]
pub extern "C" fn zabgurin_listed(b: u8) -> bool
    ensures { ListedTold b result }
{
    label::listed(b)
}

// The length, without its spaces, of the label in the eight bytes of the request at `at`: 1 to 8; 0 where no label stands there.
#[unsafe(no_mangle)]
pub extern "C" fn zabgurin_label_len(request: &[u8], at: usize) -> usize
    ensures { LabelLength request.now at result }
{
    label::label_len(request, at)
}

// What reading says. `number` is that of the refusal, 1 to 6, with its place; or 0 for a good request, with its numbers and where its parts begin. A
// deadline of 0 is none. `share_given` is 1 where the budget is set by a share, else 0, and then `share` is 0 too.
#[repr(C)]
#[derive(Clone, Copy, Debug, Default, PartialEq, Eq)]
pub struct ZabgurinReading {
    pub number: u64,
    pub place: usize,
    pub tasks: usize,
    pub processors: usize,
    pub budget: u64,
    pub deadline: u64,
    pub share_given: u64,
    pub share: u64,
    pub prices_at: usize,
    pub windows_at: usize,
    pub windows: usize,
    pub tasks_at: usize,
    pub edges_at: usize,
    pub edges: usize,
}

// Reads a request.
#[unsafe(no_mangle)]
pub extern "C" fn zabgurin_read(request: &[u8]) -> ZabgurinReading
    ensures { result ≡ told (read_request request.now) }
{
    match reader::read_request(request) {
        Ok(v) => {
            let deadline = v.deadline;
            let share = v.share;
            ZabgurinReading {
                tasks: v.tasks,
                processors: v.processors,
                budget: v.budget,
                deadline: told::deadline_minutes(deadline),
                share_given: told::is_given(share),
                share: told::thousandths(share),
                prices_at: v.prices_at,
                windows_at: v.windows_at,
                windows: v.windows,
                tasks_at: v.tasks_at,
                edges_at: v.edges_at,
                edges: v.edges,
                ..ZabgurinReading::default()
            }
        }
        Err(refusal) => ZabgurinReading {
            number: refusal.fault.number(),
            place: refusal.place as usize,
            ..ZabgurinReading::default()
        },
    }
}

// A part of the request's bytes. C knows it by this name and layout, so it is a type beside `lookup::Part`.
#[repr(C)]
#[derive(Clone, Copy, Debug, Default, PartialEq, Eq)]
pub struct ZabgurinPart {
    pub begin: usize,
    pub length: usize,
}

impl From<Part> for ZabgurinPart {
    ghost from_gives = { λ part told. told ≡ told_part (meant_part part) };

    fn from(part: Part) -> ZabgurinPart {
        ZabgurinPart {
            begin: part.begin,
            length: part.length,
        }
    }
}

// Where the label of a task stands in the request, without its spaces; of length 0, at the start, for a request that is refused in reading and for a task
// that it does not have.
#[unsafe(no_mangle)]
pub extern "C" fn zabgurin_label(request: &[u8], task: usize) -> ZabgurinPart
    ensures { result ≡ told_part (label_lookup request.now task) }
{
    ZabgurinPart::from(lookup::label_part(request, task))
}

// Plans a request by a method, its rows in four buffers: row i in the numbers at i. As many rows are lent as the shortest buffer has numbers. A plan writes rows 0
// to n-1 and keeps what stands after them; a refusal changes nothing.
fn plan_by(
    request: &[u8],
    method: Method,
    processors: &mut [u64],
    starts: &mut [u64],
    finishes: &mut [u64],
    costs: &mut [u64],
) -> ZabgurinAnswer
    ensures { PlanTold (meant_method method) request.now (four processors.old starts.old finishes.old costs.old) (four processors.new starts.new finishes.new costs.new) result }
{
    let answer = buffers::plan_into(request, method, processors, starts, finishes, costs);
    ZabgurinAnswer::from(answer)
}

// Plans a request within its budget. C calls each method by a name of its own, here and where a plan is printed.
#[unsafe(no_mangle)]
pub extern "C" fn zabgurin_plan(
    request: &[u8],
    processors: &mut [u64],
    starts: &mut [u64],
    finishes: &mut [u64],
    costs: &mut [u64],
) -> ZabgurinAnswer
    ensures { PlanTold by_HBCS request.now (four processors.old starts.old finishes.old costs.old) (four processors.new starts.new finishes.new costs.new) result }
{
    plan_by(request, Method::Hbcs, processors, starts, finishes, costs)
}

// The cheapest plan.
#[unsafe(no_mangle)]
pub extern "C" fn zabgurin_cheapest(
    request: &[u8],
    processors: &mut [u64],
    starts: &mut [u64],
    finishes: &mut [u64],
    costs: &mut [u64],
) -> ZabgurinAnswer
    ensures { PlanTold by_cheapest request.now (four processors.old starts.old finishes.old costs.old) (four processors.new starts.new finishes.new costs.new) result }
{
    plan_by(
        request,
        Method::Cheapest,
        processors,
        starts,
        finishes,
        costs,
    )
}

// The HEFT plan.
#[unsafe(no_mangle)]
pub extern "C" fn zabgurin_heft(
    request: &[u8],
    processors: &mut [u64],
    starts: &mut [u64],
    finishes: &mut [u64],
    costs: &mut [u64],
) -> ZabgurinAnswer
    ensures { PlanTold by_HEFT request.now (four processors.old starts.old finishes.old costs.old) (four processors.new starts.new finishes.new costs.new) result }
{
    plan_by(request, Method::Heft, processors, starts, finishes, costs)
}

// The range that a budget is set in, with 64 rows lent.
#[unsafe(no_mangle)]
pub extern "C" fn zabgurin_range(request: &[u8]) -> ZabgurinCosts
    ensures { result ≡ told_costs (range request.now) }
{
    ZabgurinCosts::from(asked::range(request))
}

// Why a task does not start at `start`, in the plan within its budget, with 64 rows lent.
#[unsafe(no_mangle)]
pub extern "C" fn zabgurin_why(request: &[u8], task: usize, start: u64) -> ZabgurinWhy
    ensures { result ≡ told_why (why_not request.now task start) }
{
    ZabgurinWhy::from(sooner::why_not(request, task, start))
}

// Prints the plan of a request by a method, with 64 rows lent, or the refusal. Answers how many bytes the text has. Where the buffer has room for them they stand at its
// front, and what is after them stays; where it has not, nothing is written.
fn print_by(request: &[u8], method: Method, out: &mut [u8]) -> usize
    ensures { TextTold (text_asked (meant_method method) request.now) out.old out.new result }
{
    match text::print(request, method, out) {
        Ok(length) => length,
        Err(TooSmall { needed }) => needed,
    }
}

// Prints the plan within its budget.
#[unsafe(no_mangle)]
pub extern "C" fn zabgurin_print(request: &[u8], out: &mut [u8]) -> usize
    ensures { TextTold (text_asked by_HBCS request.now) out.old out.new result }
{
    print_by(request, Method::Hbcs, out)
}

// Prints the cheapest plan.
#[unsafe(no_mangle)]
pub extern "C" fn zabgurin_print_cheapest(request: &[u8], out: &mut [u8]) -> usize
    ensures { TextTold (text_asked by_cheapest request.now) out.old out.new result }
{
    print_by(request, Method::Cheapest, out)
}

// Prints the HEFT plan.
#[unsafe(no_mangle)]
pub extern "C" fn zabgurin_print_heft(request: &[u8], out: &mut [u8]) -> usize
    ensures { TextTold (text_asked by_HEFT request.now) out.old out.new result }
{
    print_by(request, Method::Heft, out)
}
