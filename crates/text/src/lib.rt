// The printed plan of document 01, the range, and why a task does not start sooner, written into a lent buffer.
#![tactic(auto)]

ghost use Rattle.std.specs.Prelude.{◌≡◌, ◌+◌, ◌≤◌, ◌++◌, length};
ghost use Rattle.rules.specs.Text.{text_asked};
ghost use Rattle.rules.specs.Range.{range_text};
ghost use Rattle.rules.specs.Why.{why_not, why_text};
ghost use Rattle.choosing.specs.Named.{meant_method};
ghost use Rattle.text.specs.Printed.{PrintedAs};

use budgets::Rows;
use choosing::Method;
use decimals::Text;
use lookup::Request;

// The buffer is too small for the text, which has so many bytes.
#[derive(Clone, Copy, Debug, PartialEq, Eq)]
pub struct TooSmall {
    pub needed: usize,
}

// The text of a good request, by a method.
fn put_plan<const N: usize>(text: &mut Text<N>, r: &Request<'_>, method: Method)
    requires { length text.old + length (text_asked (meant_method method) r.now.bytes.now) ≤ N }
    ensures { text.new ≡ text.old ++ text_asked (meant_method method) r.now.bytes.now }
{
    let mut rows = Rows::none();
    let answer = planner::plan_good(r, method, 64, &mut rows);
    lines::put_first_line(text, answer);
    let n = planner::rows_of(answer) as usize;
    lines::put_rows(text, r, n, &rows);
}

// The text of a request, by a method.
fn put_text<const N: usize>(text: &mut Text<N>, request: &[u8], method: Method)
    requires { length text.old + length (text_asked (meant_method method) request.now) ≤ N }
    ensures { text.new ≡ text.old ++ text_asked (meant_method method) request.now }
{
    match Request::read(request) {
        Ok(r) => put_plan(text, &r, method),
        Err(refusal) => lines::put_refusal(text, refusal.fault.number(), refusal.place),
    }
}

// Prints a text over the front of the buffer, where it has room for it, and answers how many bytes it has; else the buffer keeps its content.
fn print_text(text: &[u8], out: &mut [u8]) -> Result<usize, TooSmall>
    ensures { PrintedAs text.now out.old out.new result }
{
    let needed = text.len();
    let room = out.len();
    if room < needed {
        return Err(TooSmall { needed });
    }
    Ok(decimals::put_bytes(out, 0, text))
}

// Prints the text of a request by a method: over the front of the buffer, where it has room for it; else the buffer keeps its content.
pub fn print(request: &[u8], method: Method, out: &mut [u8]) -> Result<usize, TooSmall>
    ensures { PrintedAs (text_asked (meant_method method) request.now) out.old out.new result }
{
    let mut text = Text::<2_145>::new();
    put_text(&mut text, request, method);
    print_text(text.as_slice(), out)
}

// Prints the line of a request's range, as `print` does a text.
pub fn print_range(request: &[u8], out: &mut [u8]) -> Result<usize, TooSmall>
    ensures { PrintedAs (range_text request.now) out.old out.new result }
{
    let costs = asked::range(request);
    let mut text = Text::<24>::new();
    lines::put_range_line(&mut text, costs);
    print_text(text.as_slice(), out)
}

// Prints why a task does not start at a minute, as `print` does a text.
pub fn print_why(request: &[u8], task: usize, start: u64, out: &mut [u8]) -> Result<usize, TooSmall>
    ensures { PrintedAs (why_text (why_not request.now task start)) out.old out.new result }
{
    let why = sooner::why_not(request, task, start);
    let mut text = Text::<180>::new();
    sentences::put_why(&mut text, why);
    print_text(text.as_slice(), out)
}
