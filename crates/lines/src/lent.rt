// The lines over a lent buffer, each by way of a text that holds it: a number has at most 20 digits and a label at most 8 bytes. Each says where it ends.
ghost use Rattle.std.specs.Prelude.{◌≤◌, length};
ghost use Rattle.rules.specs.Answer.{planned, refused};
ghost use Rattle.rules.specs.Text.{first_line, row_line};
ghost use Rattle.rules.specs.Range.{between, range_line};
ghost use Rattle.planner.specs.Planned.{meant_answer, meant_costs};
ghost use Rattle.decimals.specs.Wrote.{Room, Wrote};
ghost use Rattle.lines.specs.Lines.{column_lines};

use crate::{put_first_line, put_range_line, put_refusal};
use budgets::Rows;
use decimals::Text;
use lookup::Request;
use planner::{Answer, Range, Summary};
use refusals::Refusal;

// "`no `, number, place"
pub fn write_refusal(out: &mut [u8], number: u64, place: u64) -> usize
    requires { Room out.old 0 (first_line (refused number place)) }
    ensures { Wrote out.old 0 (first_line (refused number place)) out.new result }
{
    let mut text = Text::<89>::new();
    put_refusal(&mut text, number, place);
    decimals::put_bytes(out, 0, text.as_slice())
}

#[tactic(auto, unfolding(rules::specs::Text::first_line, rules::specs::Text::bytes))]
fn write_summary(out: &mut [u8], n: u64, length: u64, cost: u64, left: u64) -> usize
    requires { Room out.old 0 (first_line (planned n length cost left)) }
    ensures { Wrote out.old 0 (first_line (planned n length cost left)) out.new result }
{
    let mut text = Text::<89>::new();
    put_first_line(
        &mut text,
        Ok(Summary {
            n,
            length,
            cost,
            left,
        }),
    );
    decimals::put_bytes(out, 0, text.as_slice())
}

// The first line, of a plan or of a refusal.
pub fn write_first_line(out: &mut [u8], answer: Answer) -> usize
    requires { Room out.old 0 (first_line (meant_answer answer)) }
    ensures { Wrote out.old 0 (first_line (meant_answer answer)) out.new result }
{
    match answer {
        Ok(plan) => write_summary(out, plan.n, plan.length, plan.cost, plan.left),
        Err(refusal) => write_refusal(out, refusal.fault.number(), refusal.place),
    }
}

fn write_costs(out: &mut [u8], cheapest: u64, heft: u64) -> usize
    requires { Room out.old 0 (range_line (between cheapest heft)) }
    ensures { Wrote out.old 0 (range_line (between cheapest heft)) out.new result }
{
    let mut text = Text::<48>::new();
    put_range_line(&mut text, Ok(Range { cheapest, heft }));
    decimals::put_bytes(out, 0, text.as_slice())
}

// The line of the range, or of a refusal.
#[tactic(auto, unfolding(rules::specs::Range::range_line))]
pub fn write_range_line(out: &mut [u8], costs: Result<Range, Refusal>) -> usize
    requires { Room out.old 0 (range_line (meant_costs costs)) }
    ensures { Wrote out.old 0 (range_line (meant_costs costs)) out.new result }
{
    match costs {
        Ok(range) => write_costs(out, range.cheapest, range.heft),
        Err(refusal) => write_refusal(out, refusal.fault.number(), refusal.place),
    }
}

#[tactic(auto, unfolding(rules::specs::Text::row_line))]
fn write_row(
    out: &mut [u8],
    at: usize,
    name: &[u8],
    processor: u64,
    start: u64,
    finish: u64,
    cost: u64,
) -> usize
    requires short { length name.now ≤ 8 }
    requires room { Room out.old at (row_line name.now (record { processor = processor; start = start; finish = finish; cost = cost })) }
    ensures { Wrote out.old at (row_line name.now (record { processor = processor; start = start; finish = finish; cost = cost })) out.new result }
{
    let mut text = Text::<93>::new();
    text.line(name, &[processor, start, finish, cost]);
    decimals::put_bytes(out, at, text.as_slice())
}

// The lines of the first n tasks, from `at` on.
pub fn write_rows(out: &mut [u8], at: usize, r: &Request<'_>, n: usize, rows: &Rows) -> usize
    requires n_le_tasks { n ≤ r.now.view.tasks }
    requires room { Room out.old at (column_lines n r.now.bytes.now rows.now.processors rows.now.starts rows.now.finishes rows.now.costs) }
    ensures { Wrote out.old at (column_lines n r.now.bytes.now rows.now.processors rows.now.starts rows.now.finishes rows.now.costs) out.new result }
{
    let mut end = at;
    for i in 0..n {
        let name = r.label(i);
        let after = name.begin + name.length;
        end = write_row(
            out,
            end,
            &r.bytes[name.begin..after],
            rows.processors[i],
            rows.starts[i],
            rows.finishes[i],
            rows.costs[i],
        );
    }
    end
}
