// The lines of the printed plan, appended to a text: the first line, and those of the rows; and the line of the range.
#![tactic(auto)]

ghost use Rattle.std.specs.Prelude.{◌≡◌, ◌+◌, ◌≤◌, ◌++◌, length};
ghost use Rattle.rules.specs.Answer.{refused};
ghost use Rattle.rules.specs.Text.{first_line};
ghost use Rattle.rules.specs.Range.{range_line};
ghost use Rattle.planner.specs.Planned.{meant_answer, meant_costs};
ghost use Rattle.lines.specs.Lines.{column_lines};

mod lent;

use budgets::Rows;
use decimals::Text;
pub use lent::{write_first_line, write_range_line, write_refusal, write_rows};
use lookup::Request;
use planner::{Answer, Range};
use refusals::Refusal;

// "`no `, number, place"
#[tactic(auto, unfolding(rules::specs::Text::first_line, rules::specs::Text::line, rules::specs::Text::bytes))]
pub fn put_refusal<const N: usize>(text: &mut Text<N>, number: u64, place: u64)
    requires { length text.old + length (first_line (refused number place)) ≤ N }
    ensures { text.new ≡ text.old ++ first_line (refused number place) }
{
    text.line(b"no", &[number, place]);
}

// "`plan `, n, length, cost, budget left, [..]; or `no `, number, place"
#[tactic(auto, unfolding(rules::specs::Text::first_line, rules::specs::Text::line, rules::specs::Text::bytes))]
pub fn put_first_line<const N: usize>(text: &mut Text<N>, answer: Answer)
    requires { length text.old + length (first_line (meant_answer answer)) ≤ N }
    ensures { text.new ≡ text.old ++ first_line (meant_answer answer) }
{
    match answer {
        Ok(plan) => text.line(b"plan", &[plan.n, plan.length, plan.cost, plan.left]),
        Err(refusal) => put_refusal(text, refusal.fault.number(), refusal.place),
    }
}

// "`range `, the cheapest plan's cost, the HEFT plan's cost; or `no `, number, place"
#[tactic(auto, unfolding(rules::specs::Range::range_line, rules::specs::Text::line, rules::specs::Text::bytes))]
pub fn put_range_line<const N: usize>(text: &mut Text<N>, costs: Result<Range, Refusal>)
    requires { length text.old + length (range_line (meant_costs costs)) ≤ N }
    ensures { text.new ≡ text.old ++ range_line (meant_costs costs) }
{
    match costs {
        Ok(range) => text.line(b"range", &[range.cheapest, range.heft]),
        Err(refusal) => put_refusal(text, refusal.fault.number(), refusal.place),
    }
}

// "one line per task: label, processor, start, finish, cost", of the first n tasks.
pub fn put_rows<const N: usize>(text: &mut Text<N>, r: &Request<'_>, n: usize, rows: &Rows)
    requires n_le_tasks { n ≤ r.now.view.tasks }
    requires room { length text.old + length (column_lines n r.now.bytes.now rows.now.processors rows.now.starts rows.now.finishes rows.now.costs) ≤ N }
    ensures { text.new ≡ text.old ++ column_lines n r.now.bytes.now rows.now.processors rows.now.starts rows.now.finishes rows.now.costs }
{
    for i in 0..n {
        let part = r.label(i);
        let past = part.begin + part.length;
        let numbers = [
            rows.processors[i],
            rows.starts[i],
            rows.finishes[i],
            rows.costs[i],
        ];
        text.line(&r.bytes[part.begin..past], &numbers);
    }
}
