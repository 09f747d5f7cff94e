// The line and the sentence of a reason, appended to a text.
#![tactic(auto)]

ghost use Rattle.std.specs.Prelude.{◌≡◌, ◌+◌, ◌≤◌, ◌++◌, length};
ghost use Rattle.rules.specs.Why.{why_text};
ghost use Rattle.rules.specs.Why as rules;
ghost use Rattle.reasons.specs.Meant.{meant_why};
ghost use Rattle.decimals.specs.Wrote.{Wrote};
ghost use Rattle.sentences.specs.Sentences.{one_text, two_text};

use decimals::Text;
use reasons::Why;

// One number, in the line and in the sentence.
fn put_one<const N: usize>(text: &mut Text<N>, line: &[u8], sentence: &[u8], rest: &[u8], x: u64)
    requires { length text.old + length (one_text line.now sentence.now rest.now x) ≤ N }
    ensures { text.new ≡ text.old ++ one_text line.now sentence.now rest.now x }
{
    text.told(line, x);
    text.told(sentence, x);
    text.push_all(rest);
}

// Two numbers, in the line and in the sentence.
#[tactic(auto, unfolding(rules::specs::Text::bytes))]
fn put_two<const N: usize>(
    text: &mut Text<N>,
    line: &[u8],
    first: &[u8],
    second: &[u8],
    a: u64,
    b: u64,
)
    requires { length text.old + length (two_text line.now first.now second.now a b) ≤ N }
    ensures { text.new ≡ text.old ++ two_text line.now first.now second.now a b }
{
    text.told(line, a);
    text.told(b" ", b);
    text.told(first, a);
    text.told(second, b);
    text.push_all(b".\n");
}

// The row that is in the way.
#[tactic(auto, unfolding(rules::specs::Why::why_text, rules::specs::Text::line, rules::specs::Text::bytes))]
fn put_row<const N: usize>(text: &mut Text<N>, task: u64, begin: u64, end: u64)
    requires { length text.old + length (why_text (rules.beside_row task begin end)) ≤ N }
    ensures { text.new ≡ text.old ++ why_text (rules.beside_row task begin end) }
{
    text.line(b"row", &[task, begin, end]);
    text.told(b"Its processor runs task ", task);
    text.told(b" from minute ", begin);
    text.told(b" up to minute ", end);
    text.push_all(b".\n");
}

// The refusal's line, and that there is no plan.
#[tactic(auto, unfolding(rules::specs::Why::why_text, rules::specs::Text::bytes))]
fn put_refusal<const N: usize>(text: &mut Text<N>, number: u64, place: u64)
    requires { length text.old + length (why_text (rules.no_plan number place)) ≤ N }
    ensures { text.new ≡ text.old ++ why_text (rules.no_plan number place) }
{
    lines::put_refusal(text, number, place);
    text.push_all(b"The request has no plan, so no task has a start.\n");
}

// "a first line for scripts and a sentence for people below it". The longest has 180 bytes: a row's, of numbers of 20 digits.
#[tactic(auto, unfolding(rules::specs::Why::why_text, rules::specs::Text::bytes, reasons::specs::Meant::meant_why))]
pub fn put_why<const N: usize>(text: &mut Text<N>, why: Why)
    requires { length text.old + 180 ≤ N }
    ensures { text.new ≡ text.old ++ why_text (meant_why why) }
{
    match why {
        Why::LateData { from, minute } => put_two(
            text,
            b"data ",
            b"\nIts data from task ",
            b" arrives at minute ",
            from,
            minute,
        ),
        Why::InWindow { begin, end } => put_two(
            text,
            b"window ",
            b"\nIts processor is down from minute ",
            b" up to minute ",
            begin,
            end,
        ),
        Why::BesideRow { task, begin, end } => put_row(text, task, begin, end),
        Why::OwnStart { start } => put_one(
            text,
            b"own ",
            b"\nIn the plan it starts at minute ",
            b", so this is not sooner.\n",
            start,
        ),
        Why::NoTask { tasks } => put_one(
            text,
            b"none ",
            b"\nThere is no such task; the request has ",
            b", numbered from 0.\n",
            tasks,
        ),
        Why::NoPlan { number, place } => put_refusal(text, number, place),
    }
}

// The same over the front of a lent buffer, and where it ends.
pub fn write_why(out: &mut [u8], why: Why) -> usize
    requires { 180 ≤ length out.old }
    ensures { Wrote out.old 0 (why_text (meant_why why)) out.new result }
{
    let mut said = Text::<180>::new();
    put_why(&mut said, why);
    decimals::put_bytes(out, 0, said.as_slice())
}
