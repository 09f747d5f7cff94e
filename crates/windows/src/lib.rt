// Reads one maintenance window of a request.
#![tactic(auto)]

ghost use Rattle.std.specs.Prelude.{◌≡◌, ◌+◌, ◌≤◌, [], ◌∷◌, length};
ghost use Rattle.rules.specs.Fields.{M, M_processor, M_begin, M_end};
ghost use Rattle.rules.specs.Records.{unless, first_fault, follows, above, apart, fifth, window_ranges, window_at};
ghost use Rattle.records.specs.Meaning.{meant, meant_window, Checked};

use fields::Kind;
use records::{Cursor, Read, Window};
use refusals::{Fault, Refusal};

// The fields of the window at `at`.
#[tactic(auto, unfolding(rules::specs::Fields::M_processor, rules::specs::Fields::M_begin, rules::specs::Fields::M_end))]
fn window_at(s: &[u8], at: usize) -> Window
    requires { at + 10 ≤ length s.now }
    ensures { result ≡ record { processor = M_processor s.now at; begin = M_begin s.now at; end = M_end s.now at } }
{
    Window {
        processor: fields::field(s, at, 1),
        begin: fields::four_bytes(s, at, 2),
        end: fields::four_bytes(s, at, 6),
    }
}

// That the window at a cursor, with k before it, is above the one before it, by processor first and then begin, and does not begin before that one, of its
// processor, ends. The first has none before it.
#[tactic(auto, using(records::proofs::Laws::reading), unfolding(rules::specs::Records::follows, rules::specs::Records::above, rules::specs::Records::apart, rules::specs::Fields::size, rules::specs::Fields::body))]
fn order(s: &[u8], c: Cursor, k: usize) -> Result<(), Refusal>
    requires { c.at + 10 ≤ length s.now }
    ensures { Checked (first_fault (unless (follows M (above (M_processor s.now) (M_begin s.now)) c.at k) 3 ∷ unless (follows M (apart s.now) c.at k) 3 ∷ [])) c.at result }
{
    let before = window_at(s, c.at.saturating_sub(Kind::Window.size()));
    let window = window_at(s, c.at);
    c.rises(
        k,
        (before.processor as u64, before.begin),
        (window.processor as u64, window.begin),
    )?;
    c.check(
        k == 0 || before.processor != window.processor || before.end <= window.begin,
        Fault::OutOfOrder,
    )
}

// Whether the window at `at`, with k before it, is its processor's fifth: the fourth before it is of its processor.
#[tactic(auto, using(std::proofs::lemmas::Bool::Decides::nat_tests), unfolding(rules::specs::Records::fifth, rules::specs::Fields::M_processor, rules::specs::Fields::size, rules::specs::Fields::body))]
fn fifth(s: &[u8], at: usize, k: usize) -> bool
    requires { at + 10 ≤ length s.now }
    ensures { result ≡ fifth s.now at k }
{
    let fourth = at.saturating_sub(4 * Kind::Window.size());
    4 <= k && fields::field(s, fourth, 1) == fields::field(s, at, 1)
}

// That the window at a cursor, with k before it, is of a processor below m, begins before it ends, ends by 20,000, and is not its processor's fifth.
#[tactic(auto, using(records::proofs::Laws::reading), unfolding(rules::specs::Records::window_ranges))]
fn ranges(s: &[u8], c: Cursor, m: usize, k: usize) -> Result<(), Refusal>
    requires { c.at + 10 ≤ length s.now }
    ensures { Checked (first_fault (window_ranges s.now m c.at k)) c.at result }
{
    let window = window_at(s, c.at);
    c.check(window.processor < m, Fault::OutOfRange)?;
    c.check(window.begin < window.end, Fault::OutOfRange)?;
    c.check(window.end <= 20_000, Fault::OutOfRange)?;
    c.check(!fifth(s, c.at, k), Fault::OutOfRange)
}

// `M` with k windows right before it: in rising order, apart, in range, at most four of a processor.
#[tactic(auto, using(records::proofs::Laws::reading), unfolding(rules::specs::Records::window_at, rules::specs::Fields::size, rules::specs::Fields::body))]
pub fn read_window(s: &[u8], c: Cursor, m: usize, k: usize) -> Read<Window>
    ensures { meant meant_window result ≡ window_at s.now m c.at k }
{
    let past = c.whole(s, Kind::Window)?;
    order(s, c, k)?;
    ranges(s, c, m, k)?;
    Ok((window_at(s, c.at), past))
}
