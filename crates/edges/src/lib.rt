// Reads one edge of a request.
#![tactic(auto)]

ghost use Rattle.std.specs.Prelude.{◌≡◌, ◌+◌, ◌≤◌, length};
ghost use Rattle.rules.specs.Fields.{E_from, E_to, E_transfer};
ghost use Rattle.rules.specs.Records.{first_fault, edge_ranges, edge_at};
ghost use Rattle.records.specs.Meaning.{meant, meant_edge, Checked};

use fields::Kind;
use records::{Cursor, Edge, Read};
use refusals::{Fault, Refusal};

// The fields of the edge at `at`.
#[tactic(auto, unfolding(rules::specs::Fields::E_from, rules::specs::Fields::E_to, rules::specs::Fields::E_transfer))]
fn edge_at(s: &[u8], at: usize) -> Edge
    requires { at + 5 ≤ length s.now }
    ensures { result ≡ record { from = E_from s.now at; to = E_to s.now at; transfer = E_transfer s.now at } }
{
    Edge {
        from: fields::field(s, at, 1),
        to: fields::field(s, at, 2),
        transfer: fields::two_bytes(s, at, 3),
    }
}

// That an edge's ends are both below n and unequal, and its transfer in 0..1,000.
#[tactic(auto, using(records::proofs::Laws::reading, std::proofs::lemmas::Bool::Decides::nat_tests), unfolding(rules::specs::Records::edge_ranges))]
fn ranges(c: Cursor, edge: Edge, n: usize) -> Result<(), Refusal>
    ensures { Checked (first_fault (edge_ranges edge.from edge.to edge.transfer n)) c.at result }
{
    c.check(edge.from < n, Fault::OutOfRange)?;
    c.check(edge.to < n && edge.from != edge.to, Fault::OutOfRange)?;
    c.in_range(0, edge.transfer, 1_000)
}

// `E` with k edges right before it: at most 512, in rising order, in range.
#[tactic(auto, using(records::proofs::Laws::reading), unfolding(rules::specs::Records::edge_at, rules::specs::Records::follows, rules::specs::Records::above, rules::specs::Fields::size, rules::specs::Fields::body))]
pub fn read_edge(s: &[u8], c: Cursor, n: usize, k: usize) -> Read<Edge>
    ensures { meant meant_edge result ≡ edge_at s.now n c.at k }
{
    let past = c.whole(s, Kind::Edge)?;
    let before = edge_at(s, c.at.saturating_sub(Kind::Edge.size()));
    let edge = edge_at(s, c.at);
    c.check(k < 512, Fault::OutOfRange)?;
    c.rises(
        k,
        (before.from as u64, before.to as u64),
        (edge.from as u64, edge.to as u64),
    )?;
    ranges(c, edge, n)?;
    Ok((edge, past))
}
