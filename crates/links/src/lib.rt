// The edges into each task, found from the last to the first.
#![tactic(auto)]

ghost use Rattle.lookup.specs.Flow.{flow};
ghost use Rattle.links.specs.Links.{Linked, LinkedAll};

use lookup::Request;

// Links all edges, in one pass over two lent arrays in which none is linked yet. Then `last[i]` is 1 more than the last edge into task i, and `before[e]` 1 more
// than the last edge before e that leads to the same task as e; 0 where there is none: an array of Options would take twice the memory.
#[tactic(auto, using(lookup::specs::Views::view_tasks, lookup::specs::Views::view_edges))]
pub fn link_all(r: &Request<'_>, last: &mut [u16; 64], before: &mut [u16; 512])
    requires { Linked (flow r.now) 0 last.old before.old }
    ensures { LinkedAll (flow r.now) last.new before.new }
{
    for e in 0..r.view.edges {
        let to = r.to(e);
        before[e] = last[to];
        last[to] = e as u16 + 1;
    }
}
