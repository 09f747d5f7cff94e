// Choosing a processor for the task in hand, from the costs and the finishes on each. Knows no request.
#![tactic(auto)]

ghost use Rattle.std.specs.Prelude.{◌≡◌, ◌≤◌, ◌<◌};
ghost use Rattle.rules.specs.Orders.{lower, tie, first};
ghost use Rattle.rules.specs.Method as rules;
ghost use Rattle.laws.specs.Stores.{at};
ghost use Rattle.choosing.specs.Named.{meant_method};
ghost use Rattle.choosing.specs.Asked.{asked, InRange};
ghost use Rattle.choosing.specs.Leading.{ahead_by, led_by};

mod figures;

// HBCS; "each task to its lowest cost, ties to earliest finish, then lower number"; "each task to best".
#[derive(Clone, Copy)]
pub enum Method {
    Hbcs,
    Cheapest,
    Heft,
}

// The one to take among the processors passed, with its standing and its finish; all 0, so processor 0, while none may be taken.
#[derive(Clone, Copy)]
pub struct Leader {
    pub processor: usize,
    pub standing: u64,
    pub finish: u64,
}

// "The highest score [..] wins; ties to earlier finish." One that may not be taken has the lowest standing.
fn ahead(leader: Leader, standing: u64, finish: u64) -> bool
    ensures { result ≡ ahead_by leader standing finish }
{
    (leader.standing, finish) < (standing, leader.finish)
}

// The leader once one processor more is passed.
fn led(leader: Leader, processor: usize, standing: u64, finish: u64) -> Leader
    ensures { result ≡ led_by leader processor standing finish }
{
    if ahead(leader, standing, finish) {
        Leader {
            processor,
            standing,
            finish,
        }
    } else {
        leader
    }
}

// HBCS: the highest score among the processors that may be taken; ties to earlier finish, then lower number. Processor 0 where none may be taken.
// Each standing is found once, and the leader's is kept; `numbers::first_by` would find both in each turn.
fn within_budget(m: usize, costs: &[u64; 16], finishes: &[u64; 16], rb: u64, rcb: u64) -> usize
    requires { InRange (asked m costs.now finishes.now rb rcb) }
    ensures { result ≡ rules.HBCS (asked m costs.now finishes.now rb rcb) }
{
    let g = figures::figures_of(m, costs, finishes, rb, rcb);
    let w = figures::weights_of(g);
    let mut leader = Leader {
        processor: 0,
        standing: 0,
        finish: 0,
    };
    for j in 0..m {
        let cost = costs[j];
        let finish = finishes[j];
        leader = led(leader, j, figures::standing(g, w, cost, finish), finish);
    }
    leader.processor
}

// The processor that is lowest by the one figure; ties to the other, then lower number.
fn lowest_by(m: usize, by: &[u64; 16], then: &[u64; 16]) -> usize
    requires { m ≤ 16 }
    ensures { result ≡ first m (lower (at by.now) (lower (at then.now) tie)) }
{
    numbers::first_by(m, |i, j| (by[i], then[i]) < (by[j], then[j]))
}

// The processor that the method takes.
pub fn choose(
    method: Method,
    m: usize,
    costs: &[u64; 16],
    finishes: &[u64; 16],
    rb: u64,
    rcb: u64,
) -> usize
    requires { InRange (asked m costs.now finishes.now rb rcb) }
    ensures { result ≡ rules.method (meant_method method) (asked m costs.now finishes.now rb rcb) }
{
    match method {
        Method::Hbcs => within_budget(m, costs, finishes, rb, rcb),
        Method::Cheapest => lowest_by(m, costs, finishes),
        Method::Heft => lowest_by(m, finishes, costs),
    }
}
