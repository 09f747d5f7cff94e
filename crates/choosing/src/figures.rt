// What the rules make of the costs and the finishes on the processors: best, the extremes, and the score.
ghost use Rattle.std.specs.Prelude.{◌≡◌, ◌+◌, ◌≤◌, leb};
ghost use Rattle.laws.specs.Bounds.{cost_most, total_most, score_most};
ghost use Rattle.choosing.specs.Asked.{asked};
ghost use Rattle.choosing.specs.Figured.{BestCost, Passed, FiguresOf, FiguresInRange, Weighed, may_by, score_by, standing_by};

// RB and RCB, and of the processors passed: the cost of the best, the earliest and the latest finish, the lowest and the highest cost.
#[derive(Clone, Copy)]
pub struct Figures {
    pub rb: u64,
    pub rcb: u64,
    pub best: u64,
    pub earliest: u64,
    pub latest: u64,
    pub lowest: u64,
    pub highest: u64,
}

// The cost of the best once one processor more is passed. "Best: earliest finish; ties to lower cost."
fn best_cost(g: Figures, cost: u64, finish: u64) -> u64
    ensures { BestCost g cost finish result }
{
    let lower = g.best.min(cost);
    if finish < g.earliest {
        return cost;
    }
    if g.earliest < finish {
        return g.best;
    }
    lower
}

// The figures once one processor more is passed.
fn passed(g: Figures, cost: u64, finish: u64) -> Figures
    ensures { Passed g cost finish result }
{
    Figures {
        rb: g.rb,
        rcb: g.rcb,
        best: best_cost(g, cost, finish),
        earliest: g.earliest.min(finish),
        latest: g.latest.max(finish),
        lowest: g.lowest.min(cost),
        highest: g.highest.max(cost),
    }
}

// The figures of all m processors, in one pass.
pub fn figures_of(m: usize, costs: &[u64; 16], finishes: &[u64; 16], rb: u64, rcb: u64) -> Figures
    requires { (1 ≤ m) × (m ≤ 16) }
    ensures { FiguresOf (asked m costs.now finishes.now rb rcb) m result }
{
    let cost = costs[0];
    let finish = finishes[0];
    let mut g = Figures {
        rb,
        rcb,
        best: cost,
        earliest: finish,
        latest: finish,
        lowest: cost,
        highest: cost,
    };
    for j in 1..m {
        g = passed(g, costs[j], finishes[j]);
    }
    g
}

// "cost(j) <= RB - RCB", which may be below 0.
fn affordable(g: Figures, cost: u64) -> bool
    requires { (cost ≤ cost_most) × (g.rcb ≤ total_most) }
    ensures { result ≡ leb (cost + g.rcb) g.rb }
{
    cost + g.rcb <= g.rb
}

// "j may be taken when cost(j) <= cost(best) and cost(j) <= RB - RCB."
fn may_be_taken(g: Figures, cost: u64) -> bool
    requires { (cost ≤ cost_most) × (g.rcb ≤ total_most) }
    ensures { result ≡ may_by g cost }
{
    cost <= g.best && affordable(g, cost)
}

// What a unit of cost saved and a minute of earlier finish count for in the score: RCB x F' and B' x RB'.
#[derive(Clone, Copy)]
pub struct Weights {
    pub saved: u64,
    pub early: u64,
}

// By F', B' and RB'.
pub fn weights_of(g: Figures) -> Weights
    requires { FiguresInRange g }
    ensures { Weighed g result }
{
    let rcb = g.rcb;
    let f = numbers::or_one(g.latest.saturating_sub(g.earliest));
    let b = numbers::or_one(g.highest.saturating_sub(g.lowest));
    let rb = numbers::or_one(g.rb);
    Weights {
        saved: rcb * f,
        early: b * rb,
    }
}

// The score. Where a difference is below 0 the processor may not be taken, and its score is not looked at.
fn score(g: Figures, w: Weights, cost: u64, finish: u64) -> u64
    requires figures_in_range { FiguresInRange g }
    requires weighed { Weighed g w }
    ensures { (result ≡ score_by g cost finish) × (result ≤ score_most) }
{
    g.best.saturating_sub(cost) * w.saved + g.latest.saturating_sub(finish) * w.early
}

// 1 more than the score of a processor that may be taken; 0 for another.
pub fn standing(g: Figures, w: Weights, cost: u64, finish: u64) -> u64
    requires figures_in_range { FiguresInRange g }
    requires weighed { Weighed g w }
    requires cost_le_cost_most { cost ≤ cost_most }
    ensures { result ≡ standing_by g cost finish }
{
    let above = score(g, w, cost, finish) + 1;
    if may_be_taken(g, cost) { above } else { 0 }
}
