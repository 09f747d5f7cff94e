// 1 where a number is 0, and the first of the numbers below a count in an order.
#![tactic(auto)]

ghost use Rattle.std.specs.Prelude.{◌≡◌, ℕ, Bool, ◌<◌};
ghost use Rattle.rules.specs.Method.{or_one};
ghost use Rattle.rules.specs.Orders.{first};

// "Where B, F or RB is 0, use 1."
pub fn or_one(x: u64) -> u64
    ensures { result ≡ or_one x }
{
    if x == 0 { 1 } else { x }
}

// Of the numbers below n the one that no other goes before, and the lowest such; 0 where there is none.
pub fn first_by<F: Fn(usize, usize) -> bool>(n: usize, goes_before: F) -> usize
    requires { (i j : ℕ) → i < n → j < n → F.pre goes_before i j }
    ensures below { 0 < n → result < n }
    ensures settled { (beats : ℕ → ℕ → Bool) → ((i j : ℕ) → i < n → j < n → (t : Bool) → F.post goes_before i j t → t ≡ beats i j) → result ≡ first n beats }
{
    let mut first = 0;
    for i in 0..n {
        if goes_before(i, first) {
            first = i;
        }
    }
    first
}
