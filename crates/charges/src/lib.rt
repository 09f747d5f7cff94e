// What the processors of a good request charge, read once for a plan: one walks over their records, each as long as its kind.
#![tactic(auto)]

ghost use Rattle.std.specs.Prelude.{◌+◌, ◌≤◌, length};
ghost use Rattle.rules.specs.Fields.{size};
ghost use Rattle.rules.specs.Workflow.{processor_kind};
ghost use Rattle.lookup.specs.Flow.{flow};
ghost use Rattle.charges.specs.Charges.{ChargeAt, ChargesOf};

use lookup::Request;

// What one processor charges, and where the record after its own begins.
#[derive(Clone, Copy)]
struct Charge {
    price: u64,
    minimum: u64,
    next: usize,
}

// The processor record at `at`: "a `P` has minimum 0".
fn charge_at(s: &[u8], at: usize) -> Charge
    requires { at + size (processor_kind s.now at) ≤ length s.now }
    ensures { ChargeAt s.now at result.price result.minimum result.next }
{
    let price = fields::field(s, at, 2) as u64;
    if s[at] == b'Q' {
        let minimum = fields::two_bytes(s, at, 3);
        return Charge {
            price,
            minimum,
            next: at + 5,
        };
    }
    Charge {
        price,
        minimum: 0,
        next: at + 3,
    }
}

// What the processors charge: prices per minute and minimums, 0 past the last processor.
#[derive(Clone, Copy)]
pub struct Charges {
    pub prices: [u64; 16],
    pub minimums: [u64; 16],
}

// The prices and the minimums of a good request's processors.
#[tactic(auto, using(lookup::specs::Views::view_processors))]
pub fn charges_of(r: &Request<'_>) -> Charges
    ensures { ChargesOf (flow r.now) result.prices result.minimums }
{
    let mut prices = [0u64; 16];
    let mut minimums = [0u64; 16];
    let mut at = r.view.prices_at;
    for j in 0..r.view.processors {
        let charge = charge_at(r.bytes, at);
        prices[j] = charge.price;
        minimums[j] = charge.minimum;
        at = charge.next;
    }
    Charges { prices, minimums }
}
