// Reads one record of a request: the record with its fields and the cursor past it, or a refusal with its place.
#![tactic(auto)]

ghost use Rattle.std.specs.Prelude.{◌≡◌, ◌||◌, ◌&&◌, [], ◌∷◌, eqb, ltb};
ghost use Rattle.refusals.specs.Numbers.{number};
ghost use Rattle.rules.specs.Fields.{byte, kind_byte};
ghost use Rattle.rules.specs.Records.{unless, first_fault, within};
ghost use Rattle.rules.specs.Records.{header_at, deadline_at, share_at, price_at, minimum_at, processor_at, task_at, minutes_at, end_at, deadline, share};
ghost use Rattle.fields.specs.Meaning.{meant_kind};
ghost use Rattle.records.specs.Meaning.{meant, meant_header, meant_processor, meant_task, meant_minutes, meant_end, Checked, Opened};

use fields::Kind;
use refusals::{Fault, Refusal};

// Where a record begins.
#[derive(Clone, Copy)]
pub struct Cursor {
    pub at: usize,
}

// A record with its fields and the cursor past it, or the refusal.
pub type Read<T> = Result<(T, Cursor), Refusal>;

#[derive(Clone, Copy)]
pub struct Header {
    pub tasks: usize,
    pub processors: usize,
    pub budget: u64,
}

#[derive(Clone, Copy)]
pub enum Processor {
    Price {
        processor: usize,
        price: u64,
    },
    Minimum {
        processor: usize,
        price: u64,
        minimum: u64,
    },
}

#[derive(Clone, Copy)]
pub struct Window {
    pub processor: usize,
    pub begin: u64,
    pub end: u64,
}

// A task's label is kept as its offset.
#[derive(Clone, Copy)]
pub struct Task {
    pub task: usize,
    pub label: usize,
}

#[derive(Clone, Copy)]
pub struct Minutes {
    pub task: usize,
    pub processor: usize,
    pub minutes: u64,
}

#[derive(Clone, Copy)]
pub struct Edge {
    pub from: usize,
    pub to: usize,
    pub transfer: u64,
}

// The checks of the record at a cursor: each refuses the record where it fails.
impl Cursor {
    // Whether a record of this kind begins here.
    #[tactic(auto, using(crate::proofs::KindBytes::kind_positive), unfolding(rules::specs::Fields::byte))]
    pub fn stands(self, s: &[u8], kind: Kind) -> bool
        ensures { result ≡ eqb (byte s.now self.at) (kind_byte (meant_kind kind)) }
    {
        match s.get(self.at) {
            Some(byte) => *byte == kind.byte(),
            None => false,
        }
    }

    // That a whole record of this kind stands here: the cursor past it.
    pub fn whole(self, s: &[u8], kind: Kind) -> Result<Cursor, Refusal>
        ensures { Opened s.now self.at (meant_kind kind) result }
    {
        match fields::whole(s, self.at, kind) {
            Ok(()) => Ok(Cursor {
                at: self.at + kind.size(),
            }),
            Err(fault) => Err(Refusal::at(fault, self.at)),
        }
    }

    // That a test holds.
    #[tactic(auto, unfolding(rules::specs::Records::unless))]
    pub fn check(self, holds: bool, fault: Fault) -> Result<(), Refusal>
        ensures { Checked (unless holds (number fault)) self.at result }
    {
        if holds {
            Ok(())
        } else {
            Err(Refusal::at(fault, self.at))
        }
    }

    // That a number is in its range.
    pub fn in_range(self, low: u64, x: u64, high: u64) -> Result<(), Refusal>
        ensures { Checked (unless (within low x high) 4) self.at result }
    {
        self.check((low..=high).contains(&x), Fault::OutOfRange)
    }

    // That a processor record is of the processor that is due, at a price of 0..100: what `P` and `Q` share.
    #[tactic(auto, using(crate::proofs::Laws::reading))]
    fn priced(self, processor: usize, due: usize, price: u64) -> Result<(), Refusal>
        ensures { Checked (first_fault (unless (eqb processor due) 3 ∷ unless (within 0 price 100) 4 ∷ [])) self.at result }
    {
        self.check(processor == due, Fault::OutOfOrder)?;
        self.in_range(0, price, 100)
    }

    // That the record, with k of its kind right before it, is above the one before it: by what stands first in them, and where these are equal by the
    // second. The first has none before it.
    pub fn rises(self, k: usize, before: (u64, u64), here: (u64, u64)) -> Result<(), Refusal>
        ensures { Checked (unless (eqb k 0 || (ltb before.0 here.0 || (eqb before.0 here.0 && ltb before.1 here.1))) 3) self.at result }
    {
        self.check(k == 0 || before < here, Fault::OutOfOrder)
    }
}

// `H`: tasks 1..64, processors 1..16, budget 0..20,000,000.
#[tactic(auto, using(crate::proofs::Laws::reading), unfolding(rules::specs::Records::header_at, rules::specs::Fields::H_tasks, rules::specs::Fields::H_processors, rules::specs::Fields::H_budget, rules::specs::Fields::size, rules::specs::Fields::body))]
pub fn read_header(s: &[u8], c: Cursor) -> Read<Header>
    ensures { meant meant_header result ≡ header_at s.now c.at }
{
    let past = c.whole(s, Kind::Header)?;
    let header = Header {
        tasks: fields::field(s, c.at, 1),
        processors: fields::field(s, c.at, 2),
        budget: fields::four_bytes(s, c.at, 3),
    };
    c.in_range(1, header.tasks as u64, 64)?;
    c.in_range(1, header.processors as u64, 16)?;
    c.in_range(0, header.budget, 20_000_000)?;
    Ok((header, past))
}

// `D`: deadline 1..200,000.
#[tactic(auto, using(crate::proofs::Laws::reading), unfolding(rules::specs::Records::deadline_at, rules::specs::Fields::D_deadline, rules::specs::Fields::size, rules::specs::Fields::body))]
pub fn read_deadline(s: &[u8], c: Cursor) -> Read<u64>
    ensures { meant deadline result ≡ deadline_at s.now c.at }
{
    let past = c.whole(s, Kind::Deadline)?;
    let deadline = fields::four_bytes(s, c.at, 1);
    c.in_range(1, deadline, 200_000)?;
    Ok((deadline, past))
}

// `K`: share 0..1,000, beside a budget of 0 in `H`.
#[tactic(auto, using(crate::proofs::Laws::reading), unfolding(rules::specs::Records::share_at, rules::specs::Fields::K_share, rules::specs::Fields::size, rules::specs::Fields::body))]
pub fn read_share(s: &[u8], c: Cursor, budget: u64) -> Read<u64>
    ensures { meant share result ≡ share_at s.now budget c.at }
{
    let past = c.whole(s, Kind::Share)?;
    let share = fields::two_bytes(s, c.at, 1);
    c.in_range(0, share, 1_000)?;
    c.check(budget == 0, Fault::OutOfRange)?;
    Ok((share, past))
}

// `P` of the processor that is due: price 0..100.
#[tactic(auto, using(crate::proofs::Laws::reading), unfolding(rules::specs::Records::price_at, rules::specs::Records::price_checks, rules::specs::Fields::P_processor, rules::specs::Fields::P_price, rules::specs::Fields::size, rules::specs::Fields::body))]
fn read_price(s: &[u8], c: Cursor, due: usize) -> Read<Processor>
    ensures { meant meant_processor result ≡ price_at s.now c.at due }
{
    let past = c.whole(s, Kind::Price)?;
    let processor = fields::field(s, c.at, 1);
    let price = fields::field(s, c.at, 2) as u64;
    c.priced(processor, due, price)?;
    Ok((Processor::Price { processor, price }, past))
}

// `Q` of the processor that is due: price 0..100, minimum 0..10,000.
#[tactic(auto, using(crate::proofs::Laws::reading), unfolding(rules::specs::Records::minimum_at, rules::specs::Records::price_checks, rules::specs::Fields::P_processor, rules::specs::Fields::P_price, rules::specs::Fields::Q_minimum, rules::specs::Fields::size, rules::specs::Fields::body))]
fn read_minimum(s: &[u8], c: Cursor, due: usize) -> Read<Processor>
    ensures { meant meant_processor result ≡ minimum_at s.now c.at due }
{
    let past = c.whole(s, Kind::Minimum)?;
    let processor = fields::field(s, c.at, 1);
    let price = fields::field(s, c.at, 2) as u64;
    let minimum = fields::two_bytes(s, c.at, 3);
    c.priced(processor, due, price)?;
    c.in_range(0, minimum, 10_000)?;
    Ok((
        Processor::Minimum {
            processor,
            price,
            minimum,
        },
        past,
    ))
}

// A `Q`, where one stands there, or else the `P` of the processor that is due.
#[tactic(auto, unfolding(rules::specs::Records::processor_at))]
pub fn read_processor(s: &[u8], c: Cursor, due: usize) -> Read<Processor>
    ensures { meant meant_processor result ≡ processor_at s.now c.at due }
{
    if c.stands(s, Kind::Minimum) {
        read_minimum(s, c, due)
    } else {
        read_price(s, c, due)
    }
}

// `T` of the task that is due, with its label.
#[tactic(auto, using(crate::proofs::Laws::reading, label::specs::Laws::told_is_one_or_more), unfolding(rules::specs::Records::task_at, rules::specs::Fields::T_task, rules::specs::Fields::T_label, rules::specs::Fields::size, rules::specs::Fields::body))]
pub fn read_task(s: &[u8], c: Cursor, due: usize) -> Read<Task>
    ensures { meant meant_task result ≡ task_at s.now c.at due }
{
    let past = c.whole(s, Kind::Task)?;
    let task = fields::field(s, c.at, 1);
    let label = c.at + 2;
    c.check(task == due, Fault::OutOfOrder)?;
    c.check(label::is_label(s, label), Fault::BadLabel)?;
    Ok((Task { task, label }, past))
}

// `W` of the task and the processor that are due: minutes 0..2,000.
#[tactic(auto, using(crate::proofs::Laws::reading), unfolding(rules::specs::Records::minutes_at, rules::specs::Fields::W_task, rules::specs::Fields::W_processor, rules::specs::Fields::W_minutes, rules::specs::Fields::size, rules::specs::Fields::body))]
pub fn read_minutes(s: &[u8], c: Cursor, due_task: usize, due_processor: usize) -> Read<Minutes>
    ensures { meant meant_minutes result ≡ minutes_at s.now c.at due_task due_processor }
{
    let past = c.whole(s, Kind::Minutes)?;
    let row = Minutes {
        task: fields::field(s, c.at, 1),
        processor: fields::field(s, c.at, 2),
        minutes: fields::two_bytes(s, c.at, 3),
    };
    c.check(row.task == due_task, Fault::OutOfOrder)?;
    c.check(row.processor == due_processor, Fault::OutOfOrder)?;
    c.in_range(0, row.minutes, 2_000)?;
    Ok((row, past))
}

// `Z`.
#[tactic(auto, using(crate::proofs::Laws::reading), unfolding(rules::specs::Records::end_at))]
pub fn read_end(s: &[u8], c: Cursor) -> Read<()>
    ensures { meant meant_end result ≡ end_at s.now c.at }
{
    let past = c.whole(s, Kind::End)?;
    Ok(((), past))
}
