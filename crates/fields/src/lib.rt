// What a record is read by: its kind, the numbers in its bytes, and whether it is whole.
#![tactic(auto)]

ghost use Rattle.std.specs.Prelude.{◌≡◌, ◌+◌, ◌≤◌, ◌<◌, length, OnOk};
ghost use Rattle.rules.specs.Fields.{kind_byte, size, byte, two_bytes, four_bytes};
ghost use Rattle.rules.specs.Records.{first_fault, opening, opening_by};
ghost use Rattle.fields.specs.Meaning.{meant_kind, Told};

use refusals::Fault;

// The kinds of records, each with the byte that it begins with.
#[derive(Clone, Copy, Debug, PartialEq, Eq)]
pub enum Kind {
    Header = b'H' as isize,
    Deadline = b'D' as isize,
    Share = b'K' as isize,
    Price = b'P' as isize,
    Minimum = b'Q' as isize,
    Window = b'M' as isize,
    Task = b'T' as isize,
    Minutes = b'W' as isize,
    Edge = b'E' as isize,
    End = b'Z' as isize,
}

impl Kind {
    // The byte that a record of this kind begins with.
    #[tactic(auto, unfolding(rules::specs::Fields::kind_byte))]
    pub fn byte(self) -> u8
        ensures { result ≡ kind_byte (meant_kind self) }
    {
        self as u8
    }

    // How many bytes a record of this kind has, that byte and its body.
    #[tactic(auto, unfolding(rules::specs::Fields::size, rules::specs::Fields::body))]
    pub fn size(self) -> usize
        ensures { result ≡ size (meant_kind self) }
    {
        match self {
            Kind::Header => 7,
            Kind::Deadline => 5,
            Kind::Share => 3,
            Kind::Price => 3,
            Kind::Minimum => 5,
            Kind::Window => 10,
            Kind::Task => 10,
            Kind::Minutes => 5,
            Kind::Edge => 5,
            Kind::End => 1,
        }
    }
}

// The byte that stands k past `at`, as a number.
#[tactic(auto, unfolding(rules::specs::Fields::byte))]
pub fn field(s: &[u8], at: usize, k: usize) -> usize
    requires { at + k < length s.now }
    ensures { (result ≡ byte s.now (at + k)) × (result < 256) }
{
    usize::from(s[at + k])
}

// The number in the two bytes that stand k past `at`.
#[tactic(auto, unfolding(rules::specs::Fields::byte, rules::specs::Fields::two_bytes))]
pub fn two_bytes(s: &[u8], at: usize, k: usize) -> u64
    requires { at + k + 2 ≤ length s.now }
    ensures { (result ≡ two_bytes s.now (at + k)) × (result < 65_536) }
{
    let low = at + k;
    u64::from(u16::from_le_bytes([s[low], s[low + 1]]))
}

// The number in the four bytes that stand k past `at`.
#[tactic(auto, unfolding(rules::specs::Fields::byte, rules::specs::Fields::two_bytes, rules::specs::Fields::four_bytes))]
pub fn four_bytes(s: &[u8], at: usize, k: usize) -> u64
    requires { at + k + 4 ≤ length s.now }
    ensures { result ≡ four_bytes s.now (at + k) }
{
    let low = at + k;
    u64::from(u32::from_le_bytes([s[low], s[low + 1], s[low + 2], s[low + 3]]))
}

// Whether a record that begins with this byte and has this size stands whole at `at`: else what is wrong with it before its fields are looked at.
#[tactic(auto, using(std::proofs::lemmas::Bool::Decides::nat_tests), unfolding(rules::specs::Fields::byte, rules::specs::Records::opening_by, rules::specs::Records::first_fault, rules::specs::Records::unless))]
pub fn opened(s: &[u8], at: usize, byte: u8, size: usize) -> Result<(), Fault>
    ensures told { Told (first_fault (opening_by s.now at byte size)) result }
    ensures room { OnOk result (at + size ≤ length s.now) }
{
    match s.get(at) {
        None => Err(Fault::CutShort),
        Some(found) if *found != byte => Err(Fault::OtherKind),
        Some(_) if s.len() - at < size => Err(Fault::CutShort),
        Some(_) => Ok(()),
    }
}

// The same of a record of this kind.
#[tactic(auto, unfolding(rules::specs::Records::opening))]
pub fn whole(s: &[u8], at: usize, kind: Kind) -> Result<(), Fault>
    ensures told { Told (first_fault (opening s.now at (meant_kind kind))) result }
    ensures room { OnOk result (at + size (meant_kind kind) ≤ length s.now) }
{
    opened(s, at, kind.byte(), kind.size())
}
