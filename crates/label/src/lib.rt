// The sixty-four bytes that a label may hold, and the check of a label field. Final: nobody edits this crate.
#![tactic(auto)]

ghost use Rattle.std.specs.Prelude.{◌+◌, ◌≤◌, length};
ghost use Rattle.label.specs.Label.{ListedTold, LabelLength, LabelTold};
ghost use Rattle.label.specs.Parts.{Run, SpacesTold};

const LIST: [u8; 64] = *b"ABCDEFGHIJKLMNOPQRSTUVWXYZabcdefghijklmnopqrstuvwxyz0123456789-_";

// Whether a byte stands in the list. The list is searched to its end whatever is found: so written it compiles to range tests, and
// with an early return to a jump for each byte.
pub fn listed(b: u8) -> bool
    ensures { ListedTold b result }
{
    let list = LIST;
    let mut found = false;
    let mut i = 0;
    while i < 64 {
        found = found | (list[i] == b);
        i += 1;
    }
    found
}

// How many of the eight bytes at `at` stand in the list before the first that does not.
fn run(s: &[u8], at: usize) -> usize
    requires { at + 8 ≤ length s.now }
    ensures { Run s.now at result }
{
    let mut k = 0;
    while k < 8 {
        if listed(s[at + k]) {
            k += 1;
        } else {
            return k;
        }
    }
    k
}

// Whether the bytes from `from` up to `end` are spaces.
fn spaces(s: &[u8], from: usize, end: usize) -> bool
    requires { end ≤ length s.now }
    ensures { SpacesTold s.now from end result }
{
    let mut i = from;
    while i < end {
        if s[i] != b' ' {
            return false;
        }
        i += 1;
    }
    true
}

// The length, without its spaces, of the label in the eight bytes at `at`: 1 to 8; 0 where no label stands there.
pub fn label_len(s: &[u8], at: usize) -> usize
    ensures { LabelLength s.now at result }
{
    if s.len() < at {
        return 0;
    }
    if s.len() - at < 8 {
        return 0;
    }
    let k = run(s, at);
    if spaces(s, at + k, at + 8) { k } else { 0 }
}

// Whether the eight bytes at `at` are a label.
pub fn is_label(s: &[u8], at: usize) -> bool
    ensures { LabelTold s.now at result }
{
    0 < label_len(s, at)
}
