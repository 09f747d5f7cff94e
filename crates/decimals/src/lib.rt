// A text of a fixed capacity, and what is appended to it: bytes, numbers in decimal, lines.
#![tactic(auto)]

ghost use Rattle.std.specs.Prelude.{◌≡◌, ◌+◌, ◌<◌, ◌≤◌, [], ◌∷◌, ◌++◌, length, map};
ghost use Rattle.rules.specs.Text.{decimal, line};
ghost use Rattle.rules.specs.Why.{told};
ghost use Rattle.decimals.specs.Wrote.{Room, Wrote};

use std::marker::Model;

// A text of at most `N` bytes, which lie in the value itself. Contracts see its bytes.
#[derive(Drop)]
pub struct Text<const N: usize> {
    bytes: [u8; N],
    length: usize,
}

impl<const N: usize> Model for Text<N> {
    ghost use Rattle.std.specs.Prelude.{ℕ, ◌≤◌, List, take};

    ghost Value = { List ℕ };

    ghost view = { λ t. take t.length t.bytes };

    ghost invariant = { λ t. t.length ≤ N };
}

impl<const N: usize> Text<N> {
    // A text with no byte yet.
    pub fn new() -> Self
        ensures { result ≡ [] }
    {
        Text {
            bytes: [0; N],
            length: 0,
        }
    }

    // The bytes, of which there are no more than its capacity.
    pub fn as_slice(&self) -> &[u8]
        ensures { (result.now ≡ self.now) × (length result.now ≤ N) }
    {
        &self.bytes[..self.length]
    }

    // Appends one byte.
    pub fn push(&mut self, b: u8)
        requires { length self.old < N }
        ensures { self.new ≡ self.old ++ b ∷ [] }
    {
        self.bytes[self.length] = b;
        self.length += 1;
    }

    // Appends bytes.
    pub fn push_all(&mut self, bytes: &[u8])
        requires { length self.old + length bytes.now ≤ N }
        ensures { self.new ≡ self.old ++ bytes.now }
    {
        let start = self.length;
        let past = start + bytes.len();
        let all = &mut self.bytes[..];
        all[start..past].copy_from_slice(bytes);
        self.length = past;
    }

    // Appends a number. Its digits are found from the last to the first.
    pub fn decimal(&mut self, x: u64)
        requires { length self.old + length (decimal x) ≤ N }
        ensures { self.new ≡ self.old ++ decimal x }
    {
        let mut digits = [0u8; 20];
        let mut place = 20;
        let mut front = x;
        while 10 <= front {
            place -= 1;
            digits[place] = b'0' + (front % 10) as u8;
            front /= 10;
        }
        place -= 1;
        digits[place] = b'0' + front as u8;
        self.push_all(&digits[place..]);
    }

    // Appends bytes, and a number after them.
    pub fn told(&mut self, bytes: &[u8], x: u64)
        requires { length self.old + length (told bytes.now x) ≤ N }
        ensures { self.new ≡ self.old ++ told bytes.now x }
    {
        self.push_all(bytes);
        self.decimal(x);
    }

    // Appends a line: what opens it, each number after a space, and the line feed.
    pub fn line(&mut self, opening: &[u8], numbers: &[u64])
        requires { length self.old + length (line opening.now (map decimal numbers.now)) ≤ N }
        ensures { self.new ≡ self.old ++ line opening.now (map decimal numbers.now) }
    {
        self.push_all(opening);
        for x in numbers {
            self.told(b" ", *x);
        }
        self.push(b'\n');
    }
}

// Writes bytes over a lent buffer from `at` on, and says where they end. It keeps its place `at`, since `Wrote` and `wrote_settled` speak of any place.
pub fn put_bytes(out: &mut [u8], at: usize, bytes: &[u8]) -> usize
    requires { Room out.old at bytes.now }
    ensures { Wrote out.old at bytes.now out.new result }
{
    let end = at + bytes.len();
    out[at..end].copy_from_slice(bytes);
    end
}
