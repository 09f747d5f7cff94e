// What the programs write: a text in a lent buffer, and how many bytes of it.
#![tactic(auto)]

ghost use Rattle.std.specs.Prelude.{◌≡◌, ◌≤◌, ℕ, length, take, OnOk};
ghost use Rattle.std.specs.Io.KnownBytes.{Appends};
ghost use Rattle.io.specs.Counts.{IsPrefixLen};
ghost use Rattle.rules.specs.Text.{text_asked};
ghost use Rattle.rules.specs.Range.{range_text};
ghost use Rattle.rules.specs.Why.{why_not, why_text};
ghost use Rattle.choosing.specs.Named.{meant_method};
ghost use Rattle.programs.specs.Spelled.{number_of};
ghost use Rattle.programs.specs.Told.{to_write, TextIn};

use choosing::Method;
use std::io;
use std::io::{Read, Write};
use text::TooSmall;

// Reads until the buffer is full, or the input ends or cannot be read. Answers how many bytes came. It counts them itself: after an `Err`, std's `read_exact` does
// not say how many came, and its `read_to_end` wants a `Vec`.
pub fn read_full<R: Read>(from: &mut R, into: &mut [u8]) -> usize
    ensures { IsPrefixLen result into.new }
{
    let mut done = 0;
    while done < into.len() {
        let n = from.read(&mut into[done..]).unwrap_or(0);
        if n == 0 {
            break;
        }
        done += n;
    }
    done
}

// The bytes of a text that was printed; none where there was no room.
fn bytes_of(printed: Result<usize, TooSmall>) -> usize
    ensures { result ≡ to_write printed }
{
    printed.unwrap_or(0)
}

// The plan of a request by a method, or the refusal. The largest text has 2,145 bytes.
pub fn plan_text(request: &[u8], method: Method, out: &mut [u8]) -> usize
    ensures { IsPrefixLen result out.new × TextIn (text_asked (meant_method method) request.now) out.old out.new result }
{
    bytes_of(text::print(request, method, out))
}

// The range of a request, or the refusal. The longest line has 24 bytes.
pub fn range_text(request: &[u8], out: &mut [u8]) -> usize
    ensures { IsPrefixLen result out.new × TextIn (range_text request.now) out.old out.new result }
{
    bytes_of(text::print_range(request, out))
}

// The number that an argument spells: each of its bytes counts what it is above `0`. 17 of them are read, for no 17 pass 64 bits.
pub fn number_of(digits: &[u8]) -> u64
    ensures { result ≡ number_of digits.now }
{
    let n = digits.len().min(17);
    let mut x = 0;
    for b in &digits[..n] {
        x = x * 10 + u64::from(b.saturating_sub(b'0'));
    }
    x
}

// Why a task of a request does not start at a minute, both as an argument spells them. The longest text has 180 bytes.
pub fn why_text(request: &[u8], task: &[u8], start: &[u8], out: &mut [u8]) -> usize
    ensures { IsPrefixLen result out.new × TextIn (why_text (why_not request.now (number_of task.now) (number_of start.now))) out.old out.new result }
{
    let number = number_of(task) as usize;
    let minute = number_of(start);
    bytes_of(text::print_why(request, number, minute, out))
}

// Reads a request, asks for a text of it, and writes that in one piece. "reads at most 16,384 bytes from standard input".
pub fn answer<R: Read, W: Write, F: FnOnce(&[u8], &mut [u8]) -> usize>(
    from: &mut R,
    to: &mut W,
    ask: F,
) -> io::Result<()>
    requires { F.IsAlwaysCallable ask }
    ensures { OnOk result ((request : _) × (out : _) × (n : ℕ) × (after : _) × (length request.now ≤ 16_384) × F.post ask request out n after × Appends (W.contents to.old) (W.contents to.new) (take n after.now)) }
{
    let mut request = [0u8; 16_384];
    let read = read_full(from, &mut request);
    let mut out = [0u8; 2_304];
    let length = ask(&request[..read], &mut out).min(out.len());
    to.write_all(&out[..length])
}
