// An answer as a line.
ghost use Rattle.std.specs.Prelude.{◌≡◌, [], ◌∷◌, ◌+◌, ◌≤◌, ◌<◌, length};
ghost use Rattle.text.specs.Text.{decimal, signed_text, answer_text, answer_most, codes_below};
ghost use Rattle.text.specs.Puts.{Puts, Adds};

use crate::number::{LINE_END, SPACE};

// No answer's line is longer.
pub const ANSWER: usize = 36;

// A line that is put into a buffer, and the place after what stands of it.
#[derive(Drop)]
struct Line<'a> {
    out: &'a mut [u8],
    at: usize,
}

impl Line<'_> {
    fn byte(&mut self, byte: u8)
        requires { self.old.at + 1 ≤ length self.old.out.now }
        ensures { Adds self.old (byte ∷ []) self.new }
    {
        self.out[self.at] = byte;
        self.at += 1;
    }

    fn number(&mut self, n: u64)
        requires { self.old.at + length (decimal n) ≤ length self.old.out.now }
        ensures { Adds self.old (decimal n) self.new }
    {
        if n < 10 {
            return self.byte(b'0' + n as u8);
        }
        self.number(n / 10);
        self.byte(b'0' + (n % 10) as u8);
    }

    fn signed(&mut self, z: i64)
        requires { self.old.at + length (signed_text z) ≤ length self.old.out.now }
        ensures { Adds self.old (signed_text z) self.new }
    {
        if z < 0 {
            self.byte(b'-');
        }
        self.number(z.unsigned_abs());
    }
}

pub fn put_answer(out: &mut [u8], at: usize, code: u32, a: u32, b: i64) -> usize
    requires { (code < codes_below) × (at + answer_most ≤ length out.old) }
    ensures { Puts out.old at (answer_text code a b) result out.new }
{
    let mut line = Line { out, at };
    line.number(u64::from(code));
    line.byte(SPACE);
    line.number(u64::from(a));
    line.byte(SPACE);
    line.signed(b);
    line.byte(LINE_END);
    line.at
}
