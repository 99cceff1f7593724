// ASCII text written into an output of bytes (crate `output`): runs of bytes, all of them or none, and numbers. Then a run of bytes
// cleared.

#![tactic(auto)]

ghost use Rattle.std.specs.Prelude.{◌≡◌, [], ◌∷◌, ◌+◌, ◌%◌, nat_abs, length, replicate};
ghost use Rattle.output.specs.Written.{Written};
ghost use Rattle.text.specs.Decimal.{decimal};

use output::Output;

// Text goes into an output of bytes.
pub trait Text {
    fn push_byte(&mut self, byte: u8);

    fn push_text(&mut self, bytes: &[u8]);

    fn push_repeated(&mut self, byte: u8, count: usize);

    fn push_number(&mut self, n: usize);
}

impl<'a> Text for Output<'a, u8> {
    // Writes one byte.
    fn push_byte(&mut self, byte: u8)
        ensures { Written self.old (byte ∷ []) self.new }
    {
        self.put(byte);
    }

    // Writes bytes, all of them or none.
    fn push_text(&mut self, bytes: &[u8])
        ensures { Written self.old bytes.now self.new }
    {
        let at = self.at;
        if self.list.len() < at {
            return;
        }
        if self.list.len() - at < bytes.len() {
            self.at = self.list.len() + 1;
            return;
        }
        let end = at + bytes.len();
        self.list[at..end].copy_from_slice(bytes);
        self.at = end;
    }

    // Writes one byte a number of times, or not at all.
    fn push_repeated(&mut self, byte: u8, count: usize)
        ensures { Written self.old (replicate count byte) self.new }
    {
        let at = self.at;
        if self.list.len() < at {
            return;
        }
        if self.list.len() - at < count {
            self.at = self.list.len() + 1;
            return;
        }
        let end = at + count;
        self.list[at..end].fill(byte);
        self.at = end;
    }

    // Writes a number.
    fn push_number(&mut self, n: usize)
        ensures { Written self.old (decimal n) self.new }
    {
        let last = digit(n);
        if n < 10 {
            self.push_byte(last);
        } else {
            self.push_number(n / 10);
            self.push_byte(last);
        }
    }
}

// The last digit of a number.
fn digit(n: usize) -> u8
    ensures { result ≡ 48 + n % 10 }
{
    48 + (n % 10) as u8
}

// Puts a zero into every byte.
pub fn clear(text: &mut [u8])
    ensures { text.new ≡ replicate (length text.old) 0 }
{
    text.fill(0);
}

// A word without its sign.
pub fn magnitude(w: i32) -> usize
    ensures { result ≡ nat_abs w }
{
    w.unsigned_abs() as usize
}
