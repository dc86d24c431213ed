//! A pen that writes bytes into a buffer. What falls past the buffer's end is dropped, and counted all the same.
#![tactic(auto)]

ghost use Rattle.std.specs.Prelude.{◌≡◌, ◌<◌, [], ◌∷◌, decimal};
ghost use Rattle.pen.specs.Wrote.{Wrote};

/// The buffer, and the place of the next byte. The count stops at `usize::MAX`, which no buffer reaches.
#[derive(Drop)]
pub struct Pen<'a> {
    pub out: &'a mut [u8],
    pub at: usize,
}

impl<'a> Pen<'a> {
    /// A pen at the buffer's start.
    pub fn new(out: &'a mut [u8]) -> Pen<'a>
        ensures same { result.out.ghost_name ≡ out.entry.ghost_name }
        ensures holds { result.out.now ≡ out.old }
        ensures start { result.at ≡ 0 }
    {
        Pen { out, at: 0 }
    }
}

impl Pen<'_> {
    /// Writes one byte.
    pub fn byte(&mut self, byte: u8)
        ensures { Wrote self.old (byte ∷ []) self.new }
    {
        // `get_mut` does not say what the slice ends as.
        if self.at < self.out.len() {
            self.out[self.at] = byte;
        }
        self.at = self.at.saturating_add(1);
    }

    /// Writes a text.
    pub fn text(&mut self, text: &[u8])
        ensures { Wrote self.old text.now self.new }
    {
        let end = self.at.saturating_add(text.len());
        if end <= self.out.len() {
            self.out[self.at..end].copy_from_slice(text);
            self.at = end;
        } else {
            self.bytes(text);
        }
    }

    /// Writes a text byte by byte, as far as the buffer reaches.
    #[cold]
    fn bytes(&mut self, text: &[u8])
        ensures { Wrote self.old text.now self.new }
    {
        for byte in text {
            self.byte(*byte);
        }
    }

    /// Writes a number in decimal.
    #[tactic(auto, using(std::proofs::lemmas::Fmt::decimal_digit))]
    pub fn number(&mut self, n: usize)
        ensures { Wrote self.old (decimal n) self.new }
    {
        if n < 10 {
            return self.byte(b'0' + n as u8);
        }
        if n < 100 {
            return self.text(&[b'0' + (n / 10) as u8, b'0' + (n % 10) as u8]);
        }
        if n < 1000 {
            return self.text(&[
                b'0' + (n / 100) as u8,
                b'0' + (n / 10 % 10) as u8,
                b'0' + (n % 10) as u8,
            ]);
        }
        self.digits(n);
    }

    /// Writes a number in decimal, digit by digit.
    #[tactic(auto, using(std::proofs::lemmas::Fmt::decimal_digit))]
    fn digits(&mut self, n: usize)
        ensures { Wrote self.old (decimal n) self.new }
    {
        if n < 10 {
            return self.byte(b'0' + n as u8);
        }
        self.digits(n / 10);
        self.byte(b'0' + (n % 10) as u8);
    }
}
