// Text printed into a buffer, piece by piece.
ghost use Rattle.std.specs.Prelude.{◌≡◌, ◌/◌, [], ◌∷◌, map, length, get_or, decimal};
ghost use Rattle.std.specs.List.{range_with_len};
ghost use Rattle.element.specs.declared.bits.Bit.TheVariants.{Zero};
ghost use Rattle.jobsheet.specs.Parity.{hex_digit, nibble, digit_at};
ghost use Rattle.jobsheet.specs.Printers.{HasRoom, Adds};

use element::{Bit, number_of};

// A buffer, with how many bytes are printed at its front. A place is kept, since a call tells how many bytes it wrote.
#[derive(Drop)]
pub(crate) struct Printer<'a> {
    out: &'a mut [u8],
    pub(crate) at: usize,
}

// The digit of four bits, the first the most significant. Its letter is a capital, which `char::from_digit` does not give.
fn digit_of(four: &[Bit]) -> u8
    requires { length four.now ≡ 4 }
    ensures { result ≡ hex_digit (nibble (get_or four.now 0 Zero) (get_or four.now 1 Zero) (get_or four.now 2 Zero) (get_or four.now 3 Zero)) }
{
    let value = number_of(four) as u8;
    if value < 10 {
        b'0' + value
    } else {
        b'A' + (value - 10)
    }
}

impl<'a> Printer<'a> {
    // A buffer with nothing printed.
    pub(crate) fn new(out: &'a mut [u8]) -> Printer<'a>
        ensures { (result.out ≡ out.entry) × (result.at ≡ 0) }
    {
        Printer { out, at: 0 }
    }

    // Prints a text.
    pub(crate) fn text(&mut self, text: &[u8])
        requires { HasRoom self.old (length text.now) }
        ensures { Adds self.old self.new text.now }
    {
        let end = self.at + text.len();
        let out = &mut *self.out;
        out[self.at..end].copy_from_slice(text);
        self.at = end;
    }

    // Prints one byte.
    fn byte(&mut self, b: u8)
        requires { HasRoom self.old 1 }
        ensures { Adds self.old self.new (b ∷ []) }
    {
        self.text(&[b])
    }

    // Prints a number in decimal. `to_string` would allocate.
    pub(crate) fn decimal(&mut self, n: u32)
        requires { HasRoom self.old (length (decimal n)) }
        ensures { Adds self.old self.new (decimal n) }
    {
        if n < 10 {
            return self.byte(b'0' + n as u8);
        }
        self.decimal(n / 10);
        self.byte(b'0' + (n % 10) as u8)
    }

    // Prints bits in hex, four to a digit.
    pub(crate) fn hex(&mut self, bits: &[Bit])
        requires { HasRoom self.old (length bits.now / 4) }
        ensures { Adds self.old self.new (map (digit_at (λ i. get_or bits.now i Zero)) (range_with_len 0 (length bits.now / 4))) }
    {
        for four in bits.chunks_exact(4) {
            self.byte(digit_of(four));
        }
    }
}
