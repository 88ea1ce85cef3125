// The randomizing sequence.
ghost use Rattle.std.specs.Prelude.{◌≡◌, ℕ, ◌+◌, ◌<◌, [], ◌∷◌, map};
ghost use Rattle.element.specs.Bits.{bit_plus};
ghost use Rattle.element.specs.declared.bits.Bit.TheVariants.{One};
ghost use Rattle.outlet.specs.Sequence.{s, byte_from};

use element::Bit;

// After so many bits the sequence begins again.
const PERIOD: usize = 255;

// One period of the sequence and the first bit of the next, the most significant bit of each word first.
const TABLE: [u32; 8] = [
    0xff480ec0, 0x9a0d70bc, 0x8e2c93ad, 0xa7b746ce, 0x5a977dcc, 0x32a2bf3e, 0x0a10f188, 0x94cdeab1,
];

// Bit `i` of the sequence.
pub fn randomizing_bit(i: usize) -> Bit
    ensures { result ≡ s i }
{
    let k = i % PERIOD;
    let word = TABLE[k / 32];
    // A call for a bit of any word would be no shorter.
    Bit::from((word >> (31 - k % 32)) % 2 == 1)
}

// After how many bits the sequence begins again. The clauses say what the sequence is: eight ones, then
// the sum of four earlier bits, of the polynomial x^8 + x^7 + x^5 + x^3 + 1; and its first 40 bits.
pub fn sequence_period() -> usize
    ensures count { result ≡ 255 }
    ensures repeats { (i : ℕ) → s (i + result) ≡ s i }
    ensures ones { (i : ℕ) → i < 8 → s i ≡ One }
    ensures rule { (i : ℕ) → s (i + 8) ≡ bit_plus (bit_plus (bit_plus (s (i + 7)) (s (i + 5))) (s (i + 3))) (s i) }
    ensures worked { map byte_from (0 ∷ 8 ∷ 16 ∷ 24 ∷ 32 ∷ 255 ∷ []) ≡ 0xff ∷ 0x48 ∷ 0x0e ∷ 0xc0 ∷ 0x9a ∷ 0xff ∷ [] }
{
    PERIOD
}
