// Outlets from outside: a caller that knows what the bytes are after its takes, and tests at the edges.

#![tactic(auto)]

ghost use Rattle.std.specs.Prelude.{◌≡◌, [], ◌∷◌, vec_len};
ghost use Rattle.outlet.specs.Meaning.{taken};
ghost use Rattle.outlet.specs.Packing.{packed_room, bytes_after};
ghost use Rattle.outlet.specs.Leveling.{level_room, levels_after};

use element::Bit;
use outlet::{Levels, Outlet, Packed};

#[cfg(test)]
mod tests;

// Offers two bits to any outlet.
pub fn put_two<O: Outlet>(o: &mut O, a: Bit, b: Bit)
    ensures after { O.bits o.new ≡ taken (b ∷ []) (taken (a ∷ []) (O.bits o.old) (O.room o.old)) (O.room o.old) }
    ensures rest { O.kept o.old o.new }
{
    let _ = o.take(a);
    let _ = o.take(b);
}

// The bytes with two bits packed at their front.
pub fn packed_two(bytes: Vec<u8>, a: Bit, b: Bit) -> Vec<u8>
    ensures { result.items ≡ bytes_after bytes.items 0 (taken (b ∷ []) (taken (a ∷ []) [] (packed_room (vec_len bytes))) (packed_room (vec_len bytes))) }
{
    let mut packed = Packed::empty(bytes);
    put_two(&mut packed, a, b);
    packed.into_bytes()
}

// The bytes with the levels of two bits at their front.
pub fn levels_two(bytes: Vec<i8>, a: Bit, b: Bit) -> Vec<i8>
    ensures { result.items ≡ levels_after bytes.items 0 (taken (b ∷ []) (taken (a ∷ []) [] (level_room (vec_len bytes))) (level_room (vec_len bytes))) }
{
    let mut levels = Levels::empty(bytes);
    put_two(&mut levels, a, b);
    levels.into_bytes()
}
