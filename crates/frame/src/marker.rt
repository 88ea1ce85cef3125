// The attached sync marker.
ghost use Rattle.std.specs.Prelude.{◌≡◌};
ghost use Rattle.frame.specs.Marker.{mark};

use element::Bit;
use outlet::MARKER_LEN;

// The marker, its first bit the most significant.
const MARKER: u64 = 0xfcb88938d8d76a4f;

// Bit `i` of the marker; zero from 64 on.
pub fn marker_bit(i: usize) -> Bit
    ensures { result ≡ mark i }
{
    // A call for a bit of any word would be no shorter.
    Bit::from(i < MARKER_LEN && (MARKER >> (63 - i)) % 2 != 0)
}
