// Values worked out by hand from the standard, each beside what the definitions give.

#![tactic(auto)]

ghost use Rattle.std.specs.Prelude.{◌≡◌, true, length};
ghost use Rattle.element.specs.declared.bits.Bit.TheVariants.{Zero};
ghost use Rattle.element.specs.Bits.{bit_plus};
ghost use Rattle.qc.specs.Coding.{ZeroBlock};
ghost use Rattle.ar4ja.specs.declared.codes.Code.{Code};
ghost use Rattle.ar4ja.specs.Codes.{shape_of, tables_of};
ghost use Rattle.ar4ja.specs.Worked.{all_agree};
ghost use Rattle.worked.specs.Worked.{worked};

// How many worked values there are. The definitions give each of them, by one computed test of the whole
// list; and in each code a message of zeros has a block of zeros.
pub fn worked_values() -> usize
    ensures count { result ≡ length worked }
    ensures agree { all_agree worked ≡ true }
    ensures zeros { (code : Code) → ZeroBlock Zero bit_plus (shape_of code) (tables_of code) }
{
    38
}
