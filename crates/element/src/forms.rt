// Affine forms.
ghost use Rattle.element.specs.Forms.{form_zero, form_plus, form_same, form_laws};

use crate::Element;
use crate::bits::Bit;

// An affine form: it stands for its bit plus each unknown of its set. Unknown i, 0 to 63, is in the set
// where bit i of `unknowns` is one.
#[derive(Clone, Copy, PartialEq, Eq, Debug)]
pub struct Form {
    pub bit: Bit,
    pub unknowns: u64,
}

impl Element for Form {
    ghost zero = { form_zero };

    ghost plus = { form_plus };

    ghost same = { form_same };

    ghost laws = { form_laws };

    fn zero() -> Form {
        Form {
            bit: Bit::Zero,
            unknowns: 0,
        }
    }

    fn plus(self, other: Form) -> Form {
        Form {
            bit: self.bit.plus(other.bit),
            unknowns: self.unknowns ^ other.unknowns,
        }
    }

    fn same(self, other: Form) -> bool {
        self == other
    }
}
