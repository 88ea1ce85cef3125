// A message of a job line.
ghost use Rattle.std.specs.Prelude.{◌≡◌, true, length};
ghost use Rattle.jobsheet.specs.Values.{all_hex};

// How many digits a message has.
pub(crate) const DIGITS: usize = 256;

// A message by its digits. Those that were read are a part of the sheet.
#[derive(Clone, Copy)]
pub(crate) struct Message<'a> {
    pub(crate) digits: &'a [u8],
    ghost long: { length digits.now ≡ 256 },
    ghost hex: { all_hex digits.now ≡ true },
}
