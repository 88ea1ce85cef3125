// Why a value, a line or a sheet was turned down. Each fault holds the lower one whole.
ghost use Rattle.std.specs.Prelude.{◌≡◌, slice_index};
ghost use Rattle.jobsheet.specs.Refusals.{value_fault, line_fault, sheet_fault, fault_line, fault_column};
ghost use Rattle.jobsheet.specs.declared.faults.LineFault.TheVariants.{Value};
ghost use Rattle.jobsheet.specs.declared.faults.SheetFault.TheVariants.{Line};
ghost use Rattle.jobsheet.specs.declared.faults.ValueFault.TheVariants.{NoCode};

use ar4ja::CodeFault;
use refusal::Refusal;

// Why a value was not read.
#[derive(Clone, Copy, PartialEq, Debug)]
pub enum ValueFault {
    // A code's digit names no code.
    NoCode(CodeFault),
    // The word is no digit, no coder's word, or has a byte that no message has.
    Unreadable,
    // A message has not 256 digits.
    WrongLength,
}

impl Refusal for ValueFault {
    ghost numbered = { value_fault };

    fn number(&self) -> u32 {
        match self {
            ValueFault::NoCode(fault) => fault.number(),
            ValueFault::Unreadable => 22,
            ValueFault::WrongLength => 23,
        }
    }
}

impl From<CodeFault> for ValueFault {
    ghost from_gives = { λ fault r. r ≡ NoCode fault };

    fn from(fault: CodeFault) -> ValueFault {
        ValueFault::NoCode(fault)
    }
}

// Why a line was not worked.
#[derive(Clone, Copy, PartialEq, Debug)]
pub enum LineFault {
    // There are not three values.
    Count,
    // The fault of the value in a column, counted from 1.
    Value(u32, ValueFault),
}

impl LineFault {
    // The column of the fault; 0 is the whole line, which is how it is printed.
    fn column(&self) -> u32
        ensures { result ≡ slice_index (line_fault self.now).values 0 }
    {
        match self {
            LineFault::Count => 0,
            LineFault::Value(column, _) => *column,
        }
    }
}

impl Refusal for LineFault {
    ghost numbered = { line_fault };

    fn number(&self) -> u32 {
        match self {
            LineFault::Count => 21,
            LineFault::Value(_, fault) => fault.number(),
        }
    }
}

impl From<(u32, ValueFault)> for LineFault {
    ghost from_gives = { λ a r. r ≡ Value a.0 a.1 };

    fn from(a: (u32, ValueFault)) -> LineFault {
        LineFault::Value(a.0, a.1)
    }
}

// Why a sheet was not opened, or a line of it not worked.
#[derive(Clone, Copy, PartialEq, Debug)]
pub enum SheetFault {
    // The output buffer is below 272 bytes.
    Buffer,
    // The sheet is longer than 65,536 bytes.
    TooLong,
    // The first line is no names line.
    Names,
    // No line is left.
    NoLine,
    // The fault of a line, counted from 1.
    Line(u32, LineFault),
}

impl SheetFault {
    // The line of the fault; 0 is the whole sheet, and is so printed where it is.
    pub fn line(&self) -> u32
        ensures { result ≡ fault_line self.now }
    {
        match self {
            SheetFault::Names => 1,
            SheetFault::Line(line, _) => *line,
            SheetFault::Buffer | SheetFault::TooLong | SheetFault::NoLine => 0,
        }
    }

    // The column of the fault; 0 is the whole line or sheet, and is so printed where it is.
    pub fn column(&self) -> u32
        ensures { result ≡ fault_column self.now }
    {
        match self {
            SheetFault::Line(_, fault) => fault.column(),
            SheetFault::Buffer | SheetFault::TooLong | SheetFault::Names | SheetFault::NoLine => 0,
        }
    }
}

impl Refusal for SheetFault {
    ghost numbered = { sheet_fault };

    fn number(&self) -> u32 {
        match self {
            SheetFault::Buffer => 25,
            SheetFault::TooLong => 24,
            SheetFault::Names => 20,
            SheetFault::NoLine => 26,
            SheetFault::Line(_, fault) => fault.number(),
        }
    }
}

impl From<(u32, LineFault)> for SheetFault {
    ghost from_gives = { λ a r. r ≡ Line a.0 a.1 };

    fn from(a: (u32, LineFault)) -> SheetFault {
        SheetFault::Line(a.0, a.1)
    }
}
