// Why a line turns a call down.
ghost use Rattle.line.specs.Refusals.{send_fault, read_back_fault};

use refusal::Refusal;

// Why a message was not sent.
#[derive(Clone, Copy, PartialEq, Eq, Debug)]
pub enum SendFault {
    // The message is not as long as the code's messages are.
    MessageLength,
    // The work buffer is shorter than a whole block.
    RunTooShort,
    // Fewer places than a frame's are left.
    NoRoom,
}

impl Refusal for SendFault {
    ghost numbered = { send_fault };

    fn number(&self) -> u32 {
        match self {
            SendFault::MessageLength => 2,
            SendFault::RunTooShort => 8,
            SendFault::NoRoom => 3,
        }
    }
}

// Why a frame was not read back.
#[derive(Clone, Copy, PartialEq, Eq, Debug)]
pub enum ReadBackFault {
    // The frame's number is not below the number of done sends.
    NoSuchFrame,
    // The message buffer is not as long as the code's messages are.
    MessageLength,
    // The work buffer is shorter than a whole block.
    RunTooShort,
}

impl Refusal for ReadBackFault {
    ghost numbered = { read_back_fault };

    fn number(&self) -> u32 {
        match self {
            ReadBackFault::NoSuchFrame => 16,
            ReadBackFault::MessageLength => 2,
            ReadBackFault::RunTooShort => 8,
        }
    }
}
