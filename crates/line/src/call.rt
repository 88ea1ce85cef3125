// A call on a line, with its buffers and its answer.
use crate::faults::{ReadBackFault, SendFault};
use element::Bit;

// What a line is asked to do.
#[derive(Clone, Copy)]
pub enum Ask {
    Send,
    // Read back the frame of that number.
    ReadBack(usize),
    Counts,
}

// What it answered.
#[derive(Drop)]
pub enum Answer {
    Sent(Result<(), SendFault>),
    ReadBack(Result<(), ReadBackFault>),
    // The done sends and the refused ones.
    Counts(usize, u32),
}

#[derive(Drop)]
pub struct Call {
    pub ask: Ask,
    pub message: Vec<u8>,
    pub run: Vec<Bit>,
    // None until it is asked.
    pub answer: Option<Answer>,
}
