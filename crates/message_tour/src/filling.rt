// Erased symbols filled again.
use crate::blocks::{coded_block, printed_codeblock};
use ar4ja::Code;
use element::{Bit, Element, Form};
use erasure::{FillFault, fill};
use qc::{QuasiCyclic, TableCoder};
use refusal::Refusal;
use std::alloc::{AllocError, Global};

fn marks_of(heap: Global, block: &[Bit], count: usize) -> Result<Vec<Option<Bit>>, AllocError> {
    block.iter().take(count).map(|b| Some(*b)).collect(heap)
}

// Erases so many symbols from a place on, each some places after the one before.
fn erase(marks: &mut [Option<Bit>], from: usize, step: usize, count: usize) {
    let places = marks.iter_mut().skip(from).step_by(step.max(1));
    for mark in places.take(count) {
        *mark = None;
    }
}

// Fills marks, and tells how that went.
fn tell_fill(
    rt: &HostRuntime,
    code: Code,
    marks: &mut [Option<Bit>],
    sent: &[Option<Bit>],
) -> anyhow::Result<()> {
    let mut forms = vec![in rt.alloc(); Form::zero(); code.whole_len()]?;
    let mut places = [0usize; 64];
    match fill(code, marks, &mut forms, &mut places[..]) {
        Ok(()) if marks[..] == sent[..] => println!(rt;
            "  filled: one codeblock fits, the one that was sent."
        )?,
        Ok(()) => println!(rt; "  filled with ANOTHER codeblock.")?,
        Err(FillFault::SeveralFit(count)) => {
            let lowest = places.iter().take(count).min();
            let highest = places.iter().take(count).max();
            println!(rt;
                "  refused with number 12: several codeblocks fit, and {count} places stay open, {} to {}.",
                lowest.unwrap_or(&0),
                highest.unwrap_or(&0)
            )?
        }
        Err(fault) => println!(rt; "  refused with number {}.", fault.number())?,
    }
    Ok(())
}

// Fills the block of message 0 without its last 64 symbols, and a block without a whole codeword's ones.
pub(crate) fn fill_erased(rt: &HostRuntime) -> anyhow::Result<()> {
    let code = Code::TwoThirds1024;
    let block = coded_block(rt.alloc(), code, &TableCoder)?;
    let sent = marks_of(rt.alloc(), &block, code.block_len())?;
    let mut marks = sent.clone()?;
    erase(&mut marks, 1472, 1, 64);
    println!(rt; "The block of the bytes 0 to 127 at rate 2/3, its last 64 symbols erased:")?;
    tell_fill(rt, code, &mut marks, &sent)?;
    let code = Code::FourFifths1024;
    let sent = marks_of(
        rt.alloc(),
        &printed_codeblock(rt.alloc())?,
        code.block_len(),
    )?;
    let mut marks = sent.clone()?;
    erase(&mut marks, 320, 2, 16);
    erase(&mut marks, 576, 2, 16);
    println!(rt;
        "The first codeblock, with every other symbol of two of its segments erased, which are the ones of a codeword:"
    )?;
    tell_fill(rt, code, &mut marks, &sent)
}
