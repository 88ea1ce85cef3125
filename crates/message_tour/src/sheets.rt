// A job sheet with one line.
use crate::blocks::message;
use jobsheet::{ROOM, Sheet};
use std::alloc::{AllocError, Global};
use std::fmt::Write;

// A sheet that asks for message 0 to be coded at rate 2/3 by the rows.
fn sheet_text(heap: Global) -> Result<String, AllocError> {
    let mut text = String::new(heap);
    text.push_str("code,coder,message\n2,check,")?;
    for byte in message(0) {
        write!(text, "{byte:02X}")?;
    }
    Ok(text)
}

// Prints what a call wrote to the front of a buffer.
fn show(rt: &HostRuntime, out: &[u8], count: usize) -> anyhow::Result<()> {
    print!(rt; "  ")?;
    for byte in out.iter().take(count) {
        print!(rt; "{}", *byte as char)?;
    }
    Ok(())
}

// Works the sheet.
pub(crate) fn work_sheet(rt: &HostRuntime) -> anyhow::Result<()> {
    println!(rt;
        "A job sheet that asks for the message of the bytes 0 to 127 at rate 2/3 by the rows:"
    )?;
    let text = sheet_text(rt.alloc())?;
    let mut out = [0u8; ROOM];
    let (mut sheet, opened) = Sheet::open(text.as_bytes(), &mut out);
    show(rt, &out, opened.count)?;
    let worked = sheet.job_line(&mut out);
    show(rt, &out, worked.count)
}
