// Messages through a line over a pile of layers, and back.
use crate::blocks::{empty_block, message};
use crate::framing::tell_reading;
use ar4ja::Code;
use element::Bit;
use line::Line;
use outlet::{Inverter, Outlet, Packed, byte_bit};
use qc::{CheckCoder, Coder};
use refusal::Refusal;
use std::alloc::{AllocError, Global};

// How many frames the outlet has room for.
const FRAMES: u8 = 3;

// A packed outlet that holds the 16 bits EB90 hex, with room for some frames behind them.
fn begun_outlet(heap: Global, code: Code) -> Result<Packed, AllocError> {
    let bytes = vec![in heap; 0u8; 2 + FRAMES as usize * (code.frame_len() / 8)]?;
    let mut outlet = Packed::empty(bytes);
    for byte in [0xebu8, 0x90] {
        // By place: each bit is asked of the byte.
        for place in 0..8 {
            let _ = outlet.take(byte_bit(byte, place));
        }
    }
    Ok(outlet)
}

// Sends messages until one is refused.
fn fill_line<C: Coder, O: Outlet>(
    rt: &HostRuntime,
    code: Code,
    line: &mut Line<C, O>,
) -> anyhow::Result<()> {
    let mut run = empty_block(rt.alloc(), code)?;
    // By number: the number is the message, and is printed.
    for k in 0..=FRAMES {
        match line.send(&message(k)[..], &mut run) {
            Ok(()) => println!(rt; "  message {k} is sent;")?,
            Err(fault) => println!(rt; "  message {k} is refused with number {};", fault.number())?,
        }
    }
    let (done, refused) = line.counts();
    println!(rt; "  {done} sends are done and {refused} is refused.")?;
    Ok(())
}

// Reads every frame back, and counts those that are the message sent.
fn read_all_back<C: Coder, O: Outlet>(
    rt: &HostRuntime,
    code: Code,
    line: &Line<C, O>,
) -> anyhow::Result<()> {
    let mut run = empty_block(rt.alloc(), code)?;
    let mut same: u8 = 0;
    // By number, by which a frame is asked for.
    for k in 0..FRAMES {
        let mut got = [0u8; 128];
        let read = line.read_back(k as usize, &mut got[..], &mut run);
        if read.is_ok() && got[..] == message(k)[..] {
            same = same.saturating_add(1);
        }
    }
    println!(rt; "  Read back, {same} of {FRAMES} are the message sent.")?;
    Ok(())
}

// Adds one to the bit at a place.
fn damage(bytes: &mut [u8], place: usize) {
    if let Some(byte) = bytes.get_mut(place / 8) {
        *byte ^= 128u8 >> (place % 8);
    }
}

// Sends messages into an outlet until it is full, and reads them back from the line and from the outlet.
pub(crate) fn send_and_read_back(rt: &HostRuntime) -> anyhow::Result<()> {
    let code = Code::TwoThirds1024;
    println!(rt;
        "A line at rate 2/3 over an inverter over a packed outlet that holds 16 bits, with room for {FRAMES} frames:"
    )?;
    let pile = Inverter::over(begun_outlet(rt.alloc(), code)?);
    let mut line = Line::open(code, CheckCoder, pile);
    fill_line(rt, code, &mut line)?;
    read_all_back(rt, code, &line)?;
    let second = 16 + code.frame_len();
    println!(rt; "The second frame, read from the outlet under the line:")?;
    let pile = line.into_outlet();
    tell_reading(rt, &pile, second, code, 0)?;
    read_damaged(rt, code, pile.into_below().into_bytes(), second)
}

// Reads a frame from its bytes, with a damaged marker and then with a damaged block too.
fn read_damaged(
    rt: &HostRuntime,
    code: Code,
    mut bytes: Vec<u8>,
    place: usize,
) -> anyhow::Result<()> {
    println!(rt; "The same frame under the inverter, with three bits of its marker damaged:")?;
    for marker in [0, 20, 63] {
        damage(&mut bytes, place.saturating_add(marker));
    }
    let outlet = Packed::full(bytes);
    tell_reading(rt, &outlet, place, code, 3)?;
    println!(rt; "The same with bit 700 of its block damaged too:")?;
    let mut bytes = outlet.into_bytes();
    damage(&mut bytes, place.saturating_add(64 + 700));
    tell_reading(rt, &Packed::full(bytes), place, code, 3)
}
