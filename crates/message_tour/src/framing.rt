// Bits through a pile of layers, and frames read from where they stand.
use crate::blocks::empty_block;
use ar4ja::Code;
use element::Bit;
use frame::{ReadFault, read};
use outlet::{Inverter, Outlet, Packed, Randomizer};
use refusal::Refusal;

// Puts 104 zeros through a pile of two layers, the place of a marker and then 40 bits, and shows the bytes.
pub(crate) fn show_pile(rt: &HostRuntime) -> anyhow::Result<()> {
    let bytes = vec![in rt.alloc(); 0u8; 13]?;
    let mut pile = Randomizer::over(Inverter::over(Packed::empty(bytes)), Code::Half1024);
    for _ in 0..104 {
        let _ = pile.take(Bit::Zero);
    }
    println!(rt;
        "104 zeros through a randomizer over an inverter over a packed outlet, {} of {} places held:",
        pile.held(),
        pile.capacity()
    )?;
    print!(rt; "  ")?;
    for byte in pile.into_below().into_below().into_bytes().iter() {
        print!(rt; "{byte:02X}")?;
    }
    println!(rt; "")?;
    println!(rt; "  the complements of 64 zeros and of the sequence that begins FF480EC09A.")?;
    Ok(())
}

// Reads the frame at a place of an outlet.
pub(crate) fn tell_reading<O: Outlet>(
    rt: &HostRuntime,
    outlet: &O,
    place: usize,
    code: Code,
    tolerance: u32,
) -> anyhow::Result<()> {
    let mut message = [0u8; 128];
    let mut run = empty_block(rt.alloc(), code)?;
    match read(outlet, place, code, tolerance, &mut message[..], &mut run) {
        Ok((orientation, distance)) => println!(rt;
            "  read {orientation}, the marker {distance} bits off; the message begins {:02X}{:02X}.",
            message[0], message[1]
        )?,
        Err(ReadFault::Fails(row)) => println!(rt;
            "  refused: row {row} is the lowest that is not zero."
        )?,
        Err(fault) => println!(rt; "  refused with number {}.", fault.number())?,
    }
    Ok(())
}
