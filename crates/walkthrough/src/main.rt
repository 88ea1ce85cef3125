// The library's calls shown each by itself, told in plain sentences. Some steps are told by the message tour too, in
// code of its own: shared steps would be public functions, and no contract can state what they print; the helpers that print
// nothing would be public for programs alone.

#![tactic(auto)]

use ar4ja::Code;
use element::{Bit, Element, Form, number_of};
use erasure::fill;
use frame::{ReadFault, marker_bit, read};
use outlet::{Inverter, MARKER_LEN, Outlet, Packed, Randomizer};
use qc::{CheckCoder, Coder, QuasiCyclic, TableCoder};
use refusal::Refusal;
use std::alloc::{AllocError, Global};

// The parity of the message with only bit 992 set, at rate 4/5: the first rows that the standard's printed
// generator table has for row 993, most significant bit first.
const PRINTED_PARITY: [u32; 8] = [
    0x32fefcaf, 0x70863b75, 0x3846f110, 0xc4e23dff, 0x79d3f753, 0x064648fa, 0x830452f5, 0xb9ed8445,
];

// A block of zeros with room for its punctured bits behind it.
fn empty_block(heap: Global, code: Code) -> Result<Vec<Bit>, AllocError> {
    vec![in heap; Bit::Zero; code.whole_len()]
}

fn set_bit(block: &mut [Bit], place: usize) {
    if let Some(bit) = block.get_mut(place) {
        *bit = Bit::One;
    }
}

// Writes words, most significant bit first, from a place of the block on.
fn write_words(block: &mut [Bit], from: usize, words: &[u32]) {
    let bits = words.iter().flat_map(|word| {
        let word = *word;
        // A call for a bit of any word would be no shorter.
        (0..32u32).map(move |place| Bit::from((word >> (31 - place)) % 2 == 1))
    });
    for (bit, written) in block.iter_mut().skip(from).zip(bits) {
        *bit = written;
    }
}

// The word that 32 bits of the block make, from a place on.
fn word_at(block: &[Bit], from: usize) -> u32 {
    number_of(&block[from.min(block.len())..])
}

fn tell(rt: &impl Print, code: Code, block: &mut [Bit]) -> anyhow::Result<()> {
    match qc::check(code, block) {
        Ok(None) => println!(rt;
            "  All rows of the parity-check matrix are zero: the block passes."
        )?,
        Ok(Some(row)) => println!(rt;
            "  The block fails: row {row} is the lowest that is not zero."
        )?,
        Err(_) => println!(rt; "  The buffer is shorter than a whole block.")?,
    }
    Ok(())
}

// The codeblock of rate 4/5 whose parity the standard prints.
fn printed_codeblock(heap: Global) -> Result<Vec<Bit>, AllocError> {
    let mut block = empty_block(heap, Code::FourFifths1024)?;
    set_bit(&mut block, 992);
    write_words(&mut block, 1024, &PRINTED_PARITY);
    Ok(block)
}

fn check_printed_codeblock(rt: &HostRuntime) -> anyhow::Result<()> {
    let code = Code::FourFifths1024;
    let mut block = printed_codeblock(rt.alloc())?;
    let sent = code.block_len();
    println!(rt;
        "The codeblock of rate 4/5 whose message has only bit 992 set, with the parity that the standard prints:"
    )?;
    println!(rt;
        "  {sent} bits are sent, and {} more are punctured and worked out again.",
        code.group_len()
    )?;
    tell(rt, code, &mut block)?;
    println!(rt; "The same block with its bit 1000 damaged:")?;
    set_bit(&mut block, 1000);
    tell(rt, code, &mut block)
}

// The bytes 0 to 127, four to a word.
fn counting_words(heap: Global) -> Result<Vec<u32>, AllocError> {
    (0..32u32)
        .map(|i| 4 * i * 0x0101_0101 + 0x0001_0203)
        .collect(heap)
}

// Codes the message of the bytes 0 to 127 both ways.
fn code_both_ways(rt: &HostRuntime) -> anyhow::Result<()> {
    let code = Code::TwoThirds1024;
    let words = counting_words(rt.alloc())?;
    let mut by_table = empty_block(rt.alloc(), code)?;
    write_words(&mut by_table, 0, &words);
    let mut by_rows = empty_block(rt.alloc(), code)?;
    write_words(&mut by_rows, 0, &words);
    let _ = TableCoder.encode(code, &mut by_table);
    let _ = CheckCoder.encode(code, &mut by_rows);
    println!(rt;
        "The message of the bytes 0 to 127, coded at rate 2/3 by the generator table and by the rows:"
    )?;
    let begins = word_at(&by_table, 1024);
    let ends = word_at(&by_table, 1504);
    println!(rt; "  the parity begins {begins:08X} and ends {ends:08X};")?;
    let verdict = if by_table == by_rows {
        "the same"
    } else {
        "NOT the same"
    };
    println!(rt; "  the two coders made {verdict} block, punctured bits and all.")?;
    tell(rt, code, &mut by_rows)
}

// Puts 104 zeros through a pile of two layers, the place of a marker and then 40 bits, and shows the bytes.
fn show_pile(rt: &HostRuntime) -> anyhow::Result<()> {
    let bytes = vec![in rt.alloc(); 0u8; 13]?;
    let mut pile = Randomizer::over(Inverter::over(Packed::empty(bytes)), Code::Half1024);
    for _ in 0..104 {
        let _ = pile.take(Bit::Zero);
    }
    println!(rt;
        "104 zeros through a randomizer over an inverter over a packed outlet, {} of {} places held:",
        pile.held(),
        pile.capacity()
    )?;
    print!(rt; "  ")?;
    for byte in pile.into_below().into_below().into_bytes().iter() {
        print!(rt; "{byte:02X}")?;
    }
    println!(rt; "")?;
    println!(rt; "  the complements of 64 zeros and of the sequence that begins FF480EC09A.")?;
    Ok(())
}

// A packed outlet with the frame of a block: the marker, then the block through a randomizer.
fn framed(heap: Global, code: Code, block: &[Bit]) -> Result<Packed, AllocError> {
    let bytes = vec![in heap; 0u8; code.frame_len() / 8]?;
    let mut layer = Randomizer::over(Packed::empty(bytes), code);
    // The line's own steps are private, and the marker's bits lie in no slice.
    for i in 0..MARKER_LEN {
        let _ = layer.take(marker_bit(i));
    }
    for b in block.iter().take(code.block_len()) {
        let _ = layer.take(*b);
    }
    Ok(layer.into_below())
}

// Reads the frame at the first place of an outlet.
fn tell_reading<O: Outlet>(rt: &HostRuntime, outlet: &O, code: Code) -> anyhow::Result<()> {
    let mut message = [0u8; 128];
    let mut run = empty_block(rt.alloc(), code)?;
    match read(outlet, 0, code, 0, &mut message[..], &mut run) {
        Ok((orientation, distance)) => println!(rt;
            "  read {orientation}, the marker {distance} bits off; byte 124 of the message is {:02X}.",
            message[124]
        )?,
        Err(ReadFault::Fails(row)) => println!(rt;
            "  refused: row {row} is the lowest that is not zero."
        )?,
        Err(fault) => println!(rt; "  refused with number {}.", fault.number())?,
    }
    Ok(())
}

// Reads the frame of the printed codeblock as it stands, inverted, and damaged.
fn read_frames(rt: &HostRuntime) -> anyhow::Result<()> {
    let code = Code::FourFifths1024;
    let mut block = printed_codeblock(rt.alloc())?;
    println!(rt; "The frame of the first codeblock in a packed outlet:")?;
    let frame = framed(rt.alloc(), code, &block)?;
    tell_reading(rt, &frame, code)?;
    println!(rt; "The same frame through an inverter:")?;
    tell_reading(rt, &Inverter::over(frame), code)?;
    println!(rt; "The frame of the same block with its bit 1000 damaged:")?;
    set_bit(&mut block, 1000);
    tell_reading(rt, &framed(rt.alloc(), code, &block)?, code)
}

fn marks_of(heap: Global, block: &[Bit], count: usize) -> Result<Vec<Option<Bit>>, AllocError> {
    block.iter().take(count).map(|b| Some(*b)).collect(heap)
}

// Erases 64 symbols of the printed codeblock, and fills them again.
fn fill_erased(rt: &HostRuntime) -> anyhow::Result<()> {
    let code = Code::FourFifths1024;
    let block = printed_codeblock(rt.alloc())?;
    let sent = marks_of(rt.alloc(), &block, code.block_len())?;
    let mut marks = marks_of(rt.alloc(), &block, code.block_len())?;
    for mark in marks.iter_mut().skip(960).take(64) {
        *mark = None;
    }
    let mut forms = vec![in rt.alloc(); Form::zero(); code.whole_len()]?;
    let mut places = [0usize; 64];
    println!(rt; "The first codeblock with its bits 960 to 1023 erased:")?;
    match fill(code, &mut marks, &mut forms, &mut places[..]) {
        Ok(()) if marks == sent => println!(rt;
            "  filled: one codeblock fits, the one that was sent."
        )?,
        Ok(()) => println!(rt; "  filled with ANOTHER codeblock.")?,
        Err(fault) => println!(rt; "  refused with number {}.", fault.number())?,
    }
    Ok(())
}

fn run(rt: &HostRuntime) -> anyhow::Result<()> {
    check_printed_codeblock(rt)?;
    code_both_ways(rt)?;
    show_pile(rt)?;
    read_frames(rt)?;
    fill_erased(rt)
}

fn main(rt: HostRuntime) -> anyhow::Result<()> {
    run(&rt)
}
