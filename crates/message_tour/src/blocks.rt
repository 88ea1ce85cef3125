// Messages and blocks of bits, by bytes.
use ar4ja::Code;
use element::{Bit, number_of};
use outlet::byte_bit;
use qc::{Coder, QuasiCyclic};
use std::alloc::{AllocError, Global};

// The parity of the message with only bit 992 set, at rate 4/5: the first rows that the standard's printed
// generator table has for row 993.
const PRINTED_PARITY: [u8; 32] = [
    0x32, 0xfe, 0xfc, 0xaf, 0x70, 0x86, 0x3b, 0x75, 0x38, 0x46, 0xf1, 0x10, 0xc4, 0xe2, 0x3d, 0xff,
    0x79, 0xd3, 0xf7, 0x53, 0x06, 0x46, 0x48, 0xfa, 0x83, 0x04, 0x52, 0xf5, 0xb9, 0xed, 0x84, 0x45,
];

// Message `k`: its bytes count up from k.
pub(crate) fn message(k: u8) -> [u8; 128] {
    let mut bytes = [k; 128];
    for (byte, i) in bytes.iter_mut().zip(0..128u8) {
        *byte = k.wrapping_add(i);
    }
    bytes
}

// A block of zeros with room for its punctured bits behind it.
pub(crate) fn empty_block(heap: Global, code: Code) -> Result<Vec<Bit>, AllocError> {
    vec![in heap; Bit::Zero; code.whole_len()]
}

pub(crate) fn set_bit(block: &mut [Bit], place: usize) {
    if let Some(bit) = block.get_mut(place) {
        *bit = Bit::One;
    }
}

// Writes bytes, the most significant bit first, from a place of the block on.
pub(crate) fn write_bytes(block: &mut [Bit], from: usize, bytes: &[u8]) {
    let bits = bytes.iter().flat_map(|byte| {
        let byte = *byte;
        (0..8usize).map(move |place| byte_bit(byte, place))
    });
    for (bit, written) in block.iter_mut().skip(from).zip(bits) {
        *bit = written;
    }
}

// The word that 32 bits of the block make, from a place on.
pub(crate) fn word_at(block: &[Bit], from: usize) -> u32 {
    number_of(&block[from.min(block.len())..])
}

// The codeblock of rate 4/5 whose parity the standard prints.
pub(crate) fn printed_codeblock(heap: Global) -> Result<Vec<Bit>, AllocError> {
    let mut block = empty_block(heap, Code::FourFifths1024)?;
    set_bit(&mut block, 992);
    write_bytes(&mut block, 1024, &PRINTED_PARITY);
    Ok(block)
}

// The whole block of message 0, made by a coder.
pub(crate) fn coded_block<C: Coder>(
    heap: Global,
    code: Code,
    coder: &C,
) -> Result<Vec<Bit>, AllocError> {
    let mut block = empty_block(heap, code)?;
    write_bytes(&mut block, 0, &message(0));
    let _ = coder.encode(code, &mut block);
    Ok(block)
}
