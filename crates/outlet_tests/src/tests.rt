// Outlets at the edges.
use ar4ja::Code;
use element::Bit;
use outlet::{Inverter, Levels, Outlet, Packed, PlaceFault, Randomizer, TakeFault};
use std::test::Fail;

// Offers a bit so many times.
fn offer<O: Outlet>(o: &mut O, b: Bit, times: usize) {
    for _ in 0..times {
        let _ = o.take(b);
    }
}

#[test]
fn no_byte(rt: HostRuntime) -> Result<(), Fail> {
    let mut packed = Packed::empty(vec![in rt.alloc()]?);
    assert_eq!(rt; packed.capacity(), 0);
    assert_eq!(rt; packed.take(Bit::One), Err(TakeFault::Full));
    assert_eq!(rt; packed.bit_at(0), Err(PlaceFault::NotHeld));
    assert_eq!(rt; packed.into_bytes().len(), 0);
    Ok(())
}

#[test]
fn one_byte(rt: HostRuntime) -> Result<(), Fail> {
    let mut packed = Packed::empty(vec![in rt.alloc(); 0xff]?);
    assert_eq!(rt; packed.capacity(), 8);
    assert_eq!(rt; packed.take(Bit::One), Ok(()));
    assert_eq!(rt; packed.take(Bit::Zero), Ok(()));
    assert_eq!(rt; packed.take(Bit::One), Ok(()));
    assert_eq!(rt; packed.bit_at(2), Ok(Bit::One));
    assert_eq!(rt; packed.bit_at(3), Err(PlaceFault::NotHeld));
    let bytes = packed.into_bytes();
    assert_eq!(rt; bytes.get(0).copied(), Some(0xa0));
    Ok(())
}

#[test]
fn one_byte_filled(rt: HostRuntime) -> Result<(), Fail> {
    let mut packed = Packed::empty(vec![in rt.alloc(); 0, 7]?);
    let mut lent = &mut packed;
    offer(&mut lent, Bit::One, 7);
    assert_eq!(rt; lent.take(Bit::Zero), Ok(()));
    assert_eq!(rt; lent.held(), 8);
    let bytes = packed.into_bytes();
    assert_eq!(rt; bytes.get(0).copied(), Some(0xfe));
    assert_eq!(rt; bytes.get(1).copied(), Some(7), "not reached");
    Ok(())
}

#[test]
fn bits_of_bytes(rt: HostRuntime) -> Result<(), Fail> {
    let mut packed = Packed::full(vec![in rt.alloc(); 0x01, 0x80]?);
    assert_eq!(rt; packed.held(), 16);
    assert_eq!(rt; packed.bit_at(0), Ok(Bit::Zero));
    assert_eq!(rt; packed.bit_at(7), Ok(Bit::One));
    assert_eq!(rt; packed.bit_at(15), Ok(Bit::Zero));
    assert_eq!(rt; packed.bit_at(16), Err(PlaceFault::NotHeld));
    assert_eq!(rt; packed.take(Bit::One), Err(TakeFault::Full));
    Ok(())
}

#[test]
fn most_packed_bytes(rt: HostRuntime) -> Result<(), Fail> {
    let under = Packed::full(vec![in rt.alloc(); 0u8; 1_048_575]?);
    assert_eq!(rt; under.capacity(), 8_388_600);
    let at = Packed::full(vec![in rt.alloc(); 0u8; 1_048_576]?);
    assert_eq!(rt; at.capacity(), 8_388_608);
    let past = Packed::full(vec![in rt.alloc(); 0u8; 1_048_577]?);
    assert_eq!(rt; past.held(), 8_388_608);
    Ok(())
}

#[test]
fn most_levels(rt: HostRuntime) -> Result<(), Fail> {
    let mut levels = Levels::empty(vec![in rt.alloc(); 5i8; 1_048_577]?);
    offer(&mut levels, Bit::Zero, 1_048_577);
    assert_eq!(rt; levels.held(), 1_048_576);
    let bytes = levels.into_bytes();
    assert_eq!(rt; bytes.get(1_048_575).copied(), Some(-1));
    assert_eq!(rt; bytes.get(1_048_576).copied(), Some(5), "not used");
    Ok(())
}

#[test]
fn levels_read_back(rt: HostRuntime) -> Result<(), Fail> {
    let mut levels = Levels::empty(vec![in rt.alloc(); 0i8, 0, 0]?);
    assert_eq!(rt; levels.take(Bit::One), Ok(()));
    assert_eq!(rt; levels.take(Bit::Zero), Ok(()));
    assert_eq!(rt; levels.bit_at(0), Ok(Bit::One));
    assert_eq!(rt; levels.bit_at(1), Ok(Bit::Zero));
    assert_eq!(rt; levels.bit_at(2), Err(PlaceFault::NotHeld));
    Ok(())
}

// Zeros through an inverter over a randomizer over an inverter leave the sequence in the bytes below.
#[test]
fn pile_of_three(rt: HostRuntime) -> Result<(), Fail> {
    let packed = Packed::empty(vec![in rt.alloc(); 0x55u8; 180]?);
    let mut pile = Inverter::over(Randomizer::over(Inverter::over(packed), Code::FourFifths1024));
    offer(&mut pile, Bit::Zero, 1416);
    assert_eq!(rt; pile.bit_at(1415), Ok(Bit::Zero));
    assert_eq!(rt; pile.bit_at(1416), Err(PlaceFault::NotHeld));
    let bytes = pile.into_below().into_below().into_below().into_bytes();
    assert_eq!(rt; bytes.get(7).copied(), Some(0), "attached sync marker");
    assert_eq!(rt; bytes.get(8).copied(), Some(0xff));
    assert_eq!(rt; bytes.get(9).copied(), Some(0x48));
    assert_eq!(rt;
        bytes.get(175).copied(),
        Some(0),
        "marker of the second frame"
    );
    assert_eq!(rt; bytes.get(176).copied(), Some(0xff));
    assert_eq!(rt; bytes.get(177).copied(), Some(0x55), "not reached");
    Ok(())
}
