// The line and reading at the edges.
use ar4ja::Code;
use element::Bit;
use frame::{Orientation, ReadFault, read};
use line::{Line, ReadBackFault, SendFault};
use outlet::{Levels, Outlet, Packed};
use qc::{CheckCoder, QuasiCyclic, TableCoder};
use std::alloc::{AllocError, Global};
use std::test::Fail;

// A message whose bytes count up from the first.
fn message(first: u8) -> [u8; 128] {
    let mut bytes = [first; 128];
    for (i, byte) in bytes.iter_mut().enumerate() {
        *byte = first.wrapping_add(i as u8);
    }
    bytes
}

fn run(heap: Global, code: Code) -> Result<Vec<Bit>, AllocError> {
    vec![in heap; Bit::Zero; code.whole_len()]
}

// The bytes of a frame.
fn frame_bytes(heap: Global, code: Code, first: u8) -> Result<Vec<u8>, AllocError> {
    let outlet = Packed::empty(vec![in heap; 0u8; code.frame_len() / 8]?);
    let mut line = Line::open(code, TableCoder, outlet);
    let mut work = run(heap, code)?;
    let _ = line.send(&message(first)[..], &mut work);
    Ok(line.into_outlet().into_bytes())
}

// Adds one to so many bits from the first on.
fn flip(bytes: &mut [u8], count: usize) {
    // By number: bits lie in no slice.
    for i in 0..count {
        if let Some(byte) = bytes.get_mut(i / 8) {
            *byte ^= 128u8 >> (i % 8);
        }
    }
}

#[test]
fn room_for_one_frame(rt: HostRuntime) -> Result<(), Fail> {
    for code in Code::ALL {
        let size = code.frame_len();
        for (places, sends) in [
            (size - 1, 0usize),
            (size, 1),
            (2 * size - 1, 1),
            (2 * size, 2),
        ] {
            let mut line = Line::open(
                code,
                CheckCoder,
                Levels::empty(vec![in rt.alloc(); 0i8; places]?),
            );
            let mut work = run(rt.alloc(), code)?;
            // By number: the first so many sends are done.
            for k in 0..3usize {
                let due = if k < sends {
                    Ok(())
                } else {
                    Err(SendFault::NoRoom)
                };
                assert_eq!(rt; line.send(&message(7)[..], &mut work), due);
            }
            assert!(rt; line.counts() == (sends, 3 - sends as u32));
            assert_eq!(rt; line.into_outlet().held(), sends.saturating_mul(size));
        }
    }
    Ok(())
}

// Reads the frame at a place of the bytes.
fn read_bytes(
    heap: Global,
    code: Code,
    bytes: Vec<u8>,
    place: usize,
    tolerance: u32,
    into: &mut [u8],
) -> Result<Result<(Orientation, u32), ReadFault>, AllocError> {
    let mut work = run(heap, code)?;
    Ok(read(
        &Packed::full(bytes),
        place,
        code,
        tolerance,
        into,
        &mut work,
    ))
}

#[test]
fn marker_errors(rt: HostRuntime) -> Result<(), Fail> {
    for code in Code::ALL {
        for (errors, tolerance) in [(0, 0), (15, 15), (16, 15), (15, 14)] {
            let mut bytes = frame_bytes(rt.alloc(), code, 9)?;
            flip(&mut bytes, errors as usize);
            let mut read = [0u8; 128];
            let answer = read_bytes(rt.alloc(), code, bytes, 0, tolerance, &mut read[..])?;
            if errors <= tolerance {
                assert_eq!(rt; answer, Ok((Orientation::Upright, errors)));
                assert!(rt; read[..] == message(9)[..]);
            } else {
                assert_eq!(rt; answer, Err(ReadFault::NoMarker));
                assert!(rt; read[..] == [0u8; 128][..]);
            }
        }
    }
    Ok(())
}

#[test]
fn complemented_with_marker_errors(rt: HostRuntime) -> Result<(), Fail> {
    for code in Code::ALL {
        let mut bytes = frame_bytes(rt.alloc(), code, 200)?;
        flip(&mut bytes, code.frame_len());
        flip(&mut bytes, 15);
        let mut read = [0u8; 128];
        let answer = read_bytes(rt.alloc(), code, bytes, 0, 15, &mut read[..])?;
        assert_eq!(rt; answer, Ok((Orientation::Complemented, 15)));
        assert!(rt; read[..] == message(200)[..]);
    }
    Ok(())
}

#[test]
fn damaged_block(rt: HostRuntime) -> Result<(), Fail> {
    for code in Code::ALL {
        for place in [64, code.frame_len() - 1] {
            let mut bytes = frame_bytes(rt.alloc(), code, 1)?;
            flip(&mut bytes, place);
            flip(&mut bytes, place + 1);
            let mut read = [5u8; 128];
            let answer = read_bytes(rt.alloc(), code, bytes, 0, 15, &mut read[..])?;
            let Err(ReadFault::Fails(row)) = answer else {
                return Err(Fail::new("a damaged block was read"));
            };
            assert!(rt; row < 3 * code.group_len());
            assert!(rt; read[..] == [5u8; 128][..]);
        }
    }
    Ok(())
}

#[test]
fn places_too_far(rt: HostRuntime) -> Result<(), Fail> {
    for code in Code::ALL {
        for place in [
            1,
            code.frame_len(),
            usize::MAX - code.frame_len(),
            usize::MAX - 63,
            usize::MAX,
        ] {
            let bytes = frame_bytes(rt.alloc(), code, 1)?;
            let mut read = [0u8; 128];
            let answer = read_bytes(rt.alloc(), code, bytes, place, 0, &mut read[..])?;
            assert_eq!(rt; answer, Err(ReadFault::NotHeld));
        }
    }
    Ok(())
}

#[test]
fn order_of_refusals(rt: HostRuntime) -> Result<(), Fail> {
    let code = Code::Half1024;
    let outlet = Packed::empty(vec![in rt.alloc(); 0u8; code.frame_len() / 8]?);
    let mut line = Line::open(code, TableCoder, outlet);
    let mut work = run(rt.alloc(), code)?;
    let mut short = vec![in rt.alloc(); Bit::Zero; code.whole_len() - 1]?;
    let mut wrong = [0u8; 127];
    let mut right = [0u8; 128];
    assert_eq!(rt;
        line.read_back(0, &mut wrong[..], &mut short),
        Err(ReadBackFault::NoSuchFrame)
    );
    assert_eq!(rt;
        line.send(&wrong[..], &mut short),
        Err(SendFault::MessageLength)
    );
    assert_eq!(rt;
        line.send(&right[..], &mut short),
        Err(SendFault::RunTooShort)
    );
    assert_eq!(rt; line.send(&message(3)[..], &mut work), Ok(()));
    assert_eq!(rt;
        line.send(&right[..], &mut short),
        Err(SendFault::RunTooShort)
    );
    assert_eq!(rt; line.send(&right[..], &mut work), Err(SendFault::NoRoom));
    assert_eq!(rt;
        line.read_back(1, &mut wrong[..], &mut short),
        Err(ReadBackFault::NoSuchFrame)
    );
    assert_eq!(rt;
        line.read_back(0, &mut wrong[..], &mut short),
        Err(ReadBackFault::MessageLength)
    );
    assert_eq!(rt;
        line.read_back(0, &mut right[..], &mut short),
        Err(ReadBackFault::RunTooShort)
    );
    assert!(rt; right[..] == [0u8; 128][..]);
    assert_eq!(rt; line.read_back(0, &mut right[..], &mut work), Ok(()));
    assert!(rt; right[..] == message(3)[..]);
    assert!(rt; line.counts() == (1, 4));
    Ok(())
}
