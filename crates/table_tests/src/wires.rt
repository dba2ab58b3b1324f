//! Frames as they come in pieces.
use desk_wire::{Next, Wire, frame};
use std::test::Fail;

// `force` and a newline under tag 7, twice.
const TWO: [u8; 28] = *b"\0\0\0\x06\0\0\0\x07force\n\0\0\0\x06\0\0\0\x07force\n";

// Whether the frame comes next.
fn is_force(wire: &Wire) -> bool {
    match wire.next() {
        Next::Frame { tag, body } => tag == 7 && body == b"force\n".as_slice(),
        Next::NotYet | Next::Bad(_) => false,
    }
}

#[test]
fn frames_come_in_pieces(rt: HostRuntime) -> Result<(), Fail> {
    let mut input = Vec::new(rt.alloc());
    frame(7, b"force\n".as_slice(), &mut input)?;
    assert!(rt; TWO.starts_with(input.as_slice()));
    let mut wire = Wire::new(rt.alloc());
    wire.feed(&TWO[..13])?;
    assert!(rt; matches!(wire.next(), Next::NotYet));
    wire.feed(&TWO[13..])?;
    for _ in 0..2 {
        assert!(rt; is_force(&wire));
        wire.pass();
    }
    assert!(rt; matches!(wire.next(), Next::NotYet));
    Ok(())
}

#[test]
fn a_frame_of_no_length_is_told(rt: HostRuntime) -> Result<(), Fail> {
    let mut wire = Wire::new(rt.alloc());
    wire.feed(b"\0\0\0\x06\0\0\0\x07force\n\0\0\0\0".as_slice())?;
    wire.pass();
    assert!(rt; matches!(wire.next(), Next::Bad(14)));
    Ok(())
}
