//! Worked examples.

use crate::boundaries::{Cover, covers};
use std::alloc::{AllocError, Global};
use stroke::Piece;

/// What becomes of the boundaries of S, T/K/P and W, where S/T is entry 2 and P/W entry 4; of those of S/T, K and P/W;
/// and of none.
#[test]
fn boundaries_of_typed_parts(rt: HostRuntime) -> Result<(), AllocError> {
    let pieces = [
        Piece {
            len: 2,
            entry: Some(2),
        },
        Piece {
            len: 1,
            entry: None,
        },
        Piece {
            len: 2,
            entry: Some(4),
        },
    ];
    let crossed = [
        Cover::Crossed { entry: 2, place: 1 },
        Cover::Crossed { entry: 4, place: 1 },
    ];
    let found = covers(rt.alloc(), &[1, 3, 1], &pieces)?;
    assert!(rt; found.as_slice() == crossed.as_slice());
    let found = covers(rt.alloc(), &[2, 1, 2], &pieces)?;
    assert!(rt; found.as_slice() == [Cover::Kept, Cover::Kept].as_slice());
    let found = covers(rt.alloc(), &[], &[])?;
    assert!(rt; found.is_empty());
    Ok(())
}
