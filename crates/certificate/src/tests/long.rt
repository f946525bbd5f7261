//! Lines that are longer than what is held of a file.

use crate::CertFault;
use crate::tests::copying::check_copy;
use std::alloc::{AllocError, Global};
use std::test::Fail;

/// A text with a part that is repeated.
fn repeated(
    alloc: Global,
    head: &str,
    part: &str,
    count: u32,
    tail: &str,
) -> Result<Vec<u8>, AllocError> {
    let mut text = head.as_bytes().to_vec(alloc)?;
    for _ in 0..count {
        text.extend_from_slice(part.as_bytes())?;
    }
    text.extend_from_slice(tail.as_bytes())?;
    Ok(text)
}

#[test]
fn long_lines(rt: HostRuntime) -> Result<(), Fail> {
    let bad = Err(CertFault::Bad { line: 1 });
    let long = Err(CertFault::TooLong);
    for (head, part, count, tail, limit, answer) in [
        ("r 1 1 40000", " 7", 40_000, "\nend\n", 99_999, Ok(2)),
        ("r 1 1 5", " 4294967295", 20_000, "\nend\n", 220_012, Ok(2)),
        ("r 1 1 5", " 4294967295", 20_000, "\nend\n", 220_011, long),
        ("r 1 1 5", " 4294967295", 20_000, "\nend\n", 220_007, long),
        ("r 1 1 5", " 4294967295", 20_000, "\n", 70_000, long),
        ("r 1 1 5", " 4294967295", 20_000, "", 220_007, bad),
        ("r 1 1 5", " 4294967295", 20_000, "", 220_006, long),
        ("r 1 1 5", " 4294967296", 20_000, "\n", 299_999, bad),
        ("r 1 1 5", " 4294967295", 20_000, " x\n", 299_999, bad),
        ("r 1 300 5", " 4294967295", 20_000, "\n", 299_999, bad),
        ("r 1 1 5 ", "1", 200_000, "\n", 299_999, bad),
        ("r 1 1 5 ", "1", 200_000, "\n", 200_008, long),
        ("r 1 1 5 ", "1", 200_000, "", 200_008, bad),
        ("", "x", 200_000, "\n", 200_001, bad),
        ("", "x", 200_000, "\n", 200_000, long),
        ("", "x", 200_000, "", 200_000, bad),
        ("", "x", 65_536, "\n", 65_537, bad),
        ("", "x", 65_536, "\n", 65_535, long),
    ] {
        let text = repeated(rt.alloc(), head, part, count, tail)?;
        check_copy(&rt, rt.alloc(), &text, limit, answer)?;
    }
    Ok(())
}
