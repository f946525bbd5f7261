//! The certificate of a small stack in both versions, and texts that are no lines.

use crate::CertFault;
use crate::tests::copying::check_copy;
use std::test::Fail;

/// The entries S, S/T, T/K/P, W and P/W, of which the last swallows a boundary, with their listed states one by one.
const VERSION_1: &str =
    "boundary-certificate 1\nentries 5\nstates 54\nd 0 0\nd 1 1\nd 2 1\nd 4 1\nd 5 2\nd 6 2\nd 10 2\nd 12 2\nd 14 1\nd 19 2\nd 20 3\nd 25 3\nd 32 3\nd 38 4\nd 39 1\nd 41 4\nd 42 2\nd 47 2\nd 48 5\nd 50 1\nd 53 1\nconflicts 1\nr 3 1 5 0 2 4\nend\n";

/// The same in runs of states.
const VERSION_2: &str =
    "boundary-certificate 2\nentries 5\nstates 54\ng 0 0 0\ng 1 2 1\ng 4 4 1\ng 5 6 2\ng 10 10 2\ng 12 12 2\ng 14 14 1\ng 19 19 2\ng 20 20 3\ng 25 25 3\ng 32 32 3\ng 38 38 4\ng 39 39 1\ng 41 41 4\ng 42 42 2\ng 47 47 2\ng 48 48 5\ng 50 50 1\ng 53 53 1\nconflicts 1\nr 3 1 5 0 2 4\nend\n";

#[test]
fn certificates_are_read_and_written_back(rt: HostRuntime) -> Result<(), Fail> {
    for (text, lines) in [(VERSION_1, 27), (VERSION_2, 25), ("", 0)] {
        check_copy(
            &rt,
            rt.alloc(),
            text.as_bytes(),
            text.len() as u32,
            Ok(lines),
        )?;
    }
    Ok(())
}

#[test]
fn limits(rt: HostRuntime) -> Result<(), Fail> {
    for (text, limit, answer) in [
        ("end\n", 4, Ok(1)),
        ("end\n", 3, Err(CertFault::TooLong)),
        ("end\n", 0, Err(CertFault::TooLong)),
        ("", 0, Ok(0)),
        ("end", 3, Err(CertFault::Bad { line: 1 })),
        ("end", 2, Err(CertFault::TooLong)),
        ("end\nend\n", 8, Ok(2)),
        ("end\nend\n", 7, Err(CertFault::TooLong)),
        ("end\nend", 7, Err(CertFault::Bad { line: 2 })),
        ("end\nend", 6, Err(CertFault::TooLong)),
        ("other\nend\n", 6, Err(CertFault::Bad { line: 1 })),
        ("other\nend\n", 5, Err(CertFault::TooLong)),
    ] {
        check_copy(&rt, rt.alloc(), text.as_bytes(), limit, answer)?;
    }
    Ok(())
}

#[test]
fn texts_of_lines(rt: HostRuntime) -> Result<(), Fail> {
    for text in [
        "states 4294967295\n",
        "r 3 255 5 0\n",
        "r 0 0 0 4294967295 0\n",
        "boundary-certificate 3\n",
    ] {
        check_copy(&rt, rt.alloc(), text.as_bytes(), 99, Ok(1))?;
    }
    Ok(())
}

#[test]
fn texts_of_no_line(rt: HostRuntime) -> Result<(), Fail> {
    for text in [
        "end",
        "\n",
        "end \n",
        " end\n",
        "END\n",
        "end 1\n",
        "states\n",
        "states 4294967296\n",
        "states +1\n",
        "d 1\n",
        "d 1 01\n",
        "d 1  1\n",
        "d 1 1 1\n",
        "g 1 1\n",
        "g 1 1 1 1\n",
        "r 3 1 5\n",
        "r 3 256 5 0\n",
        "r 3 1 5 0 x\n",
        "r 3 1 5 0\r\n",
        "d 1 1\0\n",
    ] {
        let answer = Err(CertFault::Bad { line: 1 });
        check_copy(&rt, rt.alloc(), text.as_bytes(), 99, answer)?;
    }
    Ok(())
}
