//! A certificate of version 1 becomes one of version 2, what is refused for its form, and each call of the files that
//! fails.

use crate::{Upgraded, upgrade};
use cert_check::CheckFault;
use outside::MemFiles;
use std::alloc::Global;
use std::process::Abort;
use std::test::Fail;

/// The certificate of the entries S, S/T, T/K/P, P/W and W in version 1.
const VERSION_1: &str =
    "boundary-certificate 1\nentries 5\nstates 54\nd 0 0\nd 1 1\nd 2 1\nd 4 1\nd 5 2\nd 6 2\nd 10 2\nd 12 2\nd 14 1\nd 19 2\nd 20 3\nd 25 3\nd 32 3\nd 38 4\nd 39 1\nd 41 4\nd 42 2\nd 47 2\nd 48 5\nd 50 1\nd 53 1\nconflicts 1\nr 3 1 5 0 2 4\nend\n";

/// And in version 2.
const VERSION_2: &str =
    "boundary-certificate 2\nentries 5\nstates 54\ng 0 0 0\ng 1 2 1\ng 4 4 1\ng 5 6 2\ng 10 10 2\ng 12 12 2\ng 14 14 1\ng 19 19 2\ng 20 20 3\ng 25 25 3\ng 32 32 3\ng 38 38 4\ng 39 39 1\ng 41 41 4\ng 42 42 2\ng 47 47 2\ng 48 48 5\ng 50 50 1\ng 53 53 1\nconflicts 1\nr 3 1 5 0 2 4\nend\n";

/// A change a line: the version, a part of its certificate, what stands in that place, and what is answered, with `|`
/// between them. `;` is a line feed. Where it is upgraded, it becomes the certificate of version 2.
const CHANGES: &str = "\
1|certificate 1|certificate 3|1 Form
1|entries 5|states 5|2 Form
1|states 54|states 33554433|3 States
1|states 54|states 53|24 Number
1|d 1 1;|d 1 01;|5 Form
1|d 1 1;|g 1 1 1;|5 Form
1|d 1 1;|d 1 1;d 1 1;|6 Number
1|r 3 1 5 0 2 4;||26 Form
1|conflicts 1|conflicts 0|26 Form
1|conflicts 1|conflicts 2|27 Form
1|end;||27 Form
1|end;|end|27 Form
1|end;|end;end;|28 Rest
1|end;|end;x|28 Rest
2|g 5 6 2|g 6 5 2|7 Form
2|g 5 6 2|d 5 2|7 Form
2|g 5 6 2|g 4 6 2|7 Number
2|g 5 6 2|g 5 6 2|upgraded
2|g 5 6 2;|g 5 5 2;g 6 6 2;|upgraded
2|g 1 2 1;|g 1 1 1;g 2 2 1;|upgraded";

/// The text with a line feed in place of each `;`.
fn unfolded(rt: &impl Abort, alloc: Global, text: &str) -> String {
    let mut unfolded = String::new(alloc);
    for (i, line) in text.split(';').enumerate() {
        if i > 0 {
            unfolded.push('\n').expect(rt, "memory");
        }
        unfolded.push_str(line).expect(rt, "memory");
    }
    unfolded
}

/// The parts of a row before its first bar and behind it.
fn cut<'a>(rt: &impl Abort, row: &'a str) -> (&'a str, &'a str) {
    row.split_once('|').expect(rt, "a bar")
}

/// The text with the first of these parts replaced by the second.
fn changed(rt: &impl Abort, alloc: Global, text: &str, old: &str, new: &str) -> String {
    let (before, after) = text.split_once(old).expect(rt, "the part");
    format!(in alloc; "{before}{new}{after}").expect(rt, "memory")
}

/// What is answered to a certificate, and the new one, if there is one.
fn answer(rt: &impl Abort, alloc: Global, certificate: &str) -> (String, String) {
    let mut files = MemFiles::new(alloc);
    files.add("c", certificate.as_bytes()).expect(rt, "memory");
    let told = match upgrade(alloc, &mut files, "c", "n") {
        Ok(Upgraded { .. }) => format!(in alloc; "upgraded"),
        Err(CheckFault::Rejected { line, why }) => format!(in alloc; "{line} {why:?}"),
        Err(other) => format!(in alloc; "{other:?}"),
    };
    let mut new = String::new(alloc);
    if let Some(bytes) = files.bytes("n") {
        for byte in bytes {
            new.push(char::from(*byte)).expect(rt, "memory");
        }
    }
    (told.expect(rt, "memory"), new)
}

/// Upgrades the certificate of a row's version with the row's change. What is refused leaves no new file.
fn check_row(rt: &impl Abort, alloc: Global, row: &str) {
    let (version, row) = cut(rt, row);
    let (old, row) = cut(rt, row);
    let (new, want) = cut(rt, row);
    let text = if version == "1" { VERSION_1 } else { VERSION_2 };
    let old = unfolded(rt, alloc, old);
    let new = unfolded(rt, alloc, new);
    let (told, written) = answer(rt, alloc, &changed(rt, alloc, text, &old, &new));
    let left = if want == "upgraded" { VERSION_2 } else { "" };
    assert!(rt; told.as_str() == want, "{old} and {new}: {told}");
    assert!(rt; written.as_str() == left, "{old} and {new}: {written}");
}

#[test]
fn each_change_is_answered(rt: HostRuntime) {
    for row in CHANGES.lines() {
        check_row(&rt, rt.alloc(), row);
    }
}

#[test]
fn version_1_becomes_version_2(rt: HostRuntime) {
    let (told, written) = answer(&rt, rt.alloc(), VERSION_1);
    assert!(rt; told.as_str() == "upgraded");
    assert!(rt; written.as_str() == VERSION_2);
    assert!(rt; VERSION_1.lines().count() == 27 && VERSION_2.lines().count() == 25);
}

#[test]
fn a_file_is_upgraded_in_place(rt: HostRuntime) -> Result<(), Fail> {
    let mut files = MemFiles::new(rt.alloc());
    files.add("c", VERSION_1.as_bytes())?;
    for _turn in 0..2 {
        let found = upgrade(rt.alloc(), &mut files, "c", "c");
        assert_eq!(rt; found, Ok(Upgraded { conflicts: 1 }));
        assert_eq!(rt; files.bytes("c"), Some(VERSION_2.as_bytes()));
    }
    Ok(())
}

/// A certificate without conflicts.
const SMALL: &str = "boundary-certificate 1\nentries 0\nstates 1\nd 0 0\nconflicts 0\nend\n";

/// A run in which the call of this number fails: 0 opens the source, 1 takes it whole, 2 finds its end, 3 begins the
/// target, 4 to 9 put its lines, 10 ends it.
fn check_fault(
    rt: &impl Abort,
    alloc: Global,
    call: u64,
    answer: Result<Upgraded, CheckFault>,
    lines: usize,
) -> Result<(), Fail> {
    let mut files = MemFiles::new(alloc);
    files.add("c", SMALL.as_bytes())?;
    files.fail_at(vec![in alloc; call]?);
    let found = upgrade(alloc, &mut files, "c", "n");
    assert_eq!(rt; found, answer, "call {call}");
    let written = match files.bytes("n") {
        None => 0,
        Some(bytes) => 1 + bytes.iter().filter(|byte| **byte == b'\n').count(),
    };
    assert!(rt; written == lines, "call {call}: {written}");
    Ok(())
}

#[test]
fn each_call_fails_in_turn(rt: HostRuntime) -> Result<(), Fail> {
    let failed = Err(CheckFault::Failed);
    for (call, lines) in [
        (0, 0),
        (1, 0),
        (2, 0),
        (3, 0),
        (4, 1),
        (5, 2),
        (6, 3),
        (7, 4),
        (8, 5),
        (9, 6),
        (10, 7),
    ] {
        check_fault(&rt, rt.alloc(), call, failed, lines)?;
    }
    check_fault(&rt, rt.alloc(), 11, Ok(Upgraded { conflicts: 0 }), 7)
}
