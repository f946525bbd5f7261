//! Certificates written, checked and upgraded.

use crate::tests::audits::USUAL;
use crate::tests::rows::{check_row, check_rows, cut, lines_of, run_row};
use std::alloc::{AllocError, Global};
use std::marker::Sync;
use std::process::Abort;
use std::sync::Wait;
use std::thread::Threads;

/// Out of step: the entries S, S/T, T/K/P, P/W and W.
pub(crate) const OUT_OF_STEP: &str =
    r#"d={"S": "is", "S/T": "ist", "T/K/P": "tkp", "W": "we", "P/W": "pw"}"#;

/// Their certificate in version 1.
pub(crate) const VERSION_1: &str =
    "boundary-certificate 1\nentries 5\nstates 54\nd 0 0\nd 1 1\nd 2 1\nd 4 1\nd 5 2\nd 6 2\nd 10 2\nd 12 2\nd 14 1\nd 19 2\nd 20 3\nd 25 3\nd 32 3\nd 38 4\nd 39 1\nd 41 4\nd 42 2\nd 47 2\nd 48 5\nd 50 1\nd 53 1\nconflicts 1\nr 3 1 5 0 2 4\nend\n";

/// And in version 2.
pub(crate) const VERSION_2: &str =
    "boundary-certificate 2\nentries 5\nstates 54\ng 0 0 0\ng 1 2 1\ng 4 4 1\ng 5 6 2\ng 10 10 2\ng 12 12 2\ng 14 14 1\ng 19 19 2\ng 20 20 3\ng 25 25 3\ng 32 32 3\ng 38 38 4\ng 39 39 1\ng 41 41 4\ng 42 42 2\ng 47 47 2\ng 48 48 5\ng 50 50 1\ng 53 53 1\nconflicts 1\nr 3 1 5 0 2 4\nend\n";

/// Runs a row, after which the file `c` has these lines, with `;` between two.
fn check_written(
    rt: &(impl Abort + Threads + Wait + Sync),
    alloc: Global,
    row: &str,
    lines: &str,
) -> Result<(), AllocError> {
    let files = run_row(rt, alloc, row)?;
    let want = lines_of(alloc, lines)?;
    assert_eq!(rt; files.bytes("c"), Some(want.as_bytes()), "{row}");
    Ok(())
}

/// The lines of the certificate, a bar, and the row.
const CERTIFIED: &str =
    r#"boundary-certificate 2;entries 5;states 54;g 0 0 0;g 1 2 1;g 4 4 1;g 5 6 2;g 10 10 2;g 12 12 2;g 14 14 1;g 19 19 2;g 20 20 3;g 25 25 3;g 32 32 3;g 38 38 4;g 39 39 1;g 41 41 4;g 42 42 2;g 47 47 2;g 48 48 5;g 50 50 1;g 53 53 1;conflicts 1;r 3 1 5 0 2 4;end|audit-to c 2 d|d={"S": "is", "S/T": "ist", "T/K/P": "tkp", "W": "we", "P/W": "pw"}|1|entries 5;skipped 0;folded 0;strokes 5;states 21;rounds 6;conflicts 1;conflict P/W place 1 strokes 5;words S | T/K/P | W;shows "ist" | K | "pw"
boundary-certificate 2;entries 3;states 17;g 0 0 0;g 1 1 1;g 4 5 1;g 8 8 1;g 9 9 2;g 14 15 2;conflicts 1;r 2 1 2 1 0;end|audit-to c 1 w.json match:m.json|w.json={"KAT": "cat", "TEL": "tell"};m.json={"KAT/TEL": "cattle"}|1|entries 3;skipped 0;folded 0;strokes 2;states 8;rounds 3;conflicts 1;conflict KAT/TEL place 1 strokes 2;words KAT | TEL;shows "cattle"
boundary-certificate 2;entries 0;states 1;g 0 0 0;conflicts 0;end|audit-to c 1 d|d={}|0|entries 0;skipped 0;folded 0;strokes 0;states 1;rounds 1;conflicts 0"#;

#[test]
fn audits_with_a_certificate(rt: HostRuntime) -> Result<(), AllocError> {
    for row in CERTIFIED.lines() {
        let (certificate, row) = cut(&rt, row);
        check_written(&rt, rt.alloc(), row, certificate)?;
    }
    Ok(())
}

/// A change a line: a part of the certificate in version 1, what stands in that place, and how the check ends, with `|`
/// between them. `;` is a line feed.
const FORGED: &str = r#"certificate 1|certificate 1|0|accepted conflicts 1
certificate 1|certificate 3|8|rejected line 1 form
entries 5|entries 4|8|rejected line 2 entries
d 0 0|d 0 1|8|rejected line 25 start
d 1 1;|d 1 1;d 1 1;|8|rejected line 6 number
d 6 2|d 6 3|8|rejected line 5 move
d 48 5;||8|rejected line 19 move
d 48 5|d 48 4|8|rejected line 26 row
1;r 3 1 5 0 2 4;|0;|8|rejected line 25 count
r 3 1 5 0 2 4;||8|rejected line 26 form
end;||8|rejected line 27 form
end;|end;x;|8|rejected line 28 rest"#;

/// The same of version 2.
const FORGED_2: &str = r#"certificate 2|certificate 2|0|accepted conflicts 1
g 5 6 2|g 5 6 3|8|rejected line 5 move
g 5 6 2|g 6 5 2|8|rejected line 7 form"#;

/// Checks a row's change of this certificate.
fn check_change(
    rt: &(impl Abort + Threads + Wait + Sync),
    alloc: Global,
    certificate: &str,
    row: &str,
) -> Result<(), AllocError> {
    let (old, rest) = cut(rt, row);
    let (new, ends) = cut(rt, rest);
    let old = old.replace(alloc, ';', "\n")?;
    let new = new.replace(alloc, ';', "\n")?;
    let (before, after) = certificate
        .split_once(old.as_str())
        .expect(rt, "the part that is changed");
    let row = format!(in alloc; "check c d|{OUT_OF_STEP};c={before}{new}{after}|{ends}")?;
    check_row(rt, alloc, &row)
}

#[test]
fn forged_certificates(rt: HostRuntime) -> Result<(), AllocError> {
    for row in FORGED.lines() {
        check_change(&rt, rt.alloc(), VERSION_1, row)?;
    }
    for row in FORGED_2.lines() {
        check_change(&rt, rt.alloc(), VERSION_2, row)?;
    }
    Ok(())
}

/// A file of words, and one that only matches.
const FEWER_WORDS: &str = r#"w={"KAT": "cat", "TEL": "tell"};m={"KAT/TEL": "cattle"}"#;

/// The certificate of the usual case, where all entries are words.
const USUAL_VERSION_1: &str =
    "boundary-certificate 1\nentries 3\nstates 17\nd 0 0\nd 1 1\nd 4 1\nd 5 1\nd 6 1\nd 8 1\nd 9 2\nd 14 2\nd 15 2\nconflicts 1\nr 2 1 2 1 0\nend\n";

/// In the state of number 6 the word KAT/TEL is begun, which isn't one of the words of the second line.
#[test]
fn a_certificate_of_more_words(rt: HostRuntime) -> Result<(), AllocError> {
    let alloc = rt.alloc();
    let accepted = "0|accepted conflicts 1";
    let row = format!(in alloc; "check c d|{USUAL};c={USUAL_VERSION_1}|{accepted}")?;
    check_row(&rt, alloc, &row)?;
    let refused = "8|rejected line 8 number";
    let row = format!(in alloc; "check c w match:m|{FEWER_WORDS};c={USUAL_VERSION_1}|{refused}")?;
    check_row(&rt, alloc, &row)
}

const CHECKS: &str = r#"check c d|d={}|3|failed certificate
check c d|c=|3|failed file 1
check c d|d={};c=|8|rejected line 1 form
check c|d={};c=|2|refused words
check c match:|d={};c=|2|refused words"#;

#[test]
fn checks_refused(rt: HostRuntime) -> Result<(), AllocError> {
    check_rows(&rt, rt.alloc(), CHECKS)
}

/// Upgrades a certificate, after which the file `n` has these bytes.
fn check_upgraded(
    rt: &(impl Abort + Threads + Wait + Sync),
    alloc: Global,
    line: &str,
    certificate: &str,
    ends: &str,
    want: Option<&[u8]>,
) -> Result<(), AllocError> {
    let (_, name) = line.split_once(' ').expect(rt, "a name");
    let (name, _) = name.split_once(' ').expect(rt, "two names");
    let row = format!(in alloc; "{line}|{name}={certificate}|{ends}")?;
    let files = run_row(rt, alloc, &row)?;
    assert_eq!(rt; files.bytes("n"), want, "{line}");
    Ok(())
}

#[test]
fn certificates_written_anew(rt: HostRuntime) -> Result<(), AllocError> {
    let done = "0|upgraded conflicts 1";
    let version_2 = Some(VERSION_2.as_bytes());
    check_upgraded(&rt, rt.alloc(), "upgrade c n", VERSION_1, done, version_2)?;
    check_upgraded(&rt, rt.alloc(), "upgrade n n", VERSION_1, done, version_2)?;
    check_upgraded(&rt, rt.alloc(), "upgrade n n", VERSION_2, done, version_2)
}

const UPGRADES: &str = r#"upgrade c n||3|failed certificate
upgrade c n|c=|8|rejected line 1 form
upgrade c|c=|2|refused words"#;

#[test]
fn upgrades_refused(rt: HostRuntime) -> Result<(), AllocError> {
    let (without_end, _) = VERSION_1.split_once("end\n").expect(&rt, "the end");
    let ends = "8|rejected line 27 form";
    check_upgraded(&rt, rt.alloc(), "upgrade c n", without_end, ends, None)?;
    check_rows(&rt, rt.alloc(), UPGRADES)
}
