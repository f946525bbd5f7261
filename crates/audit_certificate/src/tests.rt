//! The certificates of the worked example and of an empty stack, and each call of the files failing in turn.

ghost use Rattle.std.specs.Prelude.{◌<◌, ◌≤◌, All, IfOk, length};

use crate::write_certificate;
use certificate::CertFault;
use longest_match::Conflict;
use outside::MemFiles;
use std::alloc::{AllocError, Global};
use std::process::Abort;
use std::test::Fail;

/// Out of step: the entries S, S/T, T/K/P, P/W and W have 54 numbers of states. These are the reached ones, each with
/// its distance.
const OUT_OF_STEP: [(usize, u32); 21] = [
    (0, 0),
    (1, 1),
    (2, 1),
    (4, 1),
    (5, 2),
    (6, 2),
    (10, 2),
    (12, 2),
    (14, 1),
    (19, 2),
    (20, 3),
    (25, 3),
    (32, 3),
    (38, 4),
    (39, 1),
    (41, 4),
    (42, 2),
    (47, 2),
    (48, 5),
    (50, 1),
    (53, 1),
];

/// Their certificate.
const OUT_OF_STEP_TEXT: &str =
    "boundary-certificate 2\nentries 5\nstates 54\ng 0 0 0\ng 1 2 1\ng 4 4 1\ng 5 6 2\ng 10 10 2\ng 12 12 2\ng 14 14 1\ng 19 19 2\ng 20 20 3\ng 25 25 3\ng 32 32 3\ng 38 38 4\ng 39 39 1\ng 41 41 4\ng 42 42 2\ng 47 47 2\ng 48 48 5\ng 50 50 1\ng 53 53 1\nconflicts 1\nr 3 1 5 0 2 4\nend\n";

/// The certificate of an empty stack.
const EMPTY_TEXT: &str = "boundary-certificate 2\nentries 0\nstates 1\ng 0 0 0\nconflicts 0\nend\n";

/// A table of settled words, in which each of these states has its distance and comes from the state of its own number.
fn table(alloc: Global, count: usize, distances: &[(usize, u32)]) -> Result<Vec<u64>, AllocError> {
    let mut words = vec![in alloc; u64::MAX; count]?;
    for (state, distance) in distances {
        if let Some(word) = words.get_mut(*state) {
            *word = u64::from(*distance) * 4_294_967_296 + (*state as u64 % 4_294_967_296);
        }
    }
    Ok(words)
}

/// The row of entry 3 and place 1 with these words, of 5 strokes, or no row where there are none.
fn rows(alloc: Global, words: &[u32]) -> Result<Vec<Conflict>, AllocError>
    ensures some { IfOk result (λ rows. All (λ row. 0 < length row.words) rows.items) }
    ensures few { IfOk result (λ rows. length rows.items ≤ 1) }
{
    let mut rows = Vec::new(alloc);
    if !words.is_empty() {
        rows.push(Conflict::new(3, 1, 5, words.to_vec(alloc)?))?;
    }
    Ok(rows)
}

/// Writes the certificate of this table and this row over an old file, where the call of this number fails, and
/// compares the answer and the file.
fn check_written(
    rt: &impl Abort,
    alloc: Global,
    entries: u32,
    words: &[u64],
    row: &[u32],
    failing: u64,
    answer: Result<(), CertFault>,
    text: &str,
) -> Result<(), Fail> {
    let rows = rows(alloc, row)?;
    let mut files = MemFiles::new(alloc);
    files.add("c.txt", b"old")?;
    files.fail_at(vec![in alloc; failing]?);
    assert!(rt; words.len() <= 33_554_432);
    let written = write_certificate(alloc, entries, words, &rows, &mut files, "c.txt");
    assert_eq!(rt; written, answer, "call {failing}");
    assert_eq!(rt; files.bytes("c.txt"), Some(text.as_bytes()));
    Ok(())
}

#[test]
fn out_of_step(rt: HostRuntime) -> Result<(), Fail> {
    let alloc = rt.alloc();
    let words = table(alloc, 54, &OUT_OF_STEP)?;
    check_written(
        &rt,
        alloc,
        5,
        &words,
        &[0, 2, 4],
        100,
        Ok(()),
        OUT_OF_STEP_TEXT,
    )
}

#[test]
fn each_call_fails_in_turn(rt: HostRuntime) -> Result<(), Fail> {
    let alloc = rt.alloc();
    let words = table(alloc, 1, &[(0, 0)])?;
    let failed = Err(CertFault::Failed);
    for (call, answer, text) in [
        (0, failed, "old"),
        (1, failed, ""),
        (2, failed, "boundary-certificate 2\n"),
        (3, failed, "boundary-certificate 2\nentries 0\n"),
        (7, failed, EMPTY_TEXT),
        (8, Ok(()), EMPTY_TEXT),
    ] {
        check_written(&rt, alloc, 0, &words, &[], call, answer, text)?;
    }
    Ok(())
}
