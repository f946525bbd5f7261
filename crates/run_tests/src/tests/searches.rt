//! Pairs that stay, two readings of the same strokes, and briefs that are tried.

use crate::tests::rows::{check_row, check_rows};
use std::alloc::{AllocError, Global};
use std::marker::Sync;
use std::process::Abort;
use std::sync::Wait;
use std::thread::Threads;

/// Runs a row of a search with 1 and 8 workers.
pub(crate) fn check_search(
    rt: &(impl Abort + Threads + Wait + Sync),
    alloc: Global,
    name: &str,
    row: &str,
) -> Result<(), AllocError> {
    for workers in ["1", "8"] {
        let row = format!(in alloc; "{name} {workers} {row}")?;
        check_row(rt, alloc, &row)?;
    }
    Ok(())
}

/// Each row is run with 1 and 8 workers, so it has no command and no number of workers before its dictionaries.
const PARSES: &str =
    r#"d|d={"S": "is", "S/T": "ist", "T/K/P": "tkp", "W": "we", "P/W": "pw"}|0|entries 5;states 7;rounds 3;free yes
d|d={"S": "s", "T": "t", "K": "k", "S/T/K": "stick"}|1|entries 4;states 6;rounds 4;free no strokes 3;first S | T | K;second S/T/K
d|d={}|0|entries 0;states 1;rounds 1;free yes"#;

#[test]
fn two_readings(rt: HostRuntime) -> Result<(), AllocError> {
    for row in PARSES.lines() {
        check_search(&rt, rt.alloc(), "parse", row)?;
    }
    Ok(())
}

/// Each row is run with 1 and 8 workers, so it has no command and no number of workers before its dictionaries.
const SETTLED: &str =
    r#"d|d={"S": "is", "S/T": "ist", "T/K/P": "tkp", "W": "we", "P/W": "pw"}|1|entries 5;skipped 0;folded 0;strokes 5;states 21;rounds 6;settled 2;settled S/T place 1 strokes 4;words S | T/K/P;shows "ist" | K | P;settled P/W place 1 strokes 5;words S | T/K/P | W;shows "ist" | K | "pw"
d|d={"S/T": "a", "K/P": "b"}|0|entries 2;skipped 0;folded 0;strokes 4;states 7;rounds 3;settled 0"#;

#[test]
fn settled_pairs(rt: HostRuntime) -> Result<(), AllocError> {
    for row in SETTLED.lines() {
        check_search(&rt, rt.alloc(), "settled", row)?;
    }
    Ok(())
}

const TRIALS: &str =
    r#"try 1 KAT/TEL,TEL/KAT,S w|w={"KAT": "cat", "TEL": "tell"}|1|try KAT/TEL conflicts 1;place 1 strokes 2 words KAT | TEL;try TEL/KAT conflicts 1;place 1 strokes 2 words TEL | KAT;try S conflicts 0
try 2 KAT/TEL,TEL/KAT,S w|w={"KAT": "cat", "TEL": "tell"}|1|try KAT/TEL conflicts 1;place 1 strokes 2 words KAT | TEL;try TEL/KAT conflicts 1;place 1 strokes 2 words TEL | KAT;try S conflicts 0
try 4 KAT/TEL,TEL/KAT,S w|w={"KAT": "cat", "TEL": "tell"}|1|try KAT/TEL conflicts 1;place 1 strokes 2 words KAT | TEL;try TEL/KAT conflicts 1;place 1 strokes 2 words TEL | KAT;try S conflicts 0
try 4 S w|w={"KAT": "cat", "TEL": "tell"}|0|try S conflicts 0
try 1 KAT/TEL w match:m|w={"KAT": "cat", "TEL": "tell"};m={"KAT/TEL": "cattle"}|1|try KAT/TEL conflicts 1;place 1 strokes 2 words KAT | TEL
try 1 S/S,S/S d|d={"S": "a"}|1|try S/S conflicts 1;place 1 strokes 2 words S | S;try S/S conflicts 1;place 1 strokes 2 words S | S
try 1 P/W d|d={"S": "is", "S/T": "ist", "T/K/P": "tkp", "W": "we"}|1|try P/W conflicts 1;place 1 strokes 5 words S | T/K/P | W
try 5 S w|w={"KAT": "cat", "TEL": "tell"}|2|refused words
try 0 S w|w={"KAT": "cat", "TEL": "tell"}|2|refused words
try 1 S, w|w={"KAT": "cat", "TEL": "tell"}|2|refused words
try 1 UE w|w={"KAT": "cat", "TEL": "tell"}|2|refused words
try 1 S|w={"KAT": "cat", "TEL": "tell"}|2|refused words
try 1 S e|w={"KAT": "cat", "TEL": "tell"}|3|failed file 1"#;

#[test]
fn briefs_tried(rt: HostRuntime) -> Result<(), AllocError> {
    check_rows(&rt, rt.alloc(), TRIALS)
}
