//! Audits, and the same report as JSON.

use crate::tests::rows::{check_row, check_rows, files_of, run_line};
use audit_top::Status;
use outside::{MemFiles, MemSink};
use std::alloc::{AllocError, Global};
use std::marker::Sync;
use std::process::Abort;
use std::sync::Wait;
use std::thread::Threads;

/// Each row is run with 1, 2, 8 and 32 workers, so it has no command and no number of workers before its dictionaries.
const AUDITS: &str =
    r#"d|d={}|0|entries 0;skipped 0;folded 0;strokes 0;states 1;rounds 1;conflicts 0
d|d={"UE": "x", "-": "y", "": "z", "S//T": "q", "KAT": "cat"}|0|entries 1;skipped 4;folded 0;strokes 1;states 3;rounds 2;conflicts 0;skipped-key 1 "";skipped-key 1 "-";skipped-key 1 "S//T";skipped-key 1 "UE"
d|d={"KAT": "cat", "TEL": "tell", "KAT/TEL": "cattle"}|1|entries 3;skipped 0;folded 0;strokes 2;states 9;rounds 3;conflicts 1;conflict KAT/TEL place 1 strokes 2;words KAT | TEL;shows "cattle"
d|d={"S/T": "a", "K/P": "b"}|0|entries 2;skipped 0;folded 0;strokes 4;states 7;rounds 3;conflicts 0
d|d={"S": "is", "S/T": "ist", "T/K/P": "tkp", "W": "we", "P/W": "pw"}|1|entries 5;skipped 0;folded 0;strokes 5;states 21;rounds 6;conflicts 1;conflict P/W place 1 strokes 5;words S | T/K/P | W;shows "ist" | K | "pw"
d|d={"S": "s", "T": "t", "K": "k", "S/T/K": "stick"}|1|entries 4;skipped 0;folded 0;strokes 3;states 16;rounds 4;conflicts 2;conflict S/T/K place 1 strokes 3;words S | T | K;shows "stick";conflict S/T/K place 2 strokes 3;words S | T | K;shows "stick"
d|d={"S": "a", "S/S": "b"}|1|entries 2;skipped 0;folded 0;strokes 1;states 9;rounds 3;conflicts 1;conflict S/S place 1 strokes 2;words S | S;shows "b"
d|d={"-S": "a", "S-S": "b", "STS": "c", "ST-S": "d"}|0|entries 3;skipped 0;folded 1;strokes 3;states 7;rounds 2;conflicts 0
d|d={"KAT": "cat", "TEL": "tell", "KAT/TEL": "cattle", "TP-PL": "{.}", "-G": "{^ing}", "12": "12", "*": "=undo"}|1|entries 7;skipped 0;folded 0;strokes 6;states 17;rounds 3;conflicts 1;conflict KAT/TEL place 1 strokes 2;words KAT | TEL;shows "cattle"
w match:m|w={"KAT": "cat", "TEL": "tell"};m={"KAT/TEL": "cattle"}|1|entries 3;skipped 0;folded 0;strokes 2;states 8;rounds 3;conflicts 1;conflict KAT/TEL place 1 strokes 2;words KAT | TEL;shows "cattle"
match:d|d={"KAT": "cat", "TEL": "tell", "KAT/TEL": "cattle"}|0|entries 3;skipped 0;folded 0;strokes 2;states 1;rounds 1;conflicts 0"#;

/// Runs a row of audits with each of some numbers of workers.
fn check_audit(
    rt: &(impl Abort + Threads + Wait + Sync),
    alloc: Global,
    row: &str,
) -> Result<(), AllocError> {
    for workers in ["1", "2", "8", "32"] {
        let row = format!(in alloc; "audit {workers} {row}")?;
        check_row(rt, alloc, &row)?;
    }
    Ok(())
}

#[test]
fn audits(rt: HostRuntime) -> Result<(), AllocError> {
    for row in AUDITS.lines() {
        check_audit(&rt, rt.alloc(), row)?;
    }
    Ok(())
}

const GENERATED: &str =
    r#"audit-generated 7 2 1||0|entries 2;skipped 0;folded 0;strokes 5;states 8;rounds 4;conflicts 0;relaxed 7
audit-generated 7 2 32||0|entries 2;skipped 0;folded 0;strokes 5;states 8;rounds 4;conflicts 0;relaxed 7
audit-generated 7 0 1||0|entries 0;skipped 0;folded 0;strokes 0;states 1;rounds 1;conflicts 0;relaxed 0"#;

#[test]
fn generated_audits(rt: HostRuntime) -> Result<(), AllocError> {
    check_rows(&rt, rt.alloc(), GENERATED)
}

/// Runs a line that reads no file, and whose output is this text.
fn check_text(
    rt: &(impl Abort + Threads + Wait + Sync),
    alloc: Global,
    line: &str,
    want: &[u8],
) -> Result<(), AllocError> {
    let mut files = MemFiles::new(alloc);
    let mut out = MemSink::new(alloc);
    run_line(rt, alloc, line, &mut files, &mut out)?;
    assert!(rt; out.text() == want, "{line}");
    Ok(())
}

/// Eight workers share a search of more than a few states in another way each time.
#[test]
fn the_same_summary_each_time(rt: HostRuntime) -> Result<(), AllocError> {
    let mut files = MemFiles::new(rt.alloc());
    let mut first = MemSink::new(rt.alloc());
    run_line(
        &rt,
        rt.alloc(),
        "audit-generated 7 2000 1",
        &mut files,
        &mut first,
    )?;
    for _ in 0..20 {
        check_text(&rt, rt.alloc(), "audit-generated 7 2000 8", first.text())?;
    }
    Ok(())
}

pub(crate) const USUAL: &str = r#"d={"KAT": "cat", "TEL": "tell", "KAT/TEL": "cattle"}"#;

const USUAL_JSON: &str =
    r#"{"conflicts":[{"outline":"KAT/TEL","place":1,"strokes":2,"words":["KAT","TEL"]}],"entries":3,"folded":0,"rounds":3,"skipped":0,"states":9,"strokes":2}"#;

/// The text has no line feed at its end, so this row stands in no table.
#[test]
fn a_report_in_json(rt: HostRuntime) -> Result<(), AllocError> {
    let mut files = files_of(rt.alloc(), USUAL)?;
    let mut out = MemSink::new(rt.alloc());
    let found = run_line(&rt, rt.alloc(), "audit-json 1 d", &mut files, &mut out)?;
    assert_eq!(rt; found, Status::Conflicts);
    assert!(rt; out.text() == USUAL_JSON.as_bytes());
    Ok(())
}

/// The rows of a report in JSON.
const LISTED: &str =
    r#"rows r|r={"conflicts":[{"outline":"KAT/TEL","place":1,"strokes":2,"words":["KAT","TEL"]}],"entries":3,"folded":0,"rounds":3,"skipped":0,"states":9,"strokes":2}|0|conflict KAT/TEL place 1 strokes 2;words KAT | TEL
rows r|r={}|4|refused file 1 not report
rows r|r={|4|refused file 1 not json
rows r|d={}|3|failed file 1
rows|r={}|2|refused words"#;

#[test]
fn rows_of_reports(rt: HostRuntime) -> Result<(), AllocError> {
    check_rows(&rt, rt.alloc(), LISTED)
}
