//! Worked examples, and texts that are refused.

ghost use Rattle.std.specs.Prelude.{◌<◌, All, IsTrue};
ghost use Rattle.longest_match.specs.Rows.{IsSmall};
ghost use Rattle.report_json.specs.JsonReports.{IsInner};

use crate::{JsonReport, json_of, read_json, write_json, write_rows};
use dict_json::read_dictionary;
use dict_stack::Stack;
use longest_match::Conflict;
use outside::PlainSink;
use report::Summary;
use std::alloc::{AllocError, Global};
use std::process::Abort;
use std::test::Fail;

/// The report of an audit of `KAT`, `TEL` and `KAT/TEL`.
const REPORT: &str =
    "{\"conflicts\":[{\"outline\":\"KAT/TEL\",\"place\":1,\"strokes\":2,\"words\":[\"KAT\",\"TEL\"]}],\
    \"entries\":3,\"folded\":0,\"rounds\":3,\"skipped\":0,\"states\":9,\"strokes\":2}";

/// The lines of its rows.
const LINES: &str = "conflict KAT/TEL place 1 strokes 2\nwords KAT | TEL\n";

const NOT_JSON: &str = "this is no JSON";

const NOT_REPORT: &str = "the value is no report";

/// Changes of the report, a line each: what is replaced, by what, and what the text is then refused for, if it is.
const CHANGES: &str = r#""place":1|"place":63|
"place":1|"place":0|the value is no report
"place":1|"place":64|the value is no report
"states":9|"states":4294967295|
"states":9|"states":4294967296|the value is no report
"folded":0|"folded":18446744073709551615|
"folded":0|"folded":18446744073709551616|the value is no report
"folded":0|"folded":1e400|this is no JSON
"folded":0|"folded":-0|the value is no report
"states":9|"states":2.0|the value is no report
"states":9|"states":9e0|the value is no report
"states":9|"states":-9|the value is no report
"states":9|"states":09|this is no JSON
"states":9|"states":"9"|the value is no report
"states":9|"states":null|the value is no report
"states":9|"states":9,"z":1|the value is no report
"place":1|"place":1,"plac":1|the value is no report
"states":9,||the value is no report
"place":1,||the value is no report
"states":9|"States":9|the value is no report
"states":9|"stat\u0065s":9|
"states":9|"states":"","states":9|
"states":9|"states":9,"states":""|the value is no report
{"conflicts"|{"strokes":5, "conflicts" |
"place":1,"strokes":2|"strokes":2, "place" : 1|
KAT/TEL|KAT//TEL|the value is no report
KAT/TEL||the value is no report
KAT/TEL|kat/tel|the value is no report
KAT/TEL|KAT/T-EL|the value is no report
KAT/TEL|KAT\/TEL|
"KAT/TEL"|7|the value is no report
["KAT","TEL"]|["KAT"]|
["KAT","TEL"]|[]|the value is no report
["KAT","TEL"]|["KAT",2]|the value is no report
["KAT","TEL"]|"KAT"|the value is no report
[{|[[],{|the value is no report
]}]|]}|this is no JSON
2}|2} {}|this is no JSON"#;

/// Bytes that are no report.
const BYTES: [(&[u8], &str); 11] = [
    (b"", NOT_JSON),
    (b"{", NOT_JSON),
    (b"{}", NOT_REPORT),
    (b"[]", NOT_REPORT),
    (b"null", NOT_REPORT),
    (b"\"conflicts\"", NOT_REPORT),
    (b"\xff", NOT_JSON),
    (b"\xef\xbb\xbf{}", NOT_JSON),
    (b"{\"conflicts\":\"\xc3\"}", NOT_JSON),
    (b"{\"conflicts\":\"\\ud800\"}", NOT_JSON),
    (b"{\"conflicts\":\"\n\"}", NOT_JSON),
];

/// Texts that are repeated, with what is between the two halves: how deep brackets nest, and how long a number and an
/// outline are.
const REPEATED: [(&str, usize, &str, &str, &str); 7] = [
    ("[", 127, "", "]", NOT_REPORT),
    ("[", 128, "", "]", NOT_JSON),
    ("[", 100_000, "", "", NOT_JSON),
    ("{\"conflicts\":", 100_000, "0", "}", NOT_JSON),
    ("9", 300, "", "9", NOT_JSON),
    ("9", 100_000, ".", "9", NOT_JSON),
    ("9", 100, ".", "9", NOT_REPORT),
];

/// What bytes are refused for, or nothing.
fn refusal(alloc: Global, bytes: &[u8]) -> Result<String, AllocError> {
    match read_json(alloc, bytes) {
        Ok(_) => Ok(String::new(alloc)),
        Err(fault) => format!(in alloc; "{fault}"),
    }
}

/// Makes a change, and looks what the text is refused for.
fn check_change(
    rt: &impl Abort,
    alloc: Global,
    old: &str,
    new: &str,
    expected: &str,
) -> Result<(), AllocError> {
    let text = REPORT.replace(alloc, old, new)?;
    assert!(rt; text.as_str() != REPORT, "{old} is not there");
    let line = refusal(alloc, text.as_bytes())?;
    assert_eq!(rt; line.as_str(), expected, "with {new}");
    Ok(())
}

#[test]
fn changed_reports(rt: HostRuntime) -> Result<(), AllocError> {
    for line in CHANGES.lines() {
        let mut parts = line.split('|');
        let old = parts.next().unwrap_or("");
        let new = parts.next().unwrap_or("");
        check_change(&rt, rt.alloc(), old, new, parts.next().unwrap_or("?"))?;
    }
    Ok(())
}

#[test]
fn other_bytes(rt: HostRuntime) -> Result<(), AllocError> {
    for (bytes, expected) in BYTES {
        let line = refusal(rt.alloc(), bytes)?;
        assert_eq!(rt; line.as_str(), expected);
    }
    Ok(())
}

/// A text so many times, a text between, and another one as often.
fn halves(
    alloc: Global,
    first: &str,
    count: usize,
    between: &str,
    last: &str,
) -> Result<String, AllocError> {
    let mut text = first.repeat(alloc, count)?;
    text.push_str(between)?;
    let rest = last.repeat(alloc, count)?;
    text.push_str(&rest)?;
    Ok(text)
}

#[test]
fn long_texts(rt: HostRuntime) -> Result<(), AllocError> {
    for (first, count, between, last, expected) in REPEATED {
        let text = halves(rt.alloc(), first, count, between, last)?;
        let line = refusal(rt.alloc(), text.as_bytes())?;
        assert_eq!(rt; line.as_str(), expected, "with {first}");
    }
    Ok(())
}

#[test]
fn long_outlines(rt: HostRuntime) -> Result<(), AllocError> {
    for (slashes, expected) in [(63, ""), (64, NOT_REPORT), (100_000, NOT_REPORT)] {
        let outline = halves(rt.alloc(), "S/", slashes, "S", "")?;
        check_change(&rt, rt.alloc(), "KAT/TEL", &outline, expected)?;
    }
    Ok(())
}

/// The JSON text of a report, and the lines of its rows.
fn texts_of(
    rt: &impl Abort,
    alloc: Global,
    report: &JsonReport,
) -> Result<(PlainSink, PlainSink), AllocError> {
    let mut json = PlainSink::new(alloc);
    assert!(rt; write_json(alloc, &mut json, report).is_ok());
    let mut lines = PlainSink::new(alloc);
    assert!(rt; write_rows(alloc, &mut lines, report).is_ok());
    Ok((json, lines))
}

#[test]
fn read_and_written(rt: HostRuntime) -> Result<(), Fail> {
    let report = read_json(rt.alloc(), REPORT.as_bytes())?;
    let (json, lines) = texts_of(&rt, rt.alloc(), &report)?;
    assert!(rt; json.text() == REPORT.as_bytes());
    assert!(rt; lines.text() == LINES.as_bytes());
    Ok(())
}

/// The stack of one file.
fn stack_of(rt: &impl Abort, alloc: Global, file: &str) -> Result<Stack, AllocError> {
    assert!(rt; file.len() < 1 << 32);
    let mut dictionaries = Vec::new(alloc);
    match read_dictionary(alloc, file.as_bytes()) {
        Ok(dictionary) => dictionaries.push(dictionary)?,
        Err(_) => return Err(AllocError),
    }
    let mut word_files = Vec::new(alloc);
    word_files.push(true)?;
    assert!(rt; dictionaries.len() <= 16 && word_files.len() == dictionaries.len());
    match Stack::new(alloc, dictionaries, word_files) {
        Ok(stack) => Ok(stack),
        Err(_) => Err(AllocError),
    }
}

/// Whether the words are numbers below the count.
fn are_numbers(words: &[u32], count: u32) -> bool
    ensures { IsTrue result → All (λ w. w < count) words.now }
{
    words.iter().all(|word| *word < count)
}

/// Whether a row may be written.
fn is_small(stack: &Stack, row: &Conflict) -> bool
    ensures { IsTrue result → IsSmall stack.now.outlines row.now }
{
    let count = stack.entry_count();
    let words = row.words();
    row.entry() < count && are_numbers(words, count) && !words.is_empty() && words.len() < 1 << 26
}

/// Whether these rows may be written.
fn are_small(stack: &Stack, rows: &[Conflict]) -> bool
    ensures { IsTrue result → All (IsSmall stack.now.outlines) rows.now }
{
    rows.iter().all(|row| is_small(stack, row))
}

/// Whether the row's place lies inside an outline.
fn is_inner(row: &Conflict) -> bool
    ensures { IsTrue result → IsInner row.now }
{
    let place = row.place();
    0 < place && place < 64
}

/// Whether these rows' places lie inside outlines.
fn are_inner(rows: &[Conflict]) -> bool
    ensures { IsTrue result → All IsInner rows.now }
{
    rows.iter().all(|row| is_inner(row))
}

/// The conflict of `KAT/TEL`.
fn conflict(alloc: Global) -> Result<Vec<Conflict>, AllocError> {
    let mut words = Vec::new(alloc);
    words.push(1)?;
    words.push(0)?;
    let mut rows = Vec::new(alloc);
    rows.push(Conflict::new(2, 1, 2, words))?;
    Ok(rows)
}

#[test]
fn of_an_audit(rt: HostRuntime) -> Result<(), AllocError> {
    let alloc = rt.alloc();
    let file = "{\"KAT\": \"cat\", \"TEL\": \"tell\", \"KAT/TEL\": \"cattle\"}";
    let stack = stack_of(&rt, alloc, file)?;
    let rows = conflict(alloc)?;
    assert!(rt; rows.len() < 1 << 32 && are_small(&stack, &rows) && are_inner(&rows));
    let summary = Summary {
        states: 9,
        rounds: 3,
        conflicts: 1,
    };
    let report = json_of(alloc, &stack, &summary, &rows)?;
    let (json, lines) = texts_of(&rt, alloc, &report)?;
    assert!(rt; json.text() == REPORT.as_bytes());
    assert!(rt; lines.text() == LINES.as_bytes());
    Ok(())
}
