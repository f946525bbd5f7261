//! The limits of entries, nodes and states.

use crate::tests::rows::{check_row, repeated};
use std::alloc::{AllocError, Global};
use std::process::Abort;
use steno_order::write_stroke;
use stroke::Stroke;

/// A row with a dictionary of the strokes with the codes 1 to `count`.
fn strokes_row(
    rt: &impl Abort,
    alloc: Global,
    line: &str,
    count: u32,
    ends: &str,
) -> Result<String, AllocError> {
    let mut row = String::from_str(alloc, line)?;
    row.push_str("|d={\"#\":\"x\"")?;
    for code in 2..=count {
        row.push_str(",\"")?;
        write_stroke(Stroke::new(code).expect(rt, "a code of a stroke"), &mut row)?;
        row.push_str("\":\"x\"")?;
    }
    row.push_str("}|")?;
    row.push_str(ends)?;
    Ok(row)
}

/// A row with so many outlines of 64 strokes, of which each begins with another stroke.
fn outlines_row(
    rt: &impl Abort,
    alloc: Global,
    line: &str,
    count: u32,
    ends: &str,
) -> Result<String, AllocError> {
    let others = repeated(alloc, 63)?;
    let mut row = String::from_str(alloc, line)?;
    row.push_str("|d={")?;
    for code in 1..=count {
        row.push_str(if code > 1 { ",\"" } else { "\"" })?;
        write_stroke(Stroke::new(code).expect(rt, "a code of a stroke"), &mut row)?;
        row.push('/')?;
        row.push_str(&others)?;
        row.push_str("\":\"x\"")?;
    }
    row.push_str("}|")?;
    row.push_str(ends)?;
    Ok(row)
}

#[test]
fn the_most_nodes(rt: HostRuntime) -> Result<(), AllocError> {
    let most = outlines_row(&rt, rt.alloc(), "replay S d", 65_535, "0|S untranslated")?;
    check_row(&rt, rt.alloc(), &most)?;
    let more = outlines_row(
        &rt,
        rt.alloc(),
        "replay S d",
        65_536,
        "5|limit nodes 4194305",
    )?;
    check_row(&rt, rt.alloc(), &more)
}

#[test]
fn too_many_states(rt: HostRuntime) -> Result<(), AllocError> {
    let ends = "5|limit states 33589249";
    let row = outlines_row(&rt, rt.alloc(), "audit 1 d", 672, ends)?;
    check_row(&rt, rt.alloc(), &row)
}

#[test]
fn the_most_entries(rt: HostRuntime) -> Result<(), AllocError> {
    let most = strokes_row(&rt, rt.alloc(), "replay S d", 1_048_576, "0|S \"x\"")?;
    check_row(&rt, rt.alloc(), &most)?;
    let more = strokes_row(
        &rt,
        rt.alloc(),
        "replay S d",
        1_048_577,
        "5|limit entries 1048577",
    )?;
    check_row(&rt, rt.alloc(), &more)
}

/// A brief is one entry too many.
#[test]
fn a_brief_over_the_limit_of_entries(rt: HostRuntime) -> Result<(), AllocError> {
    let ends = "5|limit entries 1048577";
    let row = strokes_row(&rt, rt.alloc(), "try 2 S,S/S d", 1_048_576, ends)?;
    check_row(&rt, rt.alloc(), &row)
}

/// A brief of 64 strokes has states of its own, which are too many.
#[test]
fn a_brief_over_the_limit_of_states(rt: HostRuntime) -> Result<(), AllocError> {
    let others = repeated(rt.alloc(), 63)?;
    let line = format!(in rt.alloc(); "try 1 STKPWHRAO*EUFRPBLGTSDZ/{others} d")?;
    let ends = "5|limit states 33589249";
    let row = outlines_row(&rt, rt.alloc(), &line, 671, ends)?;
    check_row(&rt, rt.alloc(), &row)
}
