//! Arguments that are no command, and files that are refused.

use crate::tests::rows::check_rows;
use std::alloc::AllocError;

const REFUSALS: &str = r#"||2|refused words
replay|d={}|2|refused words
replay S|d={}|2|refused words
replay UE d|d={}|2|refused words
replay S//T d|d={}|2|refused words
replay  d|d={}|2|refused words
replay S match:|d={}|2|refused words
replay S d match:|d={}|2|refused words
replays S d|d={}|2|refused words
audit|d={}|2|refused words
audit 1|d={}|2|refused words
audit 0 d|d={}|2|refused words
audit 33 d|d={}|2|refused words
audit 01 d|d={}|2|refused words
audit 1 match:|d={}|2|refused words
audit 1 d|d=[]|4|refused file 1 not object
audit 1 d d d d d d d d d d d d d d d d d|d={}|5|limit dictionaries 17
generate 7||2|refused words
generate 07 1||2|refused words
generate 7 100001||2|refused words
generate 18446744073709551616 0||2|refused words
generate 7 +1||2|refused words
audit-generated 7 2||2|refused words
audit-generated 7 2 1 d|d={}|2|refused words
audit-generated 7 2 0||2|refused words
audit-generated 7 2 33||2|refused words
audit-generated 7 2 01||2|refused words
audit-generated 7 100001 1||2|refused words
audit-generated 18446744073709551616 0 1||2|refused words
replay S e|d={}|3|failed file 1
replay S d match:e|d={}|3|failed file 2
replay S match:match:d|d={}|3|failed file 1
replay KAT d|d={"KAT": 1}|4|refused file 1 not text "KAT"
replay KAT d|d=[]|4|refused file 1 not object
replay KAT d|d={"KAT": "cat"|4|refused file 1 not json
replay KAT d|d=|4|refused file 1 not json
replay KAT d a f|d={};a=[];f=|4|refused file 2 not object
replay KAT d|d={"b": [], "a": null}|4|refused file 1 not text "a"
replay S match:d|d=7|4|refused file 1 not object
replay S d d d d d d d d d d d d d d d d d|d={}|5|limit dictionaries 17"#;

#[test]
fn refusals(rt: HostRuntime) -> Result<(), AllocError> {
    check_rows(&rt, rt.alloc(), REFUSALS)
}
