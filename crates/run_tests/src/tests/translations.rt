//! Typed strokes translated.

use crate::tests::rows::check_rows;
use std::alloc::AllocError;

const REPLAYS: &str =
    r#"replay S/T/K d|d={"S": "s", "T": "t", "K": "k", "S/T/K": "stick"}|0|S/T/K "stick"
replay S/T/S/K d|d={"S": "s", "T": "t", "K": "k", "S/T/K": "stick"}|0|S "s";T "t";S "s";K "k"
replay S/H d|d={"S": "s"}|0|S "s";H untranslated
replay S d|d={}|0|S untranslated
replay S/S/S d|d={"S": "a", "S/S": "b"}|0|S/S "b";S "a"
replay S/T/K/P/W d|d={"S": "is", "S/T": "ist", "T/K/P": "tkp", "W": "we", "P/W": "pw"}|0|S/T "ist";K untranslated;P/W "pw"
replay STKPWHRAO*EUFRPBLGTSDZ d|d={}|0|STKPWHRAO*EUFRPBLGTSDZ untranslated
replay #STKPWHRAO*EUFRPBLGTSDZ d|d={}|0|12K3W4R50*EU6R7B8G9SDZ untranslated
replay STS/T-/#S/-6 d|d={}|0|ST-S untranslated;T untranslated;1 untranslated;-6 untranslated
replay KAT/TEL a b|a={"KAT": "cat"};b={"KAT": "feline", "TEL": "tell"}|0|KAT "cat";TEL "tell"
replay KAT/TEL b a|a={"KAT": "cat"};b={"KAT": "feline", "TEL": "tell"}|0|KAT "feline";TEL "tell"
replay KAT/TEL match:b a|a={"KAT": "cat"};b={"KAT": "feline", "TEL": "tell"}|0|KAT "feline";TEL "tell"
replay STS d|d={"-S": "a", "S-S": "b", "STS": "c", "ST-S": "d"}|0|ST-S "c"
replay 12/TP-PL/-G d|d={"TP-PL": "{.}", "-G": "{^ing}", "12": "12", "*": "undo"}|0|12 "12";TP-PL "{.}";-G "{^ing}"
replay S d|d={"UE": "x", "-": "y", "": "z", "S//T": "q", "S": "a\"\\\n\u0000"}|0|S "a\"\\\n\x00"
generate 7 2||0|{;"TPAFRPB/SKWRAOBG/KAER": "w0",;"SAOPL/AOBG": "w1";}
replay S d d d d d d d d d d d d d d d d|d={"S": "s"}|0|S "s"
generate 7 0||0|{}
generate 18446744073709551615 0||0|{}"#;

#[test]
fn replays(rt: HostRuntime) -> Result<(), AllocError> {
    check_rows(&rt, rt.alloc(), REPLAYS)
}

const EXPLAINS: &str =
    r#"explain S T/K/P W -- d|d={"S": "is", "S/T": "ist", "T/K/P": "tkp", "W": "we", "P/W": "pw"}|0|S/T "ist";K untranslated;P/W "pw";boundary 1 crossed S/T place 1;boundary 2 crossed P/W place 1
explain S -- d|d={"S": "is", "S/T": "ist", "T/K/P": "tkp", "W": "we", "P/W": "pw"}|0|S "is"
explain KAT TEL -- d|d={"KAT": "cat", "TEL": "tell"}|0|KAT "cat";TEL "tell";boundary 1 kept
explain -- d|d={}|2|refused words
explain S --|d={}|2|refused words"#;

#[test]
fn explanations(rt: HostRuntime) -> Result<(), AllocError> {
    check_rows(&rt, rt.alloc(), EXPLAINS)
}
