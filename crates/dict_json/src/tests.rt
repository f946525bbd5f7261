//! What no clause can say: that files are read where memory is ample, and the worked examples.

ghost use Rattle.std.specs.Prelude.{◌<◌, ◌^◌, length};

use super::{Dictionary, generated, read_dictionary};
use std::alloc::{AllocError, Global};
use std::fmt::Write;
use std::process::Abort;
use std::test::Fail;
use steno_order::write_outline;

/// Files with what they come to: each entry, each skipped key and the number of folded keys, or the refusal.
const FILES: [(&[u8], &str); 33] = [
    (b"{}", "folded 0"),
    (b" {\"KAT\" : \"cat\"}\n", "KAT=cat folded 0"),
    (
        b"{\"UE\": \"x\", \"-\": \"y\", \"\": \"z\", \"S//T\": \"q\", \"KAT\": \"cat\"}",
        "KAT=cat skipped [] [-] [S//T] [UE] folded 0",
    ),
    (
        b"{\"-S\": \"a\", \"S-S\": \"b\", \"STS\": \"c\", \"ST-S\": \"d\"}",
        "-S=a S-S=b ST-S=c folded 1",
    ),
    (
        b"{\"STS\": \"c\", \"ST-S\": \"d\", \"-T\": \"\", \"T-\": \"t\", \"T\": \"u\"}",
        "T=t -T= ST-S=c folded 2",
    ),
    (b"{\"KAT\": \"cat\", \"KAT\": \"dog\"}", "KAT=dog folded 0"),
    (
        b"{\"T/S\": \"1\", \"S/T\": \"2\", \"S\": \"3\", \"T\": \"4\", \"S/S\": \"5\"}",
        "S=3 S/S=5 S/T=2 T=4 T/S=1 folded 0",
    ),
    (
        b"{\"T\": \"1\", \"S\": \"2\", \"T\": \"3\", \"S\": \"4\", \"T\": \"5\", \"-S\": \"6\"}",
        "S=4 T=5 -S=6 folded 0",
    ),
    (
        b"{\"S-S\": \"1\", \"-\": \"2\", \"STS\": \"3\", \"S-S\": \"4\", \"\": \"5\", \"-\": \"6\", \"ST-S\": \"7\"}",
        "S-S=4 ST-S=3 skipped [] [-] folded 1",
    ),
    (
        b"{\"\\u0053\\/T\": \"1\", \"S/T\": \"caf\\u00e9\\n\"}",
        "S/T=caf\u{e9}\n folded 0",
    ),
    (
        b"{\"S\": \"a\", \"\\u00e9\": \"\\ud83d\\ude00\", \"\\u0053\": \"b\"}",
        "S=b skipped [\u{e9}] folded 0",
    ),
    (b"{\"S\": 1, \"S\": \"a\"}", "S=a folded 0"),
    (
        b"{\"S\": \"a\", \"T\": \"b\", \"S\": false}",
        "the value of S is no text",
    ),
    (
        b"{\"T\": \"a\", \"S\": {\"-R\": \"b\", \"-P\": [\"c\", {}]}, \"-R\": \"d\"}",
        "the value of S is no text",
    ),
    (b"{\"KAT\": \"cat\"}{}", "this is no JSON"),
    (b"{\"KAT\": \"cat\", \"TEL\"}", "this is no JSON"),
    (b"{\"KAT\": 1}", "the value of KAT is no text"),
    (b"{\"KAT\": null}", "the value of KAT is no text"),
    (b"{\"KAT\": [\"cat\"]}", "the value of KAT is no text"),
    (b"{\"KAT\": {\"a\": 1}}", "the value of KAT is no text"),
    (b"{\"TEL\": 1, \"KAT\": 2}", "the value of KAT is no text"),
    (
        b"{\"UE\": true, \"KAT\": \"cat\"}",
        "the value of UE is no text",
    ),
    (b"[]", "the value is no object"),
    (b"\"KAT\"", "the value is no object"),
    (b"1", "the value is no object"),
    (b"null", "the value is no object"),
    (b"{\"KAT\": \"cat\"", "this is no JSON"),
    (b"{\"KAT\": \"cat\"} x", "this is no JSON"),
    (b"{\"KAT\": \"cat\",}", "this is no JSON"),
    (b"", "this is no JSON"),
    (b"\xff", "this is no JSON"),
    (b"{\"KAT\": \"\xff\"}", "this is no JSON"),
    (
        b"{\"\\u0000\": \"x\", \"S\": \"\\u0007\\\"\\\\\"}",
        "S=\x07\"\\ skipped [\0] folded 0",
    ),
];

/// What a dictionary has, in a line.
fn line_of(alloc: Global, dictionary: &Dictionary) -> Result<String, AllocError> {
    let mut line = String::new(alloc);
    for entry in dictionary.entries() {
        write_outline(entry.outline().strokes(), &mut line)?;
        write!(line, "={} ", entry.text())?;
    }
    if !dictionary.skipped().is_empty() {
        line.push_str("skipped ")?;
    }
    for key in dictionary.skipped() {
        write!(line, "[{key}] ")?;
    }
    write!(line, "folded {}", dictionary.folded())?;
    Ok(line)
}

/// What the bytes of a file come to, in a line.
fn outcome(alloc: Global, bytes: &[u8]) -> Result<String, AllocError>
    requires { length bytes.now < 2 ^ 32 }
{
    match read_dictionary(alloc, bytes) {
        Ok(dictionary) => line_of(alloc, &dictionary),
        Err(fault) => format!(in alloc; "{fault}"),
    }
}

/// The outcome of bytes that are known to be few.
fn few(rt: &impl Abort, alloc: Global, bytes: &[u8]) -> Result<String, AllocError> {
    assert!(rt; bytes.len() < 1_000_000);
    outcome(alloc, bytes)
}

#[test]
fn files(rt: HostRuntime) -> Result<(), Fail> {
    for (bytes, expected) in FILES {
        let line = few(&rt, rt.alloc(), bytes)?;
        assert_eq!(rt; line.as_str(), expected, "of {:?}", bytes);
    }
    Ok(())
}

#[test]
fn long_keys(rt: HostRuntime) -> Result<(), Fail> {
    let mut key = String::new(rt.alloc());
    for _ in 0..63 {
        key.push_str("S/")?;
    }
    key.push_str("S")?;
    // 64 strokes are an outline, 65 aren't, and with an unreadable part the key is skipped.
    for (added, expected) in [
        ("", "folded 0"),
        ("/S", "has 65 strokes"),
        ("/S/S", "has 66 strokes"),
        ("/UE", "skipped"),
        ("/UE/S", "skipped"),
    ] {
        let text = format!(in rt.alloc(); "{{\"{key}{added}\": \"x\"}}")?;
        let line = few(&rt, rt.alloc(), text.as_bytes())?;
        assert!(rt; line.contains(expected), "at {added}: {line}");
    }
    // Of two keys that are too long the first by bytes is told, and a value that is no text comes before both.
    for (other, value, expected) in [
        ("/S", "\"x\"", "has 65 strokes"),
        ("/S", "1", "no text"),
        ("/-S/S", "\"x\"", "has 66 strokes"),
        ("/T/S", "\"x\"", "has 66 strokes"),
    ] {
        let text = format!(in rt.alloc(); "{{\"{key}/S/S\": \"x\", \"{key}{other}\": {value}}}")?;
        let line = few(&rt, rt.alloc(), text.as_bytes())?;
        assert!(rt; line.contains(expected), "at {other}: {line}");
    }
    Ok(())
}

#[test]
fn nested_too_deep(rt: HostRuntime) -> Result<(), Fail> {
    let bytes = [b'['; 200];
    let line = few(&rt, rt.alloc(), &bytes)?;
    assert_eq!(rt; line.as_str(), "this is no JSON");
    // In a member 126 brackets may stand inside one another.
    for (depth, expected) in [(126, "the value of S is no text"), (127, "this is no JSON")] {
        let mut text = String::new(rt.alloc());
        text.push_str("{\"T\": \"t\", \"S\": ")?;
        for _ in 0..depth {
            text.push_str("[")?;
        }
        for _ in 0..depth {
            text.push_str("]")?;
        }
        text.push_str("}")?;
        let line = few(&rt, rt.alloc(), text.as_bytes())?;
        assert_eq!(rt; line.as_str(), expected, "at {depth}");
    }
    Ok(())
}

#[test]
fn made_of_numbers(rt: HostRuntime) -> Result<(), Fail> {
    for (start, count, expected) in [
        (7, 0, "{}\n"),
        (7, 1, "{\n\"TPAFRPB/SKWRAOBG/KAER\": \"w0\"\n}\n"),
        (
            7,
            2,
            "{\n\"TPAFRPB/SKWRAOBG/KAER\": \"w0\",\n\"SAOPL/AOBG\": \"w1\"\n}\n",
        ),
        (
            2_147_483_653,
            2,
            "{\n\"TPAFRPB/SKWRAOBG/KAER\": \"w0\",\n\"SAOPL/AOBG\": \"w1\"\n}\n",
        ),
    ] {
        let bytes = generated(rt.alloc(), start, count)?;
        assert_eq!(rt; bytes.as_slice(), expected.as_bytes(), "at {start} {count}");
    }
    // Among 4,000 entries some have a key of one stroke that was already written.
    let bytes = generated(rt.alloc(), 1, 4_000)?;
    assert!(rt; bytes.len() < 1_000_000);
    match read_dictionary(rt.alloc(), &bytes) {
        Ok(dictionary) => {
            assert_eq!(rt; dictionary.skipped().len(), 0);
            assert_eq!(rt; dictionary.folded(), 0);
            assert!(rt;
                dictionary.entries().len() < 4_000,
                "{} entries",
                dictionary.entries().len()
            );
        }
        Err(fault) => assert!(rt; false, "{fault}"),
    }
    Ok(())
}
