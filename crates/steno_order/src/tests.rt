use super::{
    OutlineFault, StrokesFault, read_outline, read_stroke, read_strokes, write_outline,
    write_stroke,
};
use std::test::Fail;
use stroke::Stroke;

/// Texts with the code of the stroke that they spell, and its canonical text; code 0 stands for none.
const TEXTS: [(&str, u32, &str); 84] = [
    ("S", 1 << 1, "S"),
    ("S-", 1 << 1, "S"),
    ("-S", 1 << 20, "-S"),
    ("T-", 1 << 2, "T"),
    ("-T", 1 << 19, "-T"),
    ("K", 1 << 3, "K"),
    ("*", 1 << 10, "*"),
    ("*-", 1 << 10, "*"),
    ("Z", 1 << 22, "-Z"),
    ("-Z", 1 << 22, "-Z"),
    ("STS", 1 << 1 | 1 << 2 | 1 << 20, "ST-S"),
    ("ST-S", 1 << 1 | 1 << 2 | 1 << 20, "ST-S"),
    ("STK-", 1 << 1 | 1 << 2 | 1 << 3, "STK"),
    ("SS", 1 << 1 | 1 << 20, "S-S"),
    ("S-S", 1 << 1 | 1 << 20, "S-S"),
    ("TT", 1 << 2 | 1 << 19, "T-T"),
    ("TS", 1 << 2 | 1 << 20, "T-S"),
    ("PP", 1 << 4 | 1 << 15, "P-P"),
    ("RR", 1 << 7 | 1 << 14, "R-R"),
    ("-R", 1 << 14, "-R"),
    ("KAT", 1 << 3 | 1 << 8 | 1 << 19, "KAT"),
    ("TEL", 1 << 2 | 1 << 11 | 1 << 17, "TEL"),
    ("EU", 1 << 11 | 1 << 12, "EU"),
    ("-EU", 1 << 11 | 1 << 12, "EU"),
    ("E-U", 1 << 11 | 1 << 12, "EU"),
    ("EU-", 1 << 11 | 1 << 12, "EU"),
    ("E-R", 1 << 11 | 1 << 14, "ER"),
    ("-FRPBLGTSDZ", 0x7f_e000, "-FRPBLGTSDZ"),
    (
        "STKPWHRAO*EUFRPBLGTSDZ",
        0x7f_fffe,
        "STKPWHRAO*EUFRPBLGTSDZ",
    ),
    (
        "#STKPWHRAO*EUFRPBLGTSDZ",
        0x7f_ffff,
        "12K3W4R50*EU6R7B8G9SDZ",
    ),
    (
        "12K3W4R50*EU6R7B8G9SDZ",
        0x7f_ffff,
        "12K3W4R50*EU6R7B8G9SDZ",
    ),
    ("#", 1, "#"),
    ("#-", 1, "#"),
    ("1", 1 | 1 << 1, "1"),
    ("#1", 1 | 1 << 1, "1"),
    ("#S", 1 | 1 << 1, "1"),
    ("#S-", 1 | 1 << 1, "1"),
    ("12", 1 | 1 << 1 | 1 << 2, "12"),
    ("1S", 1 | 1 << 1 | 1 << 20, "1-S"),
    ("0", 1 | 1 << 9, "0"),
    ("#0", 1 | 1 << 9, "0"),
    ("50", 1 | 1 << 8 | 1 << 9, "50"),
    ("6", 1 | 1 << 13, "-6"),
    ("-6", 1 | 1 << 13, "-6"),
    ("#-6", 1 | 1 << 13, "-6"),
    ("#-F", 1 | 1 << 13, "-6"),
    ("2-9", 1 | 1 << 2 | 1 << 19, "2-9"),
    ("P7", 1 | 1 << 4 | 1 << 15, "3-7"),
    ("#K", 1 | 1 << 3, "#K"),
    ("#KF", 1 | 1 << 3 | 1 << 13, "K-6"),
    ("#*R", 1 | 1 << 10 | 1 << 14, "#*R"),
    ("#-R", 1 | 1 << 14, "#-R"),
    ("#EU", 1 | 1 << 11 | 1 << 12, "#EU"),
    ("", 0, ""),
    ("-", 0, ""),
    ("--", 0, ""),
    ("S--T", 0, ""),
    ("-S-", 0, ""),
    ("UE", 0, ""),
    ("U-E", 0, ""),
    ("TS-", 0, ""),
    ("TST", 0, ""),
    ("SSS", 0, ""),
    ("S-A", 0, ""),
    ("A-O", 0, ""),
    ("-*", 0, ""),
    ("K-K", 0, ""),
    ("F-", 0, ""),
    ("F-S", 0, ""),
    ("Z-", 0, ""),
    ("6-", 0, ""),
    ("S1", 0, ""),
    ("-1", 0, ""),
    ("1-2", 0, ""),
    ("05", 0, ""),
    ("7P", 0, ""),
    ("##", 0, ""),
    ("S#", 0, ""),
    ("-#", 0, ""),
    ("s", 0, ""),
    ("C", 0, ""),
    (" S", 0, ""),
    ("S/T", 0, ""),
    ("É", 0, ""),
];

#[test]
fn spellings(rt: HostRuntime) -> Result<(), Fail> {
    let mut written = String::new(rt.alloc());
    for (text, code, canonical) in &TEXTS {
        assert_eq!(rt;
            read_stroke(text).map_or(0, |stroke| stroke.code()),
            *code,
            "{text}"
        );
        if let Some(stroke) = Stroke::new(*code) {
            written.clear();
            write_stroke(stroke, &mut written)?;
            assert_eq!(rt; written.as_str(), *canonical);
        }
    }
    Ok(())
}

#[test]
fn all_strokes_are_read_as_written(rt: HostRuntime) -> Result<(), Fail> {
    let mut written = String::new(rt.alloc());
    for code in 1..0x80_0000 {
        if let Some(stroke) = Stroke::new(code) {
            written.clear();
            write_stroke(stroke, &mut written)?;
            assert_eq!(rt; read_stroke(&written), Some(stroke));
        }
    }
    Ok(())
}

#[test]
fn lists(rt: HostRuntime) -> Result<(), Fail> {
    let strokes = read_strokes(rt.alloc(), "STS/T-/#S/-6")?;
    let codes = [1 << 1 | 1 << 2 | 1 << 20, 1 << 2, 3, 1 | 1 << 13];
    assert_eq!(rt; strokes.len(), 4);
    for (stroke, code) in strokes.iter().zip(&codes) {
        assert_eq!(rt; stroke.code(), *code);
    }
    let mut written = String::new(rt.alloc());
    write_outline(&strokes, &mut written)?;
    write_outline(&[], &mut written)?;
    assert_eq!(rt; written.as_str(), "ST-S/T/1/-6");
    let outline = read_outline(rt.alloc(), &written)?;
    assert_eq!(rt; outline.strokes(), strokes.as_slice());
    Ok(())
}

#[test]
fn refusals(rt: HostRuntime) -> Result<(), Fail> {
    for (text, part) in &[("", 0), ("S//T", 1), ("/S", 0), ("S/", 1), ("S/T/UE", 2)] {
        assert_eq!(rt;
            read_strokes(rt.alloc(), text).err(),
            Some(StrokesFault::Unreadable { part: *part })
        );
        assert_eq!(rt;
            read_outline(rt.alloc(), text).err(),
            Some(OutlineFault::Unreadable { part: *part })
        );
    }
    let mut long = String::new(rt.alloc());
    for _ in 0..63 {
        long.push_str("S/")?;
    }
    long.push_str("S")?;
    assert_eq!(rt; long.len(), 127);
    assert_eq!(rt; read_outline(rt.alloc(), &long)?.strokes().len(), 64);
    long.push_str("/S")?;
    assert_eq!(rt; long.len(), 129);
    assert_eq!(rt; read_strokes(rt.alloc(), &long)?.len(), 65);
    assert_eq!(rt;
        read_outline(rt.alloc(), &long).err(),
        Some(OutlineFault::TooLong { parts: 65 })
    );
    long.push_str("/UE")?;
    assert_eq!(rt; long.len(), 132);
    assert_eq!(rt;
        read_outline(rt.alloc(), &long).err(),
        Some(OutlineFault::Unreadable { part: 65 })
    );
    Ok(())
}
