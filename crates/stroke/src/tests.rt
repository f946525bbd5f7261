//! What no clause can say: that a call succeeds where memory is ample, and the keys of real strokes.

use crate::{Outline, Stroke, are_entries};
use std::alloc::AllocError;
use std::cmp::Ordering;
use std::process::Abort;

/// A stroke of a code that is known to be one.
fn stroke(rt: &impl Abort, code: u32) -> Stroke {
    Stroke::new(code).expect(rt, "a code of a stroke")
}

#[test]
fn codes_and_keys(rt: HostRuntime) {
    for (code, is_stroke) in [
        (0, false),
        (1, true),
        (8_388_607, true),
        (8_388_608, false),
        (u32::MAX, false),
    ] {
        assert_eq!(rt; Stroke::new(code).is_some(), is_stroke, "at {code}");
    }
    // ST-S: the keys S-, T- and -S.
    let sts = stroke(&rt, (1 << 1) + (1 << 2) + (1 << 20));
    for (key, pressed) in [
        (0, false),
        (1, true),
        (2, true),
        (3, false),
        (20, true),
        (22, false),
        (23, false),
        (52, false),
    ] {
        assert_eq!(rt; sts.has(key), pressed, "at {key}");
    }
    assert_eq!(rt; sts.code(), 1_048_582);
    assert_eq!(rt; Stroke::default().code(), 1);
}

#[test]
fn lists_and_their_order(rt: HostRuntime) -> Result<(), AllocError> {
    let s = stroke(&rt, 2);
    let t = stroke(&rt, 4);
    let k = stroke(&rt, 8);
    let mut pushed = Outline::new(rt.alloc());
    pushed.push(s)?;
    pushed.push(t)?;
    let short = pushed.copy()?;
    pushed.push(k)?;
    let long = Outline::from_strokes(rt.alloc(), &[s, t, k])?;
    assert!(rt; pushed == long);
    assert!(rt; short != long);
    assert_eq!(rt; long.strokes().len(), 3);
    assert_eq!(rt; short.cmp(&long), Ordering::Less);
    assert_eq!(rt;
        Outline::from_strokes(rt.alloc(), &[k])?.cmp(&long),
        Ordering::Greater
    );
    assert!(rt; are_entries(&[short, long]));
    Ok(())
}
