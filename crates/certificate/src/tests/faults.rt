//! Each call of the files fails in turn.

use crate::CertFault;
use crate::tests::copying::copy;
use outside::MemFiles;
use std::alloc::Global;
use std::process::Abort;
use std::test::Fail;

/// A run in which the call of this number fails: 0 begins "out", 1 opens "in", 2 takes it whole, 3 puts its line, 4
/// finds its end, 5 ends "out".
fn check_fault(
    rt: &impl Abort,
    alloc: Global,
    call: u64,
    answer: Result<u64, CertFault>,
    out: &str,
) -> Result<(), Fail> {
    let mut files = MemFiles::new(alloc);
    files.add("in", b"end\n")?;
    files.add("out", b"old")?;
    files.fail_at(vec![in alloc; call]?);
    let given = copy(alloc, &mut files, 9);
    assert_eq!(rt; given, answer, "call {call}");
    assert_eq!(rt; files.bytes("out"), Some(out.as_bytes()));
    Ok(())
}

#[test]
fn each_call_fails_in_turn(rt: HostRuntime) -> Result<(), Fail> {
    let failed = Err(CertFault::Failed);
    for (call, answer, out) in [
        (0, failed, "old"),
        (1, failed, ""),
        (2, failed, ""),
        (3, failed, ""),
        (4, failed, "end\n"),
        (5, failed, "end\n"),
        (6, Ok(1), "end\n"),
    ] {
        check_fault(&rt, rt.alloc(), call, answer, out)?;
    }
    Ok(())
}
