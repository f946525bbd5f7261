//! A whole file, read over calls that give as much as they like.

ghost use Rattle.std.specs.Prelude.{◌≡◌, ◌<◌, ◌≤◌, ◌^◌, length, IfOk, IfSome, IsErrOf, Some, if◌then◌else◌};
ghost use Rattle.outside.specs.Faults.{Steady, is_read_failed};
ghost use Rattle.outside.specs.Files.{LeavesFiles, FaultAt, IsLastOpened};

use crate::{Files, OutsideFault, ReadFault, Way};
use std::alloc::{AllocError, Global};

/// The bytes that are asked of a file at once: few calls of the system for a long file, and little memory for a short
/// one.
const PIECE: usize = 65536;

/// Room for one piece.
fn piece_buffer(alloc: Global) -> Result<Vec<u8>, AllocError>
    ensures { IfOk result (λ buffer. 0 < length buffer.items) }
{
    vec![in alloc; 0u8; PIECE]
}

/// The bytes of the named file, of which there may be at most `limit`.
///
/// `TooLong` comes only where the file has more, `Failed` only with a fault on reading this name in this call. Each
/// turn reads one piece of up to 64 KiB, and the list grows by doubling, so the cost is linear in the file's length.
/// There are at most `limit + 2` turns whatever the files give.
pub fn read_all<F: Files>(
    alloc: Global,
    files: &mut F,
    name: &str,
    limit: u64,
) -> Result<Vec<u8>, ReadFault>
    requires { limit < 2 ^ 62 }
    ensures bytes { IfOk result
        (λ v. IfSome (F.view files.old).held (λ held. v.items ≡ held name.now)) }
    ensures within { IfOk result (λ v. length v.items ≤ limit) }
    ensures too_long { IsErrOf result ReadFault.TooLong →
        IfSome (F.view files.old).held (λ held. limit < length (held name.now)) }
    ensures leaves { LeavesFiles (F.view files.old) (F.view files.new) }
    ensures opened { IsLastOpened name.now (F.view files.old) (F.view files.new) }
    ensures latest { (F.view files.new).latest ≡ (if is_read_failed result
        then Some (name.now, Way.Reading) else (F.view files.old).latest) }
    ensures later { (F.view files.old).faults ≤ (F.view files.new).faults }
    ensures failed { IsErrOf result ReadFault.Failed →
        FaultAt name.now Way.Reading (F.view files.old) (F.view files.new) }
    ensures steady { Steady (is_read_failed result)
        (F.view files.old).faults (F.view files.new).faults }
{
    let mut buffer = piece_buffer(alloc)?;
    files.open_file(name)?;
    let mut bytes: Vec<u8> = Vec::new(alloc);
    'turns: for turn in 0..limit + 2 {
        match files.take(&mut buffer) {
            Err(_) => return Err(ReadFault::Failed),
            Ok(0) => return Ok(bytes),
            Ok(count) => {
                if (bytes.len() + count) as u64 > limit {
                    return Err(ReadFault::TooLong);
                }
                bytes.extend_from_slice(&buffer[..count])?;
            }
        }
    }
    Err(ReadFault::TooLong)
}
