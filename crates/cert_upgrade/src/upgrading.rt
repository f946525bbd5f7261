//! The upgrade.

ghost use Rattle.std.specs.Prelude.{◌≡◌, IfErr, IfOk, IfSome, None, OnErr, OnOk, true};
ghost use Rattle.outside.specs.Files.{LeavesFiles};
ghost use Rattle.certificate_laws.specs.Checks.{accepted};
ghost use Rattle.cert_check.specs.Verdicts.{is_check_failed, IsFaultOf};
ghost use Rattle.cert_upgrade.specs.Forms.{upgrade_outcome};
ghost use Rattle.cert_upgrade.specs.Upgrades.{IsPartWritten, IsUpgradeCause, IsUpgraded, UpgradesFile, WritesUpgrade, is_refusing, upgraded_text};

use crate::reading::read;
use crate::writing::write;
use cert_check::CheckFault;
use outside::Files;
use std::alloc::Global;

/// The certificate is upgraded.
#[derive(Clone, Copy, Debug, PartialEq, Eq)]
pub struct Upgraded {
    /// How many conflicts it has.
    pub conflicts: u32,
}

/// The upgrade, without what follows from its answer.
fn rewrite<F: Files>(
    alloc: Global,
    files: &mut F,
    source: &str,
    target: &str,
) -> Result<Upgraded, CheckFault>
    ensures done { IfOk result (λ done. IfSome (F.view files.old).held (λ held.
        upgrade_outcome (held source.now) ≡ accepted done.conflicts)) }
    ensures written { OnOk result (WritesUpgrade source.now target.now
        (F.view files.old).held (F.view files.new).held) }
    ensures ended { OnOk result ((F.view files.new).writing ≡ None) }
    ensures fault { IfErr result (λ fault. IfSome (F.view files.old).held (λ held.
        IsFaultOf (upgrade_outcome (held source.now)) fault)) }
    ensures refused { IfErr result (λ fault. is_refusing fault ≡ true
        → LeavesFiles (F.view files.old) (F.view files.new)) }
    ensures part { OnErr result (IsPartWritten source.now target.now
        (F.view files.old).held (F.view files.new).held) }
    ensures opens { UpgradesFile source.now target.now (is_check_failed result)
        (F.view files.old) (F.view files.new) }
{
    match read(alloc, files, source) {
        Ok((lines, conflicts)) => match write(alloc, files, target, &lines) {
            Ok(()) => Ok(Upgraded { conflicts }),
            Err(fault) => Err(fault),
        },
        Err(fault) => Err(fault),
    }
}

/// Writes the certificate in the file `source` to the file `target`, in version 2 with the longest runs. Both names
/// may be equal. It needs no dictionaries: for every stack the new certificate is valid exactly where the old one is.
///
/// The source is read to its end, and its form found right, before the target is begun. `Rejected` says which line is
/// the first whose form is wrong, and why; then the certificate is valid for no stack. `TooLong` comes for more than
/// 1,073,741,824 bytes. After both no file has changed, and neither where reading the source failed. Where writing
/// the target failed or memory ran out, it may have a prefix of the new certificate. A fault, the limit and memory are
/// told at the place in the file at which they are met.
///
/// Memory holds a line for each run and each row. The cost is linear in the bytes.
pub fn upgrade<F: Files>(
    alloc: Global,
    files: &mut F,
    source: &str,
    target: &str,
) -> Result<Upgraded, CheckFault>
    ensures done { IfOk result (λ done. IfSome (F.view files.old).held (λ held.
        IsUpgraded (held source.now) (upgraded_text (held source.now)) done.conflicts)) }
    ensures written { OnOk result (WritesUpgrade source.now target.now
        (F.view files.old).held (F.view files.new).held) }
    ensures ended { OnOk result ((F.view files.new).writing ≡ None) }
    ensures fault { IfErr result (λ fault. IfSome (F.view files.old).held (λ held.
        IsUpgradeCause (held source.now) fault)) }
    ensures refused { IfErr result (λ fault. is_refusing fault ≡ true
        → LeavesFiles (F.view files.old) (F.view files.new)) }
    ensures part { OnErr result (IsPartWritten source.now target.now
        (F.view files.old).held (F.view files.new).held) }
    ensures opens { UpgradesFile source.now target.now (is_check_failed result)
        (F.view files.old) (F.view files.new) }
{
    rewrite(alloc, files, source, target)
}
