//! The law of upgraded certificates.

ghost use Rattle.std.specs.Prelude.{ℕ, List, ◌≡◌};
ghost use Rattle.certificate_laws.specs.Checks.{accepted, rejected};
ghost use Rattle.report.specs.declared.faults.Why.{Why};
ghost use Rattle.cert_upgrade.specs.Forms.{upgrade_outcome};
ghost use Rattle.cert_upgrade.specs.Upgrades.{IsNeverValid, IsUpgraded, upgraded_text};

/// A certificate whose form is right is upgraded to one that is valid for the same stacks. One that is rejected is
/// valid for no stack.
pub fn upgraded_certificates()
    ensures accepted { (bytes : List ℕ) (n : ℕ) → upgrade_outcome bytes ≡ accepted n
        → IsUpgraded bytes (upgraded_text bytes) n }
    ensures rejected { (bytes : List ℕ) (line : ℕ) (why : Why)
        → upgrade_outcome bytes ≡ rejected line why → IsNeverValid bytes }
{}
