//! What the definitions of the promise say of themselves. The function does nothing, and its contract is a law.

ghost use Rattle.std.specs.Prelude.{◌≡◌, false, Option};
ghost use Rattle.commands.specs.Commands.{CommandView};
ghost use Rattle.commands.specs.Inputs.{searches};
ghost use Rattle.audit_top.specs.Outcomes.{Expected, Inputs};
ghost use Rattle.audit_top.specs.Expected.{IsExpected, IsTold};

/// At most one result is expected of a command on its inputs, where the files tell what they hold. So what a run
/// produces without a fault is one function of the arguments and the files, whoever searches and in whatever order.
/// Where nothing is searched there is such a result.
pub fn expected_results()
    ensures some { (inputs : Inputs) (command : Option CommandView) →
        searches command ≡ false → (result : Expected) × IsExpected inputs command result }
    ensures one { (inputs : Inputs) (command : Option CommandView) (a b : Expected) →
        IsTold command inputs → IsExpected inputs command a → IsExpected inputs command b → a ≡ b }
{}
