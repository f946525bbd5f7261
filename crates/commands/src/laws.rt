//! What the definition of a command says of itself.

ghost use Rattle.std.specs.Prelude.{◌≡◌, ◌↔◌, ℕ, List, Some};
ghost use Rattle.commands.specs.Commands.{CommandView, IsCommand};
ghost use Rattle.commands.specs.Reading.{command_of};

/// The function that reads arguments takes exactly those that are written as a command.
pub fn command_arguments()
    ensures { (args : List (List ℕ)) (command : CommandView) →
        (command_of args ≡ Some command) ↔ IsCommand args command }
{}
