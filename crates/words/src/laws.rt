//! Laws over the definitions alone. Each function's contract is its law.
ghost use Rattle.std.specs.Prelude.{◌≡◌, ◌↔◌, List, ℕ, Some};
ghost use Rattle.words.specs.declared.command.Command.{Command};
ghost use Rattle.words.specs.Forms.{Names};
ghost use Rattle.words.specs.Rules.{command_in};

/// What `clap` finds and the rules behind it are the forms of the commands: a list of words is taken as
/// a command exactly where it is one of its forms, and as one command at most.
pub fn words_laws()
    ensures forms { (words : List (List ℕ)) (c : Command) → (command_in words ≡ Some c) ↔ Names words c }
    ensures one { (words : List (List ℕ)) (c d : Command) → Names words c → Names words d → c ≡ d }
{}
