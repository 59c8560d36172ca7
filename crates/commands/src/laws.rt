//! Laws over the definitions alone. Each function's contract is its law.
ghost use Rattle.std.specs.Prelude.{ℕ, Bool, List, Option};
ghost use Rattle.ps_model.specs.Bounds.{ExactlyOne};
ghost use Rattle.script.specs.Answers.{items_of};
ghost use Rattle.script.specs.Script.{State};
ghost use Rattle.commands.specs.Words.{Work};
ghost use Rattle.commands.specs.declared.command.ScriptCommand.{ScriptCommand};
ghost use Rattle.commands.specs.Checks.{IsChecked};
ghost use Rattle.commands.specs.Output.{Asked, AreAnswers, IsOutput};

/// Every script has exactly one output. What is written for the lines of any bytes, the state behind
/// them and the requests that they ask for are fixed, as is what `check` tells of them; and so are
/// the text, the status and the steps of a run over the whole input.
pub fn output_laws()
    ensures lines { (c : ScriptCommand) (ended : Bool) (bytes : List ℕ) →
        ExactlyOne {A = List ℕ × Option State × Asked}
        (λ w. AreAnswers c (items_of ended bytes) w.0 w.1 w.2) }
    ensures checks { (ended : Bool) (bytes : List ℕ) →
        ExactlyOne {A = List ℕ × ℕ × ℕ} (λ w. IsChecked ended bytes w.0 w.1 w.2) }
    ensures output { (work : Option Work) (input : List ℕ) →
        ExactlyOne {A = List ℕ × ℕ × ℕ} (λ w. IsOutput work input w.0 w.1 w.2) }
{}
