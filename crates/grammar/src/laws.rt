//! Laws over the definitions alone. Each function's contract is its law.
ghost use Rattle.std.specs.Prelude.{◌≡◌, ◌≤◌, List, ℕ, length};
ghost use Rattle.ps_model.specs.declared.expr.Expr.{Expr};
ghost use Rattle.ps_model.specs.Names.{AreNames};
ghost use Rattle.ps_model.specs.Tree.{IsValidTree};
ghost use Rattle.ps_model.specs.Grammar.{Spells};
ghost use Rattle.ps_model.specs.FirstFault.{Reads};
ghost use Rattle.ps_model.specs.Spelling.{spelling, nesting};

/// A tree has one canonical spelling. That spelling spells the tree and no other.
pub fn l5()
    ensures spells { (names : List (List ℕ)) (e : Expr) → AreNames names
        → IsValidTree (length names) e → Spells names (spelling names e) e }
    ensures no_other { (names : List (List ℕ)) (e f : Expr) → AreNames names
        → IsValidTree (length names) e → Spells names (spelling names e) f → e ≡ f }
    // Reading it gives the tree back.
    ensures reads { (names : List (List ℕ)) (e : Expr) → AreNames names
        → IsValidTree (length names) e → nesting e ≤ 64 → Reads names (spelling names e) e }
{}
