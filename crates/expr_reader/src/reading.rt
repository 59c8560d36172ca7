//! Reading a whole text.
ghost use Rattle.std.specs.Prelude.{◌≡◌, ◌≢◌, ◌≤◌, ◌↔◌, length, IfOk, Ok, Err};
ghost use Rattle.ps_model.specs.declared.expr.Expr.{Expr};
ghost use Rattle.ps_model.specs.Tree.{IsValidTree};
ghost use Rattle.ps_model.specs.Tokens.{without_blanks};
ghost use Rattle.ps_model.specs.FirstFault.{Fault, IsFirstFault, Reads};
ghost use Rattle.expr_reader.specs.ReadErrors.{error_of};

use crate::parsing::read_trimmed;
use crate::scanning::is_blank;
use crate::{Names, ReadError};
use ps_model::Expr;
use std::alloc::Global;

/// The tree that a text spells, or the fault of the first token that fails a test. The text need not
/// be UTF-8. Its time is linear in the text's length.
pub fn read(alloc: Global, text: &[u8], names: &Names) -> Result<Expr, ReadError>
    requires { length text.now ≤ 65536 }
    ensures tree { result ≢ Err ReadError.OutOfMemory → (e : Expr) →
        (result ≡ Ok e) ↔ Reads names.now text.now e }
    ensures fault { result ≢ Err ReadError.OutOfMemory → (f : Fault) →
        (result ≡ Err (error_of f)) ↔ IsFirstFault names.now text.now f }
    ensures valid { IfOk result (λ e. IsValidTree (length names.now) e) }
{
    read_trimmed(alloc, trimmed(text), names)
}

/// A text without the blanks at its end.
fn trimmed(text: &[u8]) -> &[u8]
    ensures same { result.now ≡ without_blanks text.now }
    ensures within { length result.now ≤ length text.now }
{
    let mut end = text.len();
    while end > 0 && is_blank(text[end - 1]) {
        end -= 1;
    }
    &text[..end]
}
