//! The nodes that a node rests on.
ghost use Rattle.std.specs.Prelude.{◌≡◌, ℕ, ◌<◌, ◌≤◌, suc, length, IfOk, true, Bool};
ghost use Rattle.std.specs.List.{All};
ghost use Rattle.series_graph.specs.Formula.{place_of, formula_of, EachNamed};
ghost use Rattle.series_graph.specs.Nodes.{formulas_in};
ghost use Rattle.series_graph.specs.Meaning.{formula_at};
ghost use Rattle.series_graph.specs.Calls.{IsAncestor, IsMarked, Marks};

use crate::node::{Form, Node};
use ps_model::OutOfMemory;
use std::alloc::Global;

/// Marks each node that is named.
fn mark_named(form: &Form, marks: &mut [bool])
    requires { EachNamed (λ j. j < length marks.old) (formula_of form.now) }
    ensures length { length marks.new ≡ length marks.old }
    ensures named { EachNamed (IsMarked marks.new) (formula_of form.now) }
    ensures kept { (j : ℕ) → IsMarked marks.old j → IsMarked marks.new j }
    ensures only { (has : ℕ → Bool) → EachNamed (λ j. has j ≡ true) (formula_of form.now) →
        ((j : ℕ) → IsMarked marks.old j → has j ≡ true) → (j : ℕ) → IsMarked marks.new j →
        has j ≡ true }
{
    match form {
        Form::Number(_) | Form::Variable(_) => {}
        Form::Combination(of) => {
            for (_, id) in of {
                marks[id.index as usize] = true;
            }
        }
        Form::Dot(of) => {
            for (a, b) in of {
                marks[a.index as usize] = true;
                marks[b.index as usize] = true;
            }
        }
        Form::Quotient(a, b) => {
            marks[a.index as usize] = true;
            marks[b.index as usize] = true;
        }
    }
}

/// For each node up to node i whether i rests on it, or is it: a node is marked before those that
/// it names are.
pub fn ancestors_of(alloc: Global, nodes: &[Node], i: usize) -> Result<Vec<bool>, OutOfMemory>
    requires node { i < length nodes.now }
    requires earlier { (k : ℕ) → k < length nodes.now →
        EachNamed (λ j. j < k) (formula_at (formulas_in nodes.now) k) }
    ensures length { IfOk result (λ marks. length marks.items ≡ suc i) }
    ensures ancestors { IfOk result (λ marks. Marks (formulas_in nodes.now) i marks.items) }
{
    let mut marks = vec![in alloc; false; i + 1]?;
    marks[i] = true;
    for k in (0..i + 1).rev() {
        if marks[k] {
            mark_named(&nodes[k].form, &mut marks);
        }
    }
    Ok(marks)
}
