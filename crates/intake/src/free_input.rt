//! Inputs without roots.
ghost use Rattle.std.specs.Prelude.{◌≡◌, ◌≢◌, ℕ, ◌<◌, ◌≤◌, ◌↔◌, List, length, Some, None, Err, IfOk, IfErr};
ghost use Rattle.std.specs.Prelude.{IfSome};
ghost use Rattle.residue.specs.Residues.{number_of};
ghost use Rattle.ps_model.specs.AcceptedJob.{AreWeights, IsLawfulJob};
ghost use Rattle.ps_model.specs.Input.{InputFault, IsFirstInputFault, IsValidInput};
ghost use Rattle.ps_model.specs.Job.{series_ring};
ghost use Rattle.ps_model.specs.Tree.{IsValidTree, formal_degree as degree_of};
ghost use Rattle.ps_model.specs.Value.{HasLead};
ghost use Rattle.parts.specs.JobRows.{IsPermitted};
ghost use Rattle.parts.specs.Rings.{weights_of, eight_weights};
ghost use Rattle.parts.specs.RowsOfParts.{parts_of};
ghost use Rattle.parts.specs.Series.{series};
ghost use Rattle.intake.specs.InputErrors.{error_of};
ghost use Rattle.intake.specs.InputValue.{IsInputOf, IsValueRow};
ghost use Rattle.intake.specs.Jobs.{IsOriginRow, data_with};
ghost use Rattle.intake.specs.Origin.{HasEightNames};

use crate::building::build;
use crate::divisions::{first_by_y, first_failure};
use crate::free_error::FreeError;
use crate::input_rows::InputRows;
use crate::leading::leading_number;
use crate::slot_rows::row_of;
use expr_reader::Names;
use parts::{Part, Ring};
use ps_model::{Expr, JobData, OutOfMemory, Root, formal_degree, node_count};
use residue::Modulus;
use series_graph::{Graph, NodeId};
use sqlite_items::Items;
use std::alloc::Global;
use std::marker::Model;
use std::sync::Arc;

/// The greatest number of nodes of an input, and the greatest formal degree.
const MOST_NODES: u32 = 4096;

const GREATEST_DEGREE: u32 = 32;

/// A polynomial in Y, as the tree of an expression over named variables, with the nodes of its
/// coefficients: nothing is wrong with it.
#[derive(Drop)]
pub struct FreeInput {
    alloc: Global,
    names: Names,
    ring: Ring,
    expr: Expr,
    graph: Graph,
    /// The coefficients of the value, from Y^0 to the formal degree.
    slots: Vec<NodeId>,
    /// The leading number, None where it isn't known.
    lead: Option<u64>,
}

impl Model for FreeInput {
    ghost use Rattle.intake.specs.InputValue.{InputValue, input_code, IsInput};

    ghost Value = { InputValue };

    ghost coded = { input_code };

    ghost view = { λ input. record { names = input.names; ring = input.ring; expr = input.expr } };

    ghost invariant = { λ input. IsInput (record { names = input.names; ring = input.ring; expr = input.expr })
        input.graph input.slots.items input.lead };
}

impl FreeInput {
    /// The input that a tree is: `weights[i]` is that of variable i, and 1 past the names.
    ///
    /// What is wrong with it is found out in time linear in the tree, before a node is made. On a
    /// refusal the arguments are dropped.
    pub fn make(
        alloc: Global,
        modulus: Modulus,
        names: Names,
        weights: [u16; 8],
        expr: Expr,
    ) -> Result<FreeInput, FreeError>
        requires some { 0 < length names }
        requires weights { AreWeights (length names) weights }
        requires tree { IsValidTree (length names) expr }
        ensures ok { IfOk result (IsInputOf modulus names weights expr) }
        ensures valid { IfOk result (λ _. IsValidInput (series_ring (number_of modulus) weights) expr) }
        ensures fault { (f : InputFault) → IsFirstInputFault (series_ring (number_of modulus) weights) expr f
            → result ≡ Err (error_of f) }
        ensures err { IfErr result (λ e. e ≢ FreeError.OutOfMemory → (f : InputFault)
            × IsFirstInputFault (series_ring (number_of modulus) weights) expr f × (e ≡ error_of f)) }
    {
        if let Some(error) = first_input_fault(modulus, &expr) {
            return Err(error);
        }
        let ring = Ring::weighted(modulus, names.len(), weights);
        let lead = leading_number(modulus, &expr);
        let mut graph = Graph::new(alloc, ring);
        let slots = build(alloc, &mut graph, modulus, &expr)?;
        Ok(FreeInput {
            alloc,
            names,
            ring,
            expr,
            graph,
            slots,
            lead,
        })
    }

    /// The parts of degree r of the value: `row[j]` belongs to Y^j, from Y^0 to the formal degree.
    /// What is known stays, also on a refusal.
    pub fn row(&mut self, r: u32) -> Result<Vec<Arc<Part>>, OutOfMemory>
        requires { IsPermitted (weights_of self.old.ring) r }
        ensures row { IfOk result (λ row. IsValueRow self.old r (parts_of row.items)) }
        ensures same { self.new ≡ self.old }
    {
        row_of(self.alloc, &mut self.graph, &self.slots, r)
    }

    /// The formal degree in Y.
    pub fn degree(&self) -> u32
        ensures degree { result ≡ degree_of self.now.expr }
        ensures few { result ≤ 32 }
    {
        formal_degree(&self.expr)
    }

    /// The names of the variables.
    pub fn names(&self) -> &Names
        ensures { result.now ≡ self.now.names }
    {
        &self.names
    }

    /// The ring of the coefficients.
    pub fn ring(&self) -> Ring
        ensures { result ≡ self.now.ring }
    {
        self.ring
    }

    /// The coefficient of the power of Y that is the formal degree, where the tree's form alone tells
    /// it. A product's is a product, and of a variable's none is known.
    pub fn lead(&self) -> Option<u64>
        ensures { (l : ℕ) → (result ≡ Some l) ↔ HasLead (series self.now.ring) self.now.expr l }
    {
        self.lead
    }

    /// The coefficients of the value at the origin, from Y^0 to the formal degree.
    pub(crate) fn at_origin(&self) -> Result<Vec<u64>, OutOfMemory>
        ensures { IfOk result (λ row. IsOriginRow self.now row.items) }
    {
        let mut row = Vec::new(self.alloc);
        for slot in &self.slots {
            row.push(self.graph.constant(*slot))?;
        }
        Ok(row)
    }

    /// The names, and the rows of the job of this input and these roots.
    pub(crate) fn into_rows(self, roots: Vec<Root>) -> Result<(Names, InputRows), OutOfMemory>
        requires { IsLawfulJob (data_with self roots.items) }
        ensures names { IfOk result (λ both. both.0 ≡ self.names) }
        ensures job { IfOk result (λ both. both.1 ≡ data_with self roots.items) }
    {
        let FreeInput {
            alloc,
            names,
            ring,
            expr,
            graph,
            slots,
            lead,
        } = self;
        let job = JobData {
            modulus: ring.modulus().value(),
            n: ring.n(),
            weights: weights_of(ring),
            expr,
            roots: Items::from_vec(roots),
        };
        let job = Arc::new(alloc, job)?;
        let rows = InputRows::new(alloc, ring, job, lead, graph, slots)?;
        Ok((names, rows))
    }
}

/// The weight of each variable, and 1 past them.
fn weights_of(ring: Ring) -> [u16; 8]
    ensures { result ≡ eight_weights ring }
{
    let mut weights = [1; 8];
    for i in 0..ring.n() {
        weights[i as usize] = ring.weight(i) as u16;
    }
    weights
}

/// What is wrong with an input first. It goes over the tree a few times, and takes no memory.
pub fn first_input_fault(modulus: Modulus, expr: &Expr) -> Option<FreeError>
    requires names { HasEightNames expr.now }
    ensures some { (ws : List ℕ) → IfSome result (λ error. (f : InputFault)
        × IsFirstInputFault (series_ring (number_of modulus) ws) expr.now f
        × (error ≡ error_of f)) }
    ensures none { result ≡ None → (ws : List ℕ)
        → IsValidInput (series_ring (number_of modulus) ws) expr.now }
{
    if let Some(division) = first_by_y(expr) {
        return Some(FreeError::DividesByY { division });
    }
    let count = node_count(expr);
    if count > MOST_NODES {
        return Some(FreeError::TooManyNodes { count });
    }
    let degree = formal_degree(expr);
    if degree > GREATEST_DEGREE {
        return Some(FreeError::DegreeTooLarge { degree });
    }
    match first_failure(modulus, expr) {
        Some(failure) => Some(FreeError::NotAUnit {
            division: failure.division,
            value: failure.value,
            gcd: failure.gcd,
        }),
        None => None,
    }
}
