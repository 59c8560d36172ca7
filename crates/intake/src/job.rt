//! Jobs.
use crate::free_input::FreeInput;
use crate::input_rows::InputRows;
use crate::job_error::JobError;
use crate::root_faults::test_roots;
use expr_reader::Names;
use parts::Ring;
use ps_model::{Expr, JobData, Root};
use residue::Modulus;
use std::alloc::Global;
use std::marker::Model;
use std::sync::Arc;

/// A polynomial that can be factored by its roots at the origin, with the names of its variables.
#[derive(Drop)]
pub struct Job {
    names: Names,
    rows: InputRows,
}

impl Model for Job {
    ghost use Rattle.intake.specs.Jobs.{JobValue, job_code};

    ghost Value = { JobValue };

    ghost coded = { job_code };

    ghost view = { λ s. record { names = s.names; job = s.rows } };
}

impl Job {
    ghost use Rattle.std.specs.Prelude.{◌≡◌, ◌↔◌, ◌<◌, ◌≤◌, IfOk, IfErr, IsTrue, length};
    ghost use Rattle.std.specs.Arc.{arc_value};
    ghost use Rattle.std.specs.Borrow.{Lends, sem};
    ghost use Rattle.std.specs.List.{All};
    ghost use Rattle.residue.specs.Residues.{number_of};
    ghost use Rattle.ps_model.specs.AcceptedJob.{AreWeights, IsAcceptedRoot, IsAccepted};
    ghost use Rattle.ps_model.specs.Job.{job_ring};
    ghost use Rattle.ps_model.specs.Lead.{IsLeadShown};
    ghost use Rattle.ps_model.specs.Tree.{IsValidTree, formal_degree};
    ghost use Rattle.parts.specs.JobRows.{IsRingOf};
    ghost use Rattle.intake.specs.JobErrors.{IsJobRefusal};
    ghost use Rattle.intake.specs.Jobs.{data_of};
    ghost use Rattle.intake.specs.contracts.job.Job.{the_row};
    ghost use Rattle.intake.specs.contracts.input_rows.InputRows.{the_row as rows_row};

    /// The job of an expression over the names and its roots at the origin. `weights[i]` is the
    /// degree of variable i, and 1 past the names.
    ///
    /// The refusals are those of `JobError`, in their order; the arguments are dropped then.
    pub fn make(
        alloc: Global,
        modulus: Modulus,
        names: Names,
        weights: [u16; 8],
        expr: Expr,
        roots: Vec<Root>,
    ) -> Result<Job, JobError>
        requires some { 0 < length names }
        requires weights { AreWeights (length names) weights }
        requires tree { IsValidTree (length names) expr }
        requires some_root { 0 < length roots.items }
        requires roots { All (IsAcceptedRoot (number_of modulus)) roots.items }
        ensures made { IfOk result (λ job. job ≡ record {
          names = names;
          job = data_of (number_of modulus) names weights expr roots.items;
        }) }
        ensures accepted { IfOk result (λ job. IsAccepted job.job) }
        ensures fault { IfErr result
            (IsJobRefusal (data_of (number_of modulus) names weights expr roots.items)) }
    {
        let input = FreeInput::make(alloc, modulus, names, weights, expr)?;
        let at_origin = input.at_origin()?;
        test_roots(alloc, modulus, &at_origin, &roots)?;
        let (names, rows) = input.into_rows(roots)?;
        Ok(Job { names, rows })
    }

    /// What is factored, as data.
    pub fn data(&self) -> &Arc<JobData>
        ensures { arc_value result.now ≡ self.now.job }
    {
        self.rows.job()
    }

    /// The names of the variables.
    pub fn names(&self) -> &Names
        ensures { result.now ≡ self.now.names }
    {
        &self.names
    }

    /// The ring of the parts.
    pub fn ring(&self) -> Ring
        ensures { IsRingOf result self.now.job }
    {
        self.rows.ring()
    }

    /// The formal degree in Y, at most 32.
    pub fn degree(&self) -> u32
        ensures degree { result ≡ formal_degree self.now.job.expr }
        ensures few { result ≤ 32 }
    {
        self.rows.degree()
    }

    /// Whether the lead isn't known to be 1, so that it is told beside the factors.
    pub fn has_lead(&self) -> bool
        ensures { IsTrue result ↔ IsLeadShown (job_ring self.now.job) self.now.job.expr }
    {
        self.rows.has_lead()
    }

    /// The rows of its polynomial.
    pub fn input(&mut self) -> &mut InputRows
        ensures value { result.now ≡ self.old.job }
        ensures* writes_back { sem 𝓛 (Lends the_row rows_row self.entry result (λ w. record self.old { job = w })) }
    {
        &mut self.rows
    }
}
