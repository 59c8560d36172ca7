//! The rows of the polynomial of a job.
ghost use Rattle.std.specs.Prelude.{◌≡◌, ◌≢◌, Some, true, false};

use crate::slot_rows::row_of;
use crate::slots::multiplied;
use parts::{Part, Ring, RowSource};
use ps_model::{JobData, OutOfMemory};
use series_graph::{Graph, NodeId};
use std::alloc::Global;
use std::marker::Model;
use std::sync::Arc;

/// The rows of a job's input, and those of the monic input, which times the lead is the input.
///
/// Each part is computed once, and stays.
#[derive(Drop)]
pub struct InputRows {
    alloc: Global,
    ring: Ring,
    job: Arc<JobData>,
    /// Whether the lead isn't known to be 1.
    has_lead: bool,
    graph: Graph,
    /// The coefficients of the input, by power of Y; the last one is the lead.
    input: Vec<NodeId>,
    /// The coefficients of the monic input: the same nodes where the lead is known to be 1.
    monic: Vec<NodeId>,
}

impl Model for InputRows {
    ghost use Rattle.std.specs.Arc.{arc_value};
    ghost use Rattle.ps_model.specs.declared.job.JobData.{JobData as Job};
    ghost use Rattle.ps_model.specs.contracts.job.JobData.{the_row};
    ghost use Rattle.intake.specs.Jobs.{HoldsRows};

    ghost Value = { Job };

    ghost coded = { the_row.coded };

    ghost view = { λ s. arc_value s.job };

    ghost invariant = { λ s.
        HoldsRows s.ring (arc_value s.job) s.has_lead s.graph s.input.items s.monic.items };
}

impl InputRows {
    ghost use Rattle.std.specs.Prelude.{◌≡◌, ◌↔◌, ℕ, ◌≤◌, Some, IfOk, IsTrue, take};
    ghost use Rattle.std.specs.Arc.{arc_value};
    ghost use Rattle.ps_model.specs.AcceptedJob.{IsLawfulJob};
    ghost use Rattle.ps_model.specs.Job.{job_ring};
    ghost use Rattle.ps_model.specs.Lead.{IsLeadShown};
    ghost use Rattle.ps_model.specs.Tree.{formal_degree};
    ghost use Rattle.ps_model.specs.Value.{HasLead};
    ghost use Rattle.parts.specs.JobRows.{IsPermitted, IsRingOf};
    ghost use Rattle.parts.specs.RowsOfParts.{parts_of};
    ghost use Rattle.series_graph.specs.GraphValue.{size_of};
    ghost use Rattle.intake.specs.Slots.{AreIn};
    ghost use Rattle.intake.specs.Jobs.{HasSlots, IsValueRowOf, IsLeadPartOf};

    /// The rows of the job, whose coefficients the nodes are. `lead` is the leading number, where it
    /// is known.
    pub(crate) fn new(
        alloc: Global,
        ring: Ring,
        job: Arc<JobData>,
        lead: Option<u64>,
        mut graph: Graph,
        input: Vec<NodeId>,
    ) -> Result<InputRows, OutOfMemory>
        requires ring { IsRingOf ring (arc_value job) × (graph.ring ≡ ring) }
        requires lawful { IsLawfulJob (arc_value job) }
        requires lead { (l : ℕ) → (lead ≡ Some l)
            ↔ HasLead (job_ring (arc_value job)) (arc_value job).expr l }
        requires room { size_of graph ≤ 4096 }
        requires within { AreIn graph input.items }
        requires slots { HasSlots ring graph.formulas (arc_value job).expr input.items }
        ensures { IfOk result (λ rows. rows ≡ arc_value job) }
    {
        let has_lead = is_shown(lead);
        let monic = if has_lead {
            multiplied(alloc, &mut graph, &input, true, &input[input.len() - 1..])?
        } else {
            input.to_vec(alloc)?
        };
        Ok(InputRows {
            alloc,
            ring,
            job,
            has_lead,
            graph,
            input,
            monic,
        })
    }

    /// The job.
    pub(crate) fn job(&self) -> &Arc<JobData>
        ensures { arc_value result.now ≡ self.now }
    {
        &self.job
    }

    /// The ring of the parts.
    pub(crate) fn ring(&self) -> Ring
        ensures { IsRingOf result self.now }
    {
        self.ring
    }

    /// The formal degree in Y.
    pub(crate) fn degree(&self) -> u32
        ensures degree { result ≡ formal_degree self.now.expr }
        ensures few { result ≤ 32 }
    {
        self.input.len() as u32 - 1
    }

    /// Whether the lead isn't known to be 1, so that it is told beside the factors.
    pub(crate) fn has_lead(&self) -> bool
        ensures { IsTrue result ↔ IsLeadShown (job_ring self.now) self.now.expr }
    {
        self.has_lead
    }

    /// The parts of degree r of the input: `row[j]` belongs to Y^j, from Y^0 to the formal degree.
    pub fn input_row(&mut self, r: u32) -> Result<Vec<Arc<Part>>, OutOfMemory>
        requires { IsPermitted (take self.old.n self.old.weights) r }
        ensures row { IfOk result (λ row. IsValueRowOf self.old r (parts_of row.items)) }
        ensures same { self.new ≡ self.old }
    {
        row_of(self.alloc, &mut self.graph, &self.input, r)
    }

    /// The part of degree r of the lead, the input's coefficient of Y to the formal degree.
    pub fn lead_part(&mut self, r: u32) -> Result<Arc<Part>, OutOfMemory>
        requires { IsPermitted (take self.old.n self.old.weights) r }
        ensures part { IfOk result (λ part. IsLeadPartOf self.old r (arc_value part)) }
        ensures same { self.new ≡ self.old }
    {
        let lead = self.input[self.input.len() - 1];
        self.graph.extend(lead, r)?;
        Ok(Arc::try_clone(self.graph.part(lead, r))?)
    }
}

/// Whether a lead is told, whose number is this where it is known: it isn't known to be 1.
fn is_shown(lead: Option<u64>) -> bool
    ensures shown { result ≡ true → lead ≢ Some 1 }
    ensures known { result ≡ false → lead ≡ Some 1 }
{
    match lead {
        Some(number) => number != 1,
        None => true,
    }
}

impl RowSource for InputRows {
    ghost job = { λ s. s };

    fn row(&mut self, r: u32) -> Result<Vec<Arc<Part>>, OutOfMemory> {
        row_of(self.alloc, &mut self.graph, &self.monic, r)
    }
}
