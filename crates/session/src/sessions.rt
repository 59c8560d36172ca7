//! Sessions.
ghost use Rattle.std.specs.Prelude.{◌≡◌, ℕ, ◌+◌, ◌<◌, ◌≤◌, ◌^◌, ◌↔◌, length, map, take};
ghost use Rattle.std.specs.Prelude.{None, Some, IfOk, IfSome, IsOk, OnOk, OnErr, vec_capacity};
ghost use Rattle.std.specs.Arc.{arc_value};
ghost use Rattle.std.specs.Coded.{Coded-set};
ghost use Rattle.ps_model.specs.AcceptedJob.{IsAccepted};
ghost use Rattle.ps_model.specs.contracts.job.JobData.{the_row};
ghost use Rattle.parts.specs.JobRows.{IsPermitted};
ghost use Rattle.parts.specs.RowsOfParts.{parts_of, part_in};
ghost use Rattle.stages.specs.Lines.{OfStage};
ghost use Rattle.stages.specs.Splitters.{IsPreparationOf};
ghost use Rattle.stages.specs.States.{StageState, state_by, prepared_of};
ghost use Rattle.stages.specs.Titles.{times_at};
ghost use Rattle.expr_reader.specs.NameLists.{as_names, AreNames-as_names};
ghost use Rattle.intake.specs.Jobs.{IsLeadPartOf};
ghost use Rattle.printer.specs.View.{HasUpTo, Reaches, part_at};
ghost use Rattle.session.specs.Precisions.{weights_in, IsGreatestPermitted};
ghost use Rattle.session.specs.FactorParts.{IsFactorPart};
ghost use Rattle.session.specs.Sessions.{SessionState, IsSession, HasItems, value_of};
ghost use Rattle.session.specs.Calls.{IsFresh, HaveAll, KeepsSession, IsRaised, IsWithin, prepared_degrees};
ghost use Rattle.session.specs.Props.{IsSession-IsProp, HasItems-IsProp};
ghost use Rattle.pipe.specs.Looks.{state_of};
ghost use Rattle.session.specs.Shared.{place_of, HaveRead, HaveRead-IsProp};

use crate::lead::extend_lead;
use crate::precision::greatest_permitted;
use intake::Job;
use parts::{Part, Ring};
use prepare::{Prep, Tally};
use ps_model::{NameView, OutOfMemory};
use rows::{OwnRow, RowOut, RowReader};
use stages::{Line, LineView, StageItem, empty_rows};
use std::alloc::Global;
use std::marker::Sync;
use std::sync::Arc;
use std::thread::Threads;

/// What contracts see of a session.
pub trait SessionView {
    ghost state: { Self → SessionState };

    ghost holds: { (session : Self) → IsSession (state session) };

    ghost fits: { (session : Self) → HasItems (state session) };
}

/// A job, with its factors and its lead as far as they are known.
///
/// The rows of the factors have a kind of their own, and take no memory once they are made.
#[derive(Drop)]
pub struct Session<R: RowOut<StageItem>> {
    pub(crate) alloc: Global,
    pub(crate) job: Job,
    pub(crate) ring: Ring,
    /// Whether the lead isn't known to be 1.
    pub(crate) shows_lead: bool,
    pub(crate) line: Line<R>,
    /// The parts of the lead, in memory that is taken when the session is opened.
    pub(crate) lead: Vec<Arc<Part>>,
    /// Where the rows are shared, a reader of each for the workers.
    pub(crate) inner: Vec<RowReader<StageItem>>,
    /// Where the rows are shared, a reader of each, until it is taken.
    pub(crate) outer: Vec<Option<RowReader<StageItem>>>,
    ghost same_job: { arc_value line.job ≡ job.job } by { Coded-set the_row.coded _ _ },
    ghost holds: { IsSession (record {
      job = job;
      ring = ring;
      shows_lead = shows_lead;
      stages = map (λ s. state_by R.capacity R.name R.items s.splitter s.row) line.stages.items;
      lead = parts_of lead.items;
    }) } by { IsSession-IsProp _ },
    ghost fits: { HasItems (record {
      job = job;
      ring = ring;
      shows_lead = shows_lead;
      stages = map (λ s. state_by R.capacity R.name R.items s.splitter s.row) line.stages.items;
      lead = parts_of lead.items;
    }) } by { HasItems-IsProp _ },
    ghost reserved: { (d : ℕ) → IsPermitted (weights_in job.job) d → d < vec_capacity lead },
    ghost read: { HaveRead
        (map (λ s. state_by R.capacity R.name R.items s.splitter s.row) line.stages.items)
        (map state_of inner.items) (map place_of outer.items) } by { HaveRead-IsProp _ _ _ },
}

impl<R: RowOut<StageItem>> SessionView for Session<R> {
    ghost state = { λ s. record {
      job = s.job;
      ring = s.ring;
      shows_lead = s.shows_lead;
      stages = map (λ t. state_by R.capacity R.name R.items t.splitter t.row) s.line.stages.items;
      lead = parts_of s.lead.items;
    } };

    ghost holds = { λ s. s.holds };

    ghost fits = { λ s. s.fits };
}

impl NameView for Session<OwnRow<StageItem>> {
    ghost names = { λ s. as_names s.job.names };

    ghost are_names = { λ s. AreNames-as_names s.job.names };

    fn name(&self, i: u32) -> &str {
        self.job.names().name(i)
    }
}

impl Session<OwnRow<StageItem>> {
    /// A session of the job, in which nothing is known yet. It takes the memory of its rows, which
    /// have room up to the greatest precision that may be asked for.
    pub fn open(alloc: Global, job: Job) -> Result<Session<OwnRow<StageItem>>, OutOfMemory>
        requires accepted { IsAccepted job.job }
        requires names { length job.names ≡ job.job.n }
        ensures { IfOk result (λ s. (d : ℕ) → IsGreatestPermitted (weights_in job.job) d →
            IsFresh (d + 1) job (⟦<Session<OwnRow<StageItem>> as SessionView>⟧.state s)) }
    {
        let ring = job.ring();
        let shows_lead = job.has_lead();
        // that there are as many names tells the proof that they are names
        let _names = job.names().len();
        let capacity = greatest_permitted(ring) + 1;
        let rows = empty_rows(alloc, job.data(), capacity)?;
        let line = match Line::new(alloc, ring, Arc::try_clone(job.data())?, rows) {
            Ok(line) => line,
            Err((refusal, _rows)) => return Err(refusal),
        };
        let lead = Vec::with_capacity(alloc, capacity as usize)?;
        Ok(Session {
            alloc,
            job,
            ring,
            shows_lead,
            line,
            lead,
            inner: Vec::new(alloc),
            outer: Vec::new(alloc),
        })
    }
}

impl<R: RowOut<StageItem>> Session<R> {
    /// The job.
    pub fn job(&self) -> &Job
        ensures { result.now ≡ (⟦<Self as SessionView>⟧.state self.now).job }
    {
        &self.job
    }

    /// The ring of the parts.
    pub fn ring(&self) -> Ring
        ensures { result ≡ (⟦<Self as SessionView>⟧.state self.now).ring }
    {
        self.ring
    }

    /// How many roots the job has.
    pub(crate) fn roots(&self) -> u32
        ensures { result ≡ length (⟦<Self as SessionView>⟧.state self.now).job.job.roots }
    {
        self.line.stages()
    }

    /// The greatest degree that every row and the lead have; None exactly where one of these is
    /// empty.
    pub fn known(&self) -> Option<u32>
        ensures { (d : ℕ) →
            Reaches result d ↔ HasUpTo (value_of (⟦<Self as SessionView>⟧.state self.now)) d }
    {
        let mut least = self.lead.len() as u32;
        for stage in 0..self.line.stages() {
            least = least.min(self.line.len(stage));
        }
        least.checked_sub(1)
    }

    /// Raises each row and the lead to a degree, where they have not got there. Each degree that is
    /// prepared ticks once.
    ///
    /// On a refusal each row and the lead begins with what it was, and is a prefix of what it is
    /// defined to be; a later raise goes on from there. Where all is there already nothing changes,
    /// and neither a step nor memory is taken.
    pub fn raise(&mut self, to: u32, tally: &mut Tally) -> Result<(), OutOfMemory>
        requires permitted { IsPermitted (weights_in (⟦<Self as SessionView>⟧.state self.old).job.job) to }
        requires tally { tally.old ≤ 2 ^ 61 }
        ensures kept { let state = ⟦<Self as SessionView>⟧.state in
            KeepsSession (state self.old) (state self.new) }
        ensures ok { let state = ⟦<Self as SessionView>⟧.state in
            OnOk result (IsRaised (to + 1) (state self.old) (state self.new)) }
        ensures within { let state = ⟦<Self as SessionView>⟧.state in
            IsWithin (to + 1) (state self.old) (state self.new) }
        ensures ticks { let state = ⟦<Self as SessionView>⟧.state in
            tally.new + prepared_degrees (state self.old)
            ≡ tally.old + prepared_degrees (state self.new) }
        ensures there { let state = ⟦<Self as SessionView>⟧.state in
            HaveAll (to + 1) (state self.old) → IsOk result
            × (state self.new ≡ state self.old) × (tally.new ≡ tally.old) }
    {
        let input = self.job.input();
        extend_lead(input, &mut self.lead, to)?;
        self.line.raise(input, to, tally)?;
        Ok(())
    }

    /// Raises each row and the lead to a degree as `raise` does, the rows in rounds: in each round the
    /// stages that can put their next item, split over at most `workers` threads.
    pub fn raise_rounds(
        &mut self,
        rt: &(impl Threads + Sync),
        to: u32,
        workers: u32,
        tally: &mut Tally,
    ) -> Result<(), OutOfMemory>
        requires permitted { IsPermitted (weights_in (⟦<Self as SessionView>⟧.state self.old).job.job) to }
        requires some_workers { 1 ≤ workers }
        requires few_workers { workers ≤ 64 }
        requires tally { tally.old ≤ 2 ^ 61 }
        ensures kept { let state = ⟦<Self as SessionView>⟧.state in
            KeepsSession (state self.old) (state self.new) }
        ensures ok { let state = ⟦<Self as SessionView>⟧.state in
            OnOk result (IsRaised (to + 1) (state self.old) (state self.new)) }
        ensures within { let state = ⟦<Self as SessionView>⟧.state in
            IsWithin (to + 1) (state self.old) (state self.new) }
        ensures ticks { let state = ⟦<Self as SessionView>⟧.state in
            tally.new + prepared_degrees (state self.old)
            ≡ tally.old + prepared_degrees (state self.new) }
        ensures there { let state = ⟦<Self as SessionView>⟧.state in
            HaveAll (to + 1) (state self.old) → IsOk result
            × (state self.new ≡ state self.old) × (tally.new ≡ tally.old) }
    {
        let rows = self.job.input();
        extend_lead(rows, &mut self.lead, to)?;
        self.line.raise_rounds(rt, rows, to, workers, tally)?;
        Ok(())
    }

    /// The preparation of stage `stage`, once it is begun.
    pub fn preparation(&self, stage: u32) -> Option<&Prep>
        requires { stage < length (⟦<Self as SessionView>⟧.state self.now).stages }
        ensures none { OfStage (⟦<Self as SessionView>⟧.state self.now).stages stage
            (λ s. (result ≡ None) ↔ (prepared_of s ≡ 0)) }
        ensures some { OfStage (⟦<Self as SessionView>⟧.state self.now).stages stage
            (λ s. IfSome result (λ prep. s.preparation ≡ Some prep.now)) }
        ensures rows { OfStage (⟦<Self as SessionView>⟧.state self.now).stages stage
            (λ s. IfSome result (λ prep. IsPreparationOf
            (record { job = (⟦<Self as SessionView>⟧.state self.now).job.job; stage = stage })
            s.ring prep.now)) }
    {
        self.line.preparation(stage)
    }

    /// The part of degree r of the coefficient of `Y^power` in the factor of root i, counted
    /// from 0.
    pub fn factor_part(&self, i: u32, power: u32, r: u32) -> &Part
        requires factor { i < length (⟦<Self as SessionView>⟧.state self.now).job.job.roots }
        requires power { power ≤ times_at (⟦<Self as SessionView>⟧.state self.now).job.job i }
        requires known { HasUpTo (value_of (⟦<Self as SessionView>⟧.state self.now)) r }
        ensures part { IsFactorPart (⟦<Self as SessionView>⟧.state self.now).job.job i power r
            result.now }
        ensures seen { result.now
            ≡ part_at (value_of (⟦<Self as SessionView>⟧.state self.now)) i power r }
    {
        &self.line.item(i, r).factor()[power as usize]
    }

    /// The part of degree r of the lead.
    pub fn lead_part(&self, r: u32) -> &Part
        requires { HasUpTo (value_of (⟦<Self as SessionView>⟧.state self.now)) r }
        ensures part { IsLeadPartOf (⟦<Self as SessionView>⟧.state self.now).job.job r result.now }
        ensures seen { result.now ≡ part_in (⟦<Self as SessionView>⟧.state self.now).lead r }
    {
        &self.lead[r as usize]
    }

    /// Whether the lead isn't known to be 1, so that it is written beside the factors.
    pub fn has_lead(&self) -> bool
        ensures { result ≡ (⟦<Self as SessionView>⟧.state self.now).shows_lead }
    {
        self.shows_lead
    }
}
