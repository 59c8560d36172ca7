//! How a stage splits its factor off.
ghost use Rattle.std.specs.Prelude.{◌≡◌, ℕ, ◌+◌, ◌-◌, ◌<◌, ◌≤◌, ◌^◌, length, IfOk, OnOk, OnErr};
ghost use Rattle.std.specs.Prelude.{IfSome, IfNone, Some};
ghost use Rattle.ps_model.specs.AcceptedJob.{IsAccepted};
ghost use Rattle.parts.specs.JobRows.{IsRingOf};
ghost use Rattle.parts.specs.RowsOfParts.{parts_of, IsRowOfParts};
ghost use Rattle.parts.specs.Rings.{modulus_of};
ghost use Rattle.prepare.specs.Calls.{Begins};
ghost use Rattle.taylor.specs.Shifts.{AreRowParts};
ghost use Rattle.stages.specs.Preparing.{CanBegin, HasNextRow, IsNextPreparation};
ghost use Rattle.stages.specs.Slices.{IsUpstream, HasShift};

use crate::item::StageItem;
use crate::title::StageTitle;
use parts::{Part, Ring};
use prepare::{Prep, PrepError, Tally};
use ps_model::OutOfMemory;
use std::alloc::Global;
use std::marker::Model;
use std::sync::Arc;
use taylor::{SharedBinomials, shift};

/// The greatest degree in Y of a polynomial that can be factored.
const MOST_DEGREE: u32 = 32;

/// Prepares the polynomial before a stage, shifted by the stage's root, and shifts the rows of the
/// prepared pair back.
#[derive(Drop)]
pub struct Splitter {
    alloc: Global,
    ring: Ring,
    title: StageTitle,
    tables: Arc<SharedBinomials>,
    preparation: Option<Prep>,
}

impl Model for Splitter {
    ghost use Rattle.stages.specs.Splitters.{SplitterValue, splitter_code, IsSplitter};

    ghost Value = { SplitterValue };

    ghost coded = { splitter_code };

    ghost view = { λ s. record {
      ring = s.ring;
      title = s.title;
      preparation = s.preparation;
    } };

    ghost invariant = { λ s. IsSplitter (record {
      ring = s.ring;
      title = s.title;
      preparation = s.preparation;
    }) };
}

impl Splitter {
    ghost use Rattle.stages.specs.Items.{IsItem};
    ghost use Rattle.stages.specs.Splitters.{prepared_in, IsOneFurther, IsPreparationOf};

    /// Nothing is prepared yet.
    pub fn new(
        alloc: Global,
        ring: Ring,
        title: StageTitle,
        tables: Arc<SharedBinomials>,
    ) -> Splitter
        requires accepted { IsAccepted title.job }
        requires ring { IsRingOf ring title.job }
        requires stage { title.stage < length title.job.roots }
        ensures ring { result.ring ≡ ring }
        ensures title { result.title ≡ title }
        ensures preparation { result.preparation ≡ None }
    {
        Splitter {
            alloc,
            ring,
            title,
            tables,
            preparation: None,
        }
    }

    /// Which stage it is.
    pub fn title(&self) -> &StageTitle
        ensures { result.now ≡ self.now.title }
    {
        &self.title
    }

    /// Makes the table that the stages of a job share, so that it is there at the first row.
    pub fn make_table(ring: Ring, tables: &SharedBinomials) -> Result<(), OutOfMemory> {
        let _table = tables.table(ring.modulus(), MOST_DEGREE)?;
        Ok(())
    }

    /// The preparation, once it is begun.
    pub fn preparation(&self) -> Option<&Prep>
        ensures some { IfSome result (λ prep. self.now.preparation ≡ Some prep.now) }
        ensures none { IfNone result (prepared_in self.now.preparation ≡ 0) }
        ensures rows { IfSome result (λ prep.
            IsPreparationOf self.now.title self.now.ring prep.now) }
    {
        self.preparation.as_ref()
    }

    /// How many degrees are prepared.
    pub fn prepared(&self) -> u32
        ensures { result ≡ prepared_in self.now.preparation }
    {
        match &self.preparation {
            None => 0,
            Some(prep) => prep.degrees(),
        }
    }

    /// Prepares the next degree. `upstream[j]` is the part of that degree of the coefficient of Y^j
    /// in the polynomial before the stage.
    pub fn prepare(&mut self, upstream: &[Arc<Part>], tally: &mut Tally) -> Result<(), OutOfMemory>
        requires row { IsUpstream self.old.title.job self.old.title.stage
            (prepared_in self.old.preparation) (parts_of upstream.now) }
        requires permitted { prepared_in self.old.preparation ≤ 4095 }
        requires room { tally.old < 2 ^ 63 }
        ensures ok { OnOk result (IsOneFurther self.old self.new) }
        ensures err { OnErr result (self.new ≡ self.old) }
        ensures ticks { OnOk result (tally.new ≡ tally.old + 1) }
        ensures no_tick { OnErr result (tally.new ≡ tally.old) }
    {
        let root = self.title.root();
        let row = shifted(self.alloc, self.ring, &self.tables, root.value, upstream)?;
        prepare_row(
            self.alloc,
            self.ring,
            root.times,
            &mut self.preparation,
            &row,
            tally,
        )
    }

    /// The item of a degree that is prepared.
    pub fn item(&self, r: u32) -> Result<StageItem, OutOfMemory>
        requires prepared { r < prepared_in self.now.preparation }
        requires permitted { r ≤ 4095 }
        ensures { IfOk result (IsItem self.now.title r) }
    {
        let Some(prep) = &self.preparation else {
            unreachable!();
        };
        let back = self.ring.modulus().neg(self.title.root().value);
        let factor = shifted(self.alloc, self.ring, &self.tables, back, prep.row_p(r))?;
        let left = shifted(self.alloc, self.ring, &self.tables, back, prep.row_u(r))?;
        Ok(StageItem::new(factor, left))
    }
}

/// The row of the polynomial with Y + c in place of Y, by a shared table.
fn shifted(
    alloc: Global,
    ring: Ring,
    tables: &SharedBinomials,
    c: u64,
    row: &[Arc<Part>],
) -> Result<Vec<Arc<Part>>, OutOfMemory>
    requires few { length row.now ≤ 33 }
    requires residue { c < modulus_of ring }
    requires parts { AreRowParts ring (parts_of row.now) }
    ensures { IfOk result
        (λ out. HasShift ring c (parts_of row.now) (parts_of out.items)) }
{
    let table = tables.table(ring.modulus(), MOST_DEGREE)?;
    let out = shift(alloc, ring, table.binomials(), c, row)?;
    Ok(out)
}

/// Prepares one more degree, the first one where there is none yet.
fn prepare_row(
    alloc: Global,
    ring: Ring,
    times: u32,
    preparation: &mut Option<Prep>,
    row: &[Arc<Part>],
    tally: &mut Tally,
) -> Result<(), OutOfMemory>
    requires some { 1 ≤ times }
    requires row { HasNextRow ring times (parts_of row.now) preparation.old }
    requires room { tally.old < 2 ^ 63 }
    ensures ok { OnOk result
        (IsNextPreparation ring times (parts_of row.now) preparation.old preparation.new) }
    ensures err { OnErr result (preparation.new ≡ preparation.old) }
    ensures ticks { OnOk result (tally.new ≡ tally.old + 1) }
    ensures no_tick { OnErr result (tally.new ≡ tally.old) }
{
    match preparation {
        Some(prep) => {
            prep.step(row, tally)?;
            Ok(())
        }
        None => {
            *preparation = Some(begin(alloc, ring, times, row, tally)?);
            Ok(())
        }
    }
}

/// Begins the preparation with a shifted row of degree 0.
fn begin(
    alloc: Global,
    ring: Ring,
    times: u32,
    row: &[Arc<Part>],
    tally: &mut Tally,
) -> Result<Prep, OutOfMemory>
    requires some { 1 ≤ times }
    requires within { times < length row.now }
    requires few { length row.now ≤ 33 }
    requires row { IsRowOfParts ring (length row.now - 1) 0 (parts_of row.now) }
    requires can { CanBegin ring times (parts_of row.now) }
    requires room { tally.old < 2 ^ 63 }
    ensures ok { IfOk result (Begins ring times (parts_of row.now)) }
    ensures ticks { OnOk result (tally.new ≡ tally.old + 1) }
    ensures no_tick { OnErr result (tally.new ≡ tally.old) }
{
    match Prep::begin(alloc, ring, times, row, tally) {
        Ok(prep) => Ok(prep),
        Err(PrepError::NotPrepared { power }) => {
            // no term is 0, so a part that is 0 has none
            let _terms = row[power as usize].terms();
            unreachable!()
        }
        Err(PrepError::NotAUnit { .. }) => unreachable!(),
        Err(PrepError::OutOfMemory) => Err(OutOfMemory),
    }
}
