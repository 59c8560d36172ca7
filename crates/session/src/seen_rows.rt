//! The rows that the writer of a stream has seen.
ghost use Rattle.std.specs.Prelude.{map};
ghost use Rattle.std.specs.Arc.{arc_value};
ghost use Rattle.parts.specs.RowsOfParts.{parts_of};
ghost use Rattle.session.specs.Props.{IsSession-IsProp, HasItems-IsProp};
ghost use Rattle.session.specs.Seen.{row_state, seen_state};
ghost use Rattle.session.specs.Sessions.{IsSession, HasItems};

use expr_reader::Names;
use parts::{Part, Ring};
use ps_model::JobData;
use rows::{OwnRow, RowOut};
use stages::StageItem;
use std::sync::Arc;

/// The items of a job's rows that were seen, as far as a stream has come, with the job's lead.
#[derive(Drop)]
pub(crate) struct SeenRows<'a> {
    pub(crate) names: Names,
    pub(crate) job: Arc<JobData>,
    pub(crate) ring: Ring,
    pub(crate) shows_lead: bool,
    pub(crate) lead: &'a Vec<Arc<Part>>,
    pub(crate) rows: Vec<OwnRow<StageItem>>,
    ghost holds: { let row = ⟦<OwnRow<StageItem> as RowOut<StageItem>>⟧ in
        IsSession (seen_state names (arc_value job) ring shows_lead
        (map (row_state row.title row.capacity row.items ring) rows.items)
        (parts_of lead.now.items)) } by { IsSession-IsProp _ },
    ghost fits: { let row = ⟦<OwnRow<StageItem> as RowOut<StageItem>>⟧ in
        HasItems (seen_state names (arc_value job) ring shows_lead
        (map (row_state row.title row.capacity row.items ring) rows.items)
        (parts_of lead.now.items)) } by { HasItems-IsProp _ },
}
