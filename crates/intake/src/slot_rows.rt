//! Rows of parts, read from a graph.
ghost use Rattle.std.specs.Prelude.{◌≡◌, ◌≤◌, IfOk};
ghost use Rattle.parts.specs.RowsOfParts.{parts_of};
ghost use Rattle.series_graph.specs.Calls.{Keeps};
ghost use Rattle.intake.specs.InputRows.{ArePartsOf};
ghost use Rattle.intake.specs.Slots.{AreIn};

use parts::Part;
use ps_model::OutOfMemory;
use series_graph::{Graph, NodeId};
use std::alloc::Global;
use std::sync::Arc;

/// The parts of degree r of each slot. They are computed where they aren't known.
pub fn row_of(
    alloc: Global,
    graph: &mut Graph,
    slots: &[NodeId],
    r: u32,
) -> Result<Vec<Arc<Part>>, OutOfMemory>
    requires ids { AreIn graph.old slots.now }
    requires permitted { r ≤ 4095 }
    ensures kept { Keeps graph.old graph.new }
    ensures row { IfOk result (λ row. ArePartsOf graph.old slots.now r (parts_of row.items)) }
{
    let mut row = Vec::new(alloc);
    for slot in slots {
        graph.extend(*slot, r)?;
        row.push(Arc::try_clone(graph.part(*slot, r))?)?;
    }
    Ok(row)
}
