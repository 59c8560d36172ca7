//! What a stage takes in a round.
ghost use Rattle.std.specs.Prelude.{◌≡◌};
ghost use Rattle.parts.specs.RowsOfParts.{parts_of};
ghost use Rattle.stages.specs.Rounds.{row_of};

use crate::item::StageItem;
use parts::Part;
use std::sync::Arc;

/// What the next item of a stage is made of.
#[derive(Drop)]
pub enum Upstream {
    /// The row of the job's polynomial, for the first stage.
    Row(Vec<Arc<Part>>),
    /// The item of the stage before it, for the others, which take what that stage leaves.
    Item(Arc<StageItem>),
}

impl Upstream {
    /// The parts by power of Y, from Y^0 on.
    pub(crate) fn parts(&self) -> &[Arc<Part>]
        ensures { parts_of result.now ≡ row_of self.now }
    {
        match self {
            Upstream::Row(row) => row.as_slice(),
            Upstream::Item(item) => item.left(),
        }
    }
}
