//! What a stage puts into its row.
ghost use Rattle.std.specs.Prelude.{◌≡◌};
ghost use Rattle.parts.specs.RowsOfParts.{parts_of};

use crate::title::StageTitle;
use parts::Part;
use rows::RowItem;
use std::marker::Model;
use std::sync::Arc;

/// The parts of one degree that a stage makes: of its factor, and of the polynomial that it leaves.
#[derive(Drop)]
pub struct StageItem {
    factor: Vec<Arc<Part>>,
    left: Vec<Arc<Part>>,
}

impl Model for StageItem {
    ghost use Rattle.stages.specs.Items.{StageItemValue, item_code};

    ghost Value = { StageItemValue };

    ghost coded = { item_code };

    ghost use Rattle.parts.specs.RowsOfParts.{parts_of};

    ghost view = { λ item. record {
      factor = parts_of item.factor.items;
      left = parts_of item.left.items;
    } };
}

impl RowItem for StageItem {
    type Title = StageTitle;

    ghost use Rattle.stages.specs.Items.{IsItem, IsItem-IsProp};

    ghost fits = { IsItem };

    ghost fits_once = { IsItem-IsProp };
}

impl StageItem {
    /// An item of these parts.
    pub(crate) fn new(factor: Vec<Arc<Part>>, left: Vec<Arc<Part>>) -> StageItem
        ensures { result
            ≡ record { factor = parts_of factor.items; left = parts_of left.items } }
    {
        StageItem { factor, left }
    }

    /// The parts of the factor, from Y^0 to Y^k.
    pub fn factor(&self) -> &[Arc<Part>]
        ensures { parts_of result.now ≡ self.now.factor }
    {
        &self.factor
    }

    /// The parts of the polynomial that the stage leaves, from Y^0 on.
    pub fn left(&self) -> &[Arc<Part>]
        ensures { parts_of result.now ≡ self.now.left }
    {
        &self.left
    }
}
