//! Rows of parts that are shared.
ghost use Rattle.std.specs.Prelude.{◌≡◌, IfOk};
ghost use Rattle.parts.specs.RowsOfParts.{parts_of};

use crate::homogeneous::Part;
use ps_model::OutOfMemory;
use std::alloc::Global;
use std::sync::Arc;

/// The same parts once more, none of them copied.
pub fn share(alloc: Global, row: &[Arc<Part>]) -> Result<Vec<Arc<Part>>, OutOfMemory>
    ensures { IfOk result (λ same. parts_of same.items ≡ parts_of row.now) }
{
    let mut same = Vec::new(alloc);
    for part in row {
        same.push(Arc::try_clone(part)?)?;
    }
    Ok(same)
}
