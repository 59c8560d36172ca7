//! Names, once more.
ghost use Rattle.std.specs.Prelude.{◌≡◌, IfOk};

use expr_reader::Names;
use ps_model::{NameView, OutOfMemory};
use std::alloc::Global;

/// The same names, in memory of their own.
pub(crate) fn copy_names(alloc: Global, names: &Names) -> Result<Names, OutOfMemory>
    ensures { IfOk result (λ copy. copy ≡ names.now) }
{
    let mut copy = Names::new(alloc);
    for i in 0..names.len() {
        // each name follows others that differ from it, so memory alone can be refused
        let Ok(_) = copy.add(names.name(i)) else {
            return Err(OutOfMemory);
        };
    }
    Ok(copy)
}
