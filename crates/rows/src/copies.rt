//! What the readers of a shared row read, and what is known of it.
ghost use Rattle.std.specs.Prelude.{◌≡◌, ◌++◌, ◌∷◌, []};
ghost use Rattle.std.specs.Arc.{arc_value};

use left_right::Absorb;
use std::alloc::AllocError;
use std::collections::LinkedList;
use std::sync::Arc;

/// One of the two copies of a shared row: readers read the one, the writer changes the other.
#[derive(Drop)]
pub struct RowCopy<T, H> {
    pub title: Arc<H>,
    pub items: Vec<Arc<T>>,
}

/// What a copy holds, as a clause sees it. No value of it is made.
pub struct PublishedRow<T, H> {
    pub title: H,
    pub items: LinkedList<T>,
}

/// What a reader or the writer knows of a row: its title, and the items seen. No value of it is made.
pub struct RowView<T, H> {
    pub title: Option<H>,
    pub seen: LinkedList<T>,
}

impl<T: Drop, H: Drop> Absorb<Arc<T>> for RowCopy<T, H> {
    type State = PublishedRow<T, H>;

    ghost use Rattle.rows.specs.Rule.{published_row, with_item};

    ghost state = { published_row };

    ghost applied = { with_item };

    fn absorb_first(
        &mut self,
        operation: &Arc<T>,
        _other: &RowCopy<T, H>,
    ) -> Result<(), AllocError> {
        let item = Arc::try_clone(operation)?;
        match self.items.push(item) {
            Ok(()) => Ok(()),
            Err(_) => Err(AllocError),
        }
    }

    fn absorb_second(&mut self, operation: Arc<T>, _other: &RowCopy<T, H>) -> Result<(), Arc<T>> {
        match self.items.push(operation) {
            Ok(()) => Ok(()),
            Err(failed) => Err(failed.value),
        }
    }
}
