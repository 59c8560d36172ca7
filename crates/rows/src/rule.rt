//! The rule of a shared row, and its steps: what is published, and what its threads know of it.
ghost use Rattle.std.specs.Prelude.{◌≡◌};
ghost use Rattle.rows.specs.Rule.{IsKept, Sees, blank, title_note, published_row, with_title};

use crate::copies::{PublishedRow, RowCopy, RowView};
use crate::item::RowItem;
use atomic_table::{Join, Split};
use crossbeam_utils::rule::{Outcome, Protocol};
use std::marker::PhantomData;

/// Every view is of a beginning of the row that is published, whose items fit.
pub struct RowRule<T> {
    item: PhantomData<T>,
}

impl<T: RowItem> Protocol<RowCopy<T, T::Title>, RowView<T, T::Title>> for RowRule<T> {
    ghost holds = { λ copy. IsKept T.fits (published_row copy) };

    ghost first = { blank };
}

/// To publish, or to enter: all that is published then is seen.
pub(crate) struct SeesRow<T> {
    item: PhantomData<T>,
}

impl<T: RowItem> Outcome<RowCopy<T, T::Title>, RowView<T, T::Title>> for SeesRow<T> {
    ghost then = { λ old _ copy new. Sees T.fits old (published_row copy) new };
}

/// The writer's view stays, and a note has the title.
pub(crate) struct TitleNote;

impl<T, H> Split<RowView<T, H>> for TitleNote {
    ghost left = { λ view. view };

    ghost right = { title_note };
}

/// A new reader takes the title from a note.
pub(crate) struct TakesTitle;

impl<T, H> Join<RowView<T, H>> for TakesTitle {
    ghost both = { with_title };

    ghost spent = { blank };
}
