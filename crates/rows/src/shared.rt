//! A row that one writer and several readers share.
ghost use Rattle.std.specs.Prelude.{◌≡◌, ◌≤◌, [], length, take, drop, true, Some, vec_capacity};
ghost use Rattle.std.specs.Arc.{arc_value};
ghost use Rattle.left_right.specs.Sides.{view};
ghost use Rattle.rows.specs.Fits.{AllFit, AllFit-prop, values};
ghost use Rattle.rows.specs.Lengths.{known};

use crate::copies::{PublishedRow, RowCopy, RowView};
use crate::item::RowItem;
use crate::published_length::{LengthNote, PublishedLength};
use crate::rule::RowRule;
use crossbeam_utils::rule::Protocol;
use left_right::Absorb;
use left_right::reader::{Reader, Reading};
use left_right::writer::Writer;
use std::sync::Arc;

/// The writer of a shared row. It has all items that were put; readers see those that it published.
///
/// It isn't `Drop`: end it by `close`.
pub struct RowWriter<T: RowItem>
where
    RowCopy<T, T::Title>: Absorb<Arc<T>>,
    RowRule<T>: Protocol<RowCopy<T, T::Title>, RowView<T, T::Title>>,
{
    pub(crate) title: Arc<T::Title>,
    pub(crate) items: Vec<Arc<T>>,
    pub(crate) capacity: u32,
    /// So many items were handed to `writer`.
    pub(crate) handed: u32,
    pub(crate) published: u32,
    pub(crate) writer: Writer<RowCopy<T, T::Title>, Arc<T>, RowView<T, T::Title>, RowRule<T>>,
    pub(crate) word: PublishedLength,
    ghost fit: { AllFit (T.fits (arc_value title)) (values items.items) } by { AllFit-prop _ _ (T.fits_once (arc_value title)) },
    ghost filled: { length items.items ≤ capacity },
    ghost reserved: { capacity ≤ vec_capacity items },
    ghost permitted: { capacity ≤ 4096 },
    ghost ahead: { published ≤ handed },
    ghost there: { handed ≤ length items.items },
    ghost same_title: { arc_value writer.desk.shown.value.title ≡ arc_value title },
    ghost prefix: { values writer.desk.shown.value.items.items ≡ take published (values items.items) },
    ghost title_seen: { (view writer.desk.place).title ≡ Some (arc_value title) },
    ghost count_known: { (known word.seat).count ≡ published },
    ghost publishes: { (known word.seat).publishes ≡ true },
    ghost pending: { values (drop writer.behind writer.log.items) ≡ drop published (take handed (values items.items)) },
}

/// A reader of a shared row.
#[derive(Drop)]
pub struct RowReader<T: RowItem>
where
    RowRule<T>: Protocol<RowCopy<T, T::Title>, RowView<T, T::Title>>,
{
    pub(crate) reader: Reader<RowCopy<T, T::Title>, RowView<T, T::Title>, RowRule<T>>,
    pub(crate) title: Arc<T::Title>,
    /// The length of the list that was seen last.
    pub(crate) seen: u32,
    /// The greatest length that it was told of.
    pub(crate) told: u32,
    pub(crate) misses: u64,
    pub(crate) word: PublishedLength,
    ghost told_known: { (known word.seat).count ≡ told },
    ghost same_title: { (view reader.place).title ≡ Some (arc_value title) },
    ghost within: { seen ≤ length (view reader.place).seen },
    ghost fit: { AllFit (T.fits (arc_value title)) (view reader.place).seen } by { AllFit-prop _ _ (T.fits_once (arc_value title)) },
}

/// The list that a look found. While it stands, a `publish` of the row may wait for it.
///
/// It isn't `Drop`: end it by `leave`.
pub struct Looked<T: RowItem>
where
    RowRule<T>: Protocol<RowCopy<T, T::Title>, RowView<T, T::Title>>,
{
    pub(crate) reading: Reading<RowCopy<T, T::Title>, RowView<T, T::Title>, RowRule<T>>,
    pub(crate) title: Arc<T::Title>,
    pub(crate) told: u32,
    pub(crate) misses: u64,
    pub(crate) word: PublishedLength,
    ghost told_known: { (known word.seat).count ≡ told },
    ghost same_title: { (view reading.place).title ≡ Some (arc_value title) },
    ghost found: { values reading.part.value.items.items ≡ (view reading.place).seen },
    ghost no_less: { told ≤ length (view reading.place).seen },
    ghost short: { length (view reading.place).seen ≤ 4096 },
    ghost fit: { AllFit (T.fits (arc_value title)) (view reading.place).seen } by { AllFit-prop _ _ (T.fits_once (arc_value title)) },
}

/// That so many items of a row were published.
#[derive(Drop)]
pub struct Told {
    pub(crate) count: u32,
    pub(crate) note: LengthNote,
    ghost noted: { (known note).count ≡ count },
    ghost no_slots: { note.me.1 ≡ [] },
}
