//! How a shared row is made.
ghost use Rattle.std.specs.Prelude.{◌≡◌, ◌^◌, ◌<◌, ◌≤◌, [], length, All, IfOk, OnOk, vec_len, vec_capacity};
ghost use Rattle.std.specs.Arc.{arc_value};
ghost use Rattle.left_right.specs.Sides.{view};
ghost use Rattle.rows.specs.Rule.{blank, published_row, sees_all};
ghost use Rattle.rows.specs.Pending.{pending};
ghost use Rattle.rows.specs.Readers.{IsFresh};
ghost use Rattle.rows.specs.Writers.{writer_title, writer_items, writer_capacity, writer_name};
ghost use Rattle.rows.specs.Writers.{published_of, IsSameRow};

use crate::copies::{RowCopy, RowView};
use crate::item::RowItem;
use crate::published_length::PublishedLength;
use crate::rule::{RowRule, TakesTitle, TitleNote};
use crate::shared::{RowReader, RowWriter};
use crate::writer::{CopyWriter, publish_copy};
use left_right::reader::Reader;
use left_right::writer::Writer;
use ps_model::OutOfMemory;
use std::alloc::Global;
use std::sync::{Arc, Wait};

/// A reader of the two copies.
type CopyReader<T> = Reader<
    RowCopy<T, <T as RowItem>::Title>,
    RowView<T, <T as RowItem>::Title>,
    RowRule<T>,
>;

/// A row that one writer and `readers` readers share, with room for `capacity` items. Nothing is
/// published, and no reader was told or shown anything.
///
/// It asks again where `left_right` finds no place for a reader, so it may wait.
pub fn shared_row<T: RowItem, R: Wait>(
    rt: &R,
    alloc: Global,
    title: T::Title,
    capacity: u32,
    readers: u32,
) -> Result<(RowWriter<T>, Vec<RowReader<T>>), OutOfMemory>
    requires capacity { capacity ≤ 4096 }
    requires readers { (1 ≤ readers) × (readers ≤ 4) }
    ensures title { IfOk result (λ row. writer_title row.0 ≡ title) }
    ensures capacity { IfOk result (λ row. writer_capacity row.0 ≡ capacity) }
    ensures empty { IfOk result (λ row. writer_items row.0 ≡ []) }
    ensures published { IfOk result (λ row. published_of row.0 ≡ 0) }
    ensures count { IfOk result (λ row. vec_len row.1 ≡ readers) }
    ensures fresh { IfOk result (λ row. All (IsFresh title (writer_name row.0)) row.1.items) }
{
    let mut all = Vec::with_capacity(alloc, readers as usize)?;
    let mut row = RowWriter::new(rt, alloc, title, capacity, readers)?;
    if make_readers(rt, &mut row, &mut all, readers).is_err() {
        row.close(rt);
        return Err(OutOfMemory);
    }
    Ok((row, all))
}

impl<T: RowItem> RowWriter<T> {
    /// The writer of a new row.
    fn new<R: Wait>(
        rt: &R,
        alloc: Global,
        title: T::Title,
        capacity: u32,
        readers: u32,
    ) -> Result<RowWriter<T>, OutOfMemory>
        requires capacity { capacity ≤ 4096 }
        requires readers { (1 ≤ readers) × (readers ≤ 4) }
        ensures title { IfOk result (λ row. writer_title row ≡ title) }
        ensures capacity { IfOk result (λ row. writer_capacity row ≡ capacity) }
        ensures empty { IfOk result (λ row. writer_items row ≡ []) }
        ensures published { IfOk result (λ row. published_of row ≡ 0) }
    {
        let word = PublishedLength::new(alloc)?;
        let title = Arc::new(alloc, title)?;
        let items = Vec::with_capacity(alloc, capacity as usize)?;
        let writer = make_copies(rt, alloc, &title, capacity, readers)?;
        Ok(RowWriter {
            title,
            items,
            capacity,
            handed: 0,
            published: 0,
            writer,
            word,
        })
    }

    /// A reader of the row. It gets the row's title from a note of the writer's.
    fn new_reader<R: Wait>(&mut self, rt: &R) -> Result<RowReader<T>, OutOfMemory>
        ensures same { IsSameRow self.old self.new }
        ensures published { published_of self.new ≡ published_of self.old }
        ensures fresh { IfOk result (IsFresh (writer_title self.old) (writer_name self.old)) }
    {
        let title = Arc::try_clone(&self.title)?;
        let word = self.word.for_reader()?;
        let mut reader = copy_reader(rt, &self.writer);
        reader.learn::<TakesTitle>(self.writer.tell::<TitleNote>());
        Ok(RowReader {
            reader,
            title,
            seen: 0,
            told: 0,
            misses: 0,
            word,
        })
    }
}

/// As many readers of the row, put into a vector with room for them.
fn make_readers<T: RowItem, R: Wait>(
    rt: &R,
    row: &mut RowWriter<T>,
    all: &mut Vec<RowReader<T>>,
    readers: u32,
) -> Result<(), OutOfMemory>
    requires empty { all.old.items ≡ [] }
    requires room { readers ≤ vec_capacity all.old }
    ensures same { IsSameRow row.old row.new }
    ensures published { published_of row.new ≡ published_of row.old }
    ensures count { OnOk result (length all.new.items ≡ readers) }
    ensures fresh { OnOk result
        (All (IsFresh (writer_title row.old) (writer_name row.old)) all.new.items) }
{
    for _ in 0..readers {
        let reader = row.new_reader(rt)?;
        all.push_reserved(reader);
    }
    Ok(())
}

/// A reader's place, asked for until there is one.
fn copy_reader<T: RowItem, R: Wait>(rt: &R, writer: &CopyWriter<T>) -> CopyReader<T>
    ensures view { view result.place ≡ blank }
    ensures table { result.place.table_id ≡ writer.now.desk.place.table_id }
{
    for _ in rt.forever() {
        if let Ok(reader) = writer.factory().reader() {
            return reader;
        }
    }
    unreachable!()
}

/// The two copies of an empty row. Publishing nothing gives the title to the writer's view; where
/// that is refused no writer is left.
fn make_copies<T: RowItem, R: Wait>(
    rt: &R,
    alloc: Global,
    title: &Arc<T::Title>,
    capacity: u32,
    readers: u32,
) -> Result<CopyWriter<T>, OutOfMemory>
    requires { (0 < readers) × (readers < 2 ^ 32) }
    ensures row { IfOk result (λ w. published_row w.desk.shown.value
        ≡ record { title = arc_value title.now; items = [] }) }
    ensures pending { IfOk result (λ w. pending w ≡ []) }
    ensures view { IfOk result
        (λ w. view w.desk.place ≡ sees_all (published_row w.desk.shown.value)) }
{
    let first = empty_copy(alloc, title, capacity)?;
    let second = empty_copy(alloc, title, capacity)?;
    let writer = Writer::new(alloc, first, second, readers as usize)?;
    let (writer, done) = publish_copy(writer, rt);
    if done.is_err() {
        drop(writer.take(rt));
        return Err(OutOfMemory);
    }
    Ok(writer)
}

/// A copy of an empty row.
fn empty_copy<T: RowItem>(
    alloc: Global,
    title: &Arc<T::Title>,
    capacity: u32,
) -> Result<RowCopy<T, T::Title>, OutOfMemory>
    ensures { IfOk result (λ copy. published_row copy
        ≡ record { title = arc_value title.now; items = [] }) }
{
    let title = Arc::try_clone(title)?;
    let items = Vec::with_capacity(alloc, capacity as usize)?;
    Ok(RowCopy { title, items })
}
