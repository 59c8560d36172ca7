//! What the writer of a shared row does.
ghost use Rattle.std.specs.Prelude.{◌≡◌, ◌+◌, ◌<◌, [], ◌∷◌, ◌++◌, length, IfOk, OnOk, OnErr};
ghost use Rattle.std.specs.Arc.{arc_value};
ghost use Rattle.left_right.specs.Sides.{view};
ghost use Rattle.rows.specs.Fits.{values-within};
ghost use Rattle.rows.specs.Rule.{Grows, published_row, sees_all};
ghost use Rattle.rows.specs.Pending.{pending, with_items};
ghost use Rattle.rows.specs.Readers.{told_name, told_length};
ghost use Rattle.rows.specs.Writers.{writer_title, writer_items, writer_capacity, writer_name};
ghost use Rattle.rows.specs.Writers.{published_of, IsSameRow};

use crate::copies::{PublishedRow, RowCopy, RowView};
use crate::item::{RowItem, RowOut};
use crate::rule::{RowRule, SeesRow};
use crate::shared::{RowWriter, Told};
use core::mem::replace_with;
use left_right::Absorb;
use left_right::writer::Writer;
use ps_model::OutOfMemory;
use std::alloc::AllocError;
use std::sync::{Arc, Wait};

/// The writer of the two copies.
pub(crate) type CopyWriter<T> = Writer<
    RowCopy<T, <T as RowItem>::Title>,
    Arc<T>,
    RowView<T, <T as RowItem>::Title>,
    RowRule<T>,
>;

/// Publishes what is pending.
pub(crate) fn publish_copy<T: RowItem, R: Wait>(
    writer: CopyWriter<T>,
    rt: &R,
) -> (CopyWriter<T>, Result<(), AllocError>)
    requires { let row = published_row writer.desk.shown.value in
        Grows T.fits row (with_items row (pending writer)) }
    ensures row { let row = published_row writer.desk.shown.value in
        OnOk result.1 (published_row result.0.desk.shown.value ≡ with_items row (pending writer)) }
    ensures none { OnOk result.1 (pending result.0 ≡ []) }
    ensures seen { let row = published_row writer.desk.shown.value in
        OnOk result.1 (view result.0.desk.place ≡ sees_all (with_items row (pending writer))) }
    ensures same_row { OnErr result.1 (result.0.desk.shown.value ≡ writer.desk.shown.value) }
    ensures same_pending { OnErr result.1 (pending result.0 ≡ pending writer) }
    ensures same_view { OnErr result.1 (view result.0.desk.place ≡ view writer.desk.place) }
{
    writer.publish_as::<SeesRow<T>, R>(rt)
}

/// The same of a writer that stays where it is.
fn publish_in_place<T: RowItem, R: Wait>(
    writer: &mut CopyWriter<T>,
    rt: &R,
) -> Result<(), AllocError>
    requires { let row = published_row writer.old.desk.shown.value in
        Grows T.fits row (with_items row (pending writer.old)) }
    ensures row { let row = published_row writer.old.desk.shown.value in
        OnOk result (published_row writer.new.desk.shown.value ≡ with_items row (pending writer.old)) }
    ensures none { OnOk result (pending writer.new ≡ []) }
    ensures seen { let row = published_row writer.old.desk.shown.value in
        OnOk result (view writer.new.desk.place ≡ sees_all (with_items row (pending writer.old))) }
    ensures same_row { OnErr result (writer.new.desk.shown.value ≡ writer.old.desk.shown.value) }
    ensures same_pending { OnErr result (pending writer.new ≡ pending writer.old) }
    ensures same_view { OnErr result (view writer.new.desk.place ≡ view writer.old.desk.place) }
{
    replace_with(
        writer,
        rt,
        |writer, rt|
            requires { let row = published_row writer.desk.shown.value in
                Grows T.fits row (with_items row (pending writer)) }
        { publish_copy::<T, R>(writer, rt) },
    )
}

impl<T: RowItem> RowWriter<T> {
    /// The number of items that are published.
    pub fn published(&self) -> u32
        ensures { result ≡ published_of self.now }
    {
        self.published
    }

    /// Publishes all items, in order: who looks from now on finds them. It may wait for those that
    /// look.
    ///
    /// On a refusal the items and what is published are as before.
    pub fn publish<R: Wait>(&mut self, rt: &R) -> Result<Told, OutOfMemory>
        ensures same { IsSameRow self.old self.new }
        ensures ok { OnOk result (published_of self.new ≡ length (writer_items self.old)) }
        ensures told { IfOk result (λ told. told_length told ≡ length (writer_items self.old)) }
        ensures name { IfOk result (λ told. told_name told ≡ writer_name self.old) }
        ensures err { OnErr result (published_of self.new ≡ published_of self.old) }
    {
        while (self.handed as usize) < self.items.len() {
            self.hand_over()?;
        }
        self.publish_handed(rt)?;
        Ok(self.tell())
    }

    /// That as many items are published as are now.
    pub fn tell(&mut self) -> Told
        ensures same { IsSameRow self.old self.new }
        ensures published { published_of self.new ≡ published_of self.old }
        ensures told { told_length result ≡ published_of self.old }
        ensures name { told_name result ≡ writer_name self.old }
    {
        Told {
            count: self.published,
            note: self.word.tell(),
        }
    }

    /// Ends the writer. A reader that looks later may find that it can't enter.
    pub fn close<R: Wait>(self, rt: &R) {
        let RowWriter {
            title: _,
            items: _,
            capacity: _,
            handed: _,
            published: _,
            writer,
            word: _,
        } = self;
        drop(writer.take(rt));
    }

    /// Hands the next item to the writer of the copies.
    fn hand_over(&mut self) -> Result<(), OutOfMemory>
        requires { self.old.handed < length self.old.items.items }
        ensures same { IsSameRow self.old self.new }
        ensures published { published_of self.new ≡ published_of self.old }
        ensures handed { OnOk result (self.new.handed ≡ self.old.handed + 1) }
    {
        let item = Arc::try_clone(&self.items[self.handed as usize])?;
        if self.writer.append(item).is_err() {
            return Err(OutOfMemory);
        }
        self.handed += 1;
        Ok(())
    }

    /// Publishes the items that were handed over.
    fn publish_handed<R: Wait>(&mut self, rt: &R) -> Result<(), OutOfMemory>
        requires { self.old.handed ≡ length self.old.items.items }
        ensures same { IsSameRow self.old self.new }
        ensures ok { OnOk result (published_of self.new ≡ length (writer_items self.old)) }
        ensures err { OnErr result (published_of self.new ≡ published_of self.old) }
    {
        if publish_in_place(&mut self.writer, rt).is_err() {
            return Err(OutOfMemory);
        }
        self.word.raise(self.handed);
        self.published = self.handed;
        Ok(())
    }
}

impl<T: RowItem> RowOut<T> for RowWriter<T>
where
    RowCopy<T, T::Title>: Absorb<Arc<T>, State = PublishedRow<T, T::Title>>,
{
    ghost title = { writer_title };

    ghost capacity = { writer_capacity };

    ghost items = { writer_items };

    ghost name = { writer_name };

    ghost all_fit = { λ row. row.fit };

    ghost within = { λ row.
        (values-within row.items.items row.capacity row.filled, row.permitted) };

    fn len(&self) -> u32 {
        self.items.len() as u32
    }

    fn capacity(&self) -> u32 {
        self.capacity
    }

    fn get(&self, r: u32) -> &Arc<T> {
        &self.items[r as usize]
    }

    fn put(&mut self, item: Arc<T>)
        requires room { length (writer_items self.old) < writer_capacity self.old }
        requires fit { T.fits (writer_title self.old) (length (writer_items self.old)) (arc_value item) }
        ensures put { writer_items self.new ≡ writer_items self.old ++ arc_value item ∷ [] }
        ensures same_title { writer_title self.new ≡ writer_title self.old }
        ensures same_capacity { writer_capacity self.new ≡ writer_capacity self.old }
        ensures same_name { writer_name self.new ≡ writer_name self.old }
        ensures same_published { published_of self.new ≡ published_of self.old }
    {
        self.items.push_reserved(item);
    }
}
