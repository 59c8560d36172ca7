//! What a reader of a shared row does. No call takes memory or waits for anybody.
ghost use Rattle.std.specs.Prelude.{◌≡◌, ◌+◌, ◌<◌, ◌≤◌, length, slice_get, Some, IfOk, IfErr, min, max};
ghost use Rattle.std.specs.Arc.{arc_value};
ghost use Rattle.rows.specs.Prefixes.{IsPrefix};
ghost use Rattle.rows.specs.Readers.{told_name, told_length, reader_title, reader_name, seen_of};
ghost use Rattle.rows.specs.Readers.{told_of, misses_of, found_title, found_of, IsSameReader};
ghost use Rattle.rows.specs.Readers.{IsLookOf};

use crate::item::RowItem;
use crate::rule::SeesRow;
use crate::shared::{Looked, RowReader, Told};
use std::sync::Arc;

impl Told {
    /// How many items were published.
    pub fn len(&self) -> u32
        ensures { result ≡ told_length self.now }
    {
        self.count
    }
}

impl<T: RowItem> RowReader<T> {
    /// Enters the row once: what is published at that moment is seen. The list begins with all that
    /// was seen before, and has as many items at least as the reader was told of.
    ///
    /// Where it can't enter, the reader comes back as it was, with one miss more.
    pub fn look(self) -> Result<Looked<T>, RowReader<T>>
        ensures later { IfOk result (λ found. IsPrefix (seen_of self) (found_of found)) }
        ensures told { IfOk result (λ found. told_of self ≤ length (found_of found)) }
        ensures same { IfOk result (IsLookOf self) }
        ensures missed { IfErr result (IsSameReader self) }
        ensures counted { IfErr result
            (λ reader. misses_of reader ≡ min (misses_of self + 1) u64.MAX) }
    {
        let RowReader {
            reader,
            title,
            seen,
            told,
            misses,
            word,
        } = self;
        match reader.enter_as::<SeesRow<T>>() {
            Ok(reading) => {
                // the word of the length is raised behind the row, so no list is shorter than what
                // was told; the rule of the one can't speak of the other, so it is tested
                if reading.get().items.len() < told as usize {
                    return Err(RowReader {
                        reader: reading.leave(),
                        title,
                        seen,
                        told,
                        misses: misses.saturating_add(1),
                        word,
                    });
                }
                Ok(Looked {
                    reading,
                    title,
                    told,
                    misses,
                    word,
                })
            }
            Err(reader) => Err(RowReader {
                reader,
                title,
                seen,
                told,
                misses: misses.saturating_add(1),
                word,
            }),
        }
    }

    /// Takes in that so many items were published: no later look finds fewer.
    pub fn learn(&mut self, told: Told)
        requires { told_name told ≡ reader_name self.old }
        ensures told { told_of self.new ≡ max (told_of self.old) (told_length told) }
        ensures same_seen { seen_of self.new ≡ seen_of self.old }
        ensures same_title { reader_title self.new ≡ reader_title self.old }
        ensures same_name { reader_name self.new ≡ reader_name self.old }
        ensures same_misses { misses_of self.new ≡ misses_of self.old }
    {
        let Told { count, note } = told;
        self.word.learn(note);
        self.told = self.told.max(count);
    }

    /// The length of the list that was seen last; 0 before the first look that entered.
    pub fn seen(&self) -> u32
        ensures { result ≡ length (seen_of self.now) }
    {
        self.seen
    }

    /// How many looks didn't enter.
    pub fn misses(&self) -> u64
        ensures { result ≡ misses_of self.now }
    {
        self.misses
    }

    /// What the row is of.
    pub fn title(&self) -> &T::Title
        ensures { result.now ≡ reader_title self.now }
    {
        &self.title
    }
}

impl<T: RowItem> Looked<T> {
    /// The length of the list that was found.
    pub fn len(&self) -> u32
        ensures { result ≡ length (found_of self.now) }
    {
        self.reading.get().items.len() as u32
    }

    /// What the row is of.
    pub fn title(&self) -> &T::Title
        ensures { result.now ≡ found_title self.now }
    {
        &self.title
    }

    /// The item at place `r`.
    pub fn item(&self, r: u32) -> &Arc<T>
        requires { r < length (found_of self.now) }
        ensures item { slice_get (found_of self.now) r ≡ Some (arc_value result.now) }
        ensures fits { T.fits (found_title self.now) r (arc_value result.now) }
    {
        &self.reading.get().items[r as usize]
    }

    /// Ends the look. The reader has seen this list.
    pub fn leave(self) -> RowReader<T>
        ensures seen { seen_of result ≡ found_of self }
        ensures same { IsLookOf result self }
    {
        let seen = self.len();
        let Looked {
            reading,
            title,
            told,
            misses,
            word,
        } = self;
        RowReader {
            reader: reading.leave(),
            title,
            seen,
            told,
            misses,
            word,
        }
    }
}
