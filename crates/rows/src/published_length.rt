//! A word that tells how many items of a row are published, and what is known of it.
ghost use Rattle.std.specs.Prelude.{◌≡◌, ◌≤◌, [], IfOk, true};
ghost use Rattle.std.specs.Arc.{arc_value};
ghost use Rattle.rows.specs.Lengths.{KnowsLengths, start, nothing_told, told_by, learnt, IsRaised};
ghost use Rattle.rows.specs.Lengths.{known};

use atomic_table::{Join, Play, Seat, Split, Table, TableRule};
use ps_model::OutOfMemory;
use std::alloc::Global;
use std::sync::Arc;

/// What a holder knows: that so many items were published, and whether it is the one that publishes.
/// No value of it is made.
pub struct KnownLength {
    pub count: u64,
    pub publishes: bool,
}

/// Nobody knows of more items than are published, and the writer knows how many these are.
pub struct LengthRule;

impl TableRule<(), KnownLength, ()> for LengthRule {
    ghost holds = { λ _. KnowsLengths };

    ghost first = { λ _. start };
}

/// What a `Told` carries.
pub type LengthNote = Seat<(), KnownLength>;

/// The word alone.
pub type LengthTable = Table<(), KnownLength, (), LengthRule, Global>;

/// The word is raised.
struct Raise;

impl Play<(), KnownLength> for Raise {
    ghost then = { IsRaised };
}

/// A note of what is known.
struct Tell;

impl Split<KnownLength> for Tell {
    ghost left = { λ view. view };

    ghost right = { told_by };
}

/// One more holder, which was told nothing.
struct Begin;

impl Split<KnownLength> for Begin {
    ghost left = { λ view. view };

    ghost right = { λ _. nothing_told };
}

/// A note is taken in.
struct Learn;

impl Join<KnownLength> for Learn {
    ghost both = { learnt };

    ghost spent = { nothing_told };
}

/// The word, and what one holder knows of it.
#[derive(Drop)]
pub struct PublishedLength {
    table: Arc<LengthTable>,
    pub(crate) seat: Seat<(), KnownLength>,
    ghost of_table: { seat.table_id ≡ (arc_value table).shared.table_id },
    ghost one_word: { (arc_value table).shared.table_id.words ≡ 1 },
    ghost no_slots: { seat.me.1 ≡ [] },
}

impl PublishedLength {
    /// The word of a new row, for its writer: nothing is published.
    pub(crate) fn new(alloc: Global) -> Result<PublishedLength, OutOfMemory>
        ensures { IfOk result (λ word. known word.seat ≡ start) }
    {
        let (table, seat) = Table::of_words(alloc, [0u64].as_slice(), &())?;
        let table = Arc::new(alloc, table)?;
        Ok(PublishedLength { table, seat })
    }

    /// The same word for a reader, which was told nothing.
    pub(crate) fn for_reader(&mut self) -> Result<PublishedLength, OutOfMemory>
        ensures same { known self.new.seat ≡ known self.old.seat }
        ensures same_name { self.new.seat.table_id ≡ self.old.seat.table_id }
        ensures nothing { IfOk result (λ word. known word.seat ≡ nothing_told) }
        ensures name { IfOk result (λ word. word.seat.table_id ≡ self.old.seat.table_id) }
    {
        let table = Arc::try_clone(&self.table)?;
        let seat = self.table.shared.split_seat::<Begin>(&mut self.seat);
        Ok(PublishedLength { table, seat })
    }

    /// So many items are published now.
    pub(crate) fn raise(&mut self, count: u32)
        requires publishes { (known self.old.seat).publishes ≡ true }
        requires more { (known self.old.seat).count ≤ count }
        ensures raised { known self.new.seat ≡ record { count = count; publishes = true } }
        ensures same_name { self.new.seat.table_id ≡ self.old.seat.table_id }
    {
        self.table
            .shared
            .store::<Raise>(&mut self.seat, 0, u64::from(count));
    }

    /// A note of how many items are known to be published.
    pub(crate) fn tell(&mut self) -> LengthNote
        ensures same { known self.new.seat ≡ known self.old.seat }
        ensures same_name { self.new.seat.table_id ≡ self.old.seat.table_id }
        ensures told { known result ≡ told_by (known self.old.seat) }
        ensures name { result.table_id ≡ self.old.seat.table_id }
        ensures no_slots { result.me.1 ≡ [] }
    {
        self.table.shared.split_seat::<Tell>(&mut self.seat)
    }

    /// Takes a note in.
    pub(crate) fn learn(&mut self, note: LengthNote)
        requires name { note.table_id ≡ self.old.seat.table_id }
        requires no_slots { note.me.1 ≡ [] }
        ensures learnt { known self.new.seat ≡ learnt (known self.old.seat) (known note) }
        ensures same_name { self.new.seat.table_id ≡ self.old.seat.table_id }
    {
        self.table.shared.join_seat::<Learn>(&mut self.seat, note);
    }
}
