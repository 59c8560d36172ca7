//! What a row holds, and what a row is.
ghost use Rattle.std.specs.Prelude.{◌≡◌, ℕ, ◌<◌, ◌≤◌, List, [], ◌∷◌, ◌++◌, length, slice_get, Some};
ghost use Rattle.std.specs.Arc.{arc_value};
ghost use Rattle.rows.specs.Fits.{AllFit};

use std::sync::Arc;

/// An item of a row. Each place of a row with a title has its own fact of the item there.
pub trait RowItem: Send + Sync + Drop {
    /// What a row is of.
    type Title: Send + Sync + Drop;

    // whether the item fits the title at the place
    ghost fits: { Self.Title → ℕ → Self → Type 0 };

    ghost fits_once: { (title : Self.Title) (r : ℕ) (x : Self) → IsProp (fits title r x) };
}

/// A row that takes items at its end, up to its capacity.
///
/// No call takes memory.
pub trait RowOut<T: RowItem>: Send {
    ghost title: { Self → T.Title };

    ghost capacity: { Self → ℕ };

    ghost items: { Self → List T };

    // no word at a row of one's own
    ghost name: { Self → List ℕ };

    /// The number of items.
    fn len(&self) -> u32
        ensures { result ≡ length (items self.now) };

    /// The number of items for which there is room, at most 4096.
    fn capacity(&self) -> u32
        ensures { result ≡ capacity self.now };

    /// The item at place `r`.
    fn get(&self, r: u32) -> &Arc<T>
        requires { r < length (items self.now) }
        ensures item { slice_get (items self.now) r ≡ Some (arc_value result.now) }
        ensures fits { T.fits (title self.now) r (arc_value result.now) };

    /// Puts an item at the end.
    fn put(&mut self, item: Arc<T>)
        requires room { length (items self.old) < capacity self.old }
        requires fit { T.fits (title self.old) (length (items self.old)) (arc_value item) }
        ensures put { items self.new ≡ items self.old ++ arc_value item ∷ [] }
        ensures same_title { title self.new ≡ title self.old }
        ensures same_capacity { capacity self.new ≡ capacity self.old }
        ensures same_name { name self.new ≡ name self.old };

    ghost all_fit: { (row : Self) → AllFit (T.fits (title row)) (items row) };

    ghost within: { (row : Self) → (length (items row) ≤ capacity row) × (capacity row ≤ 4096) };
}
