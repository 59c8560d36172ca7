//! A row of one owner.
ghost use Rattle.std.specs.Prelude.{◌≡◌, ◌<◌, ◌≤◌, [], ◌∷◌, ◌++◌, length, IfOk, vec_capacity};
ghost use Rattle.std.specs.Arc.{arc_value};
ghost use Rattle.rows.specs.Fits.{AllFit, AllFit-prop, values, values-within};

use crate::item::{RowItem, RowOut};
use ps_model::OutOfMemory;
use std::alloc::Global;
use std::sync::Arc;

/// A row of one owner, in memory that is taken when the row is made.
#[derive(Drop)]
pub struct OwnRow<T: RowItem> {
    title: T::Title,
    items: Vec<Arc<T>>,
    capacity: u32,
    ghost fit: { AllFit (T.fits title) (values items.items) } by { AllFit-prop _ _ (T.fits_once title) },
    ghost filled: { length items.items ≤ capacity },
    ghost reserved: { capacity ≤ vec_capacity items },
    ghost permitted: { capacity ≤ 4096 },
}

impl<T: RowItem> OwnRow<T> {
    /// A row with no item and with room for `capacity` of them.
    pub fn new(alloc: Global, title: T::Title, capacity: u32) -> Result<OwnRow<T>, OutOfMemory>
        requires { capacity ≤ 4096 }
        ensures title { IfOk result (λ row. ⟦<Self as RowOut<T>>⟧.title row ≡ title) }
        ensures capacity { IfOk result (λ row. ⟦<Self as RowOut<T>>⟧.capacity row ≡ capacity) }
        ensures empty { IfOk result (λ row. ⟦<Self as RowOut<T>>⟧.items row ≡ []) }
        ensures name { IfOk result (λ row. ⟦<Self as RowOut<T>>⟧.name row ≡ []) }
    {
        let items = Vec::with_capacity(alloc, capacity as usize)?;
        Ok(OwnRow {
            title,
            items,
            capacity,
        })
    }
}

impl<T: RowItem> RowOut<T> for OwnRow<T> {
    ghost title = { λ row. row.title };

    ghost capacity = { λ row. row.capacity };

    ghost items = { λ row. values row.items.items };

    ghost name = { λ _. [] };

    ghost all_fit = { λ row. row.fit };

    ghost within = { λ row.
        (values-within row.items.items row.capacity row.filled, row.permitted) };

    fn len(&self) -> u32 {
        self.items.len() as u32
    }

    fn capacity(&self) -> u32 {
        self.capacity
    }

    fn get(&self, r: u32) -> &Arc<T> {
        &self.items[r as usize]
    }

    fn put(&mut self, item: Arc<T>)
        requires room { let own = ⟦<Self as RowOut<T>>⟧ in
            length (own.items self.old) < own.capacity self.old }
        requires fit { let own = ⟦<Self as RowOut<T>>⟧ in
            T.fits (own.title self.old) (length (own.items self.old)) (arc_value item) }
        ensures put { let own = ⟦<Self as RowOut<T>>⟧ in
            own.items self.new ≡ own.items self.old ++ arc_value item ∷ [] }
        ensures same_title { let own = ⟦<Self as RowOut<T>>⟧ in
            own.title self.new ≡ own.title self.old }
        ensures same_capacity { let own = ⟦<Self as RowOut<T>>⟧ in
            own.capacity self.new ≡ own.capacity self.old }
        ensures same_name { let own = ⟦<Self as RowOut<T>>⟧ in
            own.name self.new ≡ own.name self.old }
    {
        self.items.push_reserved(item);
    }
}
