//! How a worker comes to its upstream item.
ghost use Rattle.std.specs.Prelude.{◌≡◌, ℕ, ◌<◌, ◌≤◌, length, IfOk, OnOk};
ghost use Rattle.std.specs.Arc.{arc_value};
ghost use Rattle.stages.specs.Items.{IsItem};
ghost use Rattle.pipe.specs.Looks.{state_of, KeepsReader, Shows};

use core::mem::replace_with;
use ps_model::OutOfMemory;
use rows::RowReader;
use stages::StageItem;
use std::sync::atomic::{AtomicBool, Ordering};
use std::sync::{Arc, Wait};
use std::thread;

/// What one look showed.
#[derive(Drop)]
pub(crate) enum Found {
    Item(Arc<StageItem>),
    NotYet,
    NoMemory,
}

/// Looks once for the item of degree r, and leaves the row.
fn look_once(reader: RowReader<StageItem>, r: u32) -> (RowReader<StageItem>, Found)
    ensures kept { KeepsReader (state_of reader) (state_of result.0) }
    ensures found { Shows (state_of result.0) r result.1 }
{
    match reader.look() {
        Err(reader) => (reader, Found::NotYet),
        Ok(looked) => {
            if looked.len() <= r {
                return (looked.leave(), Found::NotYet);
            }
            let found = match Arc::try_clone(looked.item(r)) {
                Ok(item) => Found::Item(item),
                Err(_) => Found::NoMemory,
            };
            (looked.leave(), found)
        }
    }
}

/// Looks once through a reader that is lent.
fn look_in_place(reader: &mut RowReader<StageItem>, r: u32) -> Found
    ensures kept { KeepsReader (state_of reader.old) (state_of reader.new) }
    ensures found { Shows (state_of reader.new) r result }
{
    replace_with(reader, r, |reader, r| look_once(reader, r))
}

/// Looks until the item of degree `r` is there, or `stop` says that a worker met want of memory. It
/// leaves each look before it answers, so that no publish waits for it.
pub fn wait_for<R: Wait>(
    rt: &R,
    stop: &AtomicBool,
    reader: &mut RowReader<StageItem>,
    r: u32,
) -> Result<Arc<StageItem>, OutOfMemory>
    ensures kept { KeepsReader (state_of reader.old) (state_of reader.new) }
    ensures fits { IfOk result (λ item. IsItem (state_of reader.old).title r (arc_value item)) }
    ensures seen { OnOk result (r < (state_of reader.new).seen) }
{
    for _ in rt.forever() {
        match look_in_place(reader, r) {
            Found::Item(item) => return Ok(item),
            Found::NoMemory => return Err(OutOfMemory),
            Found::NotYet => {}
        }
        if stop.load(Ordering::SeqCst) {
            return Err(OutOfMemory);
        }
        thread::yield_now();
    }
    unreachable!()
}
