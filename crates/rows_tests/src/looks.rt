//! What a look finds.
ghost use Rattle.std.specs.Prelude.{◌≡◌, IfSome};
ghost use Rattle.rows.specs.Readers.{reader_name};
ghost use Rattle.rows.specs.Writers.{writer_name, writer_title};

use crate::numbers::{First, Number, put_next};
use rows::{RowOut, RowReader, RowWriter, shared_row};
use std::alloc::Global;
use std::sync::Wait;
use std::test::Fail;

/// The length of the list that is found.
fn look_once(reader: RowReader<Number>) -> Option<(u32, RowReader<Number>)>
    ensures { IfSome result (λ p. reader_name p.1 ≡ reader_name reader) }
{
    let Ok(found) = reader.look() else {
        return None;
    };
    let len = found.len();
    Some((len, found.leave()))
}

/// The lengths found before anything is put, after a put, after a publish, and after two more puts.
fn four_looks<W: Wait>(
    rt: &W,
    alloc: Global,
    row: &mut RowWriter<Number>,
    reader: RowReader<Number>,
) -> Option<(u32, u32, u32, u32)>
    requires title { (writer_title row.old).number ≡ 7 }
    requires name { reader_name reader ≡ writer_name row.old }
{
    let (first, reader) = look_once(reader)?;
    let put = put_next(alloc, row, 7);
    let (second, mut reader) = look_once(reader)?;
    reader.learn(row.publish(rt).ok()?);
    let (third, reader) = look_once(reader)?;
    let put = put_next(alloc, row, 7) && put;
    let put = put_next(alloc, row, 7) && put;
    let (fourth, _reader) = look_once(reader)?;
    if put {
        Some((first, second, third, fourth))
    } else {
        None
    }
}

// By hand: what isn't published isn't found.
#[test]
fn a_look_finds_what_is_published(rt: HostRuntime) -> Result<(), Fail> {
    let (mut row, mut readers) = shared_row(&rt, rt.alloc(), First { number: 7 }, 3, 1)?;
    let found = match readers.pop() {
        Some(reader) => four_looks(&rt, rt.alloc(), &mut row, reader),
        None => None,
    };
    row.close(&rt);
    assert_eq!(rt; found, Some((0, 0, 1, 1)));
    Ok(())
}

/// The numbers of items that are there, that are published, and that two `Told`s name.
fn counts<W: Wait>(
    rt: &W,
    alloc: Global,
    row: &mut RowWriter<Number>,
) -> Option<(u32, u32, u32, u32)>
    requires { (writer_title row.old).number ≡ 7 }
{
    let put = put_next(alloc, row, 7);
    let put = put_next(alloc, row, 7) && put;
    let published = row.publish(rt).ok()?;
    let put = put_next(alloc, row, 7) && put;
    let told = row.tell();
    if put {
        Some((row.len(), row.published(), published.len(), told.len()))
    } else {
        None
    }
}

// By hand: two of three items are published.
#[test]
fn what_is_told_is_published(rt: HostRuntime) -> Result<(), Fail> {
    let (mut row, readers) = shared_row(&rt, rt.alloc(), First { number: 7 }, 3, 1)?;
    drop(readers);
    let counted = counts(&rt, rt.alloc(), &mut row);
    row.close(&rt);
    assert_eq!(rt; counted, Some((3, 2, 2, 2)));
    Ok(())
}

#[test]
fn the_largest_row_is_made(rt: HostRuntime) -> Result<(), Fail> {
    let (row, readers) = shared_row::<Number, _>(&rt, rt.alloc(), First { number: 7 }, 4096, 4)?;
    let capacity = row.capacity();
    let len = row.len();
    let published = row.published();
    row.close(&rt);
    assert_eq!(rt; (capacity, len, published), (4096, 0, 0));
    assert_eq!(rt; readers.len(), 4);
    for reader in readers {
        assert_eq!(rt; reader.seen(), 0);
        assert_eq!(rt; reader.misses(), 0);
        assert_eq!(rt; reader.title().number, 7);
    }
    Ok(())
}

// Once its writer is gone a reader can't enter, and counts that.
#[test]
fn a_reader_of_a_closed_row_misses(rt: HostRuntime) -> Result<(), Fail> {
    let (row, mut readers) = shared_row::<Number, _>(&rt, rt.alloc(), First { number: 7 }, 3, 1)?;
    row.close(&rt);
    let misses = match readers.pop() {
        Some(reader) => match reader.look() {
            Ok(found) => {
                found.leave();
                None
            }
            Err(reader) => Some(reader.misses()),
        },
        None => None,
    };
    assert_eq!(rt; misses, Some(1));
    Ok(())
}
