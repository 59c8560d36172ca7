//! Blocks that are read and compared with a session. The factors are those of `printing`, and with a
//! lead beside them.
ghost use Rattle.std.specs.Prelude.{◌≡◌};

use crate::made::{job_of, raised};
use comparison::{Place, first_difference};
use prepare::Tally;
use printer::{BlockView, read_block};
use ps_model::Root;
use rows::OwnRow;
use session::Session;
use stages::StageItem;
use std::alloc::Global;
use std::process::Abort;
use std::test::Fail;

/// A session of a job in x modulo 101 with a lead and two factors, known up to degree 2.
fn known(alloc: Global) -> Result<Session<OwnRow<StageItem>>, Fail> {
    let polynomial = b"(2+x)*(Y^2 + x*Y + 1)";
    let job = job_of(alloc, 101, &["x"], 1, polynomial, &[(10, 1), (91, 1)])?;
    let mut session = Session::open(alloc, job)?;
    let mut tally = Tally::new();
    let done = raised(&mut session, 2, &mut tally);
    let _steps = tally.finish();
    done?;
    Ok(session)
}

/// Where the block that is read differs first from a view with these roots.
fn place_of<V: BlockView>(
    alloc: Global,
    view: &V,
    roots: &[Root],
    text: &[u8],
) -> Result<Option<Place>, Fail>
    requires { roots.now ≡ (V.value view.now).roots }
{
    if text.len() > 4096 {
        return Err("too long")?;
    }
    let Ok(block) = read_block(alloc, view, view.ring(), view.has_lead(), roots, text) else {
        return Err("refused")?;
    };
    match view.known() {
        Some(known) if block.precision <= known => Ok(first_difference(alloc, view, &block)?),
        _ => Err("not known")?,
    }
}

/// A block with these terms in the lead, and in the coefficients of Y^1 and Y^0 of both factors.
fn block_of(
    alloc: Global,
    lead: &str,
    first: [&str; 2],
    second: [&str; 2],
) -> Result<String, Fail> {
    let [high, low] = first;
    let mut text = format!(in alloc; "precision 2\nlead: {lead}\n")?;
    let factor = format!(in alloc; "factor 1 root 10 times 1\nY^1: {high}\nY^0: {low}\n")?;
    text.push_str(factor.as_str())?;
    let [high, low] = second;
    let factor = format!(in alloc; "factor 2 root 91 times 1\nY^1: {high}\nY^0: {low}\n")?;
    text.push_str(factor.as_str())?;
    Ok(text)
}

/// The text is read as a block that differs from the session's at this place first.
fn assert_place(
    rt: &impl Abort,
    alloc: Global,
    text: &str,
    place: Option<Place>,
) -> Result<(), Fail> {
    let session = known(alloc)?;
    let roots = session.job().data().roots.as_slice();
    assert!(rt; place_of(alloc, &session, roots, text.as_bytes())? == place);
    Ok(())
}

/// The terms of the constant coefficients of the factors.
const FIRST: &str = "91 + 51*x + 77*x^2";

const SECOND: &str = "10 + 51*x + 24*x^2";

#[test]
fn a_block_of_the_session_is_the_same(rt: HostRuntime) -> Result<(), Fail> {
    let text = block_of(rt.alloc(), "2 + 1*x", ["1", FIRST], ["1", SECOND])?;
    assert_place(&rt, rt.alloc(), text.as_str(), None)
}

#[test]
fn a_shorter_block_is_the_same(rt: HostRuntime) -> Result<(), Fail> {
    let mut text = String::from_str(rt.alloc(), "precision 0\nlead: 2\n")?;
    text.push_str("factor 1 root 10 times 1\nY^1: 1\nY^0: 91\n")?;
    text.push_str("factor 2 root 91 times 1\nY^1: 1\nY^0: 10\n")?;
    assert_place(&rt, rt.alloc(), text.as_str(), None)
}

#[test]
fn another_lead(rt: HostRuntime) -> Result<(), Fail> {
    let text = block_of(rt.alloc(), "2 + 2*x", ["1", FIRST], ["1", SECOND])?;
    let place = Place::Lead { degree: 1 };
    assert_place(&rt, rt.alloc(), text.as_str(), Some(place))
}

// a term that is too many, of the last degree
#[test]
fn another_greatest_coefficient(rt: HostRuntime) -> Result<(), Fail> {
    let text = block_of(rt.alloc(), "2 + 1*x", ["1", FIRST], ["1 + 5*x^2", SECOND])?;
    let place = Place::Factor {
        number: 2,
        power: 1,
        degree: 2,
    };
    assert_place(&rt, rt.alloc(), text.as_str(), Some(place))
}

// a term that is missing
#[test]
fn another_constant_coefficient(rt: HostRuntime) -> Result<(), Fail> {
    let text = block_of(rt.alloc(), "2 + 1*x", ["1", "91 + 77*x^2"], ["1", SECOND])?;
    let place = Place::Factor {
        number: 1,
        power: 0,
        degree: 1,
    };
    assert_place(&rt, rt.alloc(), text.as_str(), Some(place))
}

// the lead before the factors, though they differ at a lower degree
#[test]
fn the_lead_is_told_first(rt: HostRuntime) -> Result<(), Fail> {
    let text = block_of(rt.alloc(), "2 + 1*x + 1*x^2", ["2", FIRST], ["1", SECOND])?;
    let place = Place::Lead { degree: 2 };
    assert_place(&rt, rt.alloc(), text.as_str(), Some(place))
}

// the first factor before the second, and in it Y^1 before Y^0, though Y^0 differs at a lower degree
#[test]
fn the_greater_power_is_told_first(rt: HostRuntime) -> Result<(), Fail> {
    let low = "90 + 51*x + 77*x^2";
    let text = block_of(rt.alloc(), "2 + 1*x", ["1 + 1*x", low], ["3", SECOND])?;
    let place = Place::Factor {
        number: 1,
        power: 1,
        degree: 1,
    };
    assert_place(&rt, rt.alloc(), text.as_str(), Some(place))
}
