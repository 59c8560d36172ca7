//! Sessions: a job that is raised to several precisions.
use crate::made::{job_of, raised};
use parts::Part;
use prepare::Tally;
use rows::OwnRow;
use session::Session;
use stages::StageItem;
use std::process::Abort;
use std::test::Fail;

/// The one coefficient of a part in one variable.
fn only_coefficient(part: &Part) -> u64 {
    match part.terms() {
        [term] => term.coefficient,
        _ => 0,
    }
}

/// The coefficient of degree r of the coefficient of `Y^power` in a factor.
fn in_factor(
    session: &Session<OwnRow<StageItem>>,
    factor: u32,
    power: u32,
    r: u32,
) -> Result<u64, Fail> {
    let Some(known) = session.known() else {
        return Err("nothing is known")?;
    };
    match session.job().data().roots.as_slice().get(factor as usize) {
        Some(root) if power <= root.times && r <= known => {
            Ok(only_coefficient(session.factor_part(factor, power, r)))
        }
        _ => Err("no such part")?,
    }
}

/// The coefficient of degree r of the lead.
fn in_lead(session: &Session<OwnRow<StageItem>>, r: u32) -> Result<u64, Fail> {
    match session.known() {
        Some(known) if r <= known => Ok(only_coefficient(session.lead_part(r))),
        _ => Err("not known")?,
    }
}

/// Raises a session of Y^2 + x*Y + 1 modulo 101 to 5, then to 2, then to 5.
fn assert_quadratic(
    rt: &impl Abort,
    session: &mut Session<OwnRow<StageItem>>,
    tally: &mut Tally,
) -> Result<(), Fail> {
    assert_eq!(rt; session.known(), None);
    for to in [5_u32, 2, 5] {
        raised(session, to, tally)?;
        assert_eq!(rt; session.known(), Some(5), "to {to}");
        assert_eq!(rt; tally.count(), 12, "to {to}");
    }
    Ok(())
}

// By hand: the roots are -x/2 -+ sqrt(x^2/4 - 1), which begins with 10 * (1 - x^2/8 - x^4/128)
// modulo 101.
#[test]
fn a_session_goes_on_from_where_it_is(rt: HostRuntime) -> Result<(), Fail> {
    let alloc = rt.alloc();
    let job = job_of(alloc, 101, &["x"], 1, b"Y^2 + x*Y + 1", &[(10, 1), (91, 1)])?;
    let mut session = Session::open(alloc, job)?;
    let mut tally = Tally::new();
    let done = assert_quadratic(&rt, &mut session, &mut tally);
    let _steps = tally.finish();
    done?;
    let coefficients = [91_u64, 51, 77, 0, 49];
    for r in 0..5_u32 {
        let found = in_factor(&session, 0, 0, r)?;
        assert_eq!(rt; found, coefficients[r as usize], "degree {r}");
        assert_eq!(rt; in_lead(&session, r)?, u64::from(r == 0), "degree {r}");
    }
    assert_eq!(rt; in_factor(&session, 1, 1, 0)?, 1);
    assert!(rt; !session.has_lead());
    Ok(())
}

// By hand: the lead is 2 + x.
#[test]
fn a_lead_of_a_session(rt: HostRuntime) -> Result<(), Fail> {
    let alloc = rt.alloc();
    let job = job_of(alloc, 7, &["x"], 1, b"(2+x)*Y^2 + x", &[(0, 2)])?;
    let mut session = Session::open(alloc, job)?;
    let mut tally = Tally::new();
    let done = raised(&mut session, 2, &mut tally);
    assert_eq!(rt; tally.finish(), 3);
    done?;
    assert!(rt; session.has_lead());
    assert_eq!(rt; in_lead(&session, 0)?, 2);
    assert_eq!(rt; in_lead(&session, 1)?, 1);
    assert_eq!(rt; in_lead(&session, 2)?, 0);
    assert_eq!(rt; in_factor(&session, 0, 0, 1)?, 4);
    assert_eq!(rt; in_factor(&session, 0, 0, 2)?, 5);
    Ok(())
}
