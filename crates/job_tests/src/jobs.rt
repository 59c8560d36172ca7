//! Jobs of expressions: the factors that a line of stages finds from their rows.
ghost use Rattle.std.specs.Prelude.{◌≡◌, ◌<◌, ◌≤◌, length, IfOk};
ghost use Rattle.std.specs.Arc.{arc_value};
ghost use Rattle.std.specs.List.{All};
ghost use Rattle.ps_model.specs.AcceptedJob.{IsAccepted, IsAcceptedRoot, AreWeights};
ghost use Rattle.parts.specs.JobRows.{IsRingOf};
ghost use Rattle.residue.specs.Residues.{number_of};
ghost use Rattle.stages.specs.Lines.{HaveRoom};

use expr_reader::{Names, read};
use intake::{InputRows, Job};
use parts::{Monomial, Part, Ring, permitted};
use prepare::Tally;
use ps_model::{JobData, NameView, OutOfMemory, Root};
use residue::Modulus;
use rows::{OwnRow, RowOut};
use stages::{Line, LineView, StageItem, empty_rows};
use std::alloc::Global;
use std::process::Abort;
use std::sync::Arc;
use std::test::Fail;

/// A job, and what is known once its line is raised.
#[derive(Clone, Copy)]
struct Case<'c> {
    modulus: u64,
    names: &'c [&'c str],
    /// The weight of the second variable; all others weigh 1.
    second_weight: u16,
    polynomial: &'c [u8],
    roots: &'c [(u64, u32)],
    raises: [Raise<'c>; 3],
}

/// A precision, and behind the raise to it the steps by then and the lines of the factors up to it.
#[derive(Clone, Copy)]
struct Raise<'c> {
    to: u32,
    steps: u64,
    lines: &'c str,
}

/// Names in this order.
pub fn names_of(alloc: Global, texts: &[&str]) -> Result<Names, Fail> {
    let mut names = Names::new(alloc);
    for text in texts {
        names.add(text)?;
    }
    Ok(names)
}

/// A root within its limits.
fn root_of(modulus: Modulus, value: u64, times: u32) -> Result<Root, Fail>
    ensures { IfOk result (IsAcceptedRoot (number_of modulus)) }
{
    if value >= modulus.value() || times < 1 || times > 32 {
        return Err("no root")?;
    }
    Ok(Root { value, times })
}

/// Roots with their multiplicities, all within their limits.
pub fn roots_of(alloc: Global, modulus: Modulus, pairs: &[(u64, u32)]) -> Result<Vec<Root>, Fail>
    ensures accepted { IfOk result (λ roots. All (IsAcceptedRoot (number_of modulus)) roots.items) }
{
    let mut roots = Vec::new(alloc);
    for &(value, times) in pairs {
        roots.push(root_of(modulus, value, times)?)?;
    }
    Ok(roots)
}

/// Weights of so many variables, of which the second one weighs what is asked.
fn weights_of(names: u32, second: u16) -> Result<[u16; 8], Fail>
    requires { names ≤ 8 }
    ensures { IfOk result (AreWeights names) }
{
    if names < 2 {
        return Ok([1; 8]);
    }
    if second < 1 || second > 64 {
        return Err("no weight")?;
    }
    Ok([1, second, 1, 1, 1, 1, 1, 1])
}

/// The job of Y^2 + x*Y + 1 modulo 101, whose roots at the origin are 10 and 91.
pub fn job_of_two(alloc: Global) -> Result<Job, Fail>
    ensures { IfOk result (λ job. IsAccepted job.job) }
{
    let none = Raise {
        to: 0,
        steps: 0,
        lines: "",
    };
    job_of(
        alloc,
        &Case {
            modulus: 101,
            names: &["x"],
            second_weight: 1,
            polynomial: b"Y^2 + x*Y + 1",
            roots: &[(10, 1), (91, 1)],
            raises: [none; 3],
        },
    )
}

/// The job of Y + x modulo 7, whose root at the origin is 0.
pub fn job_of_one(alloc: Global) -> Result<Job, Fail>
    ensures { IfOk result (λ job. IsAccepted job.job) }
{
    let none = Raise {
        to: 0,
        steps: 0,
        lines: "",
    };
    job_of(
        alloc,
        &Case {
            modulus: 7,
            names: &["x"],
            second_weight: 1,
            polynomial: b"Y + x",
            roots: &[(0, 1)],
            raises: [none; 3],
        },
    )
}

/// The job of a case.
fn job_of(alloc: Global, case: &Case<'_>) -> Result<Job, Fail>
    ensures { IfOk result (λ job. IsAccepted job.job) }
{
    let modulus = Modulus::new(case.modulus)?;
    let names = names_of(alloc, case.names)?;
    let weights = weights_of(names.len(), case.second_weight)?;
    if case.polynomial.len() > 65536 {
        return Err("too long")?;
    }
    let tree = read(alloc, case.polynomial, &names)?;
    let roots = roots_of(alloc, modulus, case.roots)?;
    if names.len() == 0 || roots.is_empty() {
        return Err("no job")?;
    }
    Ok(Job::make(alloc, modulus, names, weights, tree, roots)?)
}

/// A line of a job, with room up to degree 7.
fn line_of(
    alloc: Global,
    ring: Ring,
    job: &Arc<JobData>,
) -> Result<Line<OwnRow<StageItem>>, OutOfMemory>
    requires accepted { IsAccepted (arc_value job.now) }
    requires ring { IsRingOf ring (arc_value job.now) }
    ensures job { IfOk result (λ line.
        ⟦<Line<OwnRow<StageItem>> as LineView>⟧.job line ≡ arc_value job.now) }
    ensures room { IfOk result (λ line.
        HaveRoom 7 (⟦<Line<OwnRow<StageItem>> as LineView>⟧.states line)) }
{
    let rows = empty_rows(alloc, job, 8)?;
    match Line::new(alloc, ring, Arc::try_clone(job)?, rows) {
        Ok(line) => Ok(line),
        Err((refusal, _rows)) => Err(refusal),
    }
}

/// Writes the powers of a monomial, each with its exponent.
fn push_powers(alloc: Global, text: &mut String, names: &[&str], at: Monomial) -> Result<(), Fail> {
    for i in 0..names.len() {
        if i < 8 && at.power(i as u32) > 0 {
            let power = at.power(i as u32);
            text.push_str(format!(in alloc; "*{}^{power}", names[i])?.as_str())?;
        }
    }
    Ok(())
}

/// Writes the terms of a part behind others, each with `+` before it.
pub fn push_part(
    alloc: Global,
    text: &mut String,
    names: &[&str],
    part: &Part,
) -> Result<(), Fail> {
    for term in part.terms() {
        text.push_str(format!(in alloc; " + {}", term.coefficient)?.as_str())?;
        push_powers(alloc, text, names, term.monomial)?;
    }
    Ok(())
}

/// Writes the coefficient of `Y^power` in the factor of a stage up to degree `to`.
fn push_coefficient(
    alloc: Global,
    text: &mut String,
    names: &[&str],
    line: &Line<OwnRow<StageItem>>,
    stage: u32,
    power: usize,
    to: u32,
) -> Result<(), Fail>
    requires { stage < length (⟦<Line<OwnRow<StageItem>> as LineView>⟧.states line.now) }
{
    text.push_str(format!(in alloc; "{} Y^{power}:", u64::from(stage) + 1)?.as_str())?;
    for r in 0..line.len(stage) {
        if r <= to
            && let Some(part) = line.item(stage, r).factor().get(power)
        {
            push_part(alloc, text, names, part)?;
        }
    }
    text.push_str("\n")?;
    Ok(())
}

/// The factors of a line of stages up to degree `to`: a line for each power of Y, from Y^0 on.
fn lines_of(
    alloc: Global,
    names: &[&str],
    line: &Line<OwnRow<StageItem>>,
    to: u32,
) -> Result<String, Fail> {
    let mut text = String::new(alloc);
    for stage in 0..line.stages() {
        if line.len(stage) == 0 {
            return Err("nothing is known")?;
        }
        for power in 0..line.item(stage, 0).factor().len() {
            push_coefficient(alloc, &mut text, names, line, stage, power, to)?;
        }
    }
    Ok(text)
}

/// Raises a line over the rows of its job, once more where memory was refused.
fn raised(
    ring: Ring,
    line: &mut Line<OwnRow<StageItem>>,
    input: &mut InputRows,
    to: u32,
    tally: &mut Tally,
) -> Result<(), Fail>
    requires ring { IsRingOf ring input.old }
    requires job { ⟦<Line<OwnRow<StageItem>> as LineView>⟧.job line.old ≡ input.old }
    requires room { HaveRoom 7 (⟦<Line<OwnRow<StageItem>> as LineView>⟧.states line.old) }
    ensures source { input.new ≡ input.old }
    ensures job { ⟦<Line<OwnRow<StageItem>> as LineView>⟧.job line.new ≡ input.old }
    ensures room { HaveRoom 7 (⟦<Line<OwnRow<StageItem>> as LineView>⟧.states line.new) }
{
    if to > 7 || !permitted(ring, to) || tally.count() > 1000 {
        return Err("not to be raised")?;
    }
    if line.raise(input, to, tally).is_ok() {
        return Ok(());
    }
    if tally.count() > 1000 {
        return Err("too many steps")?;
    }
    line.raise(input, to, tally)?;
    Ok(())
}

/// Raises a line once, and compares the steps by then and the factors.
fn assert_raise(
    rt: &impl Abort,
    alloc: Global,
    ring: Ring,
    names: &[&str],
    line: &mut Line<OwnRow<StageItem>>,
    input: &mut InputRows,
    want: &Raise<'_>,
    tally: &mut Tally,
) -> Result<(), Fail>
    requires ring { IsRingOf ring input.old }
    requires job { ⟦<Line<OwnRow<StageItem>> as LineView>⟧.job line.old ≡ input.old }
    requires room { HaveRoom 7 (⟦<Line<OwnRow<StageItem>> as LineView>⟧.states line.old) }
    ensures source { input.new ≡ input.old }
    ensures job { ⟦<Line<OwnRow<StageItem>> as LineView>⟧.job line.new ≡ input.old }
    ensures room { HaveRoom 7 (⟦<Line<OwnRow<StageItem>> as LineView>⟧.states line.new) }
{
    raised(ring, line, input, want.to, tally)?;
    assert_known(rt, alloc, names, line, want, tally.count())
}

/// The steps, and the factors up to the precision, are those that are wanted.
fn assert_known(
    rt: &impl Abort,
    alloc: Global,
    names: &[&str],
    line: &Line<OwnRow<StageItem>>,
    want: &Raise<'_>,
    steps: u64,
) -> Result<(), Fail> {
    assert_eq!(rt; steps, want.steps, "to {}", want.to);
    let lines = lines_of(alloc, names, line, want.to)?;
    assert_eq!(rt; lines.as_str(), want.lines, "to {}", want.to);
    Ok(())
}

/// Raises a line of the job to each precision.
fn assert_raises(
    rt: &impl Abort,
    alloc: Global,
    case: &Case<'_>,
    job: &mut Job,
    tally: &mut Tally,
) -> Result<(), Fail>
    requires { IsAccepted job.old.job }
{
    let data = Arc::try_clone(job.data())?;
    let ring = job.ring();
    let names = case.names;
    let mut line = line_of(alloc, ring, &data)?;
    let input = job.input();
    let [first, second, third] = &case.raises;
    assert_raise(rt, alloc, ring, names, &mut line, input, first, tally)?;
    assert_raise(rt, alloc, ring, names, &mut line, input, second, tally)?;
    assert_raise(rt, alloc, ring, names, &mut line, input, third, tally)
}

/// Raises a line of the case's job.
fn assert_case(rt: &impl Abort, alloc: Global, case: &Case<'_>) -> Result<(), Fail> {
    let mut job = job_of(alloc, case)?;
    let mut tally = Tally::new();
    let done = assert_raises(rt, alloc, case, &mut job, &mut tally);
    let _steps = tally.finish();
    done
}

// By hand: the powers of a quotient are those of a geometric series, 1/2 is 51 and 1/8 is 38 modulo
// 101, and the square root of 1 - u is 1 - u/2 - u^2/8 - ..
#[test]
fn two_roots(rt: HostRuntime) -> Result<(), Fail> {
    let case = Case {
        modulus: 101,
        names: &["x"],
        second_weight: 1,
        polynomial: b"Y^2 + x*Y + 1",
        roots: &[(10, 1), (91, 1)],
        raises: [Raise {
            to: 2,
            steps: 6,
            lines: "1 Y^0: + 91 + 51*x^1 + 77*x^2\n1 Y^1: + 1\n2 Y^0: + 10 + 51*x^1 + 24*x^2\n2 Y^1: + 1\n",
        }; 3],
    };
    assert_case(&rt, rt.alloc(), &case)
}

#[test]
fn a_division(rt: HostRuntime) -> Result<(), Fail> {
    let case = Case {
        modulus: 7,
        names: &["x"],
        second_weight: 1,
        polynomial: b"Y^2 - 1/(1-x)",
        roots: &[(1, 1), (6, 1)],
        raises: [Raise {
            to: 2,
            steps: 6,
            lines: "1 Y^0: + 6 + 3*x^1 + 4*x^2\n1 Y^1: + 1\n2 Y^0: + 1 + 4*x^1 + 3*x^2\n2 Y^1: + 1\n",
        }; 3],
    };
    assert_case(&rt, rt.alloc(), &case)
}

#[test]
fn three_roots(rt: HostRuntime) -> Result<(), Fail> {
    let case = Case {
        modulus: 101,
        names: &["x", "y"],
        second_weight: 1,
        polynomial: b"Y*(Y-1)*(Y-2) + x + y*Y",
        roots: &[(0, 1), (1, 1), (2, 1)],
        raises: [Raise {
            to: 1,
            steps: 6,
            lines: "1 Y^0: + 51*x^1\n1 Y^1: + 1\n2 Y^0: + 100 + 100*x^1 + 100*y^1\n2 Y^1: + 1\n3 Y^0: + 99 + 51*x^1 + 1*y^1\n3 Y^1: + 1\n",
        }; 3],
    };
    assert_case(&rt, rt.alloc(), &case)
}

#[test]
fn a_variable_of_weight_2(rt: HostRuntime) -> Result<(), Fail> {
    let case = Case {
        modulus: 101,
        names: &["x", "y"],
        second_weight: 2,
        polynomial: b"Y*(Y-1)*(Y-2) + x + y*Y",
        roots: &[(0, 1), (1, 1), (2, 1)],
        raises: [Raise {
            to: 1,
            steps: 6,
            lines: "1 Y^0: + 51*x^1\n1 Y^1: + 1\n2 Y^0: + 100 + 100*x^1\n2 Y^1: + 1\n3 Y^0: + 99 + 51*x^1\n3 Y^1: + 1\n",
        }; 3],
    };
    assert_case(&rt, rt.alloc(), &case)
}

#[test]
fn a_lead(rt: HostRuntime) -> Result<(), Fail> {
    let case = Case {
        modulus: 7,
        names: &["x"],
        second_weight: 1,
        polynomial: b"(2+x)*Y^2 + x",
        roots: &[(0, 2)],
        raises: [Raise {
            to: 2,
            steps: 3,
            lines: "1 Y^0: + 4*x^1 + 5*x^2\n1 Y^1:\n1 Y^2: + 1\n",
        }; 3],
    };
    assert_case(&rt, rt.alloc(), &case)
}

#[test]
fn eight_variables(rt: HostRuntime) -> Result<(), Fail> {
    let case = Case {
        modulus: 101,
        names: &["a", "b", "c", "d", "e", "f", "g", "h"],
        second_weight: 1,
        polynomial: b"Y^2 - 1 + a + b*c + h^2",
        roots: &[(1, 1), (100, 1)],
        raises: [Raise {
            to: 2,
            steps: 6,
            lines: "1 Y^0: + 100 + 51*a^1 + 38*a^2 + 51*b^1*c^1 + 51*h^2\n1 Y^1: + 1\n2 Y^0: + 1 + 50*a^1 + 63*a^2 + 50*b^1*c^1 + 50*h^2\n2 Y^1: + 1\n",
        }; 3],
    };
    assert_case(&rt, rt.alloc(), &case)
}

#[test]
fn a_division_in_a_divisor(rt: HostRuntime) -> Result<(), Fail> {
    let case = Case {
        modulus: 7,
        names: &["x"],
        second_weight: 1,
        polynomial: b"Y + x/(1 + 1/(1-x))",
        roots: &[(0, 1)],
        raises: [Raise {
            to: 3,
            steps: 4,
            lines: "1 Y^0: + 4*x^1 + 5*x^2 + 6*x^3\n1 Y^1: + 1\n",
        }; 3],
    };
    assert_case(&rt, rt.alloc(), &case)
}

#[test]
fn a_composite_modulus(rt: HostRuntime) -> Result<(), Fail> {
    let case = Case {
        modulus: 15,
        names: &["x"],
        second_weight: 1,
        polynomial: b"Y^2 - Y + x",
        roots: &[(0, 1), (1, 1)],
        raises: [Raise {
            to: 4,
            steps: 10,
            lines: "1 Y^0: + 14*x^1 + 14*x^2 + 13*x^3 + 10*x^4\n1 Y^1: + 1\n2 Y^0: + 14 + 1*x^1 + 1*x^2 + 2*x^3 + 5*x^4\n2 Y^1: + 1\n",
        }; 3],
    };
    assert_case(&rt, rt.alloc(), &case)
}

// The square root of 1 + u is 1 + u/2 - u^2/8 + .., here for u = x*y + x^3; to 5 it begins again at
// degree 3, and to 2 it takes no step.
#[test]
fn a_line_goes_on_from_where_it_is(rt: HostRuntime) -> Result<(), Fail> {
    let to_2 = "1 Y^0: + 100 + 50*x^1*y^1\n1 Y^1: + 1\n2 Y^0: + 1 + 51*x^1*y^1\n2 Y^1: + 1\n";
    let to_5 =
        "1 Y^0: + 100 + 50*x^1*y^1 + 50*x^3 + 38*x^2*y^2 + 76*x^4*y^1\n1 Y^1: + 1\n2 Y^0: + 1 + 51*x^1*y^1 + 51*x^3 + 63*x^2*y^2 + 25*x^4*y^1\n2 Y^1: + 1\n";
    let case = Case {
        modulus: 101,
        names: &["x", "y"],
        second_weight: 1,
        polynomial: b"Y^2 - 1 - x*y - x^3",
        roots: &[(1, 1), (100, 1)],
        raises: [
            Raise {
                to: 2,
                steps: 6,
                lines: to_2,
            },
            Raise {
                to: 5,
                steps: 12,
                lines: to_5,
            },
            Raise {
                to: 2,
                steps: 12,
                lines: to_2,
            },
        ],
    };
    assert_case(&rt, rt.alloc(), &case)
}

// -x / ((2+x) * (1-x)) = -x / (2 - x - x^2); a raise whose memory is refused is made once more
#[test]
fn a_lead_and_a_division(rt: HostRuntime) -> Result<(), Fail> {
    let case = Case {
        modulus: 7,
        names: &["x"],
        second_weight: 1,
        polynomial: b"(2+x)*Y^2 - x/(1-x)",
        roots: &[(0, 2)],
        raises: [
            Raise {
                to: 0,
                steps: 1,
                lines: "1 Y^0:\n1 Y^1:\n1 Y^2: + 1\n",
            },
            Raise {
                to: 1,
                steps: 2,
                lines: "1 Y^0: + 3*x^1\n1 Y^1:\n1 Y^2: + 1\n",
            },
            Raise {
                to: 3,
                steps: 4,
                lines: "1 Y^0: + 3*x^1 + 5*x^2 + 4*x^3\n1 Y^1:\n1 Y^2: + 1\n",
            },
        ],
    };
    assert_case(&rt, rt.alloc(), &case)
}
