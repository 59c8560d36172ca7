//! Lists of words, and the commands that they name.
use std::alloc::Global;
use std::process::Abort;
use std::test::Fail;
use words::{Command, Workers, command_of};

fn named(alloc: Global, words: &[&str]) -> Result<Option<Command>, Fail> {
    let mut all = Vec::new(alloc);
    for word in words {
        all.push(String::from_str(alloc, word)?)?;
    }
    Ok(command_of(alloc, all.as_slice())?)
}

fn assert_named(
    rt: &impl Abort,
    alloc: Global,
    words: &[&str],
    want: Option<Command>,
) -> Result<(), Fail> {
    assert_eq!(rt; named(alloc, words)?, want, "{words:?}");
    Ok(())
}

#[test]
fn commands_without_options(rt: HostRuntime) -> Result<(), Fail> {
    let alloc = rt.alloc();
    assert_named(&rt, alloc, &["factor"], Some(Command::Factor(Workers::One)))?;
    assert_named(&rt, alloc, &["expand"], Some(Command::Expand))?;
    assert_named(&rt, alloc, &["check"], Some(Command::Check))
}

#[test]
fn counts_of_workers(rt: HostRuntime) -> Result<(), Fail> {
    let alloc = rt.alloc();
    let cases: [(&[&str], Workers); 6] = [
        (&["factor", "--rounds", "1"], Workers::Rounds(1)),
        (&["factor", "--rounds=64"], Workers::Rounds(64)),
        (&["factor", "--rounds", "044"], Workers::Rounds(44)),
        (&["factor", "--rounds=0001"], Workers::Rounds(1)),
        (&["factor", "--workers", "64"], Workers::Pipeline(64)),
        (&["factor", "--workers=2"], Workers::Pipeline(2)),
    ];
    for (words, workers) in cases {
        assert_named(&rt, alloc, words, Some(Command::Factor(workers)))?;
    }
    Ok(())
}

#[test]
fn seeds(rt: HostRuntime) -> Result<(), Fail> {
    let alloc = rt.alloc();
    let cases: [(&[&str], u64); 5] = [
        (&["demo", "0"], 0),
        (&["demo", "7"], 7),
        (
            &["demo", "12928902737391576265"],
            12_928_902_737_391_576_265,
        ),
        (&["demo", "18446744073709551615"], u64::MAX),
        (&["demo", "00000000000000000007"], 7),
    ];
    for (words, number) in cases {
        assert_named(&rt, alloc, words, Some(Command::Demo(number)))?;
    }
    Ok(())
}

#[test]
fn refused_words(rt: HostRuntime) -> Result<(), Fail> {
    let alloc = rt.alloc();
    let cases: [&[&str]; 36] = [
        &[],
        &[""],
        &["lift"],
        &["Factor"],
        &["fact"],
        &["help"],
        &["--help"],
        &["-h"],
        &["--version"],
        &["factor", "now"],
        &["factor", ""],
        &["factor", "--help"],
        &["factor", "--rounds"],
        &["factor", "--rounds="],
        &["factor", "--rounds", "0"],
        &["factor", "--rounds", "65"],
        &["factor", "--rounds", "00064"],
        &["factor", "--rounds", "+2"],
        &["factor", "--rounds", "-2"],
        &["factor", "--rounds==2"],
        &["factor", "--round", "2"],
        &["factor", "-r", "2"],
        &["factor", "--rounds", "2", "3"],
        &["factor", "--rounds", "2", "--rounds", "3"],
        &["factor", "--rounds", "2", "--workers", "2"],
        &["--rounds", "2", "factor"],
        &["--", "factor"],
        &["factor", "--"],
        &["expand", "--"],
        &["expand", "x"],
        &["check", "--rounds", "2"],
        &["demo"],
        &["demo", "7", "7"],
        &["demo", "--rounds", "2"],
        &["demo", "18446744073709551616"],
        &["demo", "000000000000000000007"],
    ];
    for words in cases {
        assert_named(&rt, alloc, words, None)?;
    }
    Ok(())
}
