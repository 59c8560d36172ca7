//! Texts with the tree that is read, as its canonical spelling, or the error. The expected texts
//! follow from the grammar by hand.
use expr_reader::{Names, ReadError, print, read};
use ps_model::{Expr, copy_of, same};
use std::alloc::Global;
use std::process::Abort;
use std::test::Fail;

fn names_of(alloc: Global) -> Result<Names, Fail> {
    let mut names = Names::new(alloc);
    names.add("x")?;
    names.add("Yes")?;
    Ok(names)
}

/// The canonical spelling of the tree that is read, or the text of the error.
fn told(alloc: Global, text: &[u8], names: &Names) -> Result<String, Fail> {
    if text.len() > 65536 {
        return Ok(String::from_str(alloc, "longer than a line")?);
    }
    match read(alloc, text, names) {
        Ok(expr) => Ok(print(alloc, &expr, names)?),
        Err(error) => Ok(format!(in alloc; "{error}")?),
    }
}

/// `times` times the first piece, then the middle, then `times` times the last piece.
fn nested(
    alloc: Global,
    first: &str,
    middle: &str,
    last: &str,
    times: u32,
) -> Result<String, Fail> {
    let mut text = String::new(alloc);
    for _ in 0..times {
        text.push_str(first)?;
    }
    text.push_str(middle)?;
    for _ in 0..times {
        text.push_str(last)?;
    }
    Ok(text)
}

/// Compares what is told of texts. A line of the table is a text, ` => ` and what is told of it.
fn assert_told(rt: &impl Abort, alloc: Global, names: &Names, table: &str) -> Result<(), Fail> {
    for line in table.split('\n') {
        let Some((text, want)) = line.split_once(" => ") else {
            return Err("no line of a table")?;
        };
        let answer = told(alloc, text.as_bytes(), names)?;
        assert_eq!(rt; answer.as_str(), want, "{text}");
    }
    Ok(())
}

#[test]
fn texts_with_their_trees(rt: HostRuntime) -> Result<(), Fail> {
    let alloc = rt.alloc();
    let names = names_of(alloc)?;
    let table = "\
        -Y^2*( x+1 ) => -Y^2*(x + 1)\n\
        \x202 * (x + Y)^2 - 003   => 2*(x + Y)^2 - 3\n\
        x\t+\tYes => x + Yes\n\
        ((x)) => x\n\
        x + (Y^2) => x + Y^2\n\
        (x*Y)/x => (x*Y)/x\n\
        x/(x*Y) => x/(x*Y)\n\
        (x + 1) - (x - 1) => (x + 1) - (x - 1)\n\
        -(-x) => -(-x)\n\
        (Y^2)^3 => (Y^2)^3\n\
        Y^0 => Y^0\n\
        Y^00002 => Y^2\n\
        Y^255 => Y^255\n\
        18446744073709551615 => 18446744073709551615";
    assert_told(&rt, alloc, &names, table)
}

#[test]
fn each_of_the_six_faults(rt: HostRuntime) -> Result<(), Fail> {
    let alloc = rt.alloc();
    let names = names_of(alloc)?;
    let table = "\
        Y & x => bad character at 2\n\
        Y + => unexpected token at 3\n\
        Y +   => unexpected token at 3\n\
        \x20=> unexpected token at 0\n\
        \x20\t => unexpected token at 0\n\
        Y^2 + z => unknown name at 6\n\
        y => unknown name at 0\n\
        18446744073709551616 => number too large at 0\n\
        Y^256 => exponent too large at 2\n\
        Y^18446744073709551616 => exponent too large at 2";
    assert_told(&rt, alloc, &names, table)
}

#[test]
fn tokens_that_the_grammar_does_not_allow(rt: HostRuntime) -> Result<(), Fail> {
    let alloc = rt.alloc();
    let names = names_of(alloc)?;
    let table = "\
        Y x => unexpected token at 2\n\
        Y 2 => unexpected token at 2\n\
        x^2^3 => unexpected token at 3\n\
        x^-1 => unexpected token at 2\n\
        --x => unexpected token at 1\n\
        x*-Y => unexpected token at 2\n\
        +x => unexpected token at 0\n\
        (x => unexpected token at 2\n\
        x) => unexpected token at 1\n\
        () => unexpected token at 1";
    assert_told(&rt, alloc, &names, table)
}

#[test]
fn of_two_faults_that_of_the_first_token(rt: HostRuntime) -> Result<(), Fail> {
    let alloc = rt.alloc();
    let names = names_of(alloc)?;
    let table = "\
        x + z ? => unknown name at 4\n\
        x ? z => bad character at 2\n\
        (x)) ? => unexpected token at 3\n\
        x^256 + z => exponent too large at 2\n\
        z + x^256 => unknown name at 0\n\
        99999999999999999999 z => number too large at 0";
    assert_told(&rt, alloc, &names, table)
}

#[test]
fn of_two_tests_of_one_token_the_first(rt: HostRuntime) -> Result<(), Fail> {
    let alloc = rt.alloc();
    let names = names_of(alloc)?;
    let table = "\
        x z => unexpected token at 2\n\
        x 99999999999999999999 => unexpected token at 2\n\
        x^z => unexpected token at 2";
    assert_told(&rt, alloc, &names, table)
}

#[test]
fn bytes_that_begin_no_token(rt: HostRuntime) -> Result<(), Fail> {
    let alloc = rt.alloc();
    let names = names_of(alloc)?;
    let table = "\
        x\r => bad character at 1\n\
        x\0 => bad character at 1\n\
        _x => bad character at 0";
    assert_told(&rt, alloc, &names, table)?;
    let behind_a_newline = told(alloc, b"x\n+ 1", &names)?;
    assert_eq!(rt; behind_a_newline.as_str(), "bad character at 1");
    let past_ascii = told(alloc, b"x + \xc3\xa9".as_slice(), &names)?;
    assert_eq!(rt; past_ascii.as_str(), "bad character at 4");
    let not_utf8 = told(alloc, b"x\xff".as_slice(), &names)?;
    assert_eq!(rt; not_utf8.as_str(), "bad character at 1");
    Ok(())
}

/// Compares what is told of the pieces, nested so many times.
fn assert_nested(
    rt: &impl Abort,
    alloc: Global,
    pieces: [&str; 3],
    times: u32,
    want: &str,
) -> Result<(), Fail> {
    let [first, middle, last] = pieces;
    let text = nested(alloc, first, middle, last, times)?;
    let answer = told(alloc, text.as_bytes(), &names_of(alloc)?)?;
    assert_eq!(rt; answer.as_str(), want);
    Ok(())
}

#[test]
fn the_65th_open_parenthesis_is_too_deep(rt: HostRuntime) -> Result<(), Fail> {
    assert_nested(&rt, rt.alloc(), ["(", "x", ")"], 64, "x")?;
    assert_nested(&rt, rt.alloc(), ["(", "x", ")"], 65, "too deep at 64")
}

#[test]
fn parentheses_one_after_another_are_not_deep(rt: HostRuntime) -> Result<(), Fail> {
    let spelled = nested(rt.alloc(), "x + ", "x", "", 100)?;
    assert_nested(&rt, rt.alloc(), ["(x)+", "x", ""], 100, spelled.as_str())
}

#[test]
fn numbers_of_60000_digits(rt: HostRuntime) -> Result<(), Fail> {
    assert_nested(&rt, rt.alloc(), ["0", "7", ""], 60000, "7")?;
    assert_nested(
        &rt,
        rt.alloc(),
        ["9", "", ""],
        60000,
        "number too large at 0",
    )
}

/// Reads a text, compares a copy of its tree with it, and prints both.
fn assert_copied(rt: &impl Abort, alloc: Global, text: &str, want: &str) -> Result<(), Fail> {
    let names = names_of(alloc)?;
    if text.len() > 65536 {
        return Err(ReadError::OutOfMemory.into());
    }
    let expr = read(alloc, text.as_bytes(), &names)?;
    let copy = copy_of(alloc, &expr)?;
    assert!(rt; same(&expr, &copy));
    assert!(rt; !same(&expr, &Expr::MainVariable));
    let printed = print(alloc, &copy, &names)?;
    assert_eq!(rt; printed.as_str(), want);
    Ok(())
}

#[test]
fn the_deepest_tree(rt: HostRuntime) -> Result<(), Fail> {
    let deep = nested(rt.alloc(), "1-x*(", "-Y", ")^2", 64)?;
    let spelled = nested(rt.alloc(), "1 - x*(", "-Y", ")^2", 64)?;
    assert_copied(&rt, rt.alloc(), deep.as_str(), spelled.as_str())
}

#[test]
fn the_widest_tree(rt: HostRuntime) -> Result<(), Fail> {
    let wide = nested(rt.alloc(), "x+", "Y", "", 32767)?;
    let spelled = nested(rt.alloc(), "x + ", "Y", "", 32767)?;
    assert_copied(&rt, rt.alloc(), wide.as_str(), spelled.as_str())
}
