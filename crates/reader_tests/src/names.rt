use expr_reader::{NameError, Names};
use ps_model::NameView;
use std::alloc::Global;
use std::process::Abort;
use std::test::Fail;

// What each call of `add` answers, with `|` behind it, and then the names.
fn answers(alloc: Global, texts: &[&str]) -> Result<String, Fail> {
    let mut names = Names::new(alloc);
    let mut all = String::new(alloc);
    for text in texts {
        match names.add(text) {
            Ok(i) => all.push_str(format!(in alloc; "{i}|")?.as_str())?,
            Err(error) => all.push_str(format!(in alloc; "{error}|")?.as_str())?,
        }
    }
    push_names(&mut all, &names)?;
    Ok(all)
}

// Adds each name with a space behind it.
fn push_names(all: &mut String, names: &Names) -> Result<(), Fail> {
    for i in 0..names.len() {
        all.push_str(names.name(i))?;
        all.push_str(" ")?;
    }
    Ok(())
}

/// Compares what the calls of `add` answer of these texts.
fn assert_answers(rt: &impl Abort, alloc: Global, texts: &[&str], want: &str) -> Result<(), Fail> {
    let found = answers(alloc, texts)?;
    assert_eq!(rt; found.as_str(), want);
    Ok(())
}

#[test]
fn names_are_added_or_refused(rt: HostRuntime) -> Result<(), Fail> {
    let repeated = "0|repeats the name at position 0|bad name|bad name|x ";
    assert_answers(&rt, rt.alloc(), &["x", "x", "Y", "1a"], repeated)?;
    let cases = "0|1|2|3|repeats the name at position 1|Yes y X x ";
    assert_answers(&rt, rt.alloc(), &["Yes", "y", "X", "x", "y"], cases)
}

#[test]
fn a_name_has_letters_digits_and_underscores(rt: HostRuntime) -> Result<(), Fail> {
    let some = "bad name|0|bad name|bad name|bad name|1|a_ a1B_2 ";
    assert_answers(
        &rt,
        rt.alloc(),
        &["_a", "a_", "", "a b", "a-", "a1B_2"],
        some,
    )?;
    let none = "bad name|bad name|bad name|bad name|";
    assert_answers(&rt, rt.alloc(), &["ä", "aä", "Ω", "a\u{0}"], none)
}

#[test]
fn a_name_has_16_letters_at_most(rt: HostRuntime) -> Result<(), Fail> {
    let texts = ["abcdefghijklmnop", "abcdefghijklmnopq", "abcdefghijklmno"];
    let some = "0|bad name|1|abcdefghijklmnop abcdefghijklmno ";
    assert_answers(&rt, rt.alloc(), &texts, some)
}

#[test]
fn there_are_eight_names_at_most(rt: HostRuntime) -> Result<(), Fail> {
    let texts = ["a", "b", "c", "d", "e", "f", "g", "h", "i", "1a", "a"];
    let eight = "0|1|2|3|4|5|6|7|too many names|too many names|too many names|a b c d e f g h ";
    assert_answers(&rt, rt.alloc(), &texts, eight)
}

#[test]
fn names_are_found(rt: HostRuntime) -> Result<(), Fail> {
    let mut names = Names::new(rt.alloc());
    assert_eq!(rt; names.find("x"), None);
    assert_eq!(rt; names.add("x")?, 0);
    assert_eq!(rt; names.add("yy")?, 1);
    assert_eq!(rt; names.add("x"), Err(NameError::Repeats { first: 0 }));
    assert_eq!(rt; names.find("yy"), Some(1));
    assert_eq!(rt; names.find("y"), None);
    assert_found(&rt, &names);
    Ok(())
}

/// Of the names `x` and `yy`, which one these bytes are.
fn assert_found(rt: &impl Abort, names: &Names) {
    assert_eq!(rt; names.find_bytes(b"x"), Some(0));
    assert_eq!(rt; names.find_bytes(b"yy"), Some(1));
    assert_eq!(rt; names.find_bytes(&[b'x', 255]), None);
}
