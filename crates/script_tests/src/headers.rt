//! Headers, line by line.
use expr_reader::ReadError;
use intake::{Job, JobError};
use ps_model::Root;
use script::{Header, Keyword, Refusal, Refused, Said};
use std::alloc::Global;
use std::test::Fail;

/// What a line says; an error for a line that is longer than a script's.
fn said(header: Header, line: &[u8]) -> Result<Result<Said, Refused>, Fail> {
    if line.len() > 65536 {
        return Err("longer than a line")?;
    }
    Ok(header.read(line))
}

/// The header behind one more line.
fn longer(header: Header, line: &[u8]) -> Result<Header, Fail> {
    match said(header, line)? {
        Ok(Said::Longer(next)) => Ok(next),
        Ok(Said::Makes(_)) => Err("a job")?,
        Err(refused) => Err(refused)?,
    }
}

/// Why a line is refused.
fn refusal(header: Header, line: &[u8]) -> Result<Refusal, Fail> {
    match said(header, line)? {
        Ok(_) => Err("not refused")?,
        Err(Refused::Line(refusal)) => Ok(refusal),
        Err(Refused::OutOfMemory) => Err("out of memory")?,
    }
}

/// The header behind `mod 7`.
fn with_modulus(alloc: Global) -> Result<Header, Fail> {
    longer(Header::new(alloc), b"mod 7")
}

/// The header behind `vars x`.
fn with_names(alloc: Global) -> Result<Header, Fail> {
    longer(with_modulus(alloc)?, b"vars x")
}

/// The header behind a line of `poly`.
fn with_tree(alloc: Global, line: &[u8]) -> Result<Header, Fail> {
    longer(with_names(alloc)?, line)
}

/// The job of a header that its fourth line ends.
fn job_of(header: Header, line: &[u8]) -> Result<Job, Fail> {
    match said(header, line)? {
        Ok(Said::Makes(job)) => Ok(job),
        Ok(Said::Longer(_)) => Err("no job")?,
        Err(refused) => Err(refused)?,
    }
}

#[test]
fn the_lines_are_due_in_their_order(rt: HostRuntime) -> Result<(), Fail> {
    let header = Header::new(rt.alloc());
    assert_eq!(rt; header.due(), Keyword::Mod);
    let header = longer(header, b"mod 7")?;
    assert_eq!(rt; header.due(), Keyword::Vars);
    let header = longer(header, b"vars x")?;
    assert_eq!(rt; header.due(), Keyword::Poly);
    let header = longer(header, b"poly Y")?;
    assert_eq!(rt; header.due(), Keyword::Roots);
    Ok(())
}

#[test]
fn another_line_than_the_one_due_is_refused(rt: HostRuntime) -> Result<(), Fail> {
    let alloc = rt.alloc();
    assert_eq!(rt;
        refusal(Header::new(alloc), b"modulus 7")?,
        Refusal::Expected(Keyword::Mod)
    );
    assert_eq!(rt;
        refusal(with_modulus(alloc)?, b"mod 7")?,
        Refusal::Expected(Keyword::Vars)
    );
    assert_eq!(rt;
        refusal(with_names(alloc)?, b"vars x")?,
        Refusal::Expected(Keyword::Poly)
    );
    assert_eq!(rt;
        refusal(with_tree(alloc, b"poly Y")?, b"Roots 0:1")?,
        Refusal::Expected(Keyword::Roots)
    );
    Ok(())
}

#[test]
fn a_modulus_is_one_number(rt: HostRuntime) -> Result<(), Fail> {
    let alloc = rt.alloc();
    assert_eq!(rt; refusal(Header::new(alloc), b"mod")?, Refusal::BadModulus);
    assert_eq!(rt;
        refusal(Header::new(alloc), b"mod 7 7")?,
        Refusal::BadModulus
    );
    assert_eq!(rt;
        refusal(Header::new(alloc), b"mod -7")?,
        Refusal::BadModulus
    );
    Ok(())
}

#[test]
fn a_modulus_is_within_its_limits(rt: HostRuntime) -> Result<(), Fail> {
    let alloc = rt.alloc();
    longer(Header::new(alloc), b" \tmod 09223372036854775807 ")?;
    assert_eq!(rt;
        refusal(Header::new(alloc), b"mod 1")?,
        Refusal::ModulusOutOfRange
    );
    assert_eq!(rt;
        refusal(Header::new(alloc), b"mod 9223372036854775808")?,
        Refusal::ModulusOutOfRange
    );
    // 2^128 + 2
    assert_eq!(rt;
        refusal(
            Header::new(alloc),
            b"mod 340282366920938463463374607431768211458"
        )?,
        Refusal::ModulusOutOfRange
    );
    Ok(())
}

#[test]
fn names_are_refused_in_their_order(rt: HostRuntime) -> Result<(), Fail> {
    let alloc = rt.alloc();
    assert_eq!(rt; refusal(with_modulus(alloc)?, b"vars ")?, Refusal::NoNames);
    assert_eq!(rt;
        refusal(with_modulus(alloc)?, b"vars a b c d e f g h 1")?,
        Refusal::TooManyNames
    );
    assert_eq!(rt;
        refusal(with_modulus(alloc)?, b"vars x abcdefghijklmnopq")?,
        Refusal::BadName { word: 2 }
    );
    assert_eq!(rt;
        refusal(with_modulus(alloc)?, b"vars :2")?,
        Refusal::BadName { word: 1 }
    );
    Ok(())
}

#[test]
fn weights_are_refused_behind_names(rt: HostRuntime) -> Result<(), Fail> {
    let alloc = rt.alloc();
    assert_eq!(rt;
        refusal(with_modulus(alloc)?, b"vars x:0")?,
        Refusal::BadWeight { word: 1 }
    );
    assert_eq!(rt;
        refusal(with_modulus(alloc)?, b"vars x y:65")?,
        Refusal::BadWeight { word: 2 }
    );
    assert_eq!(rt;
        refusal(with_modulus(alloc)?, b"vars x:1 x:2:3")?,
        Refusal::NameRepeats { word: 2 }
    );
    Ok(())
}

#[test]
fn a_polynomial_is_the_rest_of_its_line(rt: HostRuntime) -> Result<(), Fail> {
    let alloc = rt.alloc();
    assert_eq!(rt;
        refusal(with_names(alloc)?, b"poly \t Y^2 + z")?,
        Refusal::BadPolynomial(ReadError::UnknownName { place: 6 })
    );
    assert_eq!(rt;
        refusal(with_names(alloc)?, b"poly Y + \t")?,
        Refusal::BadPolynomial(ReadError::Expected { place: 3 })
    );
    Ok(())
}

#[test]
fn roots_are_refused_from_left_to_right(rt: HostRuntime) -> Result<(), Fail> {
    let alloc = rt.alloc();
    assert_eq!(rt;
        refusal(with_tree(alloc, b"poly Y")?, b"roots")?,
        Refusal::NoRoots
    );
    assert_eq!(rt;
        refusal(with_tree(alloc, b"poly Y")?, b"roots 0:33 x")?,
        Refusal::BadRoot { word: 1 }
    );
    assert_eq!(rt;
        refusal(
            with_tree(alloc, b"poly Y")?,
            b"roots 0:1 18446744073709551616:1"
        )?,
        Refusal::BadRoot { word: 2 }
    );
    Ok(())
}

#[test]
fn a_job_is_refused_at_the_line_of_the_roots(rt: HostRuntime) -> Result<(), Fail> {
    let header = with_tree(rt.alloc(), b"poly Y^2 + x")?;
    assert_eq!(rt;
        refusal(header, b"roots 0:3")?,
        Refusal::BadJob(JobError::DegreeMismatch { degree: 2, sum: 3 })
    );
    Ok(())
}

#[test]
fn a_root_that_repeats_is_refused(rt: HostRuntime) -> Result<(), Fail> {
    let header = with_tree(rt.alloc(), b"poly Y^2 + Y + 2")?;
    assert_eq!(rt;
        refusal(header, b"roots 3:1 3:1")?,
        Refusal::BadJob(JobError::NotApart {
            first: 1,
            second: 2,
            difference: 0,
            gcd: 7
        })
    );
    Ok(())
}

#[test]
fn four_lines_make_a_job(rt: HostRuntime) -> Result<(), Fail> {
    let header = longer(with_modulus(rt.alloc())?, b"vars x y:003")?;
    let header = longer(header, b"poly Y^2 - x*Y - 1")?;
    let job = job_of(header, b"roots 8:1\t-18446744073709551615:1")?;
    let data = job.data();
    assert_eq!(rt; data.modulus, 7);
    assert_eq!(rt; data.weights, [1, 3, 1, 1, 1, 1, 1, 1]);
    // 2^64 - 1 is 1 modulo 7
    let roots = [Root { value: 1, times: 1 }, Root { value: 6, times: 1 }];
    assert_eq!(rt; data.roots.as_slice(), roots.as_slice());
    Ok(())
}
