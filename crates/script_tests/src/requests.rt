//! Requests, the line `block`, and lines that are skipped.
use parts::Ring;
use residue::Modulus;
use script::{Keyword, Refusal, Request, block_line, is_skipped, request_of};
use std::test::Fail;

/// The ring modulo 101 of two variables.
fn ring() -> Result<Ring, Fail> {
    Ok(Ring::new(Modulus::new(101)?, 2))
}

#[test]
fn requests_ask_for_a_degree(rt: HostRuntime) -> Result<(), Fail> {
    assert_eq!(rt;
        request_of(ring()?, false, b"  show\t0254 "),
        Ok(Request::Show { precision: 254 })
    );
    assert_eq!(rt;
        request_of(ring()?, true, b"stream 1"),
        Ok(Request::Stream { precision: 1 })
    );
    Ok(())
}

#[test]
fn other_words_ask_for_nothing(rt: HostRuntime) -> Result<(), Fail> {
    assert_eq!(rt;
        request_of(ring()?, false, b"stream 1"),
        Err(Refusal::ExpectedRequest)
    );
    assert_eq!(rt;
        request_of(ring()?, true, b"shows 1"),
        Err(Refusal::ExpectedRequest)
    );
    Ok(())
}

#[test]
fn a_request_has_one_number(rt: HostRuntime) -> Result<(), Fail> {
    assert_eq!(rt;
        request_of(ring()?, false, b"show"),
        Err(Refusal::BadRequest)
    );
    assert_eq!(rt;
        request_of(ring()?, false, b"show 1 2"),
        Err(Refusal::BadRequest)
    );
    assert_eq!(rt;
        request_of(ring()?, true, b"stream x"),
        Err(Refusal::BadRequest)
    );
    Ok(())
}

#[test]
fn a_precision_is_within_its_limits(rt: HostRuntime) -> Result<(), Fail> {
    assert_eq!(rt;
        request_of(ring()?, false, b"show 4096"),
        Err(Refusal::PrecisionTooLarge)
    );
    assert_eq!(rt;
        request_of(ring()?, false, b"show 255"),
        Err(Refusal::TooManyMonomials {
            precision: 255,
            count: 32896
        })
    );
    Ok(())
}

#[test]
fn a_precision_is_limited_by_weights(rt: HostRuntime) -> Result<(), Fail> {
    let ring = Ring::weighted(Modulus::new(101)?, 2, [1, 3, 1, 1, 1, 1, 1, 1]);
    assert_eq!(rt;
        request_of(ring, false, b"show 440"),
        Ok(Request::Show { precision: 440 })
    );
    assert_eq!(rt;
        request_of(ring, false, b"show 441"),
        Err(Refusal::TooManyMonomials {
            precision: 441,
            count: 32782
        })
    );
    Ok(())
}

#[test]
fn lines_without_words_are_skipped(rt: HostRuntime) {
    assert!(rt; is_skipped(b""));
    assert!(rt; is_skipped(b" \t "));
    assert!(rt; is_skipped(b"\t#mod 7"));
    assert!(rt; !is_skipped(b"\r"));
    assert!(rt; !is_skipped(b" x #"));
}

#[test]
fn keywords_are_spelled(rt: HostRuntime) {
    assert_eq!(rt; Keyword::Mod.text(), "mod");
    assert_eq!(rt; Keyword::Vars.text(), "vars");
    assert_eq!(rt; Keyword::Poly.text(), "poly");
    assert_eq!(rt; Keyword::Roots.text(), "roots");
    assert_eq!(rt; Keyword::Block.text(), "block");
}

#[test]
fn a_block_begins_behind_one_word(rt: HostRuntime) {
    assert_eq!(rt; block_line(b"\tblock "), Ok(()));
    assert_eq!(rt; block_line(b"block block"), Err(Refusal::BadBlock));
    assert_eq!(rt;
        block_line(b"blocks"),
        Err(Refusal::Expected(Keyword::Block))
    );
    assert_eq!(rt; block_line(b" "), Err(Refusal::Expected(Keyword::Block)));
}
