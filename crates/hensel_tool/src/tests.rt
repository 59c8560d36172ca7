//! Scripts with their texts, statuses, steps and pulls.
use crate::run_words;
use meeting::Meeting;
use pipe::{Gate, OpenGate};
use ports::{CalmSource, MemorySink, MemorySource, Pulled, Source};
use prepare::Tally;
use std::alloc::Global;
use std::marker::Sync;
use std::process::Abort;
use std::sync::Wait;
use std::test::Fail;
use std::thread::Threads;

const SCRIPT: &[u8] = b"mod 101\nvars x\npoly Y^2 + x*Y + 1\nroots 10:1 -10:1\nshow 2\n";

const BLOCK: &[u8] =
    b"precision 2\nfactor 1 root 10 times 1\nY^1: 1\nY^0: 91 + 51*x + 77*x^2\nfactor 2 root 91 times 1\nY^1: 1\nY^0: 10 + 51*x + 24*x^2\n";

// the block of precision 0, and the same twice
const ORIGIN: &[u8] =
    b"precision 0\nfactor 1 root 10 times 1\nY^1: 1\nY^0: 91\nfactor 2 root 91 times 1\nY^1: 1\nY^0: 10\n";

const ORIGIN_TWICE: &[u8] =
    b"precision 0\nfactor 1 root 10 times 1\nY^1: 1\nY^0: 91\nfactor 2 root 91 times 1\nY^1: 1\nY^0: 10\nprecision 0\nfactor 1 root 10 times 1\nY^1: 1\nY^0: 91\nfactor 2 root 91 times 1\nY^1: 1\nY^0: 10\n";

const USAGE: &[u8] =
    b"usage: hensel_tool factor [--rounds N | --workers N] | expand | check | demo NUMBER\n";

fn words_of(alloc: Global, words: &[&str]) -> Result<Vec<String>, Fail> {
    let mut all = Vec::new(alloc);
    for word in words {
        all.push(String::from_str(alloc, word)?)?;
    }
    Ok(all)
}

/// Runs the program, and compares the text, the status and the steps.
fn assert_run<S: Source>(
    rt: &(impl Abort + Threads + Wait + Sync),
    alloc: Global,
    words: &[&str],
    source: &mut S,
    sink: MemorySink,
    want: (&[u8], u8, u64),
    shows: &str,
) -> Result<(), Fail> {
    assert_run_past(rt, alloc, words, source, sink, &OpenGate, want, shows)
}

/// The same, where workers pass this gate before each step.
fn assert_run_past<S: Source, G: Gate>(
    rt: &(impl Abort + Threads + Wait + Sync),
    alloc: Global,
    words: &[&str],
    source: &mut S,
    mut sink: MemorySink,
    gate: &G,
    want: (&[u8], u8, u64),
    shows: &str,
) -> Result<(), Fail> {
    let words = words_of(alloc, words)?;
    let mut tally = Tally::new();
    let status = run_words(
        rt,
        alloc,
        words.as_slice(),
        source,
        &mut sink,
        gate,
        &mut tally,
    );
    let steps = tally.finish();
    let (text, want_status, want_steps) = want;
    assert_eq!(rt; sink.bytes(), text, "{shows}");
    assert_eq!(rt; (status, steps), (want_status, want_steps), "{shows}");
    Ok(())
}

/// Runs a command on a script that is read whole, with room for the text.
fn assert_script(
    rt: &(impl Abort + Threads + Wait + Sync),
    alloc: Global,
    command: &str,
    script: &[u8],
    want: (&[u8], u8, u64),
) -> Result<(), Fail> {
    let mut source = CalmSource::new(Vec::from_slice(alloc, script)?);
    let sink = MemorySink::new(alloc, 4096, 4096)?;
    assert_run(rt, alloc, &[command], &mut source, sink, want, command)
}

#[test]
fn several_requests(rt: HostRuntime) -> Result<(), Fail> {
    let script =
        b"# two rings\n\nmod 7\r\nvars x y:2\n poly\t(Y - x)*(Y - 1)/(1 - y)  \nroots 0:1 1:1\nshow 1\nstream 2\nshow 0";
    let text =
        b"precision 1\nlead: 1\nfactor 1 root 0 times 1\nY^1: 1\nY^0: 6*x\nfactor 2 root 1 times 1\nY^1: 1\nY^0: 6\nstream 2\ndegree 0\nlead: 1\n1 Y^1: 1\n2 Y^1: 1\n2 Y^0: 6\ndegree 1\n1 Y^0: 6*x\ndegree 2\nlead: 1*y\nend\nprecision 0\nlead: 1\nfactor 1 root 0 times 1\nY^1: 1\nY^0: 0\nfactor 2 root 1 times 1\nY^1: 1\nY^0: 6\n";
    assert_script(&rt, rt.alloc(), "factor", script, (text, 0, 6))
}

#[test]
fn an_input_is_expanded(rt: HostRuntime) -> Result<(), Fail> {
    let script = b"mod 7\nvars x\npoly Y/(1-x) + 3\nroots 4:1\nshow 2\nshow 0\nstream 1\n";
    let text =
        b"precision 2\ninput degree 1\nY^1: 1 + 1*x + 1*x^2\nY^0: 3\nprecision 0\ninput degree 1\nY^1: 1\nY^0: 3\nrefused line 7: expected a request\n";
    assert_script(&rt, rt.alloc(), "expand", script, (text, 1, 0))
}

#[test]
fn a_refused_request_is_told_behind_the_answers(rt: HostRuntime) -> Result<(), Fail> {
    let alloc = rt.alloc();
    let mut script = Vec::from_slice(alloc, SCRIPT)?;
    script.extend_from_slice(b"show 4096\nshow 1\n")?;
    let mut text = Vec::from_slice(alloc, BLOCK)?;
    text.extend_from_slice(b"refused line 6: precision above 4095\n")?;
    assert_script(&rt, alloc, "factor", &script, (text.as_slice(), 1, 6))
}

#[test]
fn a_line_is_missing(rt: HostRuntime) -> Result<(), Fail> {
    let text = b"refused end: expected roots\n";
    assert_script(
        &rt,
        rt.alloc(),
        "factor",
        b"mod 7\nvars x\npoly Y\n",
        (text, 1, 0),
    )
}

#[test]
fn a_long_line_is_refused(rt: HostRuntime) -> Result<(), Fail> {
    let alloc = rt.alloc();
    let mut script = Vec::from_elem(alloc, b'#', 65_536)?;
    script.extend_from_slice(b"\r\n")?;
    script.resize(131_075, b'#')?;
    let text = b"refused line 2: line too long\n";
    assert_script(&rt, alloc, "factor", &script, (text, 1, 0))
}

#[test]
fn an_input_past_the_limit_is_refused(rt: HostRuntime) -> Result<(), Fail> {
    let alloc = rt.alloc();
    let script = Vec::from_elem(alloc, b'\n', 1_048_577)?;
    let text = b"refused line 1048577: input too long\n";
    assert_script(&rt, alloc, "factor", &script, (text, 1, 0))
}

// By hand, as in the tests of `session`.
#[test]
fn threads_change_nothing(rt: HostRuntime) -> Result<(), Fail> {
    let alloc = rt.alloc();
    let script =
        b"mod 101\nvars x y\npoly Y*(Y-1)*(Y-2) + x + y*Y\nroots 0:1 1:1 2:1\nshow 1\nstream 1\n";
    let text =
        b"precision 1\nfactor 1 root 0 times 1\nY^1: 1\nY^0: 51*x\nfactor 2 root 1 times 1\nY^1: 1\nY^0: 100 + 100*x + 100*y\nfactor 3 root 2 times 1\nY^1: 1\nY^0: 99 + 51*x + 1*y\nstream 1\ndegree 0\n1 Y^1: 1\n2 Y^1: 1\n2 Y^0: 100\n3 Y^1: 1\n3 Y^0: 99\ndegree 1\n1 Y^0: 51*x\n2 Y^0: 100*x + 100*y\n3 Y^0: 51*x + 1*y\nend\n";
    let cases: [&[&str]; 8] = [
        &["factor"],
        &["factor", "--rounds", "1"],
        &["factor", "--rounds", "3"],
        &["factor", "--rounds=64"],
        &["factor", "--workers", "1"],
        &["factor", "--workers", "2"],
        &["factor", "--workers", "9"],
        &["factor", "--workers=64"],
    ];
    for words in cases {
        let mut source = CalmSource::new(Vec::from_slice(alloc, script)?);
        let sink = MemorySink::new(alloc, 4096, 4096)?;
        let want: (&[u8], u8, u64) = (text, 0, 6);
        assert_run(&rt, alloc, words, &mut source, sink, want, "threads")?;
    }
    Ok(())
}

/// Runs two workers on the first script, with this request in place of its own, past a gate at which
/// they wait for each other.
fn assert_meeting(
    rt: &(impl Abort + Threads + Wait + Sync),
    alloc: Global,
    request: &[u8],
    want: (&[u8], u8, u64),
) -> Result<(), Fail> {
    let mut script = Vec::from_slice(
        alloc,
        b"mod 101\nvars x\npoly Y^2 + x*Y + 1\nroots 10:1 -10:1\n",
    )?;
    script.extend_from_slice(request)?;
    let mut source = CalmSource::new(script);
    let sink = MemorySink::new(alloc, 4096, 4096)?;
    let gate = Meeting::new();
    let words = ["factor", "--workers", "2"];
    assert_run_past(rt, alloc, &words, &mut source, sink, &gate, want, "gate")?;
    assert!(rt; gate.met());
    Ok(())
}

// One thread can't pass the gate, in whatever order it works.
#[test]
fn pipe_gate(rt: HostRuntime) -> Result<(), Fail> {
    let alloc = rt.alloc();
    let block =
        b"precision 1\nfactor 1 root 10 times 1\nY^1: 1\nY^0: 91 + 51*x\nfactor 2 root 91 times 1\nY^1: 1\nY^0: 10 + 51*x\n";
    assert_meeting(&rt, alloc, b"show 1\n", (block, 0, 4))?;
    let stream =
        b"stream 1\ndegree 0\n1 Y^1: 1\n1 Y^0: 91\n2 Y^1: 1\n2 Y^0: 10\ndegree 1\n1 Y^0: 51*x\n2 Y^0: 51*x\nend\n";
    assert_meeting(&rt, alloc, b"stream 1\n", (stream, 0, 4))
}

// Each push that the sink refuses ends the run, behind the beginning that it has taken; the workers give
// up where they would wait.
#[test]
fn a_stream_with_too_little_room(rt: HostRuntime) -> Result<(), Fail> {
    let alloc = rt.alloc();
    let stream =
        b"stream 1\ndegree 0\n1 Y^1: 1\n1 Y^0: 91\n2 Y^1: 1\n2 Y^0: 10\ndegree 1\n1 Y^0: 51*x\n2 Y^0: 51*x\nend\n";
    for room in 0..stream.len() {
        let sink = MemorySink::new(alloc, room as u64, 7)?;
        assert_short_stream(&rt, alloc, sink, stream.get(..room).ok_or("short")?)?;
    }
    Ok(())
}

/// Runs two workers on a stream for which the sink has no room: it takes this beginning.
fn assert_short_stream(
    rt: &(impl Abort + Threads + Wait + Sync),
    alloc: Global,
    mut sink: MemorySink,
    text: &[u8],
) -> Result<(), Fail> {
    let script = b"mod 101\nvars x\npoly Y^2 + x*Y + 1\nroots 10:1 -10:1\nstream 1\n";
    let mut source = CalmSource::new(Vec::from_slice(alloc, script)?);
    let words = words_of(alloc, &["factor", "--workers", "2"])?;
    let mut tally = Tally::new();
    let status = run_words(
        rt,
        alloc,
        words.as_slice(),
        &mut source,
        &mut sink,
        &OpenGate,
        &mut tally,
    );
    let steps = tally.finish();
    assert_eq!(rt; (sink.bytes(), status), (text, 4));
    assert!(rt; steps <= 4);
    Ok(())
}

// The first pull would fail, and isn't made.
#[test]
fn refused_words_pull_nothing(rt: HostRuntime) -> Result<(), Fail> {
    let alloc = rt.alloc();
    let cases: [&[&str]; 9] = [
        &[],
        &["factor", "now"],
        &["facto"],
        &["factor", "--rounds", "0"],
        &["factor", "--workers", "0"],
        &["factor", "--workers=65"],
        &["factor", "now", "--workers", "2"],
        &["factor", "--rounds", "2", "--workers", "2"],
        &["demo", "18446744073709551616"],
    ];
    for words in cases {
        let mut source = MemorySource::new(Vec::new(alloc), Vec::from_slice(alloc, &[1])?);
        let sink = MemorySink::new(alloc, 4096, 4096)?;
        assert_run(&rt, alloc, words, &mut source, sink, (USAGE, 2, 0), "words")?;
    }
    Ok(())
}

#[test]
fn all_answers_are_there_where_a_pull_fails(rt: HostRuntime) -> Result<(), Fail> {
    let alloc = rt.alloc();
    let mut pieces = Vec::new(alloc);
    pieces.push(Vec::from_slice(alloc, SCRIPT)?)?;
    let mut source = MemorySource::new(pieces, Vec::from_slice(alloc, &[2])?);
    let sink = MemorySink::new(alloc, 4096, 4096)?;
    assert_run(
        &rt,
        alloc,
        &["factor"],
        &mut source,
        sink,
        (BLOCK, 3, 6),
        "the second pull fails",
    )
}

// A further pull would give what is left behind the refused line.
#[test]
fn a_refusal_pulls_no_more(rt: HostRuntime) -> Result<(), Fail> {
    let alloc = rt.alloc();
    let mut pieces = Vec::new(alloc);
    pieces.push(Vec::from_slice(alloc, b"mod 1\n")?)?;
    pieces.push(Vec::from_slice(alloc, b"left")?)?;
    let mut source = MemorySource::new(pieces, Vec::new(alloc));
    let sink = MemorySink::new(alloc, 4096, 4096)?;
    let text = b"refused line 1: modulus out of range\n";
    assert_run(
        &rt,
        alloc,
        &["factor"],
        &mut source,
        sink,
        (text, 1, 0),
        "refused",
    )?;
    let mut rest = [0; 8];
    assert_eq!(&rt; source.pull(&mut rest), Pulled::Bytes(4));
    Ok(())
}

// Each push that the sink refuses ends the run, behind the beginning that it has taken.
#[test]
fn a_sink_with_too_little_room(rt: HostRuntime) -> Result<(), Fail> {
    let alloc = rt.alloc();
    for room in 0..BLOCK.len() {
        let mut source = CalmSource::new(Vec::from_slice(alloc, SCRIPT)?);
        let sink = MemorySink::new(alloc, room as u64, 7)?;
        let want = (BLOCK.get(..room).ok_or("short")?, 4, 6);
        assert_run(&rt, alloc, &["factor"], &mut source, sink, want, "room")?;
    }
    Ok(())
}

// The lines come one by one; the third request repeats the first.
#[test]
fn each_pull_fails_in_turn(rt: HostRuntime) -> Result<(), Fail> {
    let alloc = rt.alloc();
    let cases: [(u32, &[u8], u64); 8] = [
        (1, b"", 0),
        (2, b"", 0),
        (3, b"", 0),
        (4, b"", 0),
        (5, b"", 0),
        (6, ORIGIN, 2),
        (7, ORIGIN_TWICE, 2),
        (8, ORIGIN_TWICE, 2),
    ];
    for (pull, text, steps) in cases {
        let mut pieces = Vec::new(alloc);
        pieces.push(Vec::from_slice(alloc, b"mod 101\n")?)?;
        pieces.push(Vec::from_slice(alloc, b"vars x\n")?)?;
        pieces.push(Vec::from_slice(alloc, b"poly Y^2 + x*Y + 1\n")?)?;
        pieces.push(Vec::from_slice(alloc, b"roots 10:1 -10:1\n")?)?;
        pieces.push(Vec::from_slice(alloc, b"show 0\n")?)?;
        pieces.push(Vec::from_slice(alloc, b"show 0\n")?)?;
        pieces.push(Vec::from_slice(alloc, b"# the end")?)?;
        let mut source = MemorySource::new(pieces, Vec::from_slice(alloc, &[pull])?);
        let sink = MemorySink::new(alloc, 4096, 4096)?;
        let want = (text, 3, steps);
        assert_run(&rt, alloc, &["factor"], &mut source, sink, want, "pull")?;
    }
    Ok(())
}

// Lines are cut anywhere between pulls, and each push takes a byte.
#[test]
fn pieces_of_lines(rt: HostRuntime) -> Result<(), Fail> {
    let alloc = rt.alloc();
    let mut pieces = Vec::new(alloc);
    pieces.push(Vec::from_slice(alloc, b"m")?)?;
    pieces.push(Vec::from_slice(alloc, b"od 101\r")?)?;
    pieces.push(Vec::from_slice(alloc, b"\nvars x\npoly Y^2 + x*Y")?)?;
    pieces.push(Vec::from_slice(alloc, b" + 1\nroots 10:1 -10:1\ns")?)?;
    pieces.push(Vec::from_slice(alloc, b"how 2")?)?;
    let mut source = MemorySource::new(pieces, Vec::new(alloc));
    let sink = MemorySink::new(alloc, 4096, 1)?;
    assert_run(
        &rt,
        alloc,
        &["factor"],
        &mut source,
        sink,
        (BLOCK, 0, 6),
        "pieces",
    )
}

// The sink refuses the answer; a further pull would have taken the second piece.
#[test]
fn a_request_is_answered_before_the_next_pull(rt: HostRuntime) -> Result<(), Fail> {
    let alloc = rt.alloc();
    let mut pieces = Vec::new(alloc);
    pieces.push(Vec::from_slice(alloc, SCRIPT)?)?;
    pieces.push(Vec::from_slice(alloc, b"show 5\n")?)?;
    let mut source = MemorySource::new(pieces, Vec::new(alloc));
    let sink = MemorySink::new(alloc, 0, 1)?;
    assert_run(
        &rt,
        alloc,
        &["factor"],
        &mut source,
        sink,
        (b"", 4, 6),
        "no room",
    )?;
    let mut rest = [0; 8];
    assert_eq!(&rt; source.pull(&mut rest), Pulled::Bytes(7));
    Ok(())
}

// the lines before a block of the first script
const HEADER: &[u8] = b"mod 101\nvars x\npoly Y^2 + x*Y + 1\nroots 10:1 -10:1\nblock\n";

/// Runs `check` on the header, behind which these lines stand.
fn assert_check(
    rt: &(impl Abort + Threads + Wait + Sync),
    alloc: Global,
    block: &[u8],
    want: (&[u8], u8, u64),
) -> Result<(), Fail> {
    let mut script = Vec::from_slice(alloc, HEADER)?;
    script.extend_from_slice(block)?;
    assert_script(rt, alloc, "check", &script, want)
}

#[test]
fn a_right_block(rt: HostRuntime) -> Result<(), Fail> {
    assert_check(&rt, rt.alloc(), BLOCK, (b"right\n", 0, 6))
}

#[test]
fn a_wrong_factor(rt: HostRuntime) -> Result<(), Fail> {
    let block =
        b"precision 2\nfactor 1 root 10 times 1\nY^1: 1\nY^0: 91 + 51*x + 78*x^2\nfactor 2 root 91 times 1\nY^1: 1\nY^0: 10 + 51*x + 24*x^2\n";
    let text = b"wrong factor 1 power 0 degree 2\n";
    assert_check(&rt, rt.alloc(), block, (text, 6, 6))
}

#[test]
fn a_wrong_lead(rt: HostRuntime) -> Result<(), Fail> {
    let script =
        b"mod 7\nvars x\npoly (2+x)*Y^2 + x\nroots 0:2\nblock\nprecision 2\nlead: 2 + 2*x\nfactor 1 root 0 times 2\nY^2: 1\nY^1: 0\nY^0: 4*x + 5*x^2\n";
    let text = b"wrong lead degree 1\n";
    assert_script(&rt, rt.alloc(), "check", script, (text, 6, 3))
}

// Each line of a block counts, as it is: the fourth has a leading zero.
#[test]
fn a_line_of_no_block(rt: HostRuntime) -> Result<(), Fail> {
    let block = b"precision 2\nfactor 1 root 10 times 1\nY^1: 1\nY^0: 91 + 51*x + 077*x^2\n";
    let text = b"refused line 9: not a block\n";
    assert_check(&rt, rt.alloc(), block, (text, 1, 0))
}

#[test]
fn a_block_of_no_line(rt: HostRuntime) -> Result<(), Fail> {
    let text = b"refused end: not a block\n";
    assert_check(&rt, rt.alloc(), b"", (text, 1, 0))
}

#[test]
fn a_block_of_too_high_a_precision(rt: HostRuntime) -> Result<(), Fail> {
    let text = b"refused line 6: precision above 4095\n";
    assert_check(&rt, rt.alloc(), b"precision 4096\n", (text, 1, 0))
}

#[test]
fn an_empty_line_behind_a_block(rt: HostRuntime) -> Result<(), Fail> {
    let alloc = rt.alloc();
    let mut block = Vec::from_slice(alloc, BLOCK)?;
    block.push(b'\n')?;
    let text = b"refused line 13: not a block\n";
    assert_check(&rt, alloc, &block, (text, 1, 0))
}

#[test]
fn a_line_that_is_not_block(rt: HostRuntime) -> Result<(), Fail> {
    let alloc = rt.alloc();
    let text = b"refused line 5: bad block\n";
    let script = b"mod 101\nvars x\npoly Y\nroots 0:1\n block 2\n";
    assert_script(&rt, alloc, "check", script, (text, 1, 0))
}

// The first line of the block has no form, though a later one is too long for an input.
#[test]
fn a_long_input_behind_a_line_of_no_block(rt: HostRuntime) -> Result<(), Fail> {
    let alloc = rt.alloc();
    let block = Vec::from_elem(alloc, b'\n', 1_048_577)?;
    let text = b"refused line 6: not a block\n";
    assert_check(&rt, alloc, &block, (text, 1, 0))
}

#[test]
fn a_long_line_of_a_block(rt: HostRuntime) -> Result<(), Fail> {
    let alloc = rt.alloc();
    let mut block = Vec::from_slice(alloc, b"precision 2\n")?;
    block.resize(1_048_577, b'0')?;
    let text = b"refused line 7: input too long\n";
    assert_check(&rt, alloc, &block, (text, 1, 0))
}

// The second pull fails, in the block.
#[test]
fn a_pull_that_fails_in_a_block(rt: HostRuntime) -> Result<(), Fail> {
    let alloc = rt.alloc();
    let mut pieces = Vec::new(alloc);
    pieces.push(Vec::from_slice(alloc, HEADER)?)?;
    let mut source = MemorySource::new(pieces, Vec::from_slice(alloc, &[2])?);
    let sink = MemorySink::new(alloc, 4096, 4096)?;
    let want: (&[u8], u8, u64) = (b"", 3, 0);
    assert_run(&rt, alloc, &["check"], &mut source, sink, want, "pull")
}

#[test]
fn a_sink_with_no_room_for_a_verdict(rt: HostRuntime) -> Result<(), Fail> {
    let alloc = rt.alloc();
    let mut script = Vec::from_slice(alloc, HEADER)?;
    script.extend_from_slice(BLOCK)?;
    let mut source = CalmSource::new(script);
    let sink = MemorySink::new(alloc, 3, 2)?;
    assert_run(
        &rt,
        alloc,
        &["check"],
        &mut source,
        sink,
        (b"rig", 4, 6),
        "room",
    )
}
