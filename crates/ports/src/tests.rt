ghost use Rattle.std.specs.Prelude.{◌<◌, ℕ, All, IfOk, List, Option, vec_len};

use crate::calm::{CalmSink, CalmSource};
use crate::copying::copy_front;
use crate::lines::{Lines, NextLine};
use crate::memory_sink::MemorySink;
use crate::memory_source::MemorySource;
use crate::read_source::ReadSource;
use crate::sink::{Pushed, Sink};
use crate::source::{Pulled, Source};
use crate::standard::{StdSink, StdSource};
use crate::write_sink::WriteSink;
use crate::writing::{WriteFault, put_all};
use ps_model::OutOfMemory;
use std::alloc::Global;
use std::io::{self, Read, Write};
use std::test::Fail;

// A source that records the pulls of another: how many there were, and the room that each of the
// first eight lent.
#[derive(Drop)]
struct Recorded<S> {
    source: S,
    pulls: usize,
    rooms: [usize; 8],
}

impl<S: Source> Recorded<S> {
    fn new(source: S) -> Recorded<S> {
        Recorded {
            source,
            pulls: 0,
            rooms: [0; 8],
        }
    }
}

impl<S: Source> Source for Recorded<S> {
    ghost left = { λ s. S.left s.source };

    ghost faults = { λ s. S.faults s.source };

    fn pull(&mut self, into: &mut [u8]) -> Pulled {
        if self.pulls < self.rooms.len() {
            self.rooms[self.pulls] = into.len();
        }
        self.pulls = self.pulls.saturating_add(1);
        self.source.pull(into)
    }
}

fn source_of(alloc: Global, text: &[u8]) -> Result<CalmSource, OutOfMemory> {
    Ok(CalmSource::new(Vec::from_slice(alloc, text)?))
}

fn long_source(alloc: Global, size: usize) -> Result<CalmSource, OutOfMemory> {
    Ok(CalmSource::new(Vec::from_elem(alloc, b'a', size)?))
}

// The texts that aren't empty, as pieces.
fn list_of(alloc: Global, texts: &[&[u8]]) -> Result<Vec<Vec<u8>>, OutOfMemory>
    ensures { IfOk result (λ v. All (λ p. 0 < vec_len p) v.items) }
{
    let mut pieces = Vec::new(alloc);
    for text in texts {
        if !text.is_empty() {
            pieces.push(Vec::from_slice(alloc, text)?)?;
        }
    }
    Ok(pieces)
}

// A piece for each byte.
fn single_bytes(alloc: Global, text: &[u8]) -> Result<Vec<Vec<u8>>, OutOfMemory>
    ensures { IfOk result (λ v. All (λ p. 0 < vec_len p) v.items) }
{
    let mut pieces = Vec::new(alloc);
    for byte in text {
        pieces.push(Vec::from_slice(alloc, &[*byte])?)?;
    }
    Ok(pieces)
}

// What the requests answer: each line with `|` behind it, `!` for a failed pull, `.` at the end.
fn answers<S: Source>(alloc: Global, source: &mut S) -> Result<Vec<u8>, OutOfMemory> {
    let mut lines = Lines::new(alloc)?;
    let mut all = Vec::new(alloc);
    for _ in 0..20 {
        match lines.next(source) {
            NextLine::Line => {
                all.extend_from_slice(lines.text())?;
                all.push(b'|')?;
            }
            NextLine::Failed => all.push(b'!')?,
            NextLine::InputTooLong => all.push(b'>')?,
            NextLine::End => {
                all.push(b'.')?;
                return Ok(all);
            }
        }
    }
    Ok(all)
}

#[test]
fn lines_of_inputs(rt: HostRuntime) -> Result<(), Fail> {
    let table: [(&[u8], &[u8]); 9] = [
        (b"", b"."),
        (b"one\ntwo\n", b"one|two|."),
        (b"one\ntwo", b"one|two|."),
        (b"one\r\ntwo\r\n", b"one|two|."),
        (b"one\r", b"one|."),
        (b"\n\n", b"||."),
        (b"one\r\r\n", b"one\r|."),
        (b"\r\n", b"|."),
        (b"a\rb\n", b"a\rb|."),
    ];
    for (input, want) in table {
        let whole = answers(rt.alloc(), &mut source_of(rt.alloc(), input)?)?;
        assert_eq!(rt; whole.as_slice(), want);
        let pieces = single_bytes(rt.alloc(), input)?;
        let mut source = MemorySource::new(pieces, Vec::new(rt.alloc()));
        let single = answers(rt.alloc(), &mut source)?;
        assert_eq!(rt; single.as_slice(), want);
    }
    Ok(())
}

#[test]
fn goes_on_after_a_failed_pull(rt: HostRuntime) -> Result<(), Fail> {
    let pieces = single_bytes(rt.alloc(), b"ab\nc")?;
    let failing = Vec::from_slice(rt.alloc(), &[2, 6])?;
    let source = MemorySource::new(pieces, failing);
    let mut recorded = Recorded::new(source);
    let all = answers(rt.alloc(), &mut recorded)?;
    assert_eq!(rt; all.as_slice(), b"!ab|!c|.".as_slice());

    // Four bytes, two failures and the end.
    assert_eq!(rt; recorded.pulls, 7);
    Ok(())
}

#[test]
fn pulls_only_for_a_missing_line(rt: HostRuntime) -> Result<(), Fail> {
    let source = source_of(rt.alloc(), b"one\ntwo\nthree")?;
    let mut recorded = Recorded::new(source);
    let mut lines = Lines::new(rt.alloc())?;
    assert_eq!(rt; lines.text().len(), 0);
    assert_eq!(rt; lines.number(), 0);
    for (number, pulls) in [(1, 1), (2, 1), (3, 2)] {
        assert_eq!(rt; lines.next(&mut recorded), NextLine::Line);
        assert_eq!(rt; lines.number(), number);
        assert_eq!(rt; recorded.pulls, pulls);
    }
    for _ in 0..2 {
        assert_eq!(rt; lines.next(&mut recorded), NextLine::End);
        assert_eq!(rt; lines.text(), b"three".as_slice());
        assert_eq!(rt; lines.number(), 3);
        assert_eq!(rt; recorded.pulls, 2);
    }
    assert_eq!(rt; lines.bytes(), b"one\ntwo\nthree".as_slice());
    Ok(())
}

// What the requests for lines answer, and what each pull lent: the size of the buffer less the
// bytes that were pulled before.
#[test]
fn lends_the_whole_rest(rt: HostRuntime) -> Result<(), Fail> {
    let pieces: [&[u8]; 5] = [b"one\nt", b"wo\nth", b"re", b"e", b"\n"];
    let source = MemorySource::new(list_of(rt.alloc(), &pieces)?, Vec::new(rt.alloc()));
    let mut recorded = Recorded::new(source);
    let mut lines = Lines::new(rt.alloc())?;
    let table: [(&[u8], usize); 3] = [(b"one", 1), (b"two", 2), (b"three", 5)];
    for (text, pulls) in table {
        assert_eq!(rt; lines.next(&mut recorded), NextLine::Line);
        assert_eq!(rt; lines.text(), text);
        assert_eq!(rt; recorded.pulls, pulls);
    }
    assert_eq!(rt; lines.next(&mut recorded), NextLine::End);
    assert_eq!(rt; recorded.pulls, 6);
    let rooms = [
        1_048_577, 1_048_572, 1_048_567, 1_048_565, 1_048_564, 1_048_563,
    ];
    assert_eq!(rt; &recorded.rooms[..6], rooms.as_slice());
    Ok(())
}

#[test]
fn answers_at_the_limits(rt: HostRuntime) -> Result<(), Fail> {
    let mut fits = long_source(rt.alloc(), 1_048_576)?;
    let mut lines = Lines::new(rt.alloc())?;
    assert_eq!(rt; lines.next(&mut fits), NextLine::Line);
    assert_eq!(rt; lines.text().len(), 1_048_576);
    assert_eq!(rt; lines.next(&mut fits), NextLine::End);

    let mut long = long_source(rt.alloc(), 1_048_577)?;
    let mut lines = Lines::new(rt.alloc())?;
    assert_eq!(rt; lines.next(&mut long), NextLine::InputTooLong);
    assert_eq!(rt; lines.next(&mut long), NextLine::InputTooLong);
    assert_eq!(rt; lines.bytes().len(), 1_048_577);
    assert_eq!(rt; lines.number(), 0);
    Ok(())
}

// 16 lines of 65,535 letters and a newline are as much as an input may have.
#[test]
fn long_lines_up_to_the_limit(rt: HostRuntime) -> Result<(), Fail> {
    let mut text = Vec::new(rt.alloc());
    for _ in 0..16 {
        text.extend_from_slice(Vec::from_elem(rt.alloc(), b'a', 65_535)?.as_slice())?;
        text.push(b'\n')?;
    }
    let mut source = CalmSource::new(text);
    let mut lines = Lines::new(rt.alloc())?;
    for number in 1..17 {
        assert_eq!(rt; lines.next(&mut source), NextLine::Line);
        assert_eq!(rt; lines.text().len(), 65_535);
        assert_eq!(rt; lines.number(), number);
    }
    assert_eq!(rt; lines.next(&mut source), NextLine::End);

    let mut source = long_source(rt.alloc(), 65_536)?;
    let mut lines = Lines::new(rt.alloc())?;
    assert_eq!(rt; lines.next(&mut source), NextLine::Line);
    assert_eq!(rt; lines.text().len(), 65_536);
    Ok(())
}

#[test]
fn calm_source_gives_its_bytes(rt: HostRuntime) -> Result<(), Fail> {
    let mut source = source_of(rt.alloc(), b"abcde")?;
    let mut into = [0; 3];
    assert_eq!(rt; source.pull(&mut into), Pulled::Bytes(3));
    assert_eq!(rt; into.as_slice(), b"abc".as_slice());
    assert_eq!(rt; source.pull(&mut into), Pulled::Bytes(2));
    assert_eq!(rt; &into[..2], b"de".as_slice());
    assert_eq!(rt; source.pull(&mut into), Pulled::End);
    Ok(())
}

#[test]
fn memory_source_gives_its_pieces(rt: HostRuntime) -> Result<(), Fail> {
    let pieces: [&[u8]; 2] = [b"abcde", b"f"];
    let failing = Vec::from_slice(rt.alloc(), &[2])?;
    let mut source = MemorySource::new(list_of(rt.alloc(), &pieces)?, failing);
    let mut into = [0; 3];
    assert_eq!(rt; source.pull(&mut into), Pulled::Bytes(3));
    assert_eq!(rt; into.as_slice(), b"abc".as_slice());
    assert_eq!(rt; source.pull(&mut into), Pulled::Failed);
    assert_eq!(rt; source.pull(&mut into), Pulled::Bytes(2));
    assert_eq!(rt; &into[..2], b"de".as_slice());
    assert_eq!(rt; source.pull(&mut into), Pulled::Bytes(1));
    assert_eq!(rt; source.pull(&mut into), Pulled::End);
    Ok(())
}

#[test]
fn memory_sink_takes_what_fits(rt: HostRuntime) -> Result<(), Fail> {
    let mut sink = MemorySink::new(rt.alloc(), 40, 7)?;
    assert_eq!(rt; sink.push(b"0123456789"), Pushed::Took(7));
    assert_eq!(rt; put_all(&mut sink, b"789abcdefghijklmnopqrst"), Ok(()));
    assert_eq!(rt; put_all(&mut sink, b""), Ok(()));
    assert_eq!(rt; put_all(&mut sink, b"uvwxyzABCDEFG"), Err(WriteFault));
    assert_eq!(rt;
        sink.bytes(),
        b"0123456789abcdefghijklmnopqrstuvwxyzABCD".as_slice()
    );
    assert_eq!(rt; sink.push(b"E"), Pushed::Failed);

    let mut slow = MemorySink::new(rt.alloc(), 3, 1)?;
    assert_eq!(rt; put_all(&mut slow, b"abc"), Ok(()));
    assert_eq!(rt; slow.bytes(), b"abc".as_slice());

    // the greatest room, and one byte less than two pieces need
    let piece = Vec::from_elem(rt.alloc(), b'a', 2_097_153)?;
    let mut large = MemorySink::new(rt.alloc(), 4_194_304, 4_294_967_295)?;
    assert_eq!(rt; put_all(&mut large, piece.as_slice()), Ok(()));
    assert_eq!(rt; put_all(&mut large, piece.as_slice()), Err(WriteFault));
    assert_eq!(rt; large.bytes().len(), 4_194_304);
    Ok(())
}

#[test]
fn calm_sink_takes_all(rt: HostRuntime) -> Result<(), Fail> {
    let mut sink = CalmSink::new();
    assert_eq!(rt; sink.push(b"abc"), Pushed::Took(3));
    assert_eq!(rt; put_all(&mut sink, b"abc"), Ok(()));
    Ok(())
}

#[test]
fn standard_streams_answer(rt: HostRuntime) -> Result<(), Fail> {
    let mut source = StdSource::new(rt.stdin());
    let mut into = [0; 4];
    let answers = match source.pull(&mut into) {
        Pulled::Bytes(count) => count > 0 && count < 5,
        Pulled::End => true,
        Pulled::Failed => false,
    };
    assert!(rt; answers);
    let mut sink = StdSink::new(rt.stdout());
    assert_eq!(rt; put_all(&mut sink, b"ports\n"), Ok(()));
    Ok(())
}

// A reader and a writer of at most three bytes a call. The second call of each fails, and the
// writer's fourth takes nothing.
#[derive(Drop)]
struct Faltering<'a> {
    left: &'a [u8],
    written: Vec<u8>,
    calls: u32,
}

impl Read for Faltering<'_> {
    fn read(&mut self, into: &mut [u8]) -> io::Result<usize> {
        self.calls = self.calls.saturating_add(1);
        if self.calls == 2 {
            return Err(io::Error::other("cut"));
        }
        let room = into.len().min(3);
        let count = copy_front(self.left, &mut into[..room]) as usize;
        self.left = &self.left[count..];
        Ok(count)
    }
}

impl Write for Faltering<'_> {
    fn write(&mut self, bytes: &[u8]) -> io::Result<usize> {
        self.calls = self.calls.saturating_add(1);
        let count = match self.calls {
            2 => return Err(io::Error::other("cut")),
            4 => 0,
            _ => bytes.len().min(3),
        };
        match self.written.extend_from_slice(&bytes[..count]) {
            Ok(()) => Ok(count),
            Err(_) => Err(io::Error::other("memory")),
        }
    }

    fn flush(&mut self) -> io::Result<()> {
        Ok(())
    }
}

#[test]
fn read_source_over_a_faltering_reader(rt: HostRuntime) -> Result<(), Fail> {
    let mut reader = Faltering {
        left: b"abcde",
        written: Vec::new(rt.alloc()),
        calls: 0,
    };
    let mut source = ReadSource::new(&mut reader);
    let mut into = [0; 8];
    assert_eq!(rt; source.pull(&mut into), Pulled::Bytes(3));
    assert_eq!(rt; &into[..3], b"abc".as_slice());
    assert_eq!(rt; source.pull(&mut into), Pulled::Failed);
    assert_eq!(rt; source.pull(&mut into), Pulled::Bytes(2));
    assert_eq!(rt; &into[..2], b"de".as_slice());
    assert_eq!(rt; source.pull(&mut into), Pulled::End);
    assert_eq!(rt; source.pull(&mut into), Pulled::End);

    let mut known = ReadSource::new(b"one\ntwo".as_slice());
    let all = answers(rt.alloc(), &mut known)?;
    assert_eq!(rt; all.as_slice(), b"one|two|.".as_slice());
    Ok(())
}

#[test]
fn write_sink_over_a_faltering_writer(rt: HostRuntime) -> Result<(), Fail> {
    let mut writer = Faltering {
        left: b"",
        written: Vec::new(rt.alloc()),
        calls: 0,
    };
    let mut sink = WriteSink::new(&mut writer);
    assert_eq!(rt; sink.push(b"abcde"), Pushed::Took(3));
    assert_eq!(rt; sink.push(b"de"), Pushed::Failed);
    assert_eq!(rt; put_all(&mut sink, b"defgh"), Err(WriteFault));
    assert_eq!(rt; put_all(&mut sink, b"ghijkl"), Ok(()));
    assert_eq!(rt; writer.written.as_slice(), b"abcdefghijkl".as_slice());
    Ok(())
}
