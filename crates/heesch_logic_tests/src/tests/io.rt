//! What the devices count, and what they hold after a failure.
use heesch_io::{Failed, MemorySink, MemorySource, NoMemory, Seq, Source, StdSink, StdSource, put};
use heesch_made::same;
use std::alloc::Global;
use std::test::Fail;

/// Reads at most nine times, to the first failure.
fn read_some<R: Source>(
    alloc: Global,
    source: &mut R,
) -> Result<(Vec<u8>, Option<Failed>), NoMemory> {
    let mut bytes = Vec::new(alloc);
    let mut room = [0u8; 4];
    for _ in 0..9 {
        match source.read(&mut room) {
            Ok(count) => bytes.extend_from_slice(&room[..count])?,
            Err(failed) => return Ok((bytes, Some(failed))),
        }
    }
    Ok((bytes, None))
}

#[test]
fn a_source_gives_its_bytes_in_pieces_and_fails_where_it_is_told(
    rt: HostRuntime,
) -> Result<(), Fail> {
    let alloc = rt.alloc();
    let mut source = MemorySource::new(b"abcdefg".to_vec(alloc)?, 3, [2, 3].to_vec(alloc)?);
    for (text, failed) in [("abc", Some(Failed)), ("", Some(Failed)), ("defg", None)] {
        let (bytes, found) = read_some(alloc, &mut source)?;
        same(text, bytes.as_slice(), text.as_bytes())?;
        same(text, found, failed)?;
    }
    Ok(())
}

/// The sink has room for six bytes, takes two a call, and fails at its fourth call.
#[test]
fn a_put_goes_on_until_all_is_taken_or_the_sink_fails(rt: HostRuntime) -> Result<(), Fail> {
    let alloc = rt.alloc();
    let mut sink = MemorySink::new(alloc, 6, 2, [4].to_vec(alloc)?)?;
    for (text, wanted, calls, full) in [
        ("abcde", Ok(()), 3, 0),
        ("", Ok(()), 3, 0),
        ("fg", Err(Failed), 4, 0),
        ("fg", Err(Failed), 6, 1),
    ] {
        let found = put(&mut sink, text.as_bytes());
        same(text, (found, sink.calls, sink.full), (wanted, calls, full))?;
    }
    same("held", sink.held.as_slice(), b"abcdef".as_slice())
}

/// How many lists stand in a list, and whether the last of them is empty.
fn nested(alloc: Global) -> Result<(usize, bool), NoMemory> {
    let mut outer = Seq::new(alloc);
    outer.push(Seq::from_vec([5u32].to_vec(alloc)?))?;
    outer.push(Seq::new(alloc))?;
    let count = outer.len();
    Ok((count, outer.pop().is_some_and(|inner| inner.is_empty())))
}

#[test]
fn lists_nest(rt: HostRuntime) -> Result<(), Fail> {
    same("lists", nested(rt.alloc())?, (2, true))
}

#[test]
fn the_standard_streams_are_made(rt: HostRuntime) -> Result<(), Fail> {
    let source = StdSource::new(rt.stdin(), rt.alloc());
    let mut sink = StdSink::new(rt.stdout(), rt.alloc())?;
    same(
        "streams",
        (source.is_ok(), put(&mut sink, b"")),
        (true, Ok(())),
    )
}
