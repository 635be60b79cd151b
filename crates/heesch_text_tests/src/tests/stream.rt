//! Small catalogues, read eight bytes at a time.
use heesch_io::{MemorySource, NoMemory, Seq};
use heesch_made::same;
use heesch_reader::{Item, Part, Stream, StreamStop, Taken};
use std::alloc::Global;
use std::test::Fail;

const BRIEF: &str = "brief 1 square given turns 20000 levels 3 domain 4 size 60000000
shape 0,0
verdict tiles translation domain 1 classes 1
shape 0,0 1,0 2,0 0,1 2,1 0,2 1,2
verdict heesch 0 nontiler 1
end 2
";

const CUT: &str = "brief 1 square given turns 20000 levels 3 domain 4 size 60000000
shape 0,0
verdict tiles translation domain 1 classes 1
shape 0,0 1,0
";

const FAULTY: &str = "brief 1 square given turns 20000 levels 3 domain 4 size 60000000
shape 0,0
verdict tiles translation domain 1 classes 1
end 2
";

/// Reads a text whose reads fail at these calls, in at most a hundred steps. False where that isn't the end.
fn read(
    alloc: Global,
    text: &str,
    fails: &[u64],
    items: &mut Seq<Item>,
) -> Result<Result<bool, StreamStop>, NoMemory> {
    let bytes = text.as_bytes().to_vec(alloc)?;
    let mut source = MemorySource::new(bytes, 8, fails.to_vec(alloc)?);
    let mut stream = Stream::new(alloc);
    for _ in 0..100 {
        match stream.take(&mut source, items) {
            Ok(Taken::Piece) => {}
            Ok(Taken::End) => return Ok(Ok(true)),
            Err(stop) => return Ok(Err(stop)),
        }
    }
    Ok(Ok(false))
}

/// The lines of the brief entries among the items.
fn lines_of(alloc: Global, items: &[Item]) -> Result<Vec<u64>, NoMemory> {
    let mut lines = Vec::new(alloc);
    for item in items {
        if let Item::Brief { line, .. } = item {
            lines.push(*line)?;
        }
    }
    Ok(lines)
}

#[test]
fn a_catalogue_is_read_in_pieces(rt: HostRuntime) -> Result<(), Fail> {
    let mut items = Seq::new(rt.alloc());
    let found = read(rt.alloc(), BRIEF, &[], &mut items)?;
    same("read", (found, items.len()), (Ok(true), 4))?;
    let lines = lines_of(rt.alloc(), items.as_slice())?;
    same("entries", lines.as_slice(), [2, 4].as_slice())
}

/// A text, the numbers of its reads that fail, why it is read no further, and how many items were appended before.
const STOPS: [(&str, &[u64], StreamStop, usize); 4] = [
    (
        "",
        &[],
        StreamStop::NotText {
            line: 1,
            part: Part::Header,
        },
        0,
    ),
    (
        CUT,
        &[],
        StreamStop::NotText {
            line: 5,
            part: Part::Entry,
        },
        2,
    ),
    (
        FAULTY,
        &[],
        StreamStop::NotText {
            line: 4,
            part: Part::End,
        },
        2,
    ),
    (BRIEF, &[3], StreamStop::Failed, 0),
];

#[test]
fn what_is_whole_before_a_fault_is_appended(rt: HostRuntime) -> Result<(), Fail> {
    for (text, fails, stop, whole) in &STOPS {
        let mut items = Seq::new(rt.alloc());
        let found = read(rt.alloc(), text, fails, &mut items)?;
        same(text, (found, items.len()), (Err(*stop), *whole))?;
    }
    Ok(())
}
