//! `heesch formula`: a formula with an empty clause. `heesch answer`: a long model text.
use super::running::{bytes_of, written_over};
use heesch_io::{MemorySource, NoMemory};
use heesch_made::same;
use std::alloc::Global;
use std::test::Fail;

/// A cell that the shape encloses is covered by no tile: the ninth clause is empty.
#[test]
fn an_empty_clause_is_written(rt: HostRuntime) -> Result<(), Fail> {
    let alloc = rt.alloc();
    let shape = bytes_of(alloc, "0,0 1,0 2,0 0,1 2,1 0,2 1,2\n")?;
    let held = written_over(&rt, alloc, "formula square 1", shape)?;
    let line = held.as_slice().split(|byte| *byte == b'\n').nth(9);
    same("ninth clause", line, Some(b"0".as_slice()))
}

/// A line of 70 bytes.
const COMMENT: &[u8] = b"c a solver tells here, in a line of its own, how far its search is no\n";

/// A model text of more than 70,000 bytes.
fn long_model(alloc: Global) -> Result<Vec<u8>, NoMemory> {
    let mut text = b"0,0\n".to_vec(alloc)?;
    for _ in 0..1_000 {
        text.extend_from_slice(COMMENT)?;
    }
    text.extend_from_slice(b"s SATISFIABLE\nv 1 2 3 4 5 6 7 8 0\n")?;
    Ok(text)
}

/// It is read to its end.
#[test]
fn a_long_model_text_is_read(rt: HostRuntime) -> Result<(), Fail> {
    let text = long_model(rt.alloc())?;
    same("long", text.len() > 70_000, true)?;
    let source = MemorySource::new(text, 4096, Vec::new(rt.alloc()));
    let held = written_over(&rt, rt.alloc(), "answer square 1", source)?;
    let coronas = b"coronas 1\nlayer 0,-1,-1 0,0,-1 0,1,-1 0,-1,0 0,1,0 0,-1,1 0,0,1 0,1,1\n";
    same("coronas", held.as_slice(), coronas.as_slice())
}
