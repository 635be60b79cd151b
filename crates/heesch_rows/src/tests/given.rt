//! `heesch classify GRID given`: faults of the shapes, and a source that fails.
use super::running::{Row, all_run, room, run_over};
use heesch_app::Status;
use heesch_io::MemorySource;
use heesch_made::same;
use std::test::Fail;

/// 33 cells in a row.
const MANY_CELLS: &str =
    "0,0 1,0 2,0 3,0 4,0 5,0 6,0 7,0 8,0 9,0 10,0 11,0 12,0 13,0 14,0 15,0 16,0 17,0 18,0 19,0 20,0 21,0 22,0 23,0 24,0 25,0 26,0 27,0 28,0 29,0 30,0 31,0 32,0";

const ROWS: [Row; 7] = [
    (
        "classify square given",
        "0,0 1,0\n0,0 1,0 0,0\n",
        Status::BadInput,
        "bad input 2 4\n",
    ),
    (
        "classify square given",
        "0,0 2,0\n",
        Status::BadInput,
        "bad input 1 5\n",
    ),
    (
        "classify square given",
        MANY_CELLS,
        Status::BadInput,
        "bad input 1 2\n",
    ),
    (
        "classify square given",
        "0,0\n\n",
        Status::BadInput,
        "bad input 2 1\n",
    ),
    (
        "classify square given",
        "0,0 \n",
        Status::BadInput,
        "bad input 1 6\n",
    ),
    (
        "classify square given",
        "0,0\n0,0 5,5\nxx\n",
        Status::BadInput,
        "bad input 2 5\n",
    ),
    (
        "classify iamond given",
        "2,1\n",
        Status::BadInput,
        "bad input 1 3\n",
    ),
];

#[test]
fn the_first_fault_is_told(rt: HostRuntime) -> Result<(), Fail> {
    all_run(&rt, rt.alloc(), &ROWS)?;
    let lines = "0,0\n".repeat(rt.alloc(), 10_001)?;
    let row = (
        "classify square given",
        lines.as_str(),
        Status::BadInput,
        "bad input 10001 7\n",
    );
    all_run(&rt, rt.alloc(), &[row])
}

#[test]
fn a_source_that_fails_writes_nothing(rt: HostRuntime) -> Result<(), Fail> {
    let alloc = rt.alloc();
    let bytes = "0,0 1,0\n".as_bytes().to_vec(alloc)?;
    let source = MemorySource::new(bytes, 5, [2].to_vec(alloc)?);
    let line = "classify square given";
    let (ended, sink) = run_over(&rt, alloc, line, source, room(alloc, 100)?)?;
    same(line, (ended, sink.calls), (Status::ReadFault, 0))
}
