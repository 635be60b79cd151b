//! What an outer text has, how many calls it takes, and what stands written where one fails.
use heesch_cert::Limits;
use heesch_cnf::Version;
use heesch_grid::GridName;
use heesch_io::{IoStop, MemorySink};
use heesch_made::{LIMITS, same};
use heesch_outer::write_outers_of_size;
use heesch_pool::{Crew, Open};
use std::test::Fail;

/// Limits under which the triangle's Heesch number stays open.
const NARROW: Limits = Limits {
    levels: 1,
    domain: 1,
    version: Version::Two,
    ..LIMITS
};

const RECORD: &[u8] = b"shape 1,1
verdict undecided levels 1
coronas 1
layer 0,0,-1 0,1,-1 1,0,-1 1,1,-1 1,2,-1 0,-1,0 0,1,0 1,0,0 1,1,0 0,-1,1 0,0,1 1,0,1
hh undecided
";

#[test]
fn an_outer_text_has_no_header(rt: HostRuntime) -> Result<(), Fail> {
    let alloc = rt.alloc();
    let mut sink = MemorySink::new(alloc, 1000, 1000, Vec::new(alloc))?;
    let crew = Crew::new(&rt, alloc, 2, &Open);
    let ended = write_outers_of_size(&crew, GridName::Iamond, 1, NARROW, &mut sink);
    same("ended", (ended, sink.calls), (Ok(()), 2))?;
    same(
        "end",
        sink.held.as_slice().strip_prefix(RECORD),
        Some(b"end 1\n".as_slice()),
    )
}

#[test]
fn a_sink_that_fails_holds_the_records_before(rt: HostRuntime) -> Result<(), Fail> {
    let alloc = rt.alloc();
    let mut sink = MemorySink::new(alloc, 1000, 1000, [2].to_vec(alloc)?)?;
    let crew = Crew::new(&rt, alloc, 1, &Open);
    let ended = write_outers_of_size(&crew, GridName::Iamond, 1, NARROW, &mut sink);
    same("ended", ended, Err(IoStop::Failed))?;
    same("held", sink.held.as_slice(), RECORD)
}
