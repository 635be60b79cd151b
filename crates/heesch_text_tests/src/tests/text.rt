//! Texts worked by hand.
use heesch_cert::{
    Bare, Classes, Entry, Evidence, Header, Kind, Layers, Proof, Subject, Tiling, Verdict, Wall,
};
use heesch_grid::GridName;
use heesch_io::{NoMemory, Seq};
use heesch_lattice::Triple;
use heesch_made::{HOLED, LIMITS, TRIANGLE, cells, isos, members, same};
use heesch_text::{write_brief, write_coronas, write_end, write_entry, write_header};
use std::alloc::Global;
use std::test::Fail;

/// The places of the triangle and of its half-turn, in the lattice of the triangles.
fn tiling(alloc: Global) -> Result<Tiling, NoMemory> {
    let places = isos![0, 0, 0; 3, 0, 0].to_vec(alloc)?;
    Ok(Tiling {
        triple: Triple { p: 1, q: 1, s: 0 },
        places: Seq::from_vec(places),
    })
}

/// Both places in one class.
fn classes(alloc: Global) -> Result<Classes, NoMemory> {
    let members = members![1, 0, 0, 0; 1, 1, 0, -1].to_vec(alloc)?;
    Ok(Classes {
        count: 1,
        members: Seq::from_vec(members),
    })
}

/// The single triangle, tiled by half-turns.
fn triangle(alloc: Global) -> Result<Entry, NoMemory> {
    let cells = cells![1, 1].to_vec(alloc)?;
    let tiling = tiling(alloc)?;
    let classes = classes(alloc)?;
    Ok(Entry {
        cells: Seq::from_vec(cells),
        verdict: Verdict::Tiles {
            kind: Kind::HalfTurn,
            domain: 2,
            classes: 1,
        },
        evidence: Evidence::Cover { tiling, classes },
    })
}

/// The heptomino with a hole, which has no corona.
fn holed(alloc: Global) -> Result<Entry, NoMemory> {
    let cells = cells![0, 0; 1, 0; 2, 0; 0, 1; 2, 1; 0, 2; 1, 2];
    let proof = Proof {
        steps: Seq::new(alloc),
        last: Some(Seq::from_vec([9u32].to_vec(alloc)?)),
    };
    Ok(Entry {
        cells: Seq::from_vec(cells.to_vec(alloc)?),
        verdict: Verdict::Heesch { h: 0, m: 1 },
        evidence: Evidence::Search {
            free: Layers {
                layers: Seq::new(alloc),
            },
            wall: Wall::Refuted { proof },
            bare: Bare::Same,
            wider: None,
            triples: Seq::new(alloc),
        },
    })
}

const OF_TRIANGLES: Header = Header {
    brief: false,
    grid: GridName::Iamond,
    subject: Subject::Size { n: 1 },
    limits: LIMITS,
};

const OF_SQUARES: Header = Header {
    brief: false,
    grid: GridName::Square,
    subject: Subject::Given,
    limits: LIMITS,
};

/// The catalogue of one entry.
fn catalogue(alloc: Global, header: &Header, entry: &Entry) -> Result<Vec<u8>, NoMemory> {
    let mut out = Vec::new(alloc);
    write_header(header, &mut out)?;
    write_entry(entry, &mut out)?;
    write_end(1, &mut out)?;
    Ok(out)
}

/// A catalogue of one polyform that tiles, and one of one that doesn't, in full.
#[test]
fn catalogues_in_full(rt: HostRuntime) -> Result<(), Fail> {
    let alloc = rt.alloc();
    let text = catalogue(alloc, &OF_TRIANGLES, &triangle(alloc)?)?;
    same("triangle", text.as_slice(), TRIANGLE.as_bytes())?;
    let text = catalogue(alloc, &OF_SQUARES, &holed(alloc)?)?;
    same("heptomino", text.as_slice(), HOLED.as_bytes())
}

#[test]
fn a_search_in_brief(rt: HostRuntime) -> Result<(), Fail> {
    let mut out = Vec::new(rt.alloc());
    write_brief(&holed(rt.alloc())?, &mut out)?;
    let wanted = b"shape 0,0 1,0 2,0 0,1 2,1 0,2 1,2\nverdict heesch 0 nontiler 1\n";
    same("heptomino", out.as_slice(), wanted.as_slice())
}

/// Two layers.
fn two_layers(alloc: Global) -> Result<Layers, NoMemory> {
    let mut layers = Seq::new(alloc);
    layers.push(Seq::from_vec(isos![0, 0, -1; 1, 2, 0].to_vec(alloc)?))?;
    layers.push(Seq::from_vec(isos![11, -30, 4].to_vec(alloc)?))?;
    Ok(Layers { layers })
}

/// Coronas as they stand in an entry.
#[test]
fn coronas_alone(rt: HostRuntime) -> Result<(), Fail> {
    let mut out = Vec::new(rt.alloc());
    write_coronas(&two_layers(rt.alloc())?, &mut out)?;
    let wanted = b"coronas 2\nlayer 0,0,-1 1,2,0\nlayer 11,-30,4\n";
    same("coronas", out.as_slice(), wanted.as_slice())
}
