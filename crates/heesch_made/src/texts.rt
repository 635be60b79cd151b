//! Words of a line, and worked texts.
use heesch_cert::Limits;
use heesch_cnf::Version;
use heesch_io::NoMemory;
use std::alloc::Global;

/// The words of a line.
pub fn words_of(alloc: Global, line: &str) -> Result<Vec<String>, NoMemory> {
    let mut words = Vec::new(alloc);
    for word in line.split_whitespace() {
        words.push(String::from_str(alloc, word)?)?;
    }
    Ok(words)
}

/// The limits of the worked texts.
pub const LIMITS: Limits = Limits {
    turns: 20_000,
    levels: 3,
    domain: 4,
    size: 60_000_000,
    version: Version::One,
};

/// The catalogue of the single triangle.
pub const TRIANGLE: &str = "heesch 1 iamond 1 turns 20000 levels 3 domain 4 size 60000000
shape 1,1
verdict tiles halfturn domain 2 classes 1
lattice 1 1 0
tile 0 0 0 class 1 by 0 0 0
tile 3 0 0 class 1 by 1 0 -1
end 1
";

/// The catalogue of the heptomino with a hole.
pub const HOLED: &str = "heesch 1 square given turns 20000 levels 3 domain 4 size 60000000
shape 0,0 1,0 2,0 0,1 2,1 0,2 1,2
verdict heesch 0 nontiler 1
coronas 0
wall 1 refuted
empty 9
bare 1 same
end 1
";

/// The brief catalogue of the five tetrominoes.
pub const BRIEF_TETROMINOES: &str = "brief 2 square 4 turns 20000 levels 3 domain 4 size 60000000
shape 0,0 1,0 2,0 3,0
verdict tiles translation domain 1 classes 1
shape 0,0 1,0 2,0 0,1
verdict tiles translation domain 1 classes 1
shape 0,0 1,0 2,0 1,1
verdict tiles translation domain 1 classes 1
shape 0,0 1,0 0,1 1,1
verdict tiles translation domain 1 classes 1
shape 0,0 1,0 1,1 2,1
verdict tiles translation domain 1 classes 1
end 5
";

/// The entries of the five tetrominoes.
const ENTRIES: [&str; 5] = [
    "shape 0,0 1,0 2,0 3,0\nverdict tiles translation domain 1 classes 1\nlattice 4 1 0\ntile 0 0 0 class 1 by 0 0 0\n",
    "shape 0,0 1,0 2,0 0,1\nverdict tiles translation domain 1 classes 1\nlattice 4 1 1\ntile 0 0 0 class 1 by 0 0 0\n",
    "shape 0,0 1,0 2,0 1,1\nverdict tiles translation domain 1 classes 1\nlattice 4 1 2\ntile 0 0 0 class 1 by 0 0 0\n",
    "shape 0,0 1,0 0,1 1,1\nverdict tiles translation domain 1 classes 1\nlattice 2 2 0\ntile 0 0 0 class 1 by 0 0 0\n",
    "shape 0,0 1,0 1,1 2,1\nverdict tiles translation domain 1 classes 1\nlattice 2 2 0\ntile 0 0 0 class 1 by 0 0 0\n",
];

/// The entries of the tetrominoes of these numbers, from 0, between a head and an end.
pub fn tetrominoes(
    alloc: Global,
    head: &str,
    numbers: &[usize],
    end: &str,
) -> Result<String, NoMemory> {
    let mut text = String::from_str(alloc, head)?;
    for number in numbers {
        if let Some(entry) = ENTRIES.get(*number) {
            text.push_str(entry)?;
        }
    }
    text.push_str(end)?;
    Ok(text)
}
