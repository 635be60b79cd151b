//! What the lines so far ask of the next one.
ghost use Rattle.std.specs.Prelude.{◌≡◌};
ghost use Rattle.heesch_grammar.specs.Grammar.{is_whole};

/// What may stand after a proof.
#[derive(Clone, Copy, Debug, PartialEq, Eq)]
pub enum AfterProof {
    /// What may stand after a refuted wall at this level. The last number of the verdict's line is `last`.
    Wall { level: u32, last: u32 },
    /// What may stand after a search with holes allowed.
    MayOpen,
    /// Triples.
    Triples,
}

/// The end of the lines so far, with the numbers that a later line of the entry must have: `last` is the last number
/// of the verdict's line, `count` a number of layers.
#[derive(Clone, Copy, Debug, PartialEq, Eq)]
pub enum Place {
    /// Between two entries: after the header, or after the verdict in a brief text.
    Between,
    /// After `shape`.
    Shape,
    /// After the verdict of a tiling in a full text.
    Tiling,
    /// After `lattice`.
    Lattice,
    /// After `tile`.
    Tile,
    /// After any other verdict in a full text.
    Search { last: u32 },
    /// Before a layer of `coronas` that so many more follow.
    Layers { more: u32, count: u32, last: u32 },
    /// After `coronas` and its layers.
    Coronas { count: u32, last: u32 },
    /// In a proof, which ends with `empty` where it refutes and else with `spent`.
    Proof { refuted: bool, after: AfterProof },
    /// After a refuted wall and its proof.
    Wall { level: u32, last: u32 },
    /// After a search with holes allowed that doesn't say how many layers were found.
    MayOpen,
    /// After `bare 0 open`.
    OpenNone,
    /// After `bare` with `open` and this number, which is at least 1.
    MustOpen { count: u32 },
    /// Before a layer of `open` that so many more follow.
    Wider { more: u32 },
    /// Where triples may follow.
    Triples,
    /// After `end`.
    Ended,
}

impl Place {
    /// Whether the next entry or the last line may stand here.
    pub fn is_whole(self) -> bool
        ensures { result ≡ is_whole self }
    {
        matches!(
            self,
            Place::Between
                | Place::Tile
                | Place::Coronas { .. }
                | Place::Wall { .. }
                | Place::MayOpen
                | Place::OpenNone
                | Place::Triples
        )
    }
}
