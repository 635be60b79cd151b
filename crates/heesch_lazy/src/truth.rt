//! The value of a variable.

/// The value of a variable or of a literal, in one byte.
#[derive(Debug, Clone, Copy)]
pub(crate) enum Truth {
    Open,
    Yes,
    No,
}

impl Truth {
    /// The value of the negation.
    pub fn opposite(self) -> Truth {
        match self {
            Truth::Open => Truth::Open,
            Truth::Yes => Truth::No,
            Truth::No => Truth::Yes,
        }
    }

    pub fn is_open(self) -> bool {
        matches!(self, Truth::Open)
    }

    pub fn is_true(self) -> bool {
        matches!(self, Truth::Yes)
    }

    pub fn is_false(self) -> bool {
        matches!(self, Truth::No)
    }
}
