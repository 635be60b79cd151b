//! The value of a literal.
ghost use Rattle.std.specs.Prelude.{◌≡◌};
ghost use Rattle.heesch_cnf.specs.Literals.{is_true_value, is_false_value};
ghost use Rattle.heesch_trail.specs.Inner.{value_in};

/// The value of a literal, in one byte.
#[derive(Debug, Clone, Copy)]
pub enum Truth {
    Open,
    Yes,
    No,
}

impl Truth {
    /// The value, or None where the literal is open.
    pub fn value(self) -> Option<bool>
        ensures { result ≡ value_in self }
    {
        match self {
            Truth::Open => None,
            Truth::Yes => Some(true),
            Truth::No => Some(false),
        }
    }

    /// Whether it is true.
    pub fn is_true(self) -> bool
        ensures { result ≡ is_true_value (value_in self) }
    {
        matches!(self, Truth::Yes)
    }

    /// Whether it is false.
    pub fn is_false(self) -> bool
        ensures { result ≡ is_false_value (value_in self) }
    {
        matches!(self, Truth::No)
    }
}

const _: () = prove!(size_of::<Truth>() == 1);
