//! The three truth values.

ghost use Rattle.std.specs.Prelude.{◌≡◌};
ghost use Rattle.salt_model.specs.Eval.{both, is_no, is_yes, one_of, opposite, yes_or_no};
ghost use Rattle.salt_exprs.specs.Operands.{truth_meant};

/// What a condition is: `Unknown` where what NULL stands for would decide.
#[derive(Clone, Copy, Debug, PartialEq, Eq)]
pub enum Truth {
    Yes,
    No,
    Unknown,
}

impl Truth {
    /// `Yes` or `No`.
    pub fn of(yes: bool) -> Truth
        ensures { truth_meant result ≡ yes_or_no yes }
    {
        if yes { Truth::Yes } else { Truth::No }
    }

    /// Whether it is true, and neither false nor unknown: what a filter and ENSURE ask.
    pub fn is_yes(self) -> bool
        ensures { result ≡ is_yes (truth_meant self) }
    {
        match self {
            Truth::Yes => true,
            Truth::No => false,
            Truth::Unknown => false,
        }
    }

    /// Whether it is false, and neither true nor unknown: what a check asks.
    pub fn is_no(self) -> bool
        ensures { result ≡ is_no (truth_meant self) }
    {
        match self {
            Truth::Yes => false,
            Truth::No => true,
            Truth::Unknown => false,
        }
    }

    /// The opposite; unknown stays unknown.
    pub fn opposite(self) -> Truth
        ensures { truth_meant result ≡ opposite (truth_meant self) }
    {
        match self {
            Truth::Yes => Truth::No,
            Truth::No => Truth::Yes,
            Truth::Unknown => Truth::Unknown,
        }
    }

    /// `and`: false where a side is, true where both are, and else unknown.
    pub fn and(self, other: Truth) -> Truth
        ensures { truth_meant result ≡ both (truth_meant self) (truth_meant other) }
    {
        match (self, other) {
            (Truth::No, _) => Truth::No,
            (_, Truth::No) => Truth::No,
            (Truth::Yes, Truth::Yes) => Truth::Yes,
            (Truth::Unknown, Truth::Yes) => Truth::Unknown,
            (_, Truth::Unknown) => Truth::Unknown,
        }
    }

    /// `or`: true where a side is, false where both are, and else unknown.
    pub fn or(self, other: Truth) -> Truth
        ensures { truth_meant result ≡ one_of (truth_meant self) (truth_meant other) }
    {
        match (self, other) {
            (Truth::Yes, _) => Truth::Yes,
            (_, Truth::Yes) => Truth::Yes,
            (Truth::No, Truth::No) => Truth::No,
            (Truth::Unknown, Truth::No) => Truth::Unknown,
            (_, Truth::Unknown) => Truth::Unknown,
        }
    }
}
