//! The limits on what is written, by the words that refusals name.

ghost use Rattle.std.specs.Prelude.{◌≡◌};
ghost use Rattle.salt_ast.specs.Limits.{limit_word};

/// What there may be only so many of, by the word that a refusal names.
#[derive(Clone, Copy, Debug, PartialEq, Eq)]
pub enum LimitName {
    /// The number of a session is 1 to 64.
    Session,
    /// A name has at most 32 bytes.
    Name,
    /// A number is at most 2^63 - 1, behind a minus sign 2^63.
    Number,
    /// A text has at most 255 bytes.
    Text,
    /// There are at most 64 tables.
    Tables,
    /// A table has at most 16 columns.
    Columns,
    /// A table has at most 16 checks.
    Checks,
    /// There are at most 256 programs.
    Programs,
    /// A program has at most 32 parts.
    Parts,
    /// A part is tried again 1 to 9 times.
    Retry,
    /// A part, or an ACID program, has at most 64 statements.
    Statements,
    /// A program has at most 16 parameters.
    Parameters,
    /// A program has at most 16 variables.
    Variables,
    /// An expression's height, and the number of its parentheses around a token, are at most 64.
    Depth,
    /// The number of the call at which the disks stop is 1 to 1,000,000.
    Crash,
    /// The number of what a stop leaves is at most 4.
    Pick,
    /// A line arms at most 8 stops, or pairs of messages.
    Pairs,
    /// The number of the turn at which something befalls a message is 1 to 1,000,000.
    Net,
    /// The number of what befalls it is at most 2.
    Act,
    /// At most 1,024 BASE programs are in their first part, or accepted and not yet released.
    Bases,
}

impl LimitName {
    /// The word that names the limit.
    pub fn word(self) -> &'static [u8]
        ensures { result.now ≡ limit_word self }
    {
        match self {
            LimitName::Session => b"session",
            LimitName::Name => b"name",
            LimitName::Number => b"number",
            LimitName::Text => b"text",
            LimitName::Tables => b"tables",
            LimitName::Columns => b"columns",
            LimitName::Checks => b"checks",
            LimitName::Programs => b"programs",
            LimitName::Parts => b"parts",
            LimitName::Retry => b"retry",
            LimitName::Statements => b"statements",
            LimitName::Parameters => b"parameters",
            LimitName::Variables => b"variables",
            LimitName::Depth => b"depth",
            LimitName::Crash => b"crash",
            LimitName::Pick => b"pick",
            LimitName::Pairs => b"pairs",
            LimitName::Net => b"net",
            LimitName::Act => b"act",
            LimitName::Bases => b"bases",
        }
    }
}
