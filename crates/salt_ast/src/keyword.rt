//! The keywords and their spellings.

ghost use Rattle.std.specs.Prelude.{◌≡◌, ◌∷◌, List, ℕ, map};
ghost use Rattle.salt_ast.specs.Bytes.{lower};
ghost use Rattle.salt_ast.specs.TokenSpelling.{among, keyword_spelling, keyword_of, same_bytes};

use crate::same::{lower, same_in_any_case};

/// A word that is no name, written in capital or small letters.
#[derive(Clone, Copy, Debug, PartialEq, Eq)]
pub enum Keyword {
    Create,
    Table,
    Int,
    Text,
    Key,
    Check,
    Insert,
    Into,
    Values,
    Select,
    From,
    Where,
    And,
    Or,
    Not,
    Between,
    Update,
    Set,
    Delete,
    Ensure,
    Count,
    Sum,
    Min,
    Max,
    Program,
    Var,
    Acid,
    Base,
    Part,
    Then,
    On,
    Failure,
    Go,
    End,
    Begin,
    Commit,
    Rollback,
    Step,
    Call,
    Show,
    Locks,
    Bases,
    Crash,
    All,
    Null,
    Is,
    Retry,
}

const ALL: [Keyword; 47] = [
    Keyword::Create,
    Keyword::Table,
    Keyword::Int,
    Keyword::Text,
    Keyword::Key,
    Keyword::Check,
    Keyword::Insert,
    Keyword::Into,
    Keyword::Values,
    Keyword::Select,
    Keyword::From,
    Keyword::Where,
    Keyword::And,
    Keyword::Or,
    Keyword::Not,
    Keyword::Between,
    Keyword::Update,
    Keyword::Set,
    Keyword::Delete,
    Keyword::Ensure,
    Keyword::Count,
    Keyword::Sum,
    Keyword::Min,
    Keyword::Max,
    Keyword::Program,
    Keyword::Var,
    Keyword::Acid,
    Keyword::Base,
    Keyword::Part,
    Keyword::Then,
    Keyword::On,
    Keyword::Failure,
    Keyword::Go,
    Keyword::End,
    Keyword::Begin,
    Keyword::Commit,
    Keyword::Rollback,
    Keyword::Step,
    Keyword::Call,
    Keyword::Show,
    Keyword::Locks,
    Keyword::Bases,
    Keyword::Crash,
    Keyword::All,
    Keyword::Null,
    Keyword::Is,
    Keyword::Retry,
];

/// The first of these keywords that the word is in capital or small letters.
fn among(keywords: &[Keyword], word: &[u8]) -> Option<Keyword>
    ensures { result ≡ among keywords.now (map lower word.now) }
{
    keywords
        .iter()
        .copied()
        .find(|keyword| keyword.is_spelled(word))
}

impl Keyword {
    /// The keyword in small letters.
    pub fn spelling(self) -> &'static [u8]
        ensures { result.now ≡ keyword_spelling self }
    {
        match self {
            Keyword::Create => b"create",
            Keyword::Table => b"table",
            Keyword::Int => b"int",
            Keyword::Text => b"text",
            Keyword::Key => b"key",
            Keyword::Check => b"check",
            Keyword::Insert => b"insert",
            Keyword::Into => b"into",
            Keyword::Values => b"values",
            Keyword::Select => b"select",
            Keyword::From => b"from",
            Keyword::Where => b"where",
            Keyword::And => b"and",
            Keyword::Or => b"or",
            Keyword::Not => b"not",
            Keyword::Between => b"between",
            Keyword::Update => b"update",
            Keyword::Set => b"set",
            Keyword::Delete => b"delete",
            Keyword::Ensure => b"ensure",
            Keyword::Count => b"count",
            Keyword::Sum => b"sum",
            Keyword::Min => b"min",
            Keyword::Max => b"max",
            Keyword::Program => b"program",
            Keyword::Var => b"var",
            Keyword::Acid => b"acid",
            Keyword::Base => b"base",
            Keyword::Part => b"part",
            Keyword::Then => b"then",
            Keyword::On => b"on",
            Keyword::Failure => b"failure",
            Keyword::Go => b"go",
            Keyword::End => b"end",
            Keyword::Begin => b"begin",
            Keyword::Commit => b"commit",
            Keyword::Rollback => b"rollback",
            Keyword::Step => b"step",
            Keyword::Call => b"call",
            Keyword::Show => b"show",
            Keyword::Locks => b"locks",
            Keyword::Bases => b"bases",
            Keyword::Crash => b"crash",
            Keyword::All => b"all",
            Keyword::Null => b"null",
            Keyword::Is => b"is",
            Keyword::Retry => b"retry",
        }
    }

    /// Whether the bytes are the keyword in capital or small letters.
    fn is_spelled(self, word: &[u8]) -> bool
        ensures { result ≡ same_bytes (map lower word.now) (keyword_spelling self) }
    {
        same_in_any_case(word, self.spelling())
    }

    /// The keyword that the bytes are in capital or small letters.
    #[tactic(auto, using(crate::proofs::SpellingLaws::no_word))]
    pub fn of_word(word: &[u8]) -> Option<Keyword>
        ensures { result ≡ keyword_of word.now }
    {
        let [first, ..] = word else {
            return None;
        };
        Keyword::beginning_with(lower(*first), word)
    }

    /// The keyword that a word is which begins with this letter, capital or small. Few are compared with it.
    #[tactic(auto, unfolding(crate::specs::TokenSpelling::keyword_of))]
    fn beginning_with(letter: u8, word: &[u8]) -> Option<Keyword>
        requires { (rest : List ℕ) × (map lower word.now ≡ letter ∷ rest) }
        ensures { result ≡ keyword_of word.now }
    {
        use Keyword::{
            And, Acid, All, Between, Base, Begin, Bases, Create, Check, Count, Commit, Call, Crash,
            Delete, Ensure, End, From, Failure, Go, Int, Insert, Into, Is, Key, Locks, Min, Max,
            Not, Null, Or, On, Program, Part, Rollback, Retry, Select, Set, Sum, Step, Show, Table,
            Text, Then, Update, Values, Var, Where,
        };

        match letter {
            b'a' => among(&[And, Acid, All], word),
            b'b' => among(&[Between, Base, Begin, Bases], word),
            b'c' => among(&[Create, Check, Count, Commit, Call, Crash], word),
            b'd' => among(&[Delete], word),
            b'e' => among(&[Ensure, End], word),
            b'f' => among(&[From, Failure], word),
            b'g' => among(&[Go], word),
            b'h' => None,
            b'i' => among(&[Int, Insert, Into, Is], word),
            b'j' => None,
            b'k' => among(&[Key], word),
            b'l' => among(&[Locks], word),
            b'm' => among(&[Min, Max], word),
            b'n' => among(&[Not, Null], word),
            b'o' => among(&[Or, On], word),
            b'p' => among(&[Program, Part], word),
            b'q' => None,
            b'r' => among(&[Rollback, Retry], word),
            b's' => among(&[Select, Set, Sum, Step, Show], word),
            b't' => among(&[Table, Text, Then], word),
            b'u' => among(&[Update], word),
            b'v' => among(&[Values, Var], word),
            b'w' => among(&[Where], word),
            b'x' => None,
            b'y' => None,
            b'z' => None,
            b'_' => None,
            _ => among(&ALL, word),
        }
    }
}
