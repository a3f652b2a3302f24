//! The command that words say.

ghost use Rattle.salt_promise.specs.Given.{early_of, over_net_of, shape_of};
ghost use Rattle.std.specs.Prelude.{◌≡◌};

use salt_place::{PlaceKind, Shape};

/// What the program is to do.
#[derive(Clone, Copy, Debug, PartialEq, Eq)]
pub enum Command {
    /// `run`: the lines of a script, over devices of this shape; whether openings end before accepted programs are finished, and
    /// whether commits go over messages.
    Script {
        shape: Shape,
        early: bool,
        over_net: bool,
    },
    /// `load N`: the lines of the workload with so many calls, over two partitions.
    Load(u64),
}

impl Command {
    /// The shape of the devices that it asks for.
    pub fn shape(self) -> Shape
        ensures { result ≡ shape_of self }
    {
        match self {
            Command::Script { shape, .. } => shape,
            Command::Load(_) => Shape {
                parts: 2,
                kind: PlaceKind::Remainder,
            },
        }
    }

    /// Whether its openings end before accepted programs are finished.
    pub fn early(self) -> bool
        ensures { result ≡ early_of self }
    {
        match self {
            Command::Script { early, .. } => early,
            Command::Load(_) => false,
        }
    }

    /// Whether its commits go over messages.
    pub fn over_net(self) -> bool
        ensures { result ≡ over_net_of self }
    {
        match self {
            Command::Script { over_net, .. } => over_net,
            Command::Load(_) => false,
        }
    }
}

/// What may be given a value, each by a name of its own.
#[derive(Clone, Copy, Debug, PartialEq, Eq)]
pub enum Setting {
    /// `--parts`: how many partitions there are.
    Parts,
    /// `--dir`: the folder of their files.
    Folder,
    /// `--place`: how rows are spread over the partitions of a new database.
    Place,
}
