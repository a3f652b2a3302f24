//! The two devices of the coordinator.

ghost use Rattle.salt_decisions.specs.Which.{which_in};
ghost use Rattle.salt_stands.specs.Coordinator.{device_of};
ghost use Rattle.salt_stands.specs.Pieces.{other_log};
ghost use Rattle.std.specs.Prelude.{◌≡◌};

/// A log of the coordinator's pair.
#[derive(Clone, Copy, Debug, PartialEq, Eq)]
pub enum Which {
    A,
    B,
}

impl Which {
    /// The number of its device.
    pub fn device(self) -> u32
        ensures { result ≡ device_of 0 (which_in self) }
    {
        match self {
            Which::A => 0,
            Which::B => 1,
        }
    }

    /// The other one.
    pub fn other(self) -> Which
        ensures { which_in result ≡ other_log (which_in self) }
    {
        match self {
            Which::A => Which::B,
            Which::B => Which::A,
        }
    }
}
