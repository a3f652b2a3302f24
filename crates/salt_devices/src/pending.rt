//! What was being written when a call was broken off.

ghost use Rattle.salt_storage.specs.OpenErr.{OpenErr};
ghost use Rattle.salt_devices.specs.declared.pending.Pending.TheVariants.{Nothing, Opening};
ghost use Rattle.std.specs.Prelude.{IsTrue, ◌↔◌, ◌≡◌, ◌≢◌, ◌⊎◌};

use salt_storage::OpenErr;

/// What may stand on the devices beside what was kept before, where the last call was broken off.
#[derive(Clone, Copy)]
pub enum Pending {
    Nothing,
    /// A first opening, which a stop has broken off.
    Opening,
    Boot,
    /// A definition or a unit. It may be counted or not.
    Decision,
}

impl Pending {
    /// Whether a first opening was broken off by a stop.
    pub fn is_opening(&self) -> bool
        ensures { IsTrue result ↔ (self.now ≡ Opening) }
    {
        matches!(self, Pending::Opening)
    }
}

/// What is pending behind this error of a first opening.
pub fn pending_opening(e: OpenErr) -> Pending
    ensures { ((result ≡ Opening) × (e ≡ OpenErr.Stopped)) ⊎ ((result ≡ Nothing) × (e ≢ OpenErr.Stopped)) }
{
    match e {
        OpenErr::Stopped => Pending::Opening,
        _ => Pending::Nothing,
    }
}
