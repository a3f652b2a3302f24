//! The laws, each on a function that does nothing.

ghost use Rattle.salt_stands.specs.Fitting.{definitions_reading};
ghost use Rattle.salt_model.specs.Kept.{Definition};
ghost use Rattle.salt_stands.specs.Pieces.{StaysFitting};
ghost use Rattle.std.specs.Prelude.{List, Option, ℕ};

/// Rows, keys and continuations that fit still fit with one definition more.
pub fn what_fits_still_fits()
    ensures { (read : List ℕ → Option Definition) (ds : List Definition) (d : Definition) → StaysFitting (definitions_reading read) ds d }
{}
