//! The law of the stampers, of any two observations and any stamp.
ghost use Rattle.std.specs.Prelude.{◌≡◌};
ghost use Rattle.pie_stamp.specs.declared.observed.Observed.{Observed};
ghost use Rattle.pie_value.specs.declared.stamp.Stamp.{Stamp};
ghost use Rattle.pie_stamp.specs.Observations.{OfOneKind};

use crate::Stamper;

/// Observations of one kind that are separate and have one stamp have one answer, whatever the stamper.
pub fn equal_stamps_mean_equal_answers<S: Stamper>(_stamper: &S)
    ensures { (a b : Observed) (stamp : Stamp) → OfOneKind a b → S.separate a b → S.stamps a stamp → S.stamps b stamp → S.answer a ≡ S.answer b }
{}
