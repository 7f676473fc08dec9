//! What every kind of stamper keeps to.
ghost use Rattle.std.specs.Prelude.{◌≡◌, IfOk};
ghost use Rattle.pie_value.specs.declared.stamp.Stamp.{Stamp};
ghost use Rattle.pie_stamp.specs.declared.observed.Observed.{Observed};
ghost use Rattle.pie_stamp.specs.Observations.{Answered, OfOneKind};

use crate::Observed;
use pie_base::OutOfMemory;
use pie_value::Stamp;
use std::alloc::Global;

/// A way to keep of an observation what tells later whether its answer would be the same.
/// Rule: docs/BUILDING.md, "Stamps".
pub trait Stamper {
    /// The observations that it takes.
    ghost takes: { Observed → Type 0 };

    /// The stamp of an observation.
    ghost stamps: { Observed → Stamp → Type 0 };

    /// What a task is told by an observation that is stamped in this way.
    ghost answer: { Observed → Answered };

    /// Two observations whose contents, if they differ, can be told apart.
    ghost separate: { Observed → Observed → Type 0 };

    /// The stamp of an observation.
    fn stamp(&self, alloc: Global, seen: &Observed) -> Result<Stamp, OutOfMemory>
        requires { takes seen.now }
        ensures { IfOk result (λ stamp. stamps seen.now stamp) };

    /// Observations of one kind that are separate and have one stamp have one answer.
    ghost faithful: { (a b : Observed) (stamp : Stamp) → OfOneKind a b → separate a b → stamps a stamp → stamps b stamp → answer a ≡ answer b };
}
