//! Code that was tested.
ghost use Rattle.std.specs.Prelude.{◌≡◌};
ghost use Rattle.pie_code.specs.Checked.{IsAccepted};

use crate::Code;
use std::marker::Model;

/// Code that `verify` has accepted. Contracts see the code.
#[derive(Drop)]
pub struct Checked {
    pub(crate) code: Code,
}

impl Model for Checked {
    ghost use Rattle.pie_code.specs.declared.code.Code.{Code};
    ghost use Rattle.pie_code.specs.Checked.{IsAccepted};

    ghost Value = { Code };

    ghost view = { λ c. c.code };

    ghost invariant = { λ c. IsAccepted c.code };
}

impl Checked {
    /// The code that was accepted.
    pub fn code(&self) -> &Code
        ensures code { result.now ≡ self.now }
        ensures accepted { IsAccepted self.now }
    {
        &self.code
    }
}
