//! The code of a function.

use crate::Instr;
use pie_base::Text;

/// The code of a function: its parameters stand in the first slots, the other slots begin as unit.
/// Rule: docs/LANGUAGE.md, "Bytecode".
#[derive(Drop)]
pub struct Code {
    /// How many parameters there are.
    pub params: u16,
    /// How many slots there are, those of the parameters among them.
    pub slots: u16,
    /// The texts that instructions name by their place.
    pub texts: Vec<Text>,
    pub instrs: Vec<Instr>,
}
