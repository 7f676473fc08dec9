//! The instruction set. What an instruction does stands in stack notation: what it takes from the stack, the
//! top last, an arrow, and what it puts there.

use pie_operators::{Binary, Observation, Unary};
use pie_value::{Builtin, How};

/// A value that an instruction brings along.
#[derive(Clone, Copy)]
pub enum Constant {
    Unit,
    Bool(bool),
    Int(i64),
    Null,
    EmptyList,
    EmptyTuple,
}

/// The slots of a loop over a list, and where it ends.
#[derive(Clone, Copy)]
pub struct Each {
    /// The slot of the list.
    pub list: u16,
    /// The slot of the number of the next item, from 0.
    pub at: u16,
    /// The slot that each item is copied into.
    pub item: u16,
    /// The place behind the loop.
    pub end: u32,
}

/// A task that is required.
#[derive(Clone, Copy)]
pub struct Required {
    /// The text with the function's name, by its place in the table of texts.
    pub func: u32,
    /// How many arguments there are.
    pub count: u16,
    /// How the task is observed.
    pub how: How,
}

/// An instruction. Places count instructions from 0. Rule: docs/LANGUAGE.md, "Bytecode".
#[derive(Clone, Copy)]
pub enum Instr {
    /// ` -> `: counts one tick; the one after the 1,000,000th is the fault Budget.
    Tick,
    /// ` -> value`
    Push(Constant),
    /// ` -> text`, by its place in the table of texts.
    PushText(u32),
    /// ` -> value`: a copy of what is in the slot.
    Load(u16),
    /// `value -> `, into the slot.
    Store(u16),
    /// `value -> `
    Drop,
    /// `a -> answer`
    Unary(Unary),
    /// `a b -> answer`
    Binary(Binary),
    /// ` -> `, and goes on at the place.
    Jump(u32),
    /// `bool -> `, and goes on at the place where it is false.
    JumpIfNot(u32),
    /// ` -> `: the list's next item goes into its slot, and the number of the next grows; past the last item it
    /// goes on at the end of the loop.
    Each(Each),
    /// `list item -> list`, with the item at its end.
    ListPush,
    /// `tuple item -> tuple`, with the item at its end.
    TuplePush,
    /// `tuple -> item`, counted from 0.
    Proj(u32),
    /// `arguments -> answer` of a built-in function.
    Call(Builtin),
    /// `path -> answer`, an effect.
    Observe(Observation),
    /// `path content -> unit`, an effect.
    Write,
    /// `arguments -> answer` of a task, an effect.
    Require(Required),
    /// `text -> `, and the task has failed.
    Fail,
    /// `output -> `, and the task is done.
    Return,
}
