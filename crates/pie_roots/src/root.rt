//! What a line of the roots is.
ghost use Rattle.std.specs.Prelude.{◌≡◌, IfOk};
ghost use Rattle.pie_value.specs.Limits.{is_small_task};
ghost use Rattle.pie_roots.specs.Kinds.{kinds_of};
ghost use Rattle.pie_roots.specs.Roots.{IsRoot, IsOnlyRoot, IsRootOf, limited};

use crate::fault::RootFault;
use crate::reader::Reader;
use pie_base::OutOfMemory;
use pie_lexer::{LexError, Token, lex};
use pie_value::Task;
use std::alloc::Global;

/// What a line of `pie.roots` is. Rule: docs/LANGUAGE.md, "Roots".
#[derive(Drop)]
pub enum Root {
    /// No token: the line is blank, or a comment.
    Nothing,
    /// The task whose printed form has the tokens of the line.
    Task(Task),
    /// Neither: the line has no tokens, or those of no task within the limits.
    Bad,
}

/// What a line of `pie.roots` is, lexed as text of a pipeline.
/// Rule: docs/LANGUAGE.md, "Roots".
pub fn read_root(alloc: Global, line: &str) -> Result<Root, OutOfMemory>
    ensures root { IfOk result (IsRoot line.now) }
    ensures only { IfOk result (IsOnlyRoot line.now) }
{
    root_in(alloc, line)
}

// What a line is.
fn root_in(alloc: Global, line: &str) -> Result<Root, OutOfMemory>
    ensures { IfOk result (IsRoot line.now) }
{
    match lex(alloc, line) {
        Ok(tokens) => root_of(alloc, tokens.as_slice()),
        Err(LexError::OutOfMemory) => Err(OutOfMemory),
        Err(_) => Ok(Root::Bad),
    }
}

// What these tokens are.
fn root_of(alloc: Global, tokens: &[Token]) -> Result<Root, OutOfMemory>
    ensures { IfOk result (IsRootOf (kinds_of tokens.now)) }
{
    if tokens.is_empty() {
        return Ok(Root::Nothing);
    }
    match Reader::task(alloc, tokens) {
        Ok(task) => Ok(within_limits(task)),
        Err(RootFault::Bad) => Ok(Root::Bad),
        Err(RootFault::OutOfMemory) => Err(OutOfMemory),
    }
}

// A task within the limits of values and of tasks, or no root.
fn within_limits(task: Task) -> Root
    ensures { result ≡ limited task (is_small_task task) }
{
    if task.is_small() {
        return Root::Task(task);
    }
    Root::Bad
}
