//! Why a line of roots is no task.

use crate::heading::{Heading, Shape};
use crate::naming::name_of;
use pie_base::OutOfMemory;
use pie_lexer::{LexError, Token, TokenKind, lex};
use std::alloc::Global;

/// Why a line is no task of a pipeline. A function is told by its place among the pipeline's.
#[derive(Drop)]
pub(crate) enum Cause {
    /// It hasn't the form of a task.
    NoTask,
    /// No function has this name.
    Unknown(String),
    /// It has so many arguments.
    Count(usize, usize),
    /// The argument with this number, from 1, is of another kind.
    Kind(usize, usize, &'static str, &'static str),
    /// An argument is no value, or of a type that isn't seen at once.
    Values(usize),
}

/// Why this line is no task of a pipeline with these functions.
pub(crate) fn cause_of(alloc: Global, line: &str, known: &[Heading]) -> Result<Cause, OutOfMemory> {
    let tokens = match lex(alloc, line) {
        Ok(tokens) => tokens,
        Err(LexError::OutOfMemory) => return Err(OutOfMemory),
        Err(_) => return Ok(Cause::NoTask),
    };
    let [name, open, within @ ..] = tokens.as_slice() else {
        return Ok(Cause::NoTask);
    };
    let Some(name) = name_of(&name.kind) else {
        return Ok(Cause::NoTask);
    };
    if !matches!(open.kind, TokenKind::OpenRound) {
        return Ok(Cause::NoTask);
    }
    let Some(arguments) = arguments_in(alloc, within)? else {
        return Ok(Cause::NoTask);
    };
    match place_of_name(known, name) {
        Some(at) => Ok(cause_in(at, arguments.as_slice(), known)),
        None => Ok(Cause::Unknown(String::from_str(alloc, name)?)),
    }
}

fn place_of_name(known: &[Heading], name: &str) -> Option<usize> {
    known
        .iter()
        .position(|heading| heading.name.as_str() == name)
}

fn cause_in(at: usize, arguments: &[Shape], known: &[Heading]) -> Cause {
    let Some(heading) = known.get(at) else {
        return Cause::NoTask;
    };
    if arguments.len() != heading.params.len() {
        return Cause::Count(at, arguments.len());
    }
    let mut place: usize = 0;
    for (param, argument) in heading.params.iter().zip(arguments) {
        place = place.saturating_add(1);
        if *param != Shape::Any && *param != *argument {
            return Cause::Kind(at, place, param.told(), argument.told());
        }
    }
    Cause::Values(at)
}

// The arguments before the last bracket, or none where it isn't the last token or brackets don't match.
fn arguments_in(alloc: Global, tokens: &[Token]) -> Result<Option<Vec<Shape>>, OutOfMemory> {
    let mut found = Arguments {
        shapes: Vec::new(alloc),
        depth: 1,
        first: None,
        count: 0,
    };
    for token in tokens {
        if found.depth == 0 {
            return Ok(None);
        }
        found.take(&token.kind)?;
    }
    if found.depth == 0 {
        Ok(Some(found.shapes))
    } else {
        Ok(None)
    }
}

#[derive(Drop)]
struct Arguments {
    shapes: Vec<Shape>,
    // How many brackets are open.
    depth: u32,
    // What the argument is by its first token, and how many tokens it has.
    first: Option<Shape>,
    count: u32,
}

impl Arguments {
    fn take(&mut self, kind: &TokenKind) -> Result<(), OutOfMemory> {
        match kind {
            TokenKind::OpenRound | TokenKind::OpenSquare | TokenKind::OpenBrace => {
                self.note(kind);
                self.depth = self.depth.saturating_add(1);
                Ok(())
            }
            TokenKind::CloseRound | TokenKind::CloseSquare | TokenKind::CloseBrace => {
                self.depth = self.depth.saturating_sub(1);
                if self.depth == 0 { self.end() } else { Ok(()) }
            }
            TokenKind::Comma if self.depth == 1 => self.end(),
            _ => {
                self.note(kind);
                Ok(())
            }
        }
    }

    // Ends an argument, if there is one.
    fn end(&mut self) -> Result<(), OutOfMemory> {
        if let Some(shape) = self.first {
            let whole = self.whole(shape);
            self.shapes.push(whole)?;
        }
        self.first = None;
        self.count = 0;
        Ok(())
    }

    // What an argument is that begins so: a number, a text and the like stand alone.
    fn whole(&self, shape: Shape) -> Shape {
        let stands_alone = matches!(shape, Shape::Int | Shape::Text | Shape::Bool | Shape::Unit);
        if stands_alone && self.count > 1 {
            Shape::Any
        } else {
            shape
        }
    }

    // Notes a token of an argument. A sign before a number isn't counted.
    fn note(&mut self, kind: &TokenKind) {
        if self.depth > 1 {
            return;
        }
        match self.first {
            None if matches!(kind, TokenKind::Minus) => {}
            None => {
                self.first = Some(shape_of(kind));
                self.count = 1;
            }
            Some(_) => self.count = self.count.saturating_add(1),
        }
    }
}

// What a value is that begins with this token.
fn shape_of(kind: &TokenKind) -> Shape {
    match kind {
        TokenKind::Int(_) => Shape::Int,
        TokenKind::Text(_) => Shape::Text,
        TokenKind::True | TokenKind::False => Shape::Bool,
        TokenKind::UnitWord => Shape::Unit,
        TokenKind::Path => Shape::Path,
        TokenKind::OpenSquare => Shape::List,
        TokenKind::OpenRound => Shape::Tuple,
        _ => Shape::Any,
    }
}
