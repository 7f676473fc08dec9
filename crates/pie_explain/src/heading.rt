//! The functions of a pipeline, as they are called.

use pie_base::OutOfMemory;
use pie_lexer::{LexError, lex};
use pie_parser::{Function, Param, ParseError, Pipeline, PlainType, Type, TypeForm, parse};
use std::alloc::Global;

/// A function: its name, its parameters, and how it is written before its body.
#[derive(Drop)]
pub(crate) struct Heading {
    pub(crate) name: String,
    pub(crate) params: Vec<Shape>,
    /// As in `page(src: path) -> path`.
    pub(crate) shape: String,
}

/// A type of a parameter, as far as an argument shows it at once.
#[derive(Clone, Copy, PartialEq, Eq)]
pub(crate) enum Shape {
    Unit,
    Bool,
    Int,
    Text,
    Path,
    List,
    Tuple,
    Any,
}

impl Shape {
    /// As it is told.
    pub(crate) fn told(self) -> &'static str {
        match self {
            Shape::Unit => "unit",
            Shape::Bool => "a bool",
            Shape::Int => "an int",
            Shape::Text => "a text",
            Shape::Path => "a path",
            Shape::List => "a list",
            Shape::Tuple => "a tuple",
            Shape::Any => "something to compute",
        }
    }
}

/// The functions of a pipeline with this text, in their order; none where it isn't one.
pub(crate) fn headings(alloc: Global, text: &str) -> Result<Vec<Heading>, OutOfMemory> {
    let mut found = Vec::new(alloc);
    let pipeline = parsed(alloc, text)?;
    for function in &pipeline.functions {
        found.push(heading_of(alloc, text, function)?)?;
    }
    Ok(found)
}

fn parsed(alloc: Global, text: &str) -> Result<Pipeline, OutOfMemory> {
    let tokens = match lex(alloc, text) {
        Ok(tokens) => tokens,
        Err(LexError::OutOfMemory) => return Err(OutOfMemory),
        Err(_) => Vec::new(alloc),
    };
    match parse(alloc, tokens.as_slice()) {
        Ok(pipeline) => Ok(pipeline),
        Err(ParseError::OutOfMemory) => Err(OutOfMemory),
        Err(_) => Ok(Pipeline {
            functions: Vec::new(alloc),
        }),
    }
}

fn heading_of(alloc: Global, text: &str, function: &Function) -> Result<Heading, OutOfMemory> {
    let params = shapes_of(alloc, function.params.as_slice())?;
    let shape = shape_of(alloc, text, function)?;
    let name = String::from_str(alloc, function.name.text.as_str())?;
    Ok(Heading {
        name,
        params,
        shape,
    })
}

fn shapes_of(alloc: Global, params: &[Param]) -> Result<Vec<Shape>, OutOfMemory> {
    let mut shapes = Vec::new(alloc);
    for param in params {
        shapes.push(shape_in(&param.kind))?;
    }
    Ok(shapes)
}

fn shape_in(kind: &Type) -> Shape {
    match &kind.form {
        TypeForm::Plain(PlainType::Unit) => Shape::Unit,
        TypeForm::Plain(PlainType::Bool) => Shape::Bool,
        TypeForm::Plain(PlainType::Int) => Shape::Int,
        TypeForm::Plain(PlainType::Text) => Shape::Text,
        TypeForm::Plain(PlainType::Path) => Shape::Path,
        TypeForm::List(_) => Shape::List,
        TypeForm::Tuple(_) => Shape::Tuple,
        TypeForm::Named(_) | TypeForm::Nullable(_) => Shape::Any,
    }
}

// A function as it is written before its body.
fn shape_of(alloc: Global, text: &str, function: &Function) -> Result<String, OutOfMemory> {
    let mut shape = String::new(alloc);
    shape.push_str(function.name.text.as_str())?;
    shape.push('(')?;
    put_params(&mut shape, text, function.params.as_slice())?;
    shape.push_str(") -> ")?;
    put_part(&mut shape, text, function.result.at, function.result.end)?;
    Ok(shape)
}

fn put_params(out: &mut String, text: &str, params: &[Param]) -> Result<(), OutOfMemory> {
    let mut is_first = true;
    for param in params {
        if !is_first {
            out.push_str(", ")?;
        }
        is_first = false;
        out.push_str(param.name.text.as_str())?;
        out.push_str(": ")?;
        put_part(out, text, param.kind.at, param.kind.end)?;
    }
    Ok(())
}

// A part of a text. Line ends and other control characters are written as spaces.
fn put_part(out: &mut String, text: &str, at: usize, end: usize) -> Result<(), OutOfMemory> {
    let Some(part) = text.get(at..end) else {
        return Ok(());
    };
    for c in part.chars() {
        out.push(if c.is_control() { ' ' } else { c })?;
    }
    Ok(())
}
