//! Why a project can't be built.
use pie_lexer::LexError;
use pie_parser::ParseError;
use pie_types::TypeFault;
use std::fmt;
use thiserror::Error;

/// Why a project can't be built. The pipeline is read and checked before the roots are read.
#[derive(Debug, Drop, Error)]
pub enum BuildError {
    /// The pipeline is refused.
    #[error("the pipeline is refused: {0}")]
    Pipeline(PipelineFault),
    /// The roots are refused.
    #[error("the roots are refused: {0}")]
    Roots(RootsReason),
    /// A call on the files failed. It comes only where their count of faults rose.
    #[error("a call on the files failed")]
    Files,
    /// No memory was to be had.
    #[error("out of memory")]
    OutOfMemory,
}

/// Why a pipeline is refused, in the order in which it is tested.
#[derive(Drop, Error)]
pub enum PipelineFault {
    /// There is no file `pie.pipeline`.
    #[error("there is no file pie.pipeline")]
    Absent,
    /// It has more than 1,048,576 bytes.
    #[error("pie.pipeline has more than 1,048,576 bytes")]
    TooLong,
    /// Its bytes aren't UTF-8.
    #[error("pie.pipeline isn't UTF-8")]
    NotText,
    /// It has no tokens; this is never out of memory.
    #[error("pie.pipeline has no tokens")]
    Lex(LexError),
    /// Its tokens are no pipeline; this is never out of memory.
    #[error("the tokens of pie.pipeline are no pipeline")]
    Parse(ParseError),
    /// It has no types.
    #[error("the pipeline has no types")]
    Types(TypeFault),
}

impl fmt::Debug for PipelineFault {
    fn fmt<W: fmt::Write>(&self, f: &mut fmt::Formatter<W>) -> fmt::Result {
        fmt::Display::fmt(self, f)
    }
}

/// Why roots are refused, in the order in which it is tested.
#[derive(Clone, Copy, Debug, PartialEq, Eq, Error)]
pub enum RootsReason {
    /// There is no file `pie.roots`.
    #[error("there is no file pie.roots")]
    Absent,
    /// It has more than 1,048,576 bytes.
    #[error("pie.roots has more than 1,048,576 bytes")]
    TooLong,
    /// Its bytes aren't UTF-8.
    #[error("pie.roots isn't UTF-8")]
    NotText,
    /// The first line, counted from 1, that is neither blank nor a task of the pipeline.
    #[error("line {0} of pie.roots is neither blank nor a task of the pipeline")]
    Line(u32),
}
