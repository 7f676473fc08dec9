//! Types that are expected, and refusals.
ghost use Rattle.std.specs.Prelude.{◌≡◌};
ghost use Rattle.pie_value.specs.TypeTrees.{ty_tree};
ghost use Rattle.pie_parser.specs.TreeView.{block_of};
ghost use Rattle.pie_types.specs.Faults.{TypingAgrees};
ghost use Rattle.pie_types.specs.Spans.{answer_at, answer_end, at_of, end_of};
ghost use Rattle.pie_types.specs.Operators.{matched, same_type, where_fits};

use crate::{TypeError, TypeFault, TypeKind};
use pie_parser::{Block, Expr};
use pie_value::Ty;

// The bytes that something takes.
#[derive(Clone, Copy)]
pub struct Span {
    pub at: usize,
    pub end: usize,
}

// The refusal of these bytes.
pub fn refusal(kind: TypeKind, at: usize, end: usize) -> TypeError
    ensures { result ≡ TypeError.Fault (record { kind = kind; at = at; end = end }) }
{
    TypeError::Fault(TypeFault { kind, at, end })
}

// The refusal of what has another type than is expected.
pub fn mismatch(wanted: Ty, found: Ty, at: usize, end: usize) -> TypeError
    ensures { result ≡ TypeError.Fault (record { kind = TypeKind.Mismatch wanted found; at = at; end = end }) }
{
    refusal(TypeKind::Mismatch(wanted, found), at, end)
}

// The type that was found, where it fits.
pub fn where_fits(fits: bool, wanted: Ty, at: usize, end: usize, found: Ty) -> Result<Ty, TypeError>
    ensures { TypingAgrees ty_tree result (where_fits fits (ty_tree wanted) at end (ty_tree found)) }
{
    if fits {
        return Ok(found);
    }
    Err(mismatch(wanted, found, at, end))
}

// The type that was found, where it is the expected one.
pub fn matched(wanted: &Ty, at: usize, end: usize, found: Ty) -> Result<Ty, TypeError>
    ensures { TypingAgrees ty_tree result (matched (ty_tree wanted.now) at end (ty_tree found)) }
{
    let fits = same_type(wanted, &found);
    let wanted = wanted.copy()?;
    where_fits(fits, wanted, at, end, found)
}

// Whether two types are one.
pub fn same_type(a: &Ty, b: &Ty) -> bool
    ensures { result ≡ same_type (ty_tree a.now) (ty_tree b.now) }
{
    a.same(b)
}

// Where an expression begins.
#[tactic(auto, using(crate::proofs::Places::at_of_tree))]
pub fn start_of(e: &Expr) -> usize
    ensures { result ≡ at_of e.now }
{
    e.at
}

// Where an expression ends.
#[tactic(auto, using(crate::proofs::Places::end_of_tree))]
pub fn end_of(e: &Expr) -> usize
    ensures { result ≡ end_of e.now }
{
    e.end
}

// Where what a block answers begins.
pub fn answer_start(b: &Block) -> usize
    ensures { result ≡ answer_at (block_of b.now) }
{
    match &b.last {
        Some(last) => start_of(last),
        None => b.at,
    }
}

// Where what a block answers ends.
pub fn answer_end(b: &Block) -> usize
    ensures { result ≡ answer_end (block_of b.now) }
{
    match &b.last {
        Some(last) => end_of(last),
        None => b.end,
    }
}
