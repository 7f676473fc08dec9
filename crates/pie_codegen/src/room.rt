//! How many slots above the names in scope the code of each form uses.
ghost use Rattle.std.specs.Prelude.{◌≡◌, ◌+◌, IfOk, max};
ghost use Rattle.pie_parser.specs.TreeView.{block_of, last_of, lines_of, steps_of, trees_of};
ghost use Rattle.pie_codegen.specs.Rooms as spec;

use crate::line::{names_in, value_of};
use crate::spot::slot_above;
use pie_base::OutOfMemory;
use pie_parser::{Block, Expr, Form, Line, Step};

// The slots of an expression.
#[cycle(room)]
pub fn room(e: &Expr) -> Result<u16, OutOfMemory>
    ensures { IfOk result (λ n. n ≡ spec.room_of e.now) }
{
    match &e.form {
        Form::Literal(_) => Ok(0),
        Form::Name(_) => Ok(0),
        Form::Null(_) => Ok(0),
        Form::Empty(_) => Ok(0),
        Form::Chain(first, steps) => chain_room(first, steps.as_slice()),
        Form::Compare(_, a, b) => room_of_two(a, b),
        Form::Prefix(_, a) => room(a),
        Form::Project(a, _) => room(a),
        Form::Tuple(items) => items_room(items.as_slice()),
        Form::List(items) => items_room(items.as_slice()),
        Form::Each(item, _, list) => each_room(item, list),
        Form::If(test, then, otherwise) => match otherwise {
            None => alone_room(test, then),
            Some(block) => choice_room(test, then, block),
        },
        Form::Call(_, _, items) => items_room(items.as_slice()),
        Form::Effect(_, a) => room(a),
        Form::Write(path, value) => room_of_two(path, value),
        Form::Fail(_, text) => room(text),
    }
}

// The larger of two.
fn larger(a: u16, b: u16) -> u16
    ensures { result ≡ max a b }
{
    if a < b { b } else { a }
}

// The slots of two parts, one after the other.
#[cycle(room)]
fn room_of_two(a: &Expr, b: &Expr) -> Result<u16, OutOfMemory>
    ensures { IfOk result (λ n. n ≡ max (spec.room_of a.now) (spec.room_of b.now)) }
{
    let first = room(a)?;
    let second = room(b)?;
    Ok(larger(first, second))
}

// The slots of a chain.
#[cycle(room)]
fn chain_room(first: &Expr, steps: &[Step]) -> Result<u16, OutOfMemory>
    ensures { IfOk result (λ n. n ≡ max (spec.room_of first.now) (spec.steps_room (steps_of steps.now))) }
{
    let one = room(first)?;
    let rest = steps_room(steps)?;
    Ok(larger(one, rest))
}

// The slots of the operands behind the first.
#[cycle(room)]
#[tactic(auto, using(crate::proofs::RoomTurns::steps_turn, crate::proofs::Rests::step_mass_at))]
fn steps_room(steps: &[Step]) -> Result<u16, OutOfMemory>
    ensures { IfOk result (λ n. n ≡ spec.steps_room (steps_of steps.now)) }
{
    let mut most = 0;
    for step in steps {
        let one = room(&step.operand)?;
        most = larger(most, one);
    }
    Ok(most)
}

// The slots of items or arguments.
#[cycle(room)]
#[tactic(auto, using(crate::proofs::RoomTurns::items_turn, crate::proofs::Rests::tree_mass_at))]
fn items_room(items: &[Expr]) -> Result<u16, OutOfMemory>
    ensures { IfOk result (λ n. n ≡ spec.trees_room (trees_of items.now)) }
{
    let mut most = 0;
    for item in items {
        let one = room(item)?;
        most = larger(most, one);
    }
    Ok(most)
}

// The slots of a comprehension: three of its own hold the list, the number of the next item, and the item.
#[cycle(room)]
fn each_room(item: &Expr, list: &Expr) -> Result<u16, OutOfMemory>
    ensures { IfOk result (λ n. n ≡ max (spec.room_of list.now) (3 + spec.room_of item.now)) }
{
    let before = room(list)?;
    let inside = room(item)?;
    let inside = slot_above(3, inside)?;
    Ok(larger(before, inside))
}

// The slots of `if c {..}`.
#[cycle(room)]
fn alone_room(test: &Expr, then: &Block) -> Result<u16, OutOfMemory>
    ensures { IfOk result (λ n. n ≡ max (spec.room_of test.now) (max (spec.block_room (block_of then.now)) 0)) }
{
    let first = room(test)?;
    let second = block_room(then)?;
    Ok(larger(first, larger(second, 0)))
}

// The slots of `if c {..} else {..}`.
#[cycle(room)]
fn choice_room(test: &Expr, then: &Block, other: &Block) -> Result<u16, OutOfMemory>
    ensures { IfOk result (λ n. n ≡ max (spec.room_of test.now) (max (spec.block_room (block_of then.now)) (spec.block_room (block_of other.now)))) }
{
    let first = room(test)?;
    let second = block_room(then)?;
    let third = block_room(other)?;
    Ok(larger(first, larger(second, third)))
}

// The slots of a block.
#[cycle(room)]
pub fn block_room(block: &Block) -> Result<u16, OutOfMemory>
    ensures { IfOk result (λ n. n ≡ spec.block_room (block_of block.now)) }
{
    let last = last_room(&block.last)?;
    lines_room(block.lines.as_slice(), last)
}

// The slots of lines before what takes so many.
#[cycle(room)]
#[tactic(auto, using(crate::proofs::RoomTurns::lines_turn, crate::proofs::RoomTurns::value_mass_at))]
fn lines_room(lines: &[Line], last: u16) -> Result<u16, OutOfMemory>
    ensures { IfOk result (λ n. n ≡ spec.lines_room (lines_of lines.now) last) }
{
    let mut names = 0;
    let mut most = 0;
    for line in lines {
        let one = room(value_of(line))?;
        most = larger(most, slot_above(names, one)?);
        names = slot_above(names, names_in(line))?;
    }
    Ok(larger(most, slot_above(names, last)?))
}

// The slots of what ends a block.
#[cycle(room)]
fn last_room(last: &Option<Expr>) -> Result<u16, OutOfMemory>
    ensures { IfOk result (λ n. n ≡ spec.last_room (last_of last.now)) }
{
    match last {
        Some(e) => room(e),
        None => Ok(0),
    }
}
