//! What each instruction takes, puts, names and leads to.
ghost use Rattle.std.specs.Prelude.{◌≡◌, ◌↔◌, IsTrue, option_map};
ghost use Rattle.pie_code.specs.Effects as effects;
ghost use Rattle.pie_code.specs.Ways as ways;

use crate::Instr;
use pie_signature::arity;

/// How many values it takes from the stack.
pub(crate) fn pops(instr: Instr) -> usize
    ensures { result ≡ effects.pops instr }
{
    match instr {
        Instr::Tick
        | Instr::Push(_)
        | Instr::PushText(_)
        | Instr::Load(_)
        | Instr::Jump(_)
        | Instr::Each(_) => 0,
        Instr::Store(_)
        | Instr::Drop
        | Instr::Unary(_)
        | Instr::JumpIfNot(_)
        | Instr::Proj(_)
        | Instr::Observe(_)
        | Instr::Fail
        | Instr::Return => 1,
        Instr::Binary(_) | Instr::ListPush | Instr::TuplePush | Instr::Write => 2,
        Instr::Call(which) => arity(which),
        Instr::Require(task) => task.count as usize,
    }
}

/// How many values it puts on the stack.
pub(crate) fn pushes(instr: Instr) -> usize
    ensures { result ≡ effects.pushes instr }
{
    match instr {
        Instr::Tick
        | Instr::Store(_)
        | Instr::Drop
        | Instr::Jump(_)
        | Instr::JumpIfNot(_)
        | Instr::Each(_)
        | Instr::Fail
        | Instr::Return => 0,
        _ => 1,
    }
}

/// The place to which it may jump.
pub(crate) fn target(instr: Instr) -> Option<usize>
    ensures { result ≡ ways.target instr }
{
    match instr {
        Instr::Jump(to) | Instr::JumpIfNot(to) => Some(to as usize),
        Instr::Each(each) => Some(each.end as usize),
        _ => None,
    }
}

/// Whether running may go on at the next place.
pub(crate) fn goes_on(instr: Instr) -> bool
    ensures { result ≡ ways.goes_on instr }
{
    !matches!(instr, Instr::Jump(_) | Instr::Fail | Instr::Return)
}

/// Whether it finds its operands on a stack of this height, and Return nothing else.
pub(crate) fn fits(instr: Instr, height: usize) -> bool
    ensures { IsTrue result ↔ ways.Fits instr height }
{
    if matches!(instr, Instr::Return) {
        return height == 1;
    }
    pops(instr) <= height
}
