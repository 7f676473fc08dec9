//! Where slots and texts are wrong.
ghost use Rattle.std.specs.Prelude.{◌≡◌, ◌<◌, ◌↔◌, length, IsTrue};
ghost use Rattle.pie_code.specs.Ways as ways;
ghost use Rattle.pie_code.specs.Checked.{AreBelow, SlotsFit};
ghost use Rattle.pie_code.specs.Scans.{IsFirst, NamesFit};

use crate::{Code, Instr};

/// The first place at which slots are wrong.
pub(crate) fn first_bad_slot(code: &Code) -> Option<usize>
    ensures { IsFirst (SlotsFit code.now) result }
{
    if code.params > code.slots {
        return Some(0);
    }
    for at in 0..code.instrs.len() {
        if !names_fit(code, at) {
            return Some(at);
        }
    }
    None
}

/// Whether slots are right at a place.
pub(crate) fn slots_fit(code: &Code, at: usize) -> bool
    requires { at < length code.now.instrs.items }
    ensures { IsTrue result ↔ SlotsFit code.now at }
{
    names_fit(code, at) && (at > 0 || code.params <= code.slots)
}

// Whether the slots and texts that an instruction names are there.
fn names_fit(code: &Code, at: usize) -> bool
    requires { at < length code.now.instrs.items }
    ensures { IsTrue result ↔ NamesFit code.now at }
{
    let instr = code.instrs[at];
    slots_are_below(instr, code.slots) && texts_are_below(instr, code.texts.len())
}

fn slots_are_below(instr: Instr, count: u16) -> bool
    ensures { IsTrue result ↔ AreBelow count (ways.slots_of instr) }
{
    match instr {
        Instr::Load(slot) | Instr::Store(slot) => slot < count,
        Instr::Each(each) => each.list < count && each.at < count && each.item < count,
        _ => true,
    }
}

fn texts_are_below(instr: Instr, count: usize) -> bool
    ensures { IsTrue result ↔ AreBelow count (ways.texts_of instr) }
{
    match instr {
        Instr::PushText(text) => (text as usize) < count,
        Instr::Require(task) => (task.func as usize) < count,
        _ => true,
    }
}
