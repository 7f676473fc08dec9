//! One instruction after another.
ghost use Rattle.pie_code.specs.Running.{act, step};
ghost use Rattle.pie_vm.specs.Steps.{Turned};

use crate::Frame;
use crate::asking::told;
use pie_base::{FaultKind, OutOfMemory, Text};
use pie_code::{Code, Instr};
use pie_value::Event;

impl Frame {
    /// One step of code.
    pub(crate) fn step(&mut self, code: &Code) -> Result<Option<Event>, OutOfMemory>
        ensures { Turned result self.old self.new (step code.now self.old) }
    {
        match code.instrs.get(self.at) {
            Some(instr) => self.act(code.texts.as_slice(), *instr),
            None => Ok(Some(Event::Fail(FaultKind::Unknown))),
        }
    }

    // What an instruction does.
    #[tactic(auto, using(crate::proofs::Turning::moved_turned))]
    fn act(&mut self, texts: &[Text], instr: Instr) -> Result<Option<Event>, OutOfMemory>
        ensures { Turned result self.old self.new (act texts.now instr self.old) }
    {
        match instr {
            Instr::Tick => told(self.tick()),
            Instr::Push(constant) => told(self.constant(constant)),
            Instr::PushText(number) => told(self.push_text(texts, number)),
            Instr::Load(slot) => told(self.load(slot)),
            Instr::Store(slot) => told(self.store(slot)),
            Instr::Drop => told(self.drop_value()),
            Instr::Unary(operator) => told(self.unary(operator)),
            Instr::Binary(operator) => told(self.binary(operator)),
            Instr::Jump(place) => told(self.go_to(place as usize)),
            Instr::JumpIfNot(place) => told(self.jump_if_not(place)),
            Instr::Each(each) => told(self.each(each)),
            Instr::ListPush => told(self.list_push()),
            Instr::TuplePush => told(self.tuple_push()),
            Instr::Proj(number) => told(self.project(number)),
            Instr::Call(which) => told(self.call(which)),
            Instr::Observe(what) => self.observe(what),
            Instr::Write => self.write(),
            Instr::Require(required) => self.require(texts, required),
            Instr::Fail => told(self.fail()),
            Instr::Return => told(self.finish()),
        }
    }
}
