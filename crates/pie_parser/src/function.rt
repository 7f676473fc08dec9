//! Reading functions and whole pipelines.
ghost use Rattle.std.specs.Prelude.{◌≡◌, ◌<◌};
ghost use Rattle.pie_parser.specs.Places.{ParseAgrees};
ghost use Rattle.pie_parser.specs.inner.Turns.{Turns};
ghost use Rattle.pie_parser.specs.TreeView.{block_of};
ghost use Rattle.pie_parser.specs.FunctionReading as reads;

use crate::error::ParseFault;
use crate::kind::{Kind, is};
use crate::reader::{Reader, Room};
use crate::{Function, Param};
use std::alloc::Global;

impl<'a> Reader<'a> {
    // pipeline = { func }, and nothing behind it
    pub fn pipeline(&mut self, alloc: Global, room: Room) -> Result<Vec<Function>, ParseFault>
        ensures { ParseAgrees (λ v. v.items) result self.new (reads.pipeline room self.old) }
    {
        let functions = self.functions(alloc, room)?;
        if !is(self.peek(), Kind::End) {
            return Err(ParseFault::Expected);
        }
        Ok(functions)
    }

    // { func }
    #[tactic(auto, using(crate::proofs::Turning::goes_on, crate::proofs::Turning::stops, crate::proofs::Turning::fails, crate::proofs::Turning::runs_out))]
    fn functions(&mut self, alloc: Global, room: Room) -> Result<Vec<Function>, ParseFault>
        ensures { ParseAgrees (λ v. v.items) result self.new (reads.functions room self.old) }
    {
        let mut functions = Vec::new(alloc);
        for _ in 0..self.left() {
            let Some(function) = self.another_function(alloc, room)? else {
                return Ok(functions);
            };
            functions.push(function)?;
        }
        Ok(functions)
    }

    // A function, unless the tokens end.
    fn another_function(
        &mut self,
        alloc: Global,
        room: Room,
    ) -> Result<Option<Function>, ParseFault>
        ensures { Turns result self.old self.new (reads.another_function room self.old) }
    {
        if is(self.peek(), Kind::End) {
            return Ok(None);
        }
        let function = self.function(alloc, room)?;
        Ok(Some(function))
    }

    // func = "func" name "(" [ param { "," param } ] ")" "->" type block
    fn function(&mut self, alloc: Global, room: Room) -> Result<Function, ParseFault>
        ensures { ParseAgrees (λ f. f) result self.new (reads.function room self.old) }
    {
        let at = self.start();
        self.want(Kind::Func)?;
        let name = self.name()?;
        let params = self.params(alloc, room.brackets)?;
        self.want(Kind::Arrow)?;
        let result = Box::new(alloc, self.written_type(alloc, room.brackets)?)?;
        let body = self.block(alloc, room)?;
        let end = self.past();
        Ok(Function {
            at,
            end,
            name,
            params,
            result: Box::into_inner(result),
            body,
        })
    }

    // "(" [ param { "," param } ] ")"
    fn params(&mut self, alloc: Global, room: u32) -> Result<Vec<Param>, ParseFault>
        ensures { ParseAgrees (λ v. v.items) result self.new (reads.params room self.old) }
    {
        self.open(Kind::OpenRound, room)?;
        if is(self.peek(), Kind::CloseRound) {
            self.pass();
            return Ok(Vec::new(alloc));
        }
        let first = self.param(alloc, room - 1)?;
        let params = self.more_params(alloc, room - 1, first)?;
        self.want(Kind::CloseRound)?;
        Ok(params)
    }

    // { "," param }, behind a first
    #[tactic(auto, using(crate::proofs::Turning::goes_on, crate::proofs::Turning::stops, crate::proofs::Turning::fails, crate::proofs::Turning::runs_out))]
    fn more_params(
        &mut self,
        alloc: Global,
        room: u32,
        first: Param,
    ) -> Result<Vec<Param>, ParseFault>
        ensures { ParseAgrees (λ v. v.items) result self.new (reads.more_params room first self.old) }
    {
        let mut params = Vec::new(alloc);
        params.push(first)?;
        for _ in 0..self.left() {
            let Some(param) = self.another_param(alloc, room)? else {
                return Ok(params);
            };
            params.push(param)?;
        }
        Ok(params)
    }

    // "," param
    fn another_param(&mut self, alloc: Global, room: u32) -> Result<Option<Param>, ParseFault>
        ensures { Turns result self.old self.new (reads.another_param room self.old) }
    {
        if !is(self.peek(), Kind::Comma) {
            return Ok(None);
        }
        self.pass();
        let param = self.param(alloc, room)?;
        Ok(Some(param))
    }

    // param = name ":" type
    fn param(&mut self, alloc: Global, room: u32) -> Result<Param, ParseFault>
        ensures { ParseAgrees (λ p. p) result self.new (reads.param room self.old) }
    {
        let name = self.name()?;
        let at = name.at;
        self.want(Kind::Colon)?;
        let kind = self.written_type(alloc, room)?;
        let end = self.past();
        Ok(Param {
            at,
            end,
            name,
            kind,
        })
    }
}
