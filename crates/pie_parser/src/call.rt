//! Reading calls and effects.
ghost use Rattle.std.specs.Prelude.{◌≡◌, ◌<◌, [], ◌∷◌};
ghost use Rattle.pie_parser.specs.Places.{ParseAgrees};
ghost use Rattle.pie_parser.specs.ExprReading as reads;
ghost use Rattle.pie_parser.specs.ExprReading.{around};
ghost use Rattle.pie_parser.specs.Tests.{effect_at};

use crate::error::ParseFault;
use crate::kind::{Kind, is};
use crate::reader::{Reader, Room};
use crate::{CallKind, EffectKind, Expr, Form, Name};
use std::alloc::Global;

impl<'a> Reader<'a> {
    // name | name "(" [ args ] ")"
    #[cycle(expr)]
    pub fn name_or_call(&mut self, alloc: Global, room: Room) -> Result<Expr, ParseFault>
        ensures { ParseAgrees (λ t. t) result self.new (reads.name_or_call (around room) self.old) }
    {
        let name = self.name()?;
        let at = name.at;
        if is(self.peek(), Kind::OpenRound) {
            return self.call(alloc, room, at, CallKind::Plain, name);
        }
        let end = name.end;
        let form = Form::Name(name.text);
        Ok(Expr { at, end, form })
    }

    // The arguments of a call that began at a place.
    #[cycle(expr)]
    fn call(
        &mut self,
        alloc: Global,
        room: Room,
        at: usize,
        kind: CallKind,
        name: Name,
    ) -> Result<Expr, ParseFault>
        ensures { ParseAgrees (λ t. t) result self.new (reads.call (around room) at kind name self.old) }
    {
        let args = self.arguments(alloc, room)?;
        let end = self.past();
        let form = Form::Call(kind, name, args);
        Ok(Expr { at, end, form })
    }

    // "(" [ expr { "," expr } ] ")"
    #[cycle(expr)]
    fn arguments(&mut self, alloc: Global, room: Room) -> Result<Vec<Expr>, ParseFault>
        ensures { ParseAgrees (λ v. v.items) result self.new (reads.arguments (around room) self.old) }
    {
        self.open(Kind::OpenRound, room.brackets)?;
        if is(self.peek(), Kind::CloseRound) {
            self.pass();
            return Ok(Vec::new(alloc));
        }
        let first = self.inner(alloc, room, false)?;
        let args = self.listed(alloc, room, first)?;
        self.want(Kind::CloseRound)?;
        Ok(args)
    }

    // ("path" | "exists" | "digest" | "list") "(" expr ")"
    #[cycle(expr)]
    pub fn effect(&mut self, alloc: Global, room: Room) -> Result<Expr, ParseFault>
        ensures { ParseAgrees (λ t. t) result self.new (reads.effect (around room) self.old) }
    {
        let at = self.start();
        let Some(kind) = effect_of(self.peek()) else {
            return Err(ParseFault::Expected);
        };
        self.pass();
        self.open(Kind::OpenRound, room.brackets)?;
        let operand = Box::new(alloc, self.inner(alloc, room, false)?)?;
        self.want(Kind::CloseRound)?;
        let end = self.past();
        let form = Form::Effect(kind, operand);
        Ok(Expr { at, end, form })
    }

    // "read" "(" expr [ "by" ("hash" | "mark") ] ")"
    #[cycle(expr)]
    pub fn read(&mut self, alloc: Global, room: Room) -> Result<Expr, ParseFault>
        ensures { ParseAgrees (λ t. t) result self.new (reads.read (around room) self.old) }
    {
        let at = self.start();
        self.want(Kind::Read)?;
        self.open(Kind::OpenRound, room.brackets)?;
        let path = Box::new(alloc, self.inner(alloc, room, true)?)?;
        let kind = self.by_of_read()?;
        self.want(Kind::CloseRound)?;
        let end = self.past();
        let form = Form::Effect(kind, path);
        Ok(Expr { at, end, form })
    }

    // [ "by" ("hash" | "mark") ], where a `require` in front may have passed a `by mark`
    fn by_of_read(&mut self) -> Result<EffectKind, ParseFault>
        ensures { ParseAgrees (λ k. k) result self.new (reads.by_of_read self.old) }
    {
        if self.marked {
            self.marked = false;
            return Ok(EffectKind::ReadByMark);
        }
        if !is(self.peek(), Kind::By) {
            return Ok(EffectKind::Read);
        }
        self.pass();
        let kind = match self.peek() {
            Kind::Hash => EffectKind::ReadByHash,
            Kind::Mark => EffectKind::ReadByMark,
            _ => return Err(ParseFault::Expected),
        };
        self.pass();
        Ok(kind)
    }

    // "write" "(" expr "," expr ")"
    #[cycle(expr)]
    pub fn write(&mut self, alloc: Global, room: Room) -> Result<Expr, ParseFault>
        ensures { ParseAgrees (λ t. t) result self.new (reads.write (around room) self.old) }
    {
        let at = self.start();
        self.want(Kind::Write)?;
        self.open(Kind::OpenRound, room.brackets)?;
        let path = Box::new(alloc, self.inner(alloc, room, false)?)?;
        self.want(Kind::Comma)?;
        let value = Box::new(alloc, self.inner(alloc, room, false)?)?;
        self.want(Kind::CloseRound)?;
        let end = self.past();
        let form = Form::Write(path, value);
        Ok(Expr { at, end, form })
    }

    // "fail" type "(" expr ")"
    #[cycle(expr)]
    pub fn fail(&mut self, alloc: Global, room: Room) -> Result<Expr, ParseFault>
        ensures { ParseAgrees (λ t. t) result self.new (reads.fail (around room) self.old) }
    {
        let at = self.start();
        self.want(Kind::Fail)?;
        let kind = Box::new(alloc, self.written_type(alloc, room.brackets)?)?;
        self.open(Kind::OpenRound, room.brackets)?;
        let text = Box::new(alloc, self.inner(alloc, room, false)?)?;
        self.want(Kind::CloseRound)?;
        let end = self.past();
        let form = Form::Fail(Box::into_inner(kind), text);
        Ok(Expr { at, end, form })
    }

    // "require" name "(" [ args ] ")" [ "by" "hash" ]
    #[cycle(expr)]
    pub fn require(&mut self, alloc: Global, room: Room) -> Result<Expr, ParseFault>
        ensures { ParseAgrees (λ t. t) result self.new (reads.require (around room) self.old) }
    {
        let at = self.start();
        self.want(Kind::Require)?;
        let name = self.name()?;
        let args = self.arguments(alloc, room)?;
        let kind = self.by_of_require(room.in_read)?;
        let end = self.past();
        let form = Form::Call(kind, name, args);
        Ok(Expr { at, end, form })
    }

    // [ "by" "hash" ]; a `by mark` is passed where it belongs to the `read` around
    fn by_of_require(&mut self, in_read: bool) -> Result<CallKind, ParseFault>
        ensures { ParseAgrees (λ k. k) result self.new (reads.by_of_require in_read self.old) }
    {
        if !is(self.peek(), Kind::By) {
            return Ok(CallKind::Require);
        }
        let past = self.past();
        self.pass();
        if is(self.peek(), Kind::Hash) {
            self.pass();
            return Ok(CallKind::RequireByHash);
        }
        if !in_read {
            return Err(ParseFault::Expected);
        }
        self.want(Kind::Mark)?;
        self.past = past;
        self.marked = true;
        Ok(CallKind::Require)
    }

    // "run" name "(" [ args ] ")"
    #[cycle(expr)]
    pub fn run(&mut self, alloc: Global, room: Room) -> Result<Expr, ParseFault>
        ensures { ParseAgrees (λ t. t) result self.new (reads.run (around room) self.old) }
    {
        let at = self.start();
        self.want(Kind::Run)?;
        let name = self.name()?;
        self.call(alloc, room, at, CallKind::Run, name)
    }
}

// The keyword before one expression that is this token.
fn effect_of(kind: Kind) -> Option<EffectKind>
    ensures { result ≡ effect_at kind }
{
    match kind {
        Kind::Path => Some(EffectKind::Path),
        Kind::Exists => Some(EffectKind::Exists),
        Kind::Digest => Some(EffectKind::Digest),
        Kind::List => Some(EffectKind::List),
        _ => None,
    }
}
