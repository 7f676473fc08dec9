//! Reading what operators stand on: literals, names, brackets and conditions.
ghost use Rattle.std.specs.Prelude.{◌≡◌, ◌<◌, [], ◌∷◌};
ghost use Rattle.pie_parser.specs.Places.{ParseAgrees};
ghost use Rattle.pie_parser.specs.ExprReading as reads;
ghost use Rattle.pie_parser.specs.ExprReading.{around};
ghost use Rattle.pie_parser.specs.inner.Turns.{Turns};

use crate::error::ParseFault;
use crate::kind::{Kind, is};
use crate::reader::{Reader, Room};
use crate::{Expr, Form, Literal};
use pie_lexer::TokenKind;
use std::alloc::Global;

impl<'a> Reader<'a> {
    // prim
    #[cycle(expr)]
    pub fn primary(&mut self, alloc: Global, room: Room) -> Result<Expr, ParseFault>
        ensures { ParseAgrees (λ t. t) result self.new (reads.primary (around room) self.old) }
    {
        match self.peek() {
            Kind::Name => self.name_or_call(alloc, room),
            Kind::Null => self.null(alloc, room),
            Kind::Empty => self.empty(alloc, room),
            Kind::OpenRound => self.rounds(alloc, room),
            Kind::OpenSquare => self.squares(alloc, room),
            Kind::If => self.condition(alloc, room),
            Kind::Path | Kind::Exists | Kind::Digest | Kind::List => self.effect(alloc, room),
            Kind::Read => self.read(alloc, room),
            Kind::Write => self.write(alloc, room),
            Kind::Fail => self.fail(alloc, room),
            Kind::Require => self.require(alloc, room),
            Kind::Run => self.run(alloc, room),
            _ => self.literal(),
        }
    }

    // int | text | "true" | "false" | "unit"
    fn literal(&mut self) -> Result<Expr, ParseFault>
        ensures { ParseAgrees (λ t. t) result self.new (reads.literal self.old) }
    {
        let at = self.start();
        let literal = self.literal_here()?;
        self.pass();
        let end = self.past();
        let form = Form::Literal(literal);
        Ok(Expr { at, end, form })
    }

    // The literal that is the next token.
    fn literal_here(&self) -> Result<Literal, ParseFault>
        ensures { ParseAgrees (λ l. l) result self.now (reads.literal_here self.now) }
    {
        if self.marked {
            return Err(ParseFault::Expected);
        }
        let [token, ..] = self.rest else {
            return Err(ParseFault::Expected);
        };
        match &token.kind {
            TokenKind::Int(n) => Ok(Literal::Int(*n)),
            TokenKind::Text(text) => Ok(Literal::Text(text.copy()?)),
            TokenKind::True => Ok(Literal::Bool(true)),
            TokenKind::False => Ok(Literal::Bool(false)),
            TokenKind::UnitWord => Ok(Literal::Unit),
            _ => Err(ParseFault::Expected),
        }
    }

    // "null" plain
    fn null(&mut self, alloc: Global, room: Room) -> Result<Expr, ParseFault>
        ensures { ParseAgrees (λ t. t) result self.new (reads.null (around room) self.old) }
    {
        let at = self.start();
        self.want(Kind::Null)?;
        let kind = self.plain_type(alloc, room.brackets)?;
        let end = self.past();
        let form = Form::Null(kind);
        Ok(Expr { at, end, form })
    }

    // "empty" type
    fn empty(&mut self, alloc: Global, room: Room) -> Result<Expr, ParseFault>
        ensures { ParseAgrees (λ t. t) result self.new (reads.empty (around room) self.old) }
    {
        let at = self.start();
        self.want(Kind::Empty)?;
        let kind = self.written_type(alloc, room.brackets)?;
        let end = self.past();
        let form = Form::Empty(kind);
        Ok(Expr { at, end, form })
    }

    // "(" expr ")" | "(" expr "," expr { "," expr } ")"
    #[cycle(expr)]
    fn rounds(&mut self, alloc: Global, room: Room) -> Result<Expr, ParseFault>
        ensures { ParseAgrees (λ t. t) result self.new (reads.rounds (around room) self.old) }
    {
        let at = self.start();
        self.open(Kind::OpenRound, room.brackets)?;
        let first = Box::new(alloc, self.inner(alloc, room, false)?)?;
        if !is(self.peek(), Kind::Comma) {
            self.want(Kind::CloseRound)?;
            return Ok(Box::into_inner(first));
        }
        let items = self.listed(alloc, room, Box::into_inner(first))?;
        self.want(Kind::CloseRound)?;
        let end = self.past();
        let form = Form::Tuple(items);
        Ok(Expr { at, end, form })
    }

    // { "," expr }, behind a first
    #[cycle(expr)]
    #[tactic(auto, using(crate::proofs::Turning::goes_on, crate::proofs::Turning::stops, crate::proofs::Turning::fails, crate::proofs::Turning::runs_out))]
    pub fn listed(
        &mut self,
        alloc: Global,
        room: Room,
        first: Expr,
    ) -> Result<Vec<Expr>, ParseFault>
        requires { 0 < room.brackets }
        ensures { ParseAgrees (λ v. v.items) result self.new (reads.listed (around room) first self.old) }
    {
        let mut items = Vec::new(alloc);
        items.push(first)?;
        for _ in 0..self.left() {
            let Some(item) = self.another(alloc, room)? else {
                return Ok(items);
            };
            items.push(item)?;
        }
        Ok(items)
    }

    // "," expr
    #[cycle(expr)]
    fn another(&mut self, alloc: Global, room: Room) -> Result<Option<Expr>, ParseFault>
        requires { 0 < room.brackets }
        ensures { Turns result self.old self.new (reads.another (around room) self.old) }
    {
        if !is(self.peek(), Kind::Comma) {
            return Ok(None);
        }
        self.pass();
        let item = self.inner(alloc, room, false)?;
        Ok(Some(item))
    }

    // "[" expr { "," expr } "]" | "[" expr "for" name "in" expr "]"
    #[cycle(expr)]
    fn squares(&mut self, alloc: Global, room: Room) -> Result<Expr, ParseFault>
        ensures { ParseAgrees (λ t. t) result self.new (reads.squares (around room) self.old) }
    {
        let at = self.start();
        self.open(Kind::OpenSquare, room.brackets)?;
        let first = self.inner(alloc, room, false)?;
        if is(self.peek(), Kind::For) {
            return self.each(alloc, room, at, first);
        }
        let items = self.listed(alloc, room, first)?;
        self.want(Kind::CloseSquare)?;
        let end = self.past();
        let form = Form::List(items);
        Ok(Expr { at, end, form })
    }

    // "for" name "in" expr "]", behind the item of a comprehension
    #[cycle(expr)]
    fn each(&mut self, alloc: Global, room: Room, at: usize, item: Expr) -> Result<Expr, ParseFault>
        requires { 0 < room.brackets }
        ensures { ParseAgrees (λ t. t) result self.new (reads.each (around room) at item self.old) }
    {
        let item = Box::new(alloc, item)?;
        self.want(Kind::For)?;
        let name = self.name()?;
        self.want(Kind::In)?;
        let list = Box::new(alloc, self.inner(alloc, room, false)?)?;
        self.want(Kind::CloseSquare)?;
        let end = self.past();
        let form = Form::Each(item, name, list);
        Ok(Expr { at, end, form })
    }

    // "if" expr block [ "else" block ]
    #[cycle(expr)]
    fn condition(&mut self, alloc: Global, room: Room) -> Result<Expr, ParseFault>
        ensures { ParseAgrees (λ t. t) result self.new (reads.condition (around room) self.old) }
    {
        let at = self.start();
        if room.conditions == 0 {
            return Err(ParseFault::OutOfMemory);
        }
        self.want(Kind::If)?;
        let test = self.test(alloc, room)?;
        self.branches(alloc, room, at, test)
    }

    // block [ "else" block ], behind the test of a condition
    #[cycle(expr)]
    fn branches(
        &mut self,
        alloc: Global,
        room: Room,
        at: usize,
        test: Expr,
    ) -> Result<Expr, ParseFault>
        ensures { ParseAgrees (λ t. t) result self.new (reads.branches (around room) at test self.old) }
    {
        let test = Box::new(alloc, test)?;
        let then = self.block(alloc, room)?;
        let then = Box::new(alloc, then)?;
        if !is(self.peek(), Kind::Else) {
            let end = self.past();
            let form = Form::If(test, then, None);
            return Ok(Expr { at, end, form });
        }
        self.pass();
        let otherwise = self.block(alloc, room)?;
        let otherwise = Box::new(alloc, otherwise)?;
        let end = self.past();
        let form = Form::If(test, then, Some(otherwise));
        Ok(Expr { at, end, form })
    }
}
