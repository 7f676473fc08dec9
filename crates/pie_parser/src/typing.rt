//! Reading types.
ghost use Rattle.std.specs.Prelude.{◌≡◌, ◌<◌, [], ◌∷◌};
ghost use Rattle.pie_parser.specs.Places.{ParseAgrees};
ghost use Rattle.pie_parser.specs.inner.Turns.{Turns, all_behind};
ghost use Rattle.pie_parser.specs.TypeReading as reads;

use crate::error::ParseFault;
use crate::kind::{Kind, is};
use crate::reader::Reader;
use crate::{PlainType, Type, TypeForm};
use std::alloc::Global;

impl<'a> Reader<'a> {
    // type = plain [ "?" ], where so many brackets may be opened still
    #[cycle(typing)]
    pub fn written_type(&mut self, alloc: Global, room: u32) -> Result<Type, ParseFault>
        ensures { ParseAgrees (λ t. t) result self.new (reads.written_type room (reads.inner_type room) self.old) }
    {
        let at = self.start();
        let plain = self.plain_type(alloc, room)?;
        if !is(self.peek(), Kind::Question) {
            return Ok(plain);
        }
        self.pass();
        let end = self.past();
        let form = TypeForm::Nullable(Box::new(alloc, plain)?);
        Ok(Type { at, end, form })
    }

    // plain = "unit" | "bool" | "int" | "text" | "path" | name | "[" type "]" | "(" type "," type { "," type } ")"
    #[cycle(typing)]
    pub fn plain_type(&mut self, alloc: Global, room: u32) -> Result<Type, ParseFault>
        ensures { ParseAgrees (λ t. t) result self.new (reads.plain_type room (reads.inner_type room) self.old) }
    {
        match self.peek() {
            Kind::OpenSquare => self.list_type(alloc, room),
            Kind::OpenRound => self.tuple_type(alloc, room),
            Kind::Name => self.named_type(),
            _ => self.keyword_type(),
        }
    }

    // name
    fn named_type(&mut self) -> Result<Type, ParseFault>
        ensures { ParseAgrees (λ t. t) result self.new (reads.named_type self.old) }
    {
        let name = self.name()?;
        let form = TypeForm::Named(name.text);
        Ok(Type {
            at: name.at,
            end: name.end,
            form,
        })
    }

    // "unit" | "bool" | "int" | "text" | "path"
    fn keyword_type(&mut self) -> Result<Type, ParseFault>
        ensures { ParseAgrees (λ t. t) result self.new (reads.keyword_type self.old) }
    {
        let Some(plain) = plain_of(self.peek()) else {
            return Err(ParseFault::Expected);
        };
        let at = self.start();
        self.pass();
        let end = self.past();
        let form = TypeForm::Plain(plain);
        Ok(Type { at, end, form })
    }

    // A type inside a bracket.
    #[cycle(typing)]
    fn inner_type(&mut self, alloc: Global, room: u32) -> Result<Type, ParseFault>
        requires { 0 < room }
        ensures { ParseAgrees (λ t. t) result self.new (reads.inner_type room self.old) }
    {
        self.written_type(alloc, room - 1)
    }

    // "[" type "]"
    #[cycle(typing)]
    fn list_type(&mut self, alloc: Global, room: u32) -> Result<Type, ParseFault>
        ensures { ParseAgrees (λ t. t) result self.new (reads.list_type room (reads.inner_type room) self.old) }
    {
        let at = self.start();
        self.open(Kind::OpenSquare, room)?;
        let item = Box::new(alloc, self.inner_type(alloc, room)?)?;
        self.want(Kind::CloseSquare)?;
        let end = self.past();
        let form = TypeForm::List(item);
        Ok(Type { at, end, form })
    }

    // "(" type "," type { "," type } ")"
    #[cycle(typing)]
    fn tuple_type(&mut self, alloc: Global, room: u32) -> Result<Type, ParseFault>
        ensures { ParseAgrees (λ t. t) result self.new (reads.tuple_type room (reads.inner_type room) self.old) }
    {
        let at = self.start();
        self.open(Kind::OpenRound, room)?;
        let first = self.inner_type(alloc, room)?;
        self.want(Kind::Comma)?;
        let second = self.inner_type(alloc, room)?;
        let items = self.more_types(alloc, room, first, second)?;
        self.want(Kind::CloseRound)?;
        let end = self.past();
        let form = TypeForm::Tuple(items);
        Ok(Type { at, end, form })
    }

    // { "," type }, behind two
    #[cycle(typing)]
    #[tactic(auto, using(crate::proofs::Turning::goes_on, crate::proofs::Turning::stops, crate::proofs::Turning::fails, crate::proofs::Turning::runs_out))]
    fn more_types(
        &mut self,
        alloc: Global,
        room: u32,
        first: Type,
        second: Type,
    ) -> Result<Vec<Type>, ParseFault>
        requires { 0 < room }
        ensures { ParseAgrees (λ v. v.items) result self.new (all_behind (first ∷ second ∷ []) (reads.another_type room (reads.inner_type room)) self.old) }
    {
        let mut items = Vec::new(alloc);
        items.push(first)?;
        items.push(second)?;
        for _ in 0..self.left() {
            let Some(item) = self.another_type(alloc, room)? else {
                return Ok(items);
            };
            items.push(item)?;
        }
        Ok(items)
    }

    // "," type
    #[cycle(typing)]
    fn another_type(&mut self, alloc: Global, room: u32) -> Result<Option<Type>, ParseFault>
        requires { 0 < room }
        ensures { Turns result self.old self.new (reads.another_type room (reads.inner_type room) self.old) }
    {
        if !is(self.peek(), Kind::Comma) {
            return Ok(None);
        }
        self.pass();
        let item = self.inner_type(alloc, room)?;
        Ok(Some(item))
    }
}

// The type that is this keyword.
fn plain_of(kind: Kind) -> Option<PlainType>
    ensures { result ≡ reads.plain_at kind }
{
    match kind {
        Kind::UnitWord => Some(PlainType::Unit),
        Kind::BoolWord => Some(PlainType::Bool),
        Kind::IntWord => Some(PlainType::Int),
        Kind::TextWord => Some(PlainType::Text),
        Kind::Path => Some(PlainType::Path),
        _ => None,
    }
}
