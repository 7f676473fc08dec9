//! Types as they are written.
ghost use Rattle.std.specs.Prelude.{◌≡◌};

use pie_base::Text;
use std::marker::Model;

/// A type and the bytes that it takes, from `at` up to `end`. Contracts see a plain tree.
#[cycle(types)]
#[derive(Drop)]
pub struct Type {
    pub at: usize,
    pub end: usize,
    pub form: TypeForm,
}

/// What a type is.
#[cycle(types)]
#[derive(Drop)]
pub enum TypeForm {
    /// `unit`, `bool`, `int`, `text` or `path`
    Plain(PlainType),
    /// A name.
    Named(Text),
    /// `[T]`
    List(Box<Type>),
    /// `(T, T)`, two items or more.
    Tuple(Vec<Type>),
    /// `T?`
    Nullable(Box<Type>),
}

/// A type that is a keyword.
#[derive(Clone, Copy, Debug, PartialEq, Eq)]
pub enum PlainType {
    Unit,
    Bool,
    Int,
    Text,
    Path,
}

impl Model for Type {
    ghost use Rattle.std.specs.Prelude.{ℕ};
    ghost use Rattle.pie_parser.specs.PlainTypes.{TypeTree};
    ghost use Rattle.pie_parser.specs.inner.TypeCodes.{coded_type};

    ghost Value = { TypeTree };

    ghost coded = { coded_type };

    ghost use Rattle.pie_parser.specs.TypeView.{type_tree_of, type_mass};

    ghost view = { λ t. type_tree_of t.at t.end t.form };

    ghost size = { type_mass };

    ghost use Rattle.pie_parser.specs.inner.TypeFalls.{type_deep_le};

    ghost size_decreases = { λ t h. type_deep_le t.at t.end t.form };
}
