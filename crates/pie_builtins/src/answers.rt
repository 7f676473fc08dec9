//! The built-in functions by their names.
ghost use Rattle.std.specs.Prelude.{IfOk};
ghost use Rattle.pie_value.specs.Values.{tree_of, trees_of};
ghost use Rattle.pie_value.specs.Builtins.{answer_of};
ghost use Rattle.pie_builtins.specs.Agreement.{AnswerAgrees};
ghost use Rattle.pie_builtins.specs.Laws.{LawOf};

use crate::{
    BuiltinFault, bytes, finding, joins, lists, nulls, numbers, paths, pieces, ranges, segments,
    sorts, texts, trims,
};
use pie_value::{Builtin, Value};
use std::alloc::Global;

/// What a built-in function answers to these arguments.
/// Rule: docs/LANGUAGE.md, "Built-in functions".
pub fn apply(alloc: Global, which: Builtin, args: &[Value]) -> Result<Value, BuiltinFault>
    ensures answer { AnswerAgrees result (answer_of which (trees_of args.now)) }
    ensures law { IfOk result (λ value. LawOf which (trees_of args.now) (tree_of value)) }
{
    match which {
        Builtin::Path => paths::path(alloc, args),
        Builtin::Join => paths::join(alloc, args),
        Builtin::Parent => paths::parent(alloc, args),
        Builtin::ToText => numbers::to_text(alloc, args),
        Builtin::Len => numbers::len(args),
        Builtin::Trim => trims::trim(alloc, args),
        Builtin::Find => finding::find(args),
        Builtin::Contains => finding::contains(args),
        Builtin::Starts => finding::starts(args),
        Builtin::Ends => finding::ends(args),
        Builtin::Slice => texts::slice(alloc, args),
        Builtin::Sha256 => texts::sha256(alloc, args),
        Builtin::At => lists::at(args),
        Builtin::Range => ranges::range(alloc, args),
        Builtin::Reverse => lists::reverse(alloc, args),
        Builtin::Some => nulls::some(args),
        Builtin::Get => nulls::get(args),
        Builtin::IsNull => nulls::is_null(args),
        Builtin::ToBytes => bytes::to_bytes(alloc, args),
        Builtin::FromBytes => bytes::from_bytes(alloc, args),
        Builtin::SliceBytes => bytes::slice_bytes(alloc, args),
        Builtin::Name => segments::name(alloc, args),
        Builtin::Replace => pieces::replace(alloc, args),
        Builtin::Split => pieces::split(alloc, args),
        Builtin::Lines => pieces::lines(alloc, args),
        Builtin::JoinText => joins::join_text(alloc, args),
        Builtin::Flatten => joins::flatten(alloc, args),
        Builtin::ParseInt => numbers::parse_int(args),
        Builtin::Sort => sorts::sort(alloc, args),
    }
}
