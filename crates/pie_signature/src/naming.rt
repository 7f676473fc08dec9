//! The built-in functions by their names.
ghost use Rattle.std.specs.Prelude.{◌≡◌};
ghost use Rattle.pie_signature.specs.Names.{builtin_of, list_names, look_up, search_names, text_names};

use pie_value::Builtin;

/// The built-in function of a name. `path` is a keyword, and so the name of none. Rule: docs/LANGUAGE.md, "Built-in
/// functions".
pub fn builtin_named(name: &str) -> Option<Builtin>
    ensures { result ≡ builtin_of name.now }
{
    if let Some(which) = of_texts(name) {
        return Some(which);
    }
    if let Some(which) = of_searches(name) {
        return Some(which);
    }
    of_lists(name)
}

// The functions of paths and texts.
fn of_texts(name: &str) -> Option<Builtin>
    ensures { result ≡ look_up name.now text_names }
{
    match name {
        "join" => Some(Builtin::Join),
        "name" => Some(Builtin::Name),
        "parent" => Some(Builtin::Parent),
        "to_text" => Some(Builtin::ToText),
        "parse_int" => Some(Builtin::ParseInt),
        "trim" => Some(Builtin::Trim),
        "replace" => Some(Builtin::Replace),
        "split" => Some(Builtin::Split),
        "lines" => Some(Builtin::Lines),
        "join_text" => Some(Builtin::JoinText),
        "slice" => Some(Builtin::Slice),
        "sha256" => Some(Builtin::Sha256),
        _ => None,
    }
}

// The functions that look into a value.
fn of_searches(name: &str) -> Option<Builtin>
    ensures { result ≡ look_up name.now search_names }
{
    match name {
        "len" => Some(Builtin::Len),
        "find" => Some(Builtin::Find),
        "contains" => Some(Builtin::Contains),
        "starts" => Some(Builtin::Starts),
        "ends" => Some(Builtin::Ends),
        "is_null" => Some(Builtin::IsNull),
        _ => None,
    }
}

// The functions of lists, of what can be null, and of bytes.
fn of_lists(name: &str) -> Option<Builtin>
    ensures { result ≡ look_up name.now list_names }
{
    match name {
        "at" => Some(Builtin::At),
        "range" => Some(Builtin::Range),
        "reverse" => Some(Builtin::Reverse),
        "sort" => Some(Builtin::Sort),
        "flatten" => Some(Builtin::Flatten),
        "some" => Some(Builtin::Some),
        "get" => Some(Builtin::Get),
        "to_bytes" => Some(Builtin::ToBytes),
        "from_bytes" => Some(Builtin::FromBytes),
        "slice_bytes" => Some(Builtin::SliceBytes),
        _ => None,
    }
}
