//! Kinds of types that arguments may have.
ghost use Rattle.std.specs.Prelude.{◌≡◌};
ghost use Rattle.pie_value.specs.TypeTrees.{ty_tree};
ghost use Rattle.pie_signature.specs.Wanted.{has_order, is_bytes, is_int, is_list, is_measurable, is_nullable, is_path, is_printable};
ghost use Rattle.pie_signature.specs.Wanted.{is_text, list_where};

use pie_value::Ty;

// The type of texts.
pub fn is_text(ty: &Ty) -> bool
    ensures { result ≡ is_text (ty_tree ty.now) }
{
    match ty {
        Ty::Text => true,
        _ => false,
    }
}

// The type of integers.
pub fn is_int(ty: &Ty) -> bool
    ensures { result ≡ is_int (ty_tree ty.now) }
{
    match ty {
        Ty::Int => true,
        _ => false,
    }
}

// The type of paths.
pub fn is_path(ty: &Ty) -> bool
    ensures { result ≡ is_path (ty_tree ty.now) }
{
    match ty {
        Ty::Path => true,
        _ => false,
    }
}

// The type of bytes.
pub fn is_bytes(ty: &Ty) -> bool
    ensures { result ≡ is_bytes (ty_tree ty.now) }
{
    match ty {
        Ty::Bytes => true,
        _ => false,
    }
}

// Types of lists.
pub fn is_list(ty: &Ty) -> bool
    ensures { result ≡ is_list (ty_tree ty.now) }
{
    match ty {
        Ty::List(_) => true,
        _ => false,
    }
}

// Types of what can be null.
pub fn is_nullable(ty: &Ty) -> bool
    ensures { result ≡ is_nullable (ty_tree ty.now) }
{
    match ty {
        Ty::Nullable(_) => true,
        _ => false,
    }
}

// Types of what can be shown as a text.
pub fn is_printable(ty: &Ty) -> bool
    ensures { result ≡ is_printable (ty_tree ty.now) }
{
    match ty {
        Ty::Int | Ty::Bool | Ty::Path => true,
        _ => false,
    }
}

// Types of what has a length.
pub fn is_measurable(ty: &Ty) -> bool
    ensures { result ≡ is_measurable (ty_tree ty.now) }
{
    match ty {
        Ty::Text | Ty::Bytes | Ty::List(_) => true,
        _ => false,
    }
}

// Types of what is compared by size.
pub fn has_order(ty: &Ty) -> bool
    ensures { result ≡ has_order (ty_tree ty.now) }
{
    match ty {
        Ty::Int | Ty::Text | Ty::Path => true,
        _ => false,
    }
}

// The type of lists of texts.
pub fn holds_texts(ty: &Ty) -> bool
    ensures { result ≡ list_where is_text (ty_tree ty.now) }
{
    match ty {
        Ty::List(part) => is_text(part.get()),
        _ => false,
    }
}

// Types of lists of lists.
pub fn holds_lists(ty: &Ty) -> bool
    ensures { result ≡ list_where is_list (ty_tree ty.now) }
{
    match ty {
        Ty::List(part) => is_list(part.get()),
        _ => false,
    }
}

// Types of lists that can be sorted.
pub fn holds_ordered(ty: &Ty) -> bool
    ensures { result ≡ list_where has_order (ty_tree ty.now) }
{
    match ty {
        Ty::List(part) => has_order(part.get()),
        _ => false,
    }
}
