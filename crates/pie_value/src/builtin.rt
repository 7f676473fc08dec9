//! The functions that are built into the language.

/// A built-in function. Rule: docs/LANGUAGE.md, "Built-in functions".
#[derive(Clone, Copy, Debug, PartialEq, Eq)]
pub enum Builtin {
    /// `path(text) -> path`: the path that the text spells.
    Path,
    /// `join(path, text) -> path`: the path, a slash and the text.
    Join,
    /// `name(path) -> text`: the last segment.
    Name,
    /// `parent(path) -> path?`: the path without its last segment, null for one segment.
    Parent,
    /// `to_text(T) -> text` of an integer, a truth value or a path.
    ToText,
    /// `parse_int(text) -> int?`: null where the text is no integer of 64 bits.
    ParseInt,
    /// `len(T) -> int`: the bytes of a text or of bytes, the items of a list.
    Len,
    /// `trim(text) -> text`: without spaces, tabs, newlines and carriage returns at both ends.
    Trim,
    /// `find(text, text) -> int?`: where the second first occurs in the first, in bytes from 0.
    Find,
    /// `contains(text, text) -> bool`: whether the second occurs in the first.
    Contains,
    /// `starts(text, text) -> bool`: whether the first starts with the second.
    Starts,
    /// `ends(text, text) -> bool`: whether the first ends with the second.
    Ends,
    /// `replace(text, text, text) -> text`: the occurrences of the second become the third.
    Replace,
    /// `split(text, text) -> [text]`: the pieces between the occurrences of the second.
    Split,
    /// `lines(text) -> [text]`: the pieces between newlines, without a last empty one.
    Lines,
    /// `join_text([text], text) -> text`: the items with the second between them.
    JoinText,
    /// `slice(text, int, int) -> text`: the bytes from the first number up to before the second.
    Slice,
    /// `sha256(text) -> text`: 64 lower-case hexadecimal digits.
    Sha256,
    /// `at([T], int) -> T`: the item, counted from 0.
    At,
    /// `range(int, int) -> [int]`: from the first up to before the second.
    Range,
    /// `reverse([T]) -> [T]`: the items backwards.
    Reverse,
    /// `sort([T]) -> [T]` of integers, texts or paths, ascending.
    Sort,
    /// `flatten([[T]]) -> [T]`: the items of the items.
    Flatten,
    /// `some(T) -> T?`: the value.
    Some,
    /// `get(T?) -> T`: the value, a fault for null.
    Get,
    /// `is_null(T?) -> bool`.
    IsNull,
    /// `to_bytes(text) -> bytes`: the bytes of the text.
    ToBytes,
    /// `from_bytes(bytes) -> text?`: null where the bytes aren't UTF-8.
    FromBytes,
    /// `slice_bytes(bytes, int, int) -> bytes`: as `slice`, at any bytes.
    SliceBytes,
}
