//! How far a word, digits or what parts tokens reach.
ghost use Rattle.std.specs.Prelude.{◌≡◌, ◌≤◌, length, drop};
ghost use Rattle.std.specs.List.{prefix_len};
ghost use Rattle.pie_lexer.specs.Bytes.{is_word_byte, is_digit, is_space, off_line_end, gap_len};

// How many bytes of words stand in front.
pub fn word_len(rest: &[u8]) -> usize
    ensures { result ≡ prefix_len is_word_byte rest.now }
{
    rest.iter()
        .take_while(|b| b.is_ascii_alphanumeric() || **b == b'_')
        .count()
}

// How many digits stand in front.
pub fn digits_len(rest: &[u8]) -> usize
    ensures { result ≡ prefix_len is_digit rest.now }
{
    rest.iter().take_while(|b| b.is_ascii_digit()).count()
}

// How many bytes stand in front of the first newline.
fn line_len(rest: &[u8]) -> usize
    ensures { result ≡ prefix_len off_line_end rest.now }
{
    rest.iter().take_while(|b| **b != b'\n').count()
}

// How many bytes in front part tokens: one space, or a comment up to its line's end; 0 where a token stands.
pub fn gap_at(rest: &[u8]) -> usize
    ensures { result ≡ gap_len rest.now }
{
    match rest {
        [b'/', b'/', ..] => line_len(rest),
        [b' ' | b'\t' | b'\n' | b'\r', ..] => 1,
        _ => 0,
    }
}

// The bytes from a place on.
pub fn behind(text: &str, at: usize) -> &[u8]
    requires { at ≤ length text.now }
    ensures { result.now ≡ drop at text.now }
{
    &text.as_bytes()[at..]
}
