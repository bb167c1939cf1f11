//! Operators and separators.

ghost use Rattle.std.specs.Prelude.{◌≡◌, ◌+◌, ◌≤◌, length};
ghost use Rattle.c_lexer.specs.Punct.{is_punct_of_one, is_punct_of_two, is_punct_of_three, punct_length};

fn is_punct_of_one(a: u8) -> bool
    ensures { result ≡ is_punct_of_one a }
{
    b"[](){}.&*+-~!/%<>^|?:;=,#".contains(&a)
}

fn is_punct_of_two(a: u8, b: u8) -> bool
    ensures { result ≡ is_punct_of_two a b }
{
    if b == b'=' {
        b"<>=!*/%+-&^|".contains(&a)
    } else if a == b {
        b"+-<>&|".contains(&a)
    } else {
        a == b'-' && b == b'>'
    }
}

fn is_punct_of_three(a: u8, b: u8, c: u8) -> bool
    ensures { result ≡ is_punct_of_three a b c }
{
    a == b && ((a == b'.' && c == b'.') || ((a == b'<' || a == b'>') && c == b'='))
}

/// The length of the longest operator or separator that begins with `a`, before the rest; 0 where
/// there is none.
pub fn punct_length(a: u8, rest: &[u8]) -> usize
    ensures value { result ≡ punct_length a rest.now }
    ensures within { result ≤ length rest.now + 1 }
{
    match *rest {
        [b, c, ..] if is_punct_of_three(a, b, c) => 3,
        [b, ..] if is_punct_of_two(a, b) => 2,
        _ if is_punct_of_one(a) => 1,
        _ => 0,
    }
}
