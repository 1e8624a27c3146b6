ghost use Rattle.std.specs.Prelude.{◌≡◌};
ghost use Rattle.slicc_lex.specs.Prelude.{pair_sign, single_sign};

use crate::Sign;

/// The sign of two bytes.
pub fn pair_sign(first: u8, second: u8) -> Option<Sign>
    ensures { result ≡ pair_sign first second }
{
    match (first, second) {
        (b':', b'=') => Some(Sign::Assign),
        (b'=', b'=') => Some(Sign::Equal),
        (b'!', b'=') => Some(Sign::Unequal),
        (b'<', b'=') => Some(Sign::LessOrEqual),
        (b'>', b'=') => Some(Sign::GreaterOrEqual),
        (b'&', b'&') => Some(Sign::And),
        (b'|', b'|') => Some(Sign::Or),
        _ => None,
    }
}

/// The sign of one byte.
pub fn single_sign(byte: u8) -> Option<Sign>
    ensures { result ≡ single_sign byte }
{
    match byte {
        b'{' => Some(Sign::OpenBrace),
        b'}' => Some(Sign::CloseBrace),
        b'(' => Some(Sign::OpenParenthesis),
        b')' => Some(Sign::CloseParenthesis),
        b'[' => Some(Sign::OpenBracket),
        b']' => Some(Sign::CloseBracket),
        b';' => Some(Sign::Semicolon),
        b':' => Some(Sign::Colon),
        b',' => Some(Sign::Comma),
        b'.' => Some(Sign::Dot),
        b'=' => Some(Sign::Equals),
        b'<' => Some(Sign::Less),
        b'>' => Some(Sign::Greater),
        b'+' => Some(Sign::Plus),
        b'-' => Some(Sign::Minus),
        b'*' => Some(Sign::Star),
        b'!' => Some(Sign::Not),
        _ => None,
    }
}
