ghost use Rattle.std.specs.Prelude.{◌≡◌};
ghost use Rattle.slicc_lex.specs.Classes.{class_of};

use crate::bytes::{is_blank, is_digit, is_letter, is_quote};

/// What a piece of a text can be by its first byte.
#[derive(Clone, Copy)]
pub enum Class {
    Blank,
    Letter,
    Digit,
    Quote,
    Slash,
    /// A sign begins with the byte, or nothing does.
    Other,
}

pub fn class_of(byte: u8) -> Class
    ensures { result ≡ class_of byte }
{
    if is_blank(byte) {
        Class::Blank
    } else if is_letter(byte) {
        Class::Letter
    } else if is_digit(byte) {
        Class::Digit
    } else if is_quote(byte) {
        Class::Quote
    } else if byte == b'/' {
        Class::Slash
    } else {
        Class::Other
    }
}
