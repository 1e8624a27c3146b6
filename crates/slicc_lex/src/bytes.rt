ghost use Rattle.std.specs.Prelude.{◌≡◌, ◌≤◌, length};
ghost use Rattle.std.specs.List.{prefix_len, suffix_len};
ghost use Rattle.slicc_ast.specs.Prelude.{is_blank, is_letter, is_word_byte, is_printable};
ghost use Rattle.slicc_lex.specs.Prelude.{is_digit, is_hexadecimal, is_in_line, is_inside, is_quote};

/// Whether the byte is a space, a tab, a carriage return or a line feed.
pub fn is_blank(byte: u8) -> bool
    ensures { result ≡ is_blank byte }
{
    byte == b' ' || byte == b'\t' || byte == b'\r' || byte == b'\n'
}

/// Whether a word may begin with the byte: a letter or an underscore.
pub fn is_letter(byte: u8) -> bool
    ensures { result ≡ is_letter byte }
{
    (65 <= byte && byte <= 90) || (97 <= byte && byte <= 122) || byte == b'_'
}

/// Whether the byte is a decimal digit.
pub fn is_digit(byte: u8) -> bool
    ensures { result ≡ is_digit byte }
{
    48 <= byte && byte <= 57
}

/// Whether a string may begin with the byte.
pub fn is_quote(byte: u8) -> bool
    ensures { result ≡ is_quote byte }
{
    byte == b'"' || byte == b'\''
}

fn is_hexadecimal(byte: u8) -> bool
    ensures { result ≡ is_hexadecimal byte }
{
    is_digit(byte) || (65 <= byte && byte <= 70) || (97 <= byte && byte <= 102)
}

fn is_word_byte(byte: u8) -> bool
    ensures { result ≡ is_word_byte byte }
{
    is_letter(byte) || (48 <= byte && byte <= 57)
}

fn is_printable(byte: u8) -> bool
    ensures { result ≡ is_printable byte }
{
    32 <= byte && byte <= 126
}

fn is_in_line(byte: u8) -> bool
    ensures { result ≡ is_in_line byte }
{
    byte != b'\n'
}

fn is_inside(quote: u8, byte: u8) -> bool
    ensures { result ≡ is_inside quote byte }
{
    byte != quote && is_in_line(byte)
}

/// How many bytes of a word the bytes begin with.
pub fn word_len(bytes: &[u8]) -> usize
    ensures { result ≡ prefix_len is_word_byte bytes.now }
{
    bytes.iter().take_while(|byte| is_word_byte(**byte)).count()
}

/// How many decimal digits the bytes begin with.
pub fn digit_len(bytes: &[u8]) -> usize
    ensures { result ≡ prefix_len is_digit bytes.now }
{
    bytes.iter().take_while(|byte| is_digit(**byte)).count()
}

/// How many hexadecimal digits the bytes begin with.
pub fn hexadecimal_len(bytes: &[u8]) -> usize
    ensures { result ≡ prefix_len is_hexadecimal bytes.now }
{
    bytes
        .iter()
        .take_while(|byte| is_hexadecimal(**byte))
        .count()
}

/// How many bytes there are before the first line feed.
pub fn line_len(bytes: &[u8]) -> usize
    ensures { result ≡ prefix_len is_in_line bytes.now }
{
    bytes.iter().take_while(|byte| is_in_line(**byte)).count()
}

/// How many bytes there are before the first quote of this kind or line feed.
pub fn inside_len(quote: u8, bytes: &[u8]) -> usize
    ensures { result ≡ prefix_len (is_inside quote) bytes.now }
{
    bytes
        .iter()
        .take_while(|byte| is_inside(quote, **byte))
        .count()
}

/// How many printable bytes the bytes begin with.
pub fn printable_len(bytes: &[u8]) -> usize
    ensures { result ≡ prefix_len is_printable bytes.now }
{
    bytes.iter().take_while(|byte| is_printable(**byte)).count()
}

/// How many bytes there are after the last line feed.
pub fn last_line_len(bytes: &[u8]) -> usize
    ensures value { result ≡ suffix_len is_in_line bytes.now }
    ensures within { result ≤ length bytes.now }
{
    bytes
        .iter()
        .rev()
        .take_while(|byte| is_in_line(**byte))
        .count()
}
