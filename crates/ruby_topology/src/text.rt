//! Lines, words and numbers.
ghost use Rattle.std.specs.Prelude.{◌≡◌, ◌<◌, ◌≤◌, ◌∷◌, false, drop, length, IfSome, IfNone, IsTrue};
ghost use Rattle.std.specs.List.{list_all, slice_index_or};
ghost use Rattle.ruby_topology.specs.Text.{value_of};
ghost use Rattle.ruby_topology.specs.Prelude.{before_comment, is_blank, is_digit, lines_of, number_within, word_at, words_of};

/// The first line, and what follows it.
pub fn first_line(bytes: &[u8]) -> (&[u8], &[u8])
    requires { 0 < length bytes.now }
    ensures line { lines_of bytes.now ≡ result.0.now ∷ lines_of result.1.now }
    ensures shorter { length result.1.now < length bytes.now }
{
    for (i, b) in bytes.iter().enumerate() {
        if *b == b'\n' {
            return (&bytes[..i], &bytes[i + 1..]);
        }
    }
    (bytes, &[])
}

/// A line without its comment.
pub fn before_comment(line: &[u8]) -> &[u8]
    ensures { result.now ≡ before_comment line.now }
{
    for (i, b) in line.iter().enumerate() {
        if *b == b'#' {
            return &line[..i];
        }
    }
    line
}

fn is_blank(b: u8) -> bool
    ensures { result ≡ is_blank b }
{
    b == b' ' || b == b'\t'
}

// The text from its first word on.
fn from_first_word(text: &[u8]) -> &[u8]
    ensures words { words_of result.now ≡ words_of text.now }
    ensures first { 0 < length result.now → is_blank (slice_index_or result.now 0 0) ≡ false }
    ensures no_longer { length result.now ≤ length text.now }
{
    for (i, b) in text.iter().enumerate() {
        if !is_blank(*b) {
            return &text[i..];
        }
    }
    &[]
}

// The first word of a text that begins with one, and what follows it.
fn split_word(text: &[u8]) -> (&[u8], &[u8])
    requires some { 0 < length text.now }
    requires first { is_blank (slice_index_or text.now 0 0) ≡ false }
    ensures word { words_of text.now ≡ result.0.now ∷ words_of result.1.now }
    ensures shorter { length result.1.now < length text.now }
{
    for (i, b) in text.iter().enumerate() {
        if is_blank(*b) {
            return (&text[..i], &text[i..]);
        }
    }
    (text, &[])
}

// What follows the first word, from the next word on; nothing where there is no word.
fn after_word(text: &[u8]) -> &[u8]
    requires { 0 < length text.now → is_blank (slice_index_or text.now 0 0) ≡ false }
    ensures words { words_of result.now ≡ drop 1 (words_of text.now) }
    ensures first { 0 < length result.now → is_blank (slice_index_or result.now 0 0) ≡ false }
    ensures shorter { 0 < length text.now → length result.now < length text.now }
{
    if text.is_empty() {
        return text;
    }
    let (_, rest) = split_word(text);
    from_first_word(rest)
}

// The first word of a text that begins with it; no bytes where there is none.
fn first_word(text: &[u8]) -> &[u8]
    requires { 0 < length text.now → is_blank (slice_index_or text.now 0 0) ≡ false }
    ensures { result.now ≡ word_at (words_of text.now) 0 }
{
    if text.is_empty() {
        return text;
    }
    split_word(text).0
}

/// How many words a line has, its comment left out.
pub fn word_count(text: &[u8]) -> usize
    ensures { result ≡ length (words_of text.now) }
{
    let mut count = 0;
    let mut rest = from_first_word(text);
    while !rest.is_empty() {
        rest = after_word(rest);
        count += 1;
    }
    count
}

/// The word at a place counted from 0; no bytes where there is none.
pub fn word_at(text: &[u8], place: usize) -> &[u8]
    ensures { result.now ≡ word_at (words_of text.now) place }
{
    let mut rest = from_first_word(text);
    for _i in 0..place {
        rest = after_word(rest);
    }
    first_word(rest)
}

fn is_digit(b: u8) -> bool
    ensures { result ≡ is_digit b }
{
    48 <= b && b <= 57
}

fn all_digits(word: &[u8]) -> bool
    ensures { result ≡ list_all is_digit word.now }
{
    word.iter().all(|b| is_digit(*b))
}

// The value of digits, or none where it is above the greatest.
fn value_up_to(greatest: u64, digits: &[u8]) -> Option<u64>
    requires { IsTrue (list_all is_digit digits.now) }
    ensures some { IfSome result (λ n. (n ≡ value_of digits.now) × (n ≤ greatest)) }
    ensures none { IfNone result (greatest < value_of digits.now) }
{
    let mut value = 0u64;
    for b in digits {
        let next = u128::from(value) * 10 + u128::from(*b - 48);
        if u128::from(greatest) < next {
            return None;
        }
        value = next as u64;
    }
    Some(value)
}

/// The number that a word is, if it is one within the bounds.
pub fn number_within(bounds: (u64, u64), word: &[u8]) -> Option<u64>
    ensures { result ≡ number_within bounds word.now }
{
    if word.is_empty() || !all_digits(word) {
        return None;
    }
    let value = value_up_to(bounds.1, word)?;
    if value < bounds.0 {
        return None;
    }
    Some(value)
}
