// Words, with the digits of addresses, and lines that go to a sink while they are made.
ghost use Rattle.std.specs.Prelude.{◌≡◌, ◌+◌, ◌≤◌, [], ◌∷◌, ◌++◌, length, decimal, map, ◌<◌, drop, false};
ghost use Rattle.std.specs.Fmt.{digit_glyph, digits};
ghost use Rattle.trace_print.specs.Adding.{IsAdded};
ghost use Rattle.trace_print.specs.Pieces.{IsLinePut};
ghost use Rattle.trace_print.specs.Lines.{hexadecimal, line_of, numbered, place, spaced};
ghost use Rattle.trace_print.specs.Words.{word_bytes};

use arrayvec::ArrayVec;
use itoa::Buffer;
use ruby_outside::{Sink, put};

// The most bytes of a piece.
const MOST: usize = 1024;

/// The bytes of a line that aren't put yet.
pub(crate) type Held = ArrayVec<u8, MOST>;

fn hold(line: &mut Held, bytes: &[u8])
    requires { length line.old.items + length bytes.now ≤ 1024 }
    ensures { line.new.items ≡ line.old.items ++ bytes.now }
{
    line.try_extend_from_slice(bytes).unwrap();
}

/// Adds bytes to a line, and puts what is a full piece where more follows it. It answers `false`, and puts nothing further, as soon as a
/// piece isn't written whole.
pub(crate) fn add<S: Sink>(sink: &mut S, line: &mut Held, bytes: &[u8]) -> bool
    ensures { IsAdded S.writes sink.old line.old.items bytes.now result sink.new line.new.items }
{
    let mut left = bytes;
    while line.remaining_capacity() < left.len() {
        let (front, rest) = left.split_at(line.remaining_capacity());
        hold(line, front);
        if !put(sink, line.as_slice()) {
            return false;
        }
        line.clear();
        left = rest;
    }
    hold(line, left);
    true
}

/// Ends a line with its line feed, puts what isn't put yet, and answers whether that was written whole.
pub(crate) fn end_line<S: Sink>(sink: &mut S, line: &mut Held) -> bool
    ensures { IsLinePut S.writes sink.old (line.old.items ++ 10 ∷ []) result sink.new }
{
    if !add(sink, line, b"\n") {
        return false;
    }
    put(sink, line.as_slice())
}

/// A word of a line.
#[derive(Clone, Copy)]
pub enum Word<'a> {
    Bytes(&'a [u8]),
    /// In decimal digits.
    Number(u64),
    /// In hexadecimal digits after `0x`.
    Address(u64),
    /// A name and a number right after it.
    Numbered(&'a [u8], u64),
    /// A place in a file: its name, its line and its column, with colons between them.
    Place(&'a [u8], u32, u32),
}

fn add_number<S: Sink>(sink: &mut S, line: &mut Held, number: u64) -> bool
    ensures { IsAdded S.writes sink.old line.old.items (decimal number) result sink.new
        line.new.items }
{
    add(sink, line, Buffer::new().format(number).as_bytes())
}

fn add_address<S: Sink>(sink: &mut S, line: &mut Held, address: u64) -> bool
    ensures { IsAdded S.writes sink.old line.old.items (hexadecimal address) result sink.new
        line.new.items }
{
    let mut buffer = [0; MOST_DIGITS];
    let start = write_digits(address, &mut buffer);
    if !add(sink, line, b"0x") {
        return false;
    }
    add(sink, line, &buffer[start..])
}

fn add_numbered<S: Sink>(sink: &mut S, line: &mut Held, name: &[u8], number: u64) -> bool
    ensures { IsAdded S.writes sink.old line.old.items (numbered name.now number) result sink.new
        line.new.items }
{
    if !add(sink, line, name) {
        return false;
    }
    add_number(sink, line, number)
}

// A number after a colon.
fn add_part<S: Sink>(sink: &mut S, line: &mut Held, number: u32) -> bool
    ensures { IsAdded S.writes sink.old line.old.items (58 ∷ decimal number) result sink.new
        line.new.items }
{
    if !add(sink, line, b":") {
        return false;
    }
    add_number(sink, line, u64::from(number))
}

fn add_place<S: Sink>(sink: &mut S, line: &mut Held, file: &[u8], at_line: u32, column: u32) -> bool
    ensures { IsAdded S.writes sink.old line.old.items (place file.now at_line column) result
        sink.new line.new.items }
{
    if !add(sink, line, file) {
        return false;
    }
    if !add_part(sink, line, at_line) {
        return false;
    }
    add_part(sink, line, column)
}

fn add_word<S: Sink>(sink: &mut S, line: &mut Held, word: &Word<'_>) -> bool
    ensures { IsAdded S.writes sink.old line.old.items (word_bytes word.now) result sink.new
        line.new.items }
{
    match *word {
        Word::Bytes(bytes) => add(sink, line, bytes),
        Word::Number(number) => add_number(sink, line, number),
        Word::Address(address) => add_address(sink, line, address),
        Word::Numbered(name, number) => add_numbered(sink, line, name, number),
        Word::Place(file, at_line, column) => add_place(sink, line, file, at_line, column),
    }
}

/// Adds a word after a space.
pub(crate) fn add_spaced<S: Sink>(sink: &mut S, line: &mut Held, word: &Word<'_>) -> bool
    ensures { IsAdded S.writes sink.old line.old.items (32 ∷ word_bytes word.now) result sink.new
        line.new.items }
{
    if !add(sink, line, b" ") {
        return false;
    }
    add_word(sink, line, word)
}

/// Adds words, each after a space.
pub(crate) fn add_words<S: Sink>(sink: &mut S, line: &mut Held, words: &[Word<'_>]) -> bool
    ensures { IsAdded S.writes sink.old line.old.items (spaced (map word_bytes words.now)) result
        sink.new line.new.items }
{
    for word in words {
        if !add_spaced(sink, line, word) {
            return false;
        }
    }
    true
}

/// Adds a word, and then others, each after a space.
pub(crate) fn begin_line<S: Sink>(
    sink: &mut S,
    line: &mut Held,
    first: &[u8],
    others: &[Word<'_>],
) -> bool
    ensures { IsAdded S.writes sink.old line.old.items
        (first.now ++ spaced (map word_bytes others.now)) result sink.new line.new.items }
{
    if !add(sink, line, first) {
        return false;
    }
    add_words(sink, line, others)
}

/// Writes a line of words, separated by single spaces, and answers whether it was written whole. Where it wasn't, a beginning of it
/// was. It takes no memory.
pub fn write_line<S: Sink>(sink: &mut S, first: &[u8], others: &[Word<'_>]) -> bool
    ensures { IsLinePut S.writes sink.old (line_of (first.now ∷ map word_bytes others.now)) result
        sink.new }
{
    let mut line = ArrayVec::new();
    if !begin_line(sink, &mut line, first, others) {
        return false;
    }
    end_line(sink, &mut line)
}

/// The most digits of a number.
pub(crate) const MOST_DIGITS: usize = 16;

fn digit(value: u8) -> u8
    requires { value < 16 }
    ensures { result ≡ digit_glyph false value }
{
    if value < 10 {
        b'0' + value
    } else {
        b'a' - 10 + value
    }
}

/// Writes a number's hexadecimal digits so that they end where the buffer does, and answers where they begin.
pub(crate) fn write_digits(number: u64, buffer: &mut [u8; MOST_DIGITS]) -> usize
    ensures within { result ≤ 16 }
    ensures written { drop result buffer.new ≡ digits 16 false number }
{
    let mut left = number;
    let mut at = MOST_DIGITS;
    while left >= 16 {
        at -= 1;
        buffer[at] = digit((left % 16) as u8);
        left /= 16;
    }
    at -= 1;
    buffer[at] = digit(left as u8);
    at
}
