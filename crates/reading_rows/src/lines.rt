// The lines of the file of texts.
use crate::forms::{Form, Reading, reading_named};
use crate::texts::add_text;
use crate::tokens::add_place;
use example_texts::RowText;

fn number(word: Option<&str>) -> u32 {
    word.unwrap_or("").parse::<u32>().unwrap_or(0)
}

// What a line says is read, and the text as it is written there.
fn reading_of(line: &str) -> (Option<Reading>, &str) {
    let mut words = line.splitn(4, ' ');
    let form = words.next().unwrap_or("");
    let at = number(words.next());
    let depth = number(words.next());
    (reading_named(form, at, depth), words.next().unwrap_or(""))
}

fn digit(byte: u8) -> u8 {
    match byte {
        b'0'..=b'9' => byte - b'0',
        b'a'..=b'f' => byte - b'a' + 10,
        _ => 0,
    }
}

// Adds the byte that two digits are, and what comes after them.
fn add_escaped(text: &mut RowText, piece: &[u8]) {
    match piece {
        [high, low, rest @ ..] => {
            text.add_bytes(&[digit(*high).wrapping_mul(16) | digit(*low)]);
            text.add_bytes(rest);
        }
        _ => text.lose(),
    }
}

// The text that is written so.
fn text_of(rows: &RowText, written: &str) -> RowText {
    let mut text = RowText::new(rows.alloc());
    let mut pieces = written.split('\\');
    text.add(pieces.next().unwrap_or(""));
    for piece in pieces {
        add_escaped(&mut text, piece.as_bytes());
    }
    text
}

fn add_read(rows: &mut RowText, reading: Reading, text: &[u8]) {
    match reading.form {
        Form::Place => add_place(rows, reading.at, text),
        _ => add_text(rows, reading, text),
    }
}

/// Adds a line, and what is read in its text.
pub(crate) fn add_line(rows: &mut RowText, line: &str) {
    rows.add(line);
    rows.add(" => ");
    let (reading, written) = reading_of(line);
    match reading {
        Some(reading) => {
            let text = text_of(rows, written);
            add_read(rows, reading, text.bytes());
            drop(text);
        }
        None => rows.lose(),
    }
    rows.add("\n");
}
