//! Files that are made for examples of calls, since they are too long to be kept: a list names files of a library, and says which of
//! them are filled up with spaces and which have a line many times.
use crate::RowText;
use ruby_base::{NoMemory, Seq, Text};
use ruby_outside::{Got, Library};
use std::alloc::Global;

// The most bytes that each file of a library may have.
const LIMIT: u64 = 1_048_576;

/// The number that a word says, or 0.
pub fn number(word: &str) -> u64 {
    word.parse::<u64>().unwrap_or(0)
}

// Adds so many lines, each with a number from 0 on between these.
fn add_lines(made: &mut RowText, before: &str, after: &str, count: u64) {
    for number in 0..count {
        made.show(before, &number);
        made.add(after);
        made.add("\n");
    }
}

// Adds a text in which a line with an `@` is there so many times, with the numbers from 0 in place of that.
fn add_repeated(made: &mut RowText, text: &[u8], count: u64) {
    for line in str::from_utf8(text).unwrap_or("").lines() {
        match line.split_once('@') {
            Some((before, after)) => add_lines(made, before, after, count),
            None => {
                made.add(line);
                made.add("\n");
            }
        }
    }
}

// A file of a list: its name, and what is made of it.
#[derive(Clone, Copy)]
struct File<'a> {
    name: &'a str,
    // How many bytes it has at least, spaces after it counted.
    length: usize,
    // How many times a line of it is there, where that isn't 0.
    count: u64,
}

fn file_of(word: &str) -> File<'_> {
    if let Some((name, count)) = word.split_once('*') {
        return File {
            name,
            length: 0,
            count: number(count),
        };
    }
    let (name, length) = word.split_once('+').unwrap_or((word, "0"));
    File {
        name,
        length: number(length) as usize,
        count: 0,
    }
}

// What is made of a file's text.
fn made_of(alloc: Global, text: &[u8], file: &File<'_>) -> RowText {
    let mut made = RowText::new(alloc);
    if file.count > 0 {
        add_repeated(&mut made, text, file.count);
    } else {
        made.add_bytes(text);
        for _ in text.len()..file.length {
            made.add(" ");
        }
    }
    made
}

fn named(alloc: Global, name: &str, text: &[u8]) -> Result<(Text, Text), NoMemory> {
    let name = Text::copied(alloc, name.as_bytes())?;
    Ok((name, Text::copied(alloc, text)?))
}

// Adds a file that is there.
fn add_file<L: Library>(
    alloc: Global,
    library: &mut L,
    file: &File<'_>,
    files: &mut Seq<(Text, Text)>,
) -> Result<(), NoMemory> {
    let Got::Bytes(text) = library.read(file.name, LIMIT) else {
        return Ok(());
    };
    let made = made_of(alloc, &text, file);
    let named = named(alloc, file.name, made.bytes());
    drop(made);
    drop(text);
    files.push(named?)
}

/// Adds the files of a list, with commas between them, by their names and bytes. Of a file `NAME+BYTES` there are so many bytes at least,
/// with spaces after its own; of a file `NAME*COUNT` a line that has an `@` is there COUNT times, with the numbers from 0 in place of
/// that. A file that isn't there is passed over.
pub fn add_files<L: Library>(
    alloc: Global,
    library: &mut L,
    list: &str,
    files: &mut Seq<(Text, Text)>,
) -> Result<(), NoMemory> {
    for word in list.split(',') {
        add_file(alloc, library, &file_of(word), files)?;
    }
    Ok(())
}
