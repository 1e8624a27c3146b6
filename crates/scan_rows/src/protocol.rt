// The protocols of the rows.
use crate::list::{number, part};
use controller_rows::plan_of;
use example_texts::RowText;
use ruby_base::{NoMemory, Seq, Text};
use ruby_outside::SureLibrary;
use slicc_plan::Plan;
use std::alloc::Global;

// Adds a line of a frame: where it begins with `@WORD`, what a row has for that word, so many times as it says of an action, and else what
// stands beside the word.
fn add_line(text: &mut RowText, line: &str, row: &str) {
    let Some(place) = line.strip_prefix("@") else {
        return text.add(line);
    };
    let (word, usual) = place.split_once(' ').unwrap_or((place, ""));
    let times = if word == "action" {
        number(row, "times").unwrap_or(1)
    } else {
        1
    };
    for _ in 0..times {
        text.add(part(row, word).unwrap_or(usual));
    }
}

/// Adds the text of the protocol of a row, in a frame.
pub(crate) fn add_protocol(text: &mut RowText, frame: &str, row: &str) {
    for line in frame.lines() {
        add_line(text, line, row);
        text.add("\n");
    }
}

// A library with one file, which has this text.
fn library_of(alloc: Global, name: &str, text: &[u8]) -> Result<SureLibrary, NoMemory> {
    let name = Text::copied(alloc, name.as_bytes())?;
    let text = Text::copied(alloc, text)?;
    let files = vec![in alloc; (name, text)]?;
    Ok(SureLibrary::new(alloc, Seq::of(files)))
}

/// The plan of the protocol that has this text, if it keeps all rules.
pub(crate) fn plan_by(alloc: Global, text: &[u8]) -> Result<Option<Plan>, NoMemory> {
    let name = "rows.sm";
    let mut library = library_of(alloc, name, text)?;
    let plan = plan_of(alloc, &mut library, name);
    drop(library);
    plan
}
