// One row: what is printed of a call.
ghost use Rattle.std.specs.Prelude.{◌≡◌, ◌++◌, IfOk, OnOk};
ghost use Rattle.rows.specs.Prelude.{ending_of, row_of, status_line};

use example_texts::RowText;
use ruby_base::{NoMemory, Text};
use std::alloc::Global;

// What comes after a text.
fn ending(text: &[u8]) -> &'static [u8]
    ensures { result.now ≡ ending_of text.now }
{
    match text.last() {
        None | Some(b'\n') => b"",
        Some(_) => b"\nwithout a line feed\n",
    }
}

fn add_status(alloc: Global, row: &mut Text, status: u8) -> Result<(), NoMemory>
    ensures { OnOk result (row.new ≡ row.old ++ status_line status) }
{
    let line = format!(in alloc; "status {status}\n")?;
    row.append(line.as_bytes())
}

/// What is printed of a call, by its text and its status.
pub(crate) fn row_of(alloc: Global, call: &str, text: &[u8], status: u8) -> Result<Text, NoMemory>
    ensures { IfOk result (λ row. row ≡ row_of call.now text.now status) }
{
    let mut row = Text::copied(alloc, b"== ")?;
    row.append(call.as_bytes())?;
    row.append(b"\n")?;
    row.append(text)?;
    row.append(ending(text))?;
    add_status(alloc, &mut row, status)?;
    Ok(row)
}

/// Adds a row, if there was memory for it.
pub(crate) fn add(rows: &mut RowText, row: Result<Text, NoMemory>) {
    match row {
        Ok(row) => rows.add_bytes(&row),
        Err(NoMemory) => rows.lose(),
    }
}
