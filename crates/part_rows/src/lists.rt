// Lists, added to the text of rows.
use example_texts::RowText;
use ruby_base::Text;
use std::fmt;

/// Adds values as they are displayed, each after a word.
pub(crate) fn show_all<T: fmt::Display>(rows: &mut RowText, before: &str, values: &[T]) {
    for value in values {
        rows.show(before, value);
    }
}

/// Adds names, each after a blank.
pub(crate) fn add_names(rows: &mut RowText, names: &[Text]) {
    for name in names {
        rows.add(" ");
        rows.add_bytes(name);
    }
}
