// Lists of what is declared.
use example_texts::RowText;

/// Adds a word, a number and a name.
pub(crate) fn add_named(rows: &mut RowText, word: &str, number: usize, name: &[u8]) {
    rows.show(word, &number);
    rows.add(" ");
    rows.add_bytes(name);
}

/// What is declared in a list.
pub(crate) trait Declared {
    /// Adds what it declares, after a word with its number.
    fn add(&self, rows: &mut RowText, word: &str, number: usize);
}

/// Adds all of a list, in its order.
pub(crate) fn add_list<T: Declared>(rows: &mut RowText, word: &str, list: &[T]) {
    for (number, declared) in list.iter().enumerate() {
        declared.add(rows, word, number);
    }
}
