//! The text of rows of examples, which is made piece by piece.
use ruby_base::Text;
use std::alloc::Global;
use std::fmt;

/// A text that is made piece by piece. No piece is answered, so that whoever makes a text has no way out at each of them: where memory
/// runs out, or something can't be told, the text isn't whole from then on.
#[derive(Drop)]
pub struct RowText {
    alloc: Global,
    bytes: Text,
    is_whole: bool,
}

impl RowText {
    /// Nothing yet.
    pub fn new(alloc: Global) -> RowText {
        RowText {
            alloc,
            bytes: Text::new(alloc),
            is_whole: true,
        }
    }

    /// The allocator of the text.
    pub fn alloc(&self) -> Global {
        self.alloc
    }

    /// Tells that something isn't there that should be.
    pub fn lose(&mut self) {
        self.is_whole = false;
    }

    /// Adds bytes.
    pub fn add_bytes(&mut self, bytes: &[u8]) {
        if self.bytes.append(bytes).is_err() {
            self.is_whole = false;
        }
    }

    /// Adds a word.
    pub fn add(&mut self, word: &str) {
        self.add_bytes(word.as_bytes());
    }

    /// Adds a word and a value as it is displayed.
    pub fn show<T: fmt::Display>(&mut self, before: &str, value: &T) {
        match format!(in self.alloc; "{before}{value}") {
            Ok(text) => self.add(text.as_str()),
            Err(_) => self.is_whole = false,
        }
    }

    /// Adds a word and a value as `Debug` has it.
    pub fn debug<T: fmt::Debug>(&mut self, before: &str, value: &T) {
        match format!(in self.alloc; "{before}{value:?}") {
            Ok(text) => self.add(text.as_str()),
            Err(_) => self.is_whole = false,
        }
    }

    /// What is there of the text.
    pub fn bytes(&self) -> &[u8] {
        self.bytes.as_slice()
    }

    /// Whether nothing was lost.
    pub fn is_whole(&self) -> bool {
        self.is_whole
    }
}
