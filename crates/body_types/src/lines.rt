use slicc_ast::tree::{Machine, Structure};

/// A machine with the structures of its tables' lines, where it has them.
#[derive(Clone, Copy)]
pub struct Lines<'a> {
    pub machine: &'a Machine,
    /// Of the lines of caches.
    pub entry: Option<&'a Structure>,
    /// Of the lines of directories.
    pub directory: Option<&'a Structure>,
    /// Of the lines of TBE tables.
    pub tbe: Option<&'a Structure>,
}
