use crate::tree::{Enumeration, Machine, Span, Structure};
use ruby_base::{Seq, Text};

/// A whole file: `protocol "name";`, which may be left out, and at least one item.
pub struct Tree {
    pub protocol: Option<Text>,
    pub items: Seq<Item>,
    pub span: Span,
}

impl Drop for Tree {
    fn drop(self) {
        let Tree {
            protocol: _,
            items: _,
            span: _,
        } = self;
    }
}

pub enum Item {
    /// `include "file";`
    Include(Text, Span),
    Enumeration(Enumeration),
    Structure(Structure),
    Machine(Machine),
}

impl Drop for Item {
    fn drop(self) {
        match self {
            Item::Include(_, _) => {}
            Item::Enumeration(_) => {}
            Item::Structure(_) => {}
            Item::Machine(_) => {}
        }
    }
}
