//! The structures of the lines of a machine's tables.
ghost use Rattle.std.specs.Prelude.{◌≡◌, cond, find, flat_map};
ghost use Rattle.std.specs.Option.{option_copied};
ghost use Rattle.slicc_plan.specs.Prelude.{is_beside_main, is_directory_entry, is_entry, is_tbe, structure_in};
ghost use Rattle.declared_types.specs.Lent.{declaration_of, declarations_of};
ghost use Rattle.declared_types.specs.LineSorts.{is_of_sort};

use crate::attributes::{has_attribute, is_external};
use crate::lent::Declared;
use slicc_ast::tree::Structure;

/// The sorts of lines, by the tables that hold them.
#[derive(Clone, Copy)]
pub enum LineSort {
    /// Of caches.
    Entry,
    /// Of directories.
    Directory,
    /// Of TBE tables.
    Tbe,
}

fn is_beside_main(s: &Structure) -> bool
    ensures { result ≡ is_beside_main s.now }
{
    has_attribute(&s.pairs, b"main", b"false")
}

fn is_entry(s: &Structure) -> bool
    ensures { result ≡ is_entry s.now }
{
    has_attribute(&s.pairs, b"interface", b"AbstractCacheEntry") && !is_beside_main(s)
}

fn is_directory_entry(s: &Structure) -> bool
    ensures { result ≡ is_directory_entry s.now }
{
    is_beside_main(s) || has_attribute(&s.pairs, b"interface", b"AbstractEntry")
}

fn is_of_sort(sort: LineSort, s: &Structure) -> bool
    ensures { result ≡ is_of_sort sort s.now }
{
    match sort {
        LineSort::Entry => is_entry(s),
        LineSort::Directory => is_directory_entry(s),
        LineSort::Tbe => s.name.text.as_slice() == b"TBE".as_slice(),
    }
}

// The structure that a declaration declares, where it isn't external and is of this sort.
fn line_in<'a>(sort: LineSort, d: Declared<'a>) -> Option<&'a Structure>
    ensures { option_copied result ≡ find (is_of_sort sort) (structure_in (declaration_of d.entry)) }
{
    match d {
        Declared::Structure(s) => {
            if !is_external(s) && is_of_sort(sort, s) {
                Some(s)
            } else {
                None
            }
        }
        _ => None,
    }
}

/// The first structure of lines of this sort among what a machine declares, which counts where there are several.
pub fn first_line<'a>(sort: LineSort, declarations: &[Declared<'a>]) -> Option<&'a Structure>
    ensures { option_copied result ≡ find (is_of_sort sort) (flat_map structure_in (declarations_of declarations.now)) }
{
    for d in declarations {
        if let Some(s) = line_in(sort, *d) {
            return Some(s);
        }
    }
    None
}
