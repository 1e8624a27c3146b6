//! The attributes of a declaration.
ghost use Rattle.std.specs.Prelude.{◌≡◌, filter_map, slice_get};
ghost use Rattle.std.specs.Option.{option_map};
ghost use Rattle.slicc_plan.specs.Prelude.{attribute_in, first_attribute, has_attribute, is_attribute_word, is_word, is_external};
ghost use Rattle.declared_types.specs.Attributes.{attribute_of};

use slicc_ast::tree::{Pair, PairValue, Pairs, Span, Structure};

/// An attribute's value, and the whole attribute's place.
#[derive(Clone, Copy)]
pub struct Attribute<'a> {
    pub value: &'a PairValue,
    pub place: Span,
}

/// An attribute of a name, where it is one.
pub fn attribute_in<'a>(p: &'a Pair, key: &[u8]) -> Option<Attribute<'a>>
    ensures { option_map attribute_of result ≡ attribute_in key.now p.now }
{
    match p {
        Pair::Named { name, value, span } => {
            if name.text.as_slice() == key {
                Some(Attribute {
                    value,
                    place: *span,
                })
            } else {
                None
            }
        }
        Pair::Bare(..) => None,
    }
}

fn first_among<'a>(items: &'a [Pair], key: &[u8]) -> Option<Attribute<'a>>
    ensures { option_map attribute_of result ≡ slice_get (filter_map (attribute_in key.now) items.now) 0 }
{
    for p in items {
        if let Some(a) = attribute_in(p, key) {
            return Some(a);
        }
    }
    None
}

/// The first attribute of a name, which counts where there are several.
pub fn first_attribute<'a>(pairs: &'a Pairs, key: &[u8]) -> Option<Attribute<'a>>
    ensures { option_map attribute_of result ≡ first_attribute key.now pairs.now }
{
    first_among(&pairs.items, key)
}

/// Whether a value is this word, as a name or as a string.
pub fn is_word(value: &PairValue, word: &[u8]) -> bool
    ensures { result ≡ is_word word.now value.now }
{
    match value {
        PairValue::Quoted(text) => text.as_slice() == word,
        PairValue::Number(_) => false,
        PairValue::Name(name) => name.text.as_slice() == word,
    }
}

/// Whether the first attribute of a name has this word as its value.
pub fn has_attribute(pairs: &Pairs, key: &[u8], word: &[u8]) -> bool
    ensures { result ≡ has_attribute key.now word.now pairs.now }
{
    match first_attribute(pairs, key) {
        None => false,
        Some(a) => is_word(a.value, word),
    }
}

/// Whether a structure stands for a built-in table, so that its members aren't looked at.
pub fn is_external(s: &Structure) -> bool
    ensures { result ≡ is_external s.now }
{
    has_attribute(&s.pairs, b"external", b"yes")
}
