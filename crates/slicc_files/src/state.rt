//! How files are named, and how far the gathering has come.
ghost use Rattle.std.specs.Prelude.{◌≡◌, ◌<◌, ◌≤◌, ◌++◌, ◌∷◌, [], length, reverse, OnOk, IfOk, IsUtf8};
ghost use Rattle.std.specs.List.{flat_map, suffix_len};
ghost use Rattle.slicc_files.specs.Gathering.{is_seen, source_of, wanted_by, wanted_of};
ghost use Rattle.slicc_files.specs.Prelude.{folder_of, is_no_slash};

use crate::gathered::Source;
use ruby_base::{NoMemory, Seq, Text};
use slicc_ast::tree::{Item, Tree};
use std::alloc::Global;

fn is_no_slash(byte: u8) -> bool
    ensures { result ≡ is_no_slash byte }
{
    byte != b'/'
}

// How many bytes there are after the last slash.
fn last_name_len(name: &[u8]) -> usize
    ensures value { result ≡ suffix_len is_no_slash name.now }
    ensures within { result ≤ length name.now }
{
    name.iter()
        .rev()
        .take_while(|byte| is_no_slash(**byte))
        .count()
}

/// The folder part of a file's name, up to its last slash.
pub fn folder(name: &[u8]) -> &[u8]
    ensures value { result.now ≡ folder_of name.now }
    ensures text { IsUtf8 name.now → IsUtf8 result.now }
{
    let size = name.len() - last_name_len(name);
    let (front, _) = name.split_at(size);
    front
}

/// The name of a file that is included by this text.
fn included(alloc: Global, folder: &[u8], text: &[u8]) -> Result<Text, NoMemory>
    ensures { IfOk result (λ name. name ≡ folder.now ++ text.now) }
{
    let mut name = Text::copied(alloc, folder)?;
    name.append(text)?;
    Ok(name)
}

// gem5's file of interfaces, which is never read.
const INTERFACES: &str = "RubySlicc_interfaces.slicc";

/// A file that is wanted, and where its include line is: the number of the file that has it, in the order of reading, and
/// the offset of the word `include` in it. Those of the protocol's own file are 0.
#[derive(Drop)]
pub struct Wanted {
    pub name: Text,
    pub file: u16,
    pub offset: u32,
}

/// What was read so far, and what is still wanted, the next one last.
#[derive(Drop)]
pub struct State {
    pub sources: Seq<Source>,
    pub trees: Seq<Tree>,
    pub left: Vec<Wanted>,
}

/// Whether a file of this name was read.
pub fn is_seen(name: &[u8], sources: &[Source]) -> bool
    ensures { result ≡ is_seen name.now sources.now }
{
    sources.iter().any(|source| source.name.as_slice() == name)
}

// Adds the file that an item wants, if it wants one.
fn add_item(
    alloc: Global,
    folder: &[u8],
    file: u16,
    item: &Item,
    left: &mut Vec<Wanted>,
) -> Result<(), NoMemory>
    ensures { OnOk result (left.new.items ≡ left.old.items ++ wanted_by folder.now file item.now) }
{
    let Item::Include(text, span) = item else {
        return Ok(());
    };
    if text.as_slice() == INTERFACES.as_bytes() {
        return Ok(());
    }
    let name = included(alloc, folder, text.as_slice())?;
    left.push(Wanted {
        name,
        file,
        offset: span.start,
    })?;
    Ok(())
}

// Adds the files that items want, that of the first item last.
fn add_items(
    alloc: Global,
    folder: &[u8],
    file: u16,
    items: &[Item],
    left: &mut Vec<Wanted>,
) -> Result<(), NoMemory>
    ensures { OnOk result (left.new.items
        ≡ left.old.items ++ reverse (flat_map (wanted_by folder.now file) items.now)) }
{
    let mut count = items.len();
    while 0 < count {
        count -= 1;
        add_item(alloc, folder, file, &items[count], left)?;
    }
    Ok(())
}

impl State {
    /// Takes in a file that was read with its tree, and the files that it wants.
    pub fn add(
        &mut self,
        alloc: Global,
        folder: &[u8],
        source: Source,
        tree: Tree,
    ) -> Result<(), NoMemory>
        requires { length self.old.sources < 64 }
        ensures sources { OnOk result (self.new.sources ≡ self.old.sources ++ source ∷ []) }
        ensures trees { OnOk result (self.new.trees ≡ self.old.trees ++ tree ∷ []) }
        ensures left { OnOk result (self.new.left.items
            ≡ self.old.left.items ++ reverse (wanted_of folder.now (length self.old.sources) tree)) }
    {
        let file = self.sources.len() as u16;
        add_items(alloc, folder, file, tree.items.as_slice(), &mut self.left)?;
        self.sources.push(source)?;
        self.trees.push(tree)
    }
}
