//! What gathering a protocol's files may answer.
ghost use Rattle.std.specs.Prelude.{◌≡◌, ◌≤◌, length, IfOk};
ghost use Rattle.slicc_files.specs.Gathering.{refusal};
ghost use Rattle.slicc_lex.specs.Prelude.{line_of, column_of};

use ruby_base::{NoMemory, Seq, Text};
use slicc_ast::tree::Tree;
use slicc_lex::{Place, place_of};
use std::alloc::Global;

/// A file that was read.
#[derive(Drop)]
pub struct Source {
    pub name: Text,
    pub bytes: Text,
}

/// Where a protocol is refused: the first place at which it breaks the language, and how.
#[derive(Drop)]
pub struct Refused {
    /// The name of the file.
    pub file: Text,
    /// The line in it, counted from 1.
    pub line: u32,
    /// The column in that line, in bytes, counted from 1.
    pub column: u32,
    /// The code of the rule that is broken, as in docs/LANGUAGE.md.
    pub code: Text,
    /// The second place that the rule speaks of, where it speaks of two: file, line and column.
    pub other: Option<(Text, u32, u32)>,
}

/// What a protocol's files are, or the first thing that is wrong with them.
#[derive(Drop)]
pub enum Gathered {
    /// All files, in the order of reading, and their trees.
    Files(Seq<Source>, Seq<Tree>),
    /// A file breaks the language, or an include line wants one file too many.
    Refused(Refused),
    /// The library has no file of this name.
    Absent(Text),
    /// The file of this name has more than 1,048,576 bytes.
    TooLarge(Text),
    /// The library met a fault as the file of this name was read.
    ReadFault(Text),
    NoMemory,
}

/// The line and the column of a byte, each counted from 1, or of the end of the bytes where the offset is beyond it.
pub fn place_in(bytes: &[u8], offset: u32) -> Place
    requires { length bytes.now ≤ 1048576 }
    ensures line { result.line ≡ line_of bytes.now offset }
    ensures column { result.column ≡ column_of bytes.now offset }
{
    let end = bytes.len() as u32;
    if offset < end {
        place_of(bytes, offset)
    } else {
        place_of(bytes, end)
    }
}

/// The refusal of a file at the byte with this offset, by the rule of this code.
pub fn refuse(alloc: Global, source: &Source, offset: u32, code: &[u8]) -> Result<Refused, NoMemory>
    requires { length source.now.bytes ≤ 1048576 }
    ensures { IfOk result (λ r. r ≡ refusal source.now offset code.now) }
{
    let at = place_in(source.bytes.as_slice(), offset);
    let code = Text::copied(alloc, code)?;
    let file = Text::copied(alloc, source.name.as_slice())?;
    Ok(Refused {
        file,
        line: at.line,
        column: at.column,
        code,
        other: None,
    })
}
