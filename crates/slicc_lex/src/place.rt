ghost use Rattle.std.specs.Prelude.{◌≡◌, ◌≤◌, length};
ghost use Rattle.slicc_lex.specs.Places.{line_of, column_of};

use crate::bytes::last_line_len;

/// Where a byte of a file stands, counted from 1 as text editors do, columns in bytes.
#[derive(Clone, Copy)]
pub struct Place {
    pub line: u32,
    pub column: u32,
}

/// The place of the byte at an offset, or of the end of the bytes.
pub fn place_of(bytes: &[u8], offset: u32) -> Place
    requires inside { offset ≤ length bytes.now }
    requires size { length bytes.now ≤ 1048576 }
    ensures line { result.line ≡ line_of bytes.now offset }
    ensures column { result.column ≡ column_of bytes.now offset }
{
    let (before, _) = bytes.split_at(offset as usize);
    let feeds = before.iter().filter(|byte| **byte == b'\n').count();
    let seen = last_line_len(before);
    Place {
        line: feeds as u32 + 1,
        column: seen as u32 + 1,
    }
}
