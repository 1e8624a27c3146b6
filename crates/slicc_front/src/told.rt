//! How a broken rule is told.
ghost use Rattle.std.specs.Prelude.{◌≡◌, ◌≤◌, All, IfOk, length};
ghost use Rattle.std.specs.Option.{option_map};
ghost use Rattle.slicc_front.specs.Prelude.{code_of, place_of, refusal_at};
ghost use Rattle.slicc_files.specs.Prelude.{IsShort};

use ruby_base::{NoMemory, Text};
use slicc_files::{Refused, Source, place_in};
use slicc_plan::Span;
use std::alloc::Global;

// The place of a span's first byte: the file's name, the line and the column.
fn place_of(alloc: Global, sources: &[Source], span: Span) -> Result<(Text, u32, u32), NoMemory>
    requires { All IsShort sources.now }
    ensures { IfOk result (λ place. place ≡ place_of sources.now span) }
{
    match sources.get(span.file as usize) {
        None => Ok((Text::new(alloc), 1, 1)),
        Some(source) => {
            let at = place_in(source.bytes.as_slice(), span.start);
            let name = Text::copied(alloc, source.name.as_slice())?;
            Ok((name, at.line, at.column))
        }
    }
}

fn second_place(
    alloc: Global,
    sources: &[Source],
    other: Option<Span>,
) -> Result<Option<(Text, u32, u32)>, NoMemory>
    requires { All IsShort sources.now }
    ensures { IfOk result (λ place. place ≡ option_map (place_of sources.now) other) }
{
    match other {
        None => Ok(None),
        Some(span) => {
            let place = place_of(alloc, sources, span)?;
            Ok(Some(place))
        }
    }
}

fn code(alloc: Global, number: u8) -> Result<Text, NoMemory>
    ensures { IfOk result (λ code. code ≡ code_of number) }
{
    let code = format!(in alloc; "R{number}")?;
    Text::copied(alloc, code.as_bytes())
}

/// The refusal by the rule of this number, with its places in the files.
pub fn refusal(
    alloc: Global,
    sources: &[Source],
    number: u8,
    place: Span,
    other: Option<Span>,
) -> Result<Refused, NoMemory>
    requires { All IsShort sources.now }
    ensures { IfOk result (λ r. r ≡ refusal_at sources.now number place other) }
{
    let code = code(alloc, number)?;
    let other = second_place(alloc, sources, other)?;
    let (file, line, column) = place_of(alloc, sources, place)?;
    Ok(Refused {
        file,
        line,
        column,
        code,
        other,
    })
}
