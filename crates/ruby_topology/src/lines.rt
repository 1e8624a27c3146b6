//! What each line says, or the rule that it breaks.
ghost use Rattle.std.specs.Prelude.{◌≡◌, ◌≤◌, ◌+◌, All, IfOk, IfErr, IfSome, OnOk, length};
ghost use Rattle.ruby_topology.specs.Faults.{ForLine};
ghost use Rattle.ruby_topology.specs.Lines.{cache_line, crossbar_line, judged, jitter_line, link_line, machine_line, mesh_line, number_at, ordered_line, point_to_point_line, reading, says_in, set_line, size_line, tbes_line, with_line};
ghost use Rattle.ruby_topology.specs.Forms.{form_of};
ghost use Rattle.ruby_topology.specs.Said.{controllers, counted};
ghost use Rattle.ruby_topology.specs.Text.{lines_of, words_of};
ghost use Rattle.ruby_topology.specs.Within.{IsWithin};

use crate::forms::{
    Form, Network, Statement, T1_FORM, T2_NUMBER, T3_NAME, T4_TWICE, T6_TOO_MANY, TopoFault,
    form_of,
};
use crate::members::member_named;
use crate::named::{cache_named, number_named, receiving_named, tbes_named};
use crate::said::{controllers, counted, is_links, is_said, network_said};
use crate::text::{before_comment, first_line, number_within, word_at, word_count};
use ruby_base::Seq;
use ruby_symbols::{Symbols, machine_named};
use std::alloc::Global;

fn number_at(text: &[u8], place: usize, least: u64, greatest: u64) -> Option<u64>
    ensures value { result ≡ number_at (words_of text.now) place least greatest }
    ensures least { IfSome result (λ n. least ≤ n) }
    ensures greatest { IfSome result (λ n. n ≤ greatest) }
{
    number_within((least, greatest), word_at(text, place))
}

fn machine_line(symbols: &Symbols, text: &[u8]) -> Result<Statement, u8>
    ensures says { result ≡ machine_line symbols.now (words_of text.now) }
    ensures within { IfOk result IsWithin }
{
    let Some(count) = number_at(text, 2, 1, 64) else {
        return Err(T2_NUMBER);
    };
    let Some(machine) = machine_named(symbols, word_at(text, 1)) else {
        return Err(T3_NAME);
    };
    Ok(Statement::Machine {
        machine,
        count: count as u32,
    })
}

fn point_to_point_line(text: &[u8]) -> Result<Statement, u8>
    ensures says { result ≡ point_to_point_line (words_of text.now) }
    ensures within { IfOk result IsWithin }
{
    match number_at(text, 2, 0, 1000) {
        None => Err(T2_NUMBER),
        Some(length) => Ok(Statement::Network(Network::PointToPoint(length))),
    }
}

fn crossbar_line(text: &[u8]) -> Result<Statement, u8>
    ensures says { result ≡ crossbar_line (words_of text.now) }
    ensures within { IfOk result IsWithin }
{
    match number_at(text, 2, 0, 1000) {
        None => Err(T2_NUMBER),
        Some(length) => Ok(Statement::Network(Network::Crossbar(length))),
    }
}

fn mesh_line(text: &[u8]) -> Result<Statement, u8>
    ensures says { result ≡ mesh_line (words_of text.now) }
    ensures within { IfOk result IsWithin }
{
    let Some(rows) = number_at(text, 2, 1, 64) else {
        return Err(T2_NUMBER);
    };
    let Some(columns) = number_at(text, 3, 1, 64) else {
        return Err(T2_NUMBER);
    };
    let Some(length) = number_at(text, 4, 0, 1000) else {
        return Err(T2_NUMBER);
    };
    Ok(Statement::Network(Network::Mesh {
        rows,
        columns,
        length,
    }))
}

fn link_line(symbols: &Symbols, said: &[Statement], text: &[u8]) -> Result<Statement, u8>
    ensures says { result ≡ link_line symbols.now said.now (words_of text.now) }
    ensures within { IfOk result IsWithin }
{
    let Some(length) = number_at(text, 3, 0, 1000) else {
        return Err(T2_NUMBER);
    };
    let Some(one) = member_named(symbols, said, word_at(text, 1)) else {
        return Err(T3_NAME);
    };
    let Some(other) = member_named(symbols, said, word_at(text, 2)) else {
        return Err(T3_NAME);
    };
    if is_links(network_said(said)) {
        Ok(Statement::Link { one, other, length })
    } else {
        Err(T3_NAME)
    }
}

fn jitter_line(text: &[u8]) -> Result<Statement, u8>
    ensures says { result ≡ jitter_line (words_of text.now) }
    ensures within { IfOk result IsWithin }
{
    match number_at(text, 1, 0, 1000) {
        None => Err(T2_NUMBER),
        Some(jitter) => Ok(Statement::Jitter(jitter)),
    }
}

fn ordered_line(text: &[u8]) -> Result<Statement, u8>
    ensures says { result ≡ ordered_line (words_of text.now) }
    ensures within { IfOk result IsWithin }
{
    match number_at(text, 1, 0, 15) {
        None => Err(T2_NUMBER),
        Some(network) => Ok(Statement::Ordered(network as u16)),
    }
}

fn cache_line(symbols: &Symbols, text: &[u8]) -> Result<Statement, u8>
    ensures says { result ≡ cache_line symbols.now (words_of text.now) }
    ensures within { IfOk result IsWithin }
{
    let Some(sets) = number_at(text, 3, 1, 65536) else {
        return Err(T2_NUMBER);
    };
    let Some(ways) = number_at(text, 4, 1, 65536) else {
        return Err(T2_NUMBER);
    };
    if sets.saturating_mul(ways) > 65536 {
        return Err(T2_NUMBER);
    }
    let Some(machine) = machine_named(symbols, word_at(text, 1)) else {
        return Err(T3_NAME);
    };
    let Some(table) = cache_named(symbols, machine, word_at(text, 2)) else {
        return Err(T3_NAME);
    };
    Ok(Statement::Cache {
        machine,
        table,
        sets: sets as u32,
        ways: ways as u32,
    })
}

fn tbes_line(symbols: &Symbols, text: &[u8]) -> Result<Statement, u8>
    ensures says { result ≡ tbes_line symbols.now (words_of text.now) }
    ensures within { IfOk result IsWithin }
{
    let Some(entries) = number_at(text, 3, 1, 256) else {
        return Err(T2_NUMBER);
    };
    let Some(machine) = machine_named(symbols, word_at(text, 1)) else {
        return Err(T3_NAME);
    };
    let Some(table) = tbes_named(symbols, machine, word_at(text, 2)) else {
        return Err(T3_NAME);
    };
    Ok(Statement::Tbes {
        machine,
        table,
        entries: entries as u32,
    })
}

fn size_line(symbols: &Symbols, text: &[u8]) -> Result<Statement, u8>
    ensures says { result ≡ size_line symbols.now (words_of text.now) }
    ensures within { IfOk result IsWithin }
{
    let Some(slots) = number_at(text, 3, 0, 65536) else {
        return Err(T2_NUMBER);
    };
    let Some(machine) = machine_named(symbols, word_at(text, 1)) else {
        return Err(T3_NAME);
    };
    let Some(buffer) = receiving_named(symbols, machine, word_at(text, 2)) else {
        return Err(T3_NAME);
    };
    Ok(Statement::Size {
        machine,
        buffer,
        slots,
    })
}

fn set_line(symbols: &Symbols, text: &[u8]) -> Result<Statement, u8>
    ensures says { result ≡ set_line symbols.now (words_of text.now) }
    ensures within { IfOk result IsWithin }
{
    let Some(number) = number_at(text, 3, 0, 0x7fff_ffff_ffff_ffff) else {
        return Err(T2_NUMBER);
    };
    let Some(machine) = machine_named(symbols, word_at(text, 1)) else {
        return Err(T3_NAME);
    };
    let Some(value) = number_named(symbols, machine, word_at(text, 2)) else {
        return Err(T3_NAME);
    };
    Ok(Statement::Set {
        machine,
        value,
        number: number as i64,
    })
}

fn says(symbols: &Symbols, said: &[Statement], text: &[u8]) -> Result<Statement, u8>
    ensures says { result ≡ says_in symbols.now said.now (words_of text.now) (form_of (words_of text.now)) }
    ensures within { IfOk result IsWithin }
{
    match form_of(text) {
        None => Err(T1_FORM),
        Some(Form::Machine) => machine_line(symbols, text),
        Some(Form::PointToPoint) => point_to_point_line(text),
        Some(Form::Crossbar) => crossbar_line(text),
        Some(Form::Mesh) => mesh_line(text),
        Some(Form::Links) => Ok(Statement::Network(Network::Links)),
        Some(Form::Link) => link_line(symbols, said, text),
        Some(Form::Jitter) => jitter_line(text),
        Some(Form::Ordered) => ordered_line(text),
        Some(Form::Cache) => cache_line(symbols, text),
        Some(Form::Tbes) => tbes_line(symbols, text),
        Some(Form::Size) => size_line(symbols, text),
        Some(Form::Set) => set_line(symbols, text),
    }
}

fn judged(symbols: &Symbols, said: &[Statement], text: &[u8]) -> Result<Statement, u8>
    requires { controllers said.now ≤ 64 }
    ensures says { result ≡ judged symbols.now said.now (words_of text.now) }
    ensures room { IfOk result (λ s. controllers said.now + counted s ≤ 64) }
    ensures within { IfOk result IsWithin }
{
    let s = match says(symbols, said, text) {
        Ok(s) => s,
        Err(rule) => return Err(rule),
    };
    if is_said(said, &s) {
        return Err(T4_TWICE);
    }
    if 64 - controllers(said) < counted(&s) {
        return Err(T6_TOO_MANY);
    }
    Ok(s)
}

// Adds what a line says, which is the line of this number.
fn add_line(
    symbols: &Symbols,
    said: &mut Seq<Statement>,
    line: &[u8],
    number: u32,
) -> Result<(), TopoFault>
    requires room { controllers said.old ≤ 64 }
    requires within { All IsWithin said.old }
    ensures ok { OnOk result (with_line symbols.now said.old line.now ≡ Ok said.new) }
    ensures room { OnOk result (controllers said.new ≤ 64) }
    ensures within { OnOk result (All IsWithin said.new) }
    ensures err { IfErr result (λ fault. ForLine fault (λ rule at. (with_line symbols.now said.old line.now ≡ Err rule) × (at ≡ number))) }
{
    let text = before_comment(line);
    if word_count(text) == 0 {
        return Ok(());
    }
    match judged(symbols, said.as_slice(), text) {
        Err(rule) => Err(TopoFault::Line { rule, line: number }),
        Ok(s) => {
            said.push(s)?;
            Ok(())
        }
    }
}

/// What the lines of a file say.
#[derive(Drop)]
pub struct Read {
    pub said: Seq<Statement>,
    /// The number of the lines, plus 1.
    pub after: u32,
}

/// What the lines of a file say, or the first line that breaks a rule, with the least such rule.
pub fn read_lines(alloc: Global, symbols: &Symbols, bytes: &[u8]) -> Result<Read, TopoFault>
    requires { length bytes.now ≤ 1048576 }
    ensures said { IfOk result (λ r. reading symbols.now (lines_of bytes.now) ≡ Ok r.said) }
    ensures after { IfOk result (λ r. r.after ≡ length (lines_of bytes.now) + 1) }
    ensures room { IfOk result (λ r. controllers r.said ≤ 64) }
    ensures within { IfOk result (λ r. All IsWithin r.said) }
    ensures err { IfErr result (λ fault. ForLine fault (λ rule line. reading symbols.now (lines_of bytes.now) ≡ Err (rule, line))) }
{
    let mut said = Seq::new(alloc);
    let mut rest = bytes;
    let mut number = 1u32;
    while !rest.is_empty() {
        let (line, after) = first_line(rest);
        add_line(symbols, &mut said, line, number)?;
        rest = after;
        number += 1;
    }
    Ok(Read {
        said,
        after: number,
    })
}
