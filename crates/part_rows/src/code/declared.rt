// Whether a machine is to its controllers what a program declares of it.
ghost use Rattle.std.specs.Prelude.{◌≡◌, ℕ, IsTrue, slice_get};
ghost use Rattle.std.specs.Option.{option_copied};
ghost use Rattle.code_meaning.specs.Prelude.{IsBuffer, IsBufferAt, IsDeclared, IsTable, IsTableAt, kinds_of, place_of, sort_of};
ghost use Rattle.part_rows.specs.Kinds.{default_number};

use action_code::{BufferDecl, MachineDecl, Place, Program, TableDecl, TableSort};
use ctl_face::{BufferPlace, BufferSetup, MachineSetup, TableSetup, TableSize};
use ruby_value::Kind;

fn is_sort(sort: TableSort, size: TableSize) -> bool
    ensures { IsTrue result → sort ≡ sort_of size }
{
    match (sort, size) {
        (TableSort::Cache, TableSize::Cache { .. }) => true,
        (TableSort::Directory, TableSize::Directory) => true,
        (TableSort::Tbe, TableSize::Tbe { .. }) => true,
        (TableSort::Parameters, TableSize::Parameters) => true,
        _ => false,
    }
}

fn is_place(place: Place, of: BufferPlace) -> bool
    ensures { IsTrue result → place ≡ place_of of }
{
    match (place, of) {
        (Place::Local, BufferPlace::Local) => true,
        (Place::To, BufferPlace::To { .. }) => true,
        (Place::From, BufferPlace::From { .. }) => true,
        _ => false,
    }
}

fn default_number(kind: Kind) -> u16
    ensures { result ≡ default_number kind }
{
    match kind {
        Kind::Enum(_, default) => default,
        _ => 0,
    }
}

// Whether two kinds are the same, with the same default member.
#[tactic(auto, using(crate::proofs::Same::same_kind))]
fn is_kind(a: Kind, b: Kind) -> bool
    ensures { IsTrue result → a ≡ b }
{
    a.equals(b) && default_number(a) == default_number(b)
}

fn are_kinds(a: &[Kind], b: &[Kind]) -> bool
    ensures { IsTrue result → a.now ≡ b.now }
{
    let [first_a, a @ ..] = a else {
        return b.is_empty();
    };
    match b {
        [first_b, b @ ..] => is_kind(*first_a, *first_b) && are_kinds(a, b),
        [] => false,
    }
}

fn kinds_of(p: &Program, structure: u16) -> &[Kind]
    ensures { result.now ≡ kinds_of p.now structure }
{
    match p.structures.get(usize::from(structure)) {
        Some(kinds) => kinds.as_slice(),
        None => &[],
    }
}

fn is_table(p: &Program, t: TableDecl, s: &TableSetup) -> bool
    ensures { IsTrue result → IsTable p.now t s.now }
{
    is_sort(t.sort, s.size) && are_kinds(kinds_of(p, t.structure), s.kinds.as_slice())
}

fn is_buffer(p: &Program, b: BufferDecl, s: &BufferSetup) -> bool
    ensures { IsTrue result → IsBuffer p.now b s.now }
{
    is_place(b.place, s.place) && are_kinds(kinds_of(p, b.message), s.kinds.as_slice())
}

#[tactic(auto, using(crate::proofs::Same::tables_more, crate::proofs::Same::no_tables))]
fn are_tables(p: &Program, declared: &[TableDecl], setups: &[TableSetup]) -> bool
    ensures { IsTrue result → (n : ℕ)
        → IsTableAt p.now (slice_get declared.now n) (slice_get setups.now n) }
{
    let [t, declared @ ..] = declared else {
        return setups.is_empty();
    };
    match setups {
        [s, setups @ ..] => is_table(p, *t, s) && are_tables(p, declared, setups),
        [] => false,
    }
}

#[tactic(auto, using(crate::proofs::Same::buffers_more, crate::proofs::Same::no_buffers))]
fn are_buffers(p: &Program, declared: &[BufferDecl], setups: &[BufferSetup]) -> bool
    ensures { IsTrue result → (n : ℕ)
        → IsBufferAt p.now (slice_get declared.now n) (slice_get setups.now n) }
{
    let [b, declared @ ..] = declared else {
        return setups.is_empty();
    };
    match setups {
        [s, setups @ ..] => is_buffer(p, *b, s) && are_buffers(p, declared, setups),
        [] => false,
    }
}

/// Whether the machine is what the program declares of it.
pub(crate) fn is_declared(p: &Program, m: Option<&MachineDecl>, setup: &MachineSetup) -> bool
    ensures { IsTrue result → IsDeclared p.now (option_copied m.entry) setup.now }
{
    match m {
        None => false,
        Some(m) => {
            setup.default_state.is_some() == m.built_in_map
                && are_tables(p, m.tables.as_slice(), setup.tables.as_slice())
                && are_buffers(p, m.buffers.as_slice(), setup.buffers.as_slice())
        }
    }
}
