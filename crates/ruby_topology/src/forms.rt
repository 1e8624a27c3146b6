//! The forms of lines, what they say, and the rules that they break.
ghost use Rattle.std.specs.Prelude.{◌≡◌};
ghost use Rattle.ruby_topology.specs.Forms.{form_of, line_form, network_form};
ghost use Rattle.ruby_topology.specs.Text.{words_of};

use crate::text::{word_at, word_count};
use ruby_base::NoMemory as OutOfMemory;

/// What a line of a topology is about.
#[derive(Clone, Copy)]
pub enum Form {
    Machine,
    PointToPoint,
    Crossbar,
    Mesh,
    Links,
    Link,
    Jitter,
    Ordered,
    Cache,
    Tbes,
    Size,
    Set,
}

// The form of a line that begins with `network`, by its second word.
fn network_form(kind: &[u8], count: usize) -> Option<Form>
    ensures { result ≡ network_form kind.now count }
{
    if kind == b"pt2pt".as_slice() && count == 3 {
        Some(Form::PointToPoint)
    } else if kind == b"crossbar".as_slice() && count == 3 {
        Some(Form::Crossbar)
    } else if kind == b"mesh".as_slice() && count == 5 {
        Some(Form::Mesh)
    } else if kind == b"links".as_slice() && count == 2 {
        Some(Form::Links)
    } else {
        None
    }
}

// The form of another line, by its first word.
fn line_form(first: &[u8], count: usize) -> Option<Form>
    ensures { result ≡ line_form first.now count }
{
    if first == b"machine".as_slice() && count == 3 {
        Some(Form::Machine)
    } else if first == b"link".as_slice() && count == 4 {
        Some(Form::Link)
    } else if first == b"jitter".as_slice() && count == 2 {
        Some(Form::Jitter)
    } else if first == b"ordered".as_slice() && count == 2 {
        Some(Form::Ordered)
    } else if first == b"cache".as_slice() && count == 5 {
        Some(Form::Cache)
    } else if first == b"tbes".as_slice() && count == 4 {
        Some(Form::Tbes)
    } else if first == b"size".as_slice() && count == 4 {
        Some(Form::Size)
    } else if first == b"set".as_slice() && count == 4 {
        Some(Form::Set)
    } else {
        None
    }
}

/// The form of a line, its comment left out, where it has one.
pub fn form_of(text: &[u8]) -> Option<Form>
    ensures { result ≡ form_of (words_of text.now) }
{
    let count = word_count(text);
    let first = word_at(text, 0);
    if first == b"network".as_slice() {
        network_form(word_at(text, 1), count)
    } else {
        line_form(first, count)
    }
}

/// A controller, by the number of its machine and its index within that machine.
#[derive(Clone, Copy)]
pub struct Member {
    pub machine: usize,
    pub index: u64,
}

/// What joins the controllers. Lengths are in cycles, at most 1,000 each.
#[derive(Clone, Copy)]
pub enum Network {
    /// A path of this length between any two.
    PointToPoint(u64),
    /// Two steps of this length between any two: to the crossbar and from it.
    Crossbar(u64),
    /// Controller k stands at node k modulo the count of nodes, row by row; a step to the next node has this length.
    Mesh {
        rows: u64,
        columns: u64,
        length: u64,
    },
    /// The links that the topology lists.
    Links,
}

/// What a line of a topology says. Machines, tables and values have the numbers of the protocol's symbols.
#[derive(Clone, Copy)]
pub enum Statement {
    /// How many controllers a machine has: 1 to 64.
    Machine {
        machine: u16,
        count: u32,
    },
    Network(Network),
    /// A link between two controllers, both ways.
    Link {
        one: Member,
        other: Member,
        length: u64,
    },
    /// The most cycles that a message may be late: 0 to 1,000.
    Jitter(u64),
    /// This virtual network keeps order.
    Ordered(u16),
    /// The sets and ways of a cache: 1 to 65,536 lines in all.
    Cache {
        machine: u16,
        table: u16,
        sets: u32,
        ways: u32,
    },
    /// How many lines a TBE table may hold: 1 to 256.
    Tbes {
        machine: u16,
        table: u16,
        entries: u32,
    },
    /// How many slots each sender has in a buffer that takes messages, at each controller of the machine: 0 to 65,536, where 0 is
    /// no size.
    Size {
        machine: u16,
        buffer: u16,
        slots: u64,
    },
    /// The number that a parameter or an object has as a run begins.
    Set {
        machine: u16,
        value: u16,
        number: i64,
    },
}

/// A link between two controllers by their numbers, both ways.
#[derive(Clone, Copy)]
pub struct Link {
    pub one: usize,
    pub other: usize,
    pub length: u64,
}

/// The rules of a topology, by their numbers. The first word of a line isn't one of the known ones, or there are more or fewer
/// words than it has.
pub const T1_FORM: u8 = 1;

/// A number isn't one, or is out of its range.
pub const T2_NUMBER: u8 = 2;

/// What is named isn't there, or isn't what the line is for.
pub const T3_NAME: u8 = 3;

/// The same is said twice.
pub const T4_TWICE: u8 = 4;

/// A machine has no line.
pub const T5_NO_LINE: u8 = 5;

/// There are more than 64 controllers.
pub const T6_TOO_MANY: u8 = 6;

/// Between two controllers there is no path.
pub const T7_NO_PATH: u8 = 7;

/// No controller can be asked by a driver.
pub const T8_NO_SEAT: u8 = 8;

/// Why there is no topology.
#[derive(Clone, Copy)]
pub enum TopoFault {
    /// The first line that breaks a rule, and the least rule that it breaks. Lines count from 1. What no line breaks but all
    /// together is told at the line after the last; a plain run has no lines, and what it lacks is told at line 0.
    Line { rule: u8, line: u32 },
    NoMemory,
}

impl From<OutOfMemory> for TopoFault {
    ghost use Rattle.ruby_topology.specs.declared.forms.TopoFault.TheVariants.{NoMemory};
    ghost use Rattle.std.specs.Prelude.{◌≡◌};

    ghost from_gives = { λ _ fault. fault ≡ NoMemory };

    fn from(_: OutOfMemory) -> TopoFault {
        TopoFault::NoMemory
    }
}
