ghost use Rattle.std.specs.Prelude.{◌≡◌, ◌<◌, ◌≤◌, [], ◌∷◌, ◌++◌, List, drop, length, map, reverse, take, IfOk, OnOk};
ghost use Rattle.ruby_value.specs.declared.value.Value.{Value as AnyValue};
ghost use Rattle.ruby_value.specs.Prelude.{default_value};
ghost use Rattle.code_frame.specs.Needs.{Any, IsAddress, IsBool, IsInt, IsTopReference, IsReference, Over, Rest};
ghost use Rattle.code_frame.specs.Slots.{IsBig, IsWord, value_at, word_of};
ghost use Rattle.code_frame.specs.Window.{IsMark, SameRest, Window, begun, pushed, stored};

use crate::apart::{copy_apart, move_apart, put_apart, take_value};
use crate::mark::Mark;
use crate::slot::{Slot, Sort, bool_slot, entry_slot, int_slot, reference_of, tbe_slot};
use crate::words::Words;
use ruby_base::NoMemory;
use ruby_value::{Block, Kind, NetDest, Ref, Value};
use std::alloc::Global;
use std::marker::Model;

/// The stack and the locals of the body that runs, above those of the bodies that called it.
#[derive(Drop)]
pub struct Frame {
    words: Words,
    apart: Vec<Value>,
    base: usize,
    floor: usize,
}

impl Model for Frame {
    ghost use Rattle.std.specs.Prelude.{◌≤◌, length};
    ghost use Rattle.code_frame.specs.Window.{Window, window};
    ghost use Rattle.code_frame.specs.Slots.{values_from};

    ghost Value = { Window };

    ghost view = { λ f. window (values_from 0 f.words f.apart.items) f.base f.floor };

    ghost invariant = { λ f. (f.base ≤ f.floor) × (f.floor ≤ length f.words) };
}

impl Frame {
    /// An empty one. It takes no memory.
    pub fn new(alloc: Global) -> Frame
        ensures { result ≡ record { stack = []; locals = []; under = [] } }
    {
        Frame {
            words: Words::new(alloc),
            apart: Vec::new(alloc),
            base: 0,
            floor: 0,
        }
    }

    // Puts a word on top.
    fn push_slot(&mut self, s: Slot) -> Result<(), NoMemory>
        requires { IsWord s.sort }
        ensures { OnOk result (self.new ≡ pushed (word_of s) self.old) }
    {
        self.words.push(s)?;
        Ok(())
    }

    // Puts a value on top that is kept apart.
    fn push_apart(&mut self, v: Value) -> Result<(), NoMemory>
        requires { IsBig v }
        ensures { OnOk result (self.new ≡ pushed v self.old) }
    {
        put_apart(&mut self.apart, self.words.len(), v)?;
        self.words.push(Slot {
            word: 0,
            sort: Sort::Apart,
        })?;
        Ok(())
    }

    /// Puts a value on top.
    pub fn push(&mut self, v: Value) -> Result<(), NoMemory>
        ensures { OnOk result (self.new ≡ pushed v self.old) }
    {
        match v {
            Value::Bool(b) => self.push_slot(bool_slot(b)),
            Value::Int(n) => self.push_slot(int_slot(n)),
            Value::Enum(enumeration, member) => self.push_slot(Slot {
                word: u64::from(member),
                sort: Sort::Enum(enumeration),
            }),
            Value::Addr(address) => self.push_slot(Slot {
                word: address,
                sort: Sort::Addr,
            }),
            Value::Machine(controller) => self.push_slot(Slot {
                word: u64::from(controller),
                sort: Sort::Machine,
            }),
            Value::Entry(r) => self.push_slot(entry_slot(r)),
            Value::Tbe(r) => self.push_slot(tbe_slot(r)),
            apart => self.push_apart(apart),
        }
    }

    /// Puts a value of its own on top that is the same as this one.
    pub fn push_copied(&mut self, v: &Value) -> Result<(), NoMemory>
        ensures { OnOk result (self.new ≡ pushed v.now self.old) }
    {
        match v {
            Value::Bool(b) => self.push_slot(bool_slot(*b)),
            Value::Int(n) => self.push_slot(int_slot(*n)),
            Value::Enum(enumeration, member) => self.push_slot(Slot {
                word: u64::from(*member),
                sort: Sort::Enum(*enumeration),
            }),
            Value::Addr(address) => self.push_slot(Slot {
                word: *address,
                sort: Sort::Addr,
            }),
            Value::Machine(controller) => self.push_slot(Slot {
                word: u64::from(*controller),
                sort: Sort::Machine,
            }),
            Value::Entry(r) => self.push_slot(entry_slot(*r)),
            Value::Tbe(r) => self.push_slot(tbe_slot(*r)),
            apart => self.push_apart(apart.clone()?),
        }
    }

    /// Puts these values on top, the last one topmost.
    pub fn push_all(&mut self, mut values: Vec<Value>) -> Result<(), NoMemory>
        ensures stack { OnOk result (self.new.stack ≡ reverse values.items ++ self.old.stack) }
        ensures rest { OnOk result (SameRest self.old self.new) }
    {
        values.reverse();
        while let Some(v) = values.pop() {
            self.push(v)?;
        }
        Ok(())
    }

    /// Puts a number on top.
    pub fn push_int(&mut self, n: i64) -> Result<(), NoMemory>
        ensures { OnOk result (self.new ≡ pushed (Value.Int n) self.old) }
    {
        self.push_slot(int_slot(n))
    }

    /// Puts a truth value on top.
    pub fn push_bool(&mut self, b: bool) -> Result<(), NoMemory>
        ensures { OnOk result (self.new ≡ pushed (Value.Bool b) self.old) }
    {
        self.push_slot(bool_slot(b))
    }

    /// Takes off the value on top.
    pub fn pop(&mut self) -> Value
        requires { Over Any Rest self.old.stack }
        ensures stack { self.old.stack ≡ result ∷ self.new.stack }
        ensures rest { SameRest self.old self.new }
    {
        let s = self.words.pop();
        take_value(&mut self.apart, self.words.len(), s)
    }

    /// Takes off a number.
    pub fn pop_int(&mut self) -> i64
        requires { Over IsInt Rest self.old.stack }
        ensures stack { self.old.stack ≡ Value.Int result ∷ self.new.stack }
        ensures rest { SameRest self.old self.new }
    {
        self.words.pop().word.cast_signed()
    }

    /// Takes off a truth value.
    pub fn pop_bool(&mut self) -> bool
        requires { Over IsBool Rest self.old.stack }
        ensures stack { self.old.stack ≡ Value.Bool result ∷ self.new.stack }
        ensures rest { SameRest self.old self.new }
    {
        self.words.pop().word == 1
    }

    /// Takes off a byte address.
    pub fn pop_address(&mut self) -> u64
        requires { Over IsAddress Rest self.old.stack }
        ensures stack { self.old.stack ≡ Value.Addr result ∷ self.new.stack }
        ensures rest { SameRest self.old self.new }
    {
        self.words.pop().word
    }

    /// Takes off a reference to a line or to nothing.
    pub fn pop_reference(&mut self) -> Option<Ref>
        requires { Over IsReference Rest self.old.stack }
        ensures stack { IsTopReference self.old.stack result self.new.stack }
        ensures rest { SameRest self.old self.new }
    {
        reference_of(self.words.pop())
    }

    /// Takes off so many values, and gives them from the lowest up.
    pub fn take(&mut self, alloc: Global, count: usize) -> Result<Vec<Value>, NoMemory>
        requires { count ≤ length self.old.stack }
        ensures taken { IfOk result (λ v. v.items ≡ reverse (take count self.old.stack)) }
        ensures left { OnOk result (self.new.stack ≡ drop count self.old.stack) }
        ensures rest { OnOk result (SameRest self.old self.new) }
    {
        let mut values = Vec::with_capacity(alloc, count)?;
        for _i in 0..count {
            values.push(self.pop())?;
        }
        values.reverse();
        Ok(values)
    }

    /// Puts the value of a local on top.
    pub fn load(&mut self, n: usize) -> Result<(), NoMemory>
        requires { n < length self.old.locals }
        ensures { OnOk result (self.new ≡ pushed (value_at self.old.locals n) self.old) }
    {
        let at = self.base + n;
        let s = self.words.at(at);
        if let Sort::Apart = s.sort {
            let v = copy_apart(self.apart.as_slice(), at)?;
            self.push_apart(v)
        } else {
            self.push_slot(s)
        }
    }

    /// Takes off the value on top, which a local has then.
    pub fn store(&mut self, n: usize) -> Result<(), NoMemory>
        requires value { Over Any Rest self.old.stack }
        requires local { n < length self.old.locals }
        ensures { OnOk result (self.new ≡ stored n self.old) }
    {
        let at = self.base + n;
        let s = self.words.pop();
        move_apart(&mut self.apart, s, self.words.len(), at)?;
        self.words.put(at, s);
        Ok(())
    }

    // Puts the value on top that a local of this kind begins with.
    fn push_default(&mut self, alloc: Global, kind: &Kind) -> Result<(), NoMemory>
        ensures { OnOk result (self.new ≡ pushed (default_value kind.now) self.old) }
    {
        match kind {
            Kind::Bool => self.push_slot(bool_slot(false)),
            Kind::Int => self.push_slot(int_slot(0)),
            Kind::Enum(enumeration, member) => self.push_slot(Slot {
                word: u64::from(*member),
                sort: Sort::Enum(*enumeration),
            }),
            Kind::Addr => self.push_slot(Slot {
                word: 0,
                sort: Sort::Addr,
            }),
            Kind::Machine => self.push_slot(Slot {
                word: 0,
                sort: Sort::Machine,
            }),
            Kind::Dest => self.push_apart(Value::Dest(NetDest::new(alloc))),
            Kind::Block => self.push_apart(Value::Block(Block { bytes: [0; 64] })),
            Kind::Entry(_) => self.push_slot(entry_slot(None)),
            Kind::Tbe(_) => self.push_slot(tbe_slot(None)),
        }
    }

    // Puts the values on top that locals of these kinds begin with.
    fn push_defaults(&mut self, alloc: Global, kinds: &[Kind]) -> Result<(), NoMemory>
        ensures stack { OnOk result (self.new.stack ≡ reverse
            (map default_value kinds.now) ++ self.old.stack) }
        ensures rest { OnOk result (SameRest self.old self.new) }
    {
        for kind in kinds {
            self.push_default(alloc, kind)?;
        }
        Ok(())
    }

    /// Begins a body whose arguments are the topmost values, so many, and which has other locals of these kinds. They become its first
    /// locals where they lie.
    pub fn enter(&mut self, alloc: Global, count: usize, kinds: &[Kind]) -> Result<Mark, NoMemory>
        requires { count ≤ length self.old.stack }
        ensures begun { OnOk result (self.new ≡ begun count kinds.now self.old) }
        ensures mark { IfOk result (λ m. IsMark m self.old) }
    {
        let mark = Mark {
            base: self.base,
            floor: self.floor,
        };
        self.push_defaults(alloc, kinds)?;
        self.floor = self.words.len();
        self.base = self.floor - kinds.len() - count;
        Ok(mark)
    }

    /// Comes back to the body that called, without the arguments.
    pub fn leave(&mut self, mark: Mark)
        requires { (mark.base ≤ mark.floor) × (mark.floor ≤ length self.old.under) }
        ensures { (w : Window) (rest : List AnyValue) → IsMark mark w
            → self.old.under ≡ w.under ++ w.locals ++ reverse rest
            → self.new ≡ record w { stack = rest } }
    {
        self.words.cut(self.base);
        self.base = mark.base;
        self.floor = mark.floor;
    }
}
