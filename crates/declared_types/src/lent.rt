use slicc_ast::tree::{
    Action, Enumeration, Function, InPort, Machine, Object, OutPort, Parameter, States, Structure,
};
use slicc_plan::BuiltInType;

/// What is declared right in a protocol or in a machine, lent from the trees.
#[derive(Clone, Copy)]
pub enum Declared<'a> {
    Machine(&'a Machine),
    Enumeration(&'a Enumeration),
    Structure(&'a Structure),
    States(&'a States),
    Parameter(&'a Parameter),
    Object(&'a Object),
    OutPort(&'a OutPort),
    InPort(&'a InPort),
    Action(&'a Action),
    Function(&'a Function),
}

/// Where a declaration is made: right in the protocol, or in a machine.
#[derive(Clone, Copy)]
pub enum Scope<'a> {
    Everywhere,
    Within(&'a Machine),
}

/// What the name of a type stands for, lent from the trees.
#[derive(Clone, Copy)]
pub enum KnownType<'a> {
    BuiltIn(BuiltInType),
    /// An enumeration, and where it is declared.
    Enumeration(Scope<'a>, &'a Enumeration),
    /// A state declaration, which is an enumeration too.
    States(Scope<'a>, &'a States),
    Structure(Scope<'a>, &'a Structure),
}
