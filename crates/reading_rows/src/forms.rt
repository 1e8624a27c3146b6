// The forms that are read.

/// What is read in a text.
#[derive(Clone, Copy)]
pub(crate) enum Form {
    Place,
    Token,
    Expression,
    Block,
    Enumeration,
    Formals,
    Include,
    Literal,
    MachineHead,
    Names,
    OutPort,
    Protocol,
    Parameter,
    States,
    Structure,
    Transition,
    File,
    Numbers,
    Needs,
}

const FORMS: &[(&str, Form)] = &[
    ("place", Form::Place),
    ("token", Form::Token),
    ("expression", Form::Expression),
    ("block", Form::Block),
    ("enumeration", Form::Enumeration),
    ("formals", Form::Formals),
    ("include", Form::Include),
    ("literal", Form::Literal),
    ("machine_head", Form::MachineHead),
    ("names", Form::Names),
    ("out_port", Form::OutPort),
    ("protocol", Form::Protocol),
    ("parameter", Form::Parameter),
    ("states", Form::States),
    ("structure", Form::Structure),
    ("transition", Form::Transition),
    ("file", Form::File),
    ("numbers", Form::Numbers),
    ("needs", Form::Needs),
];

/// A form, the token or the byte to read from, and how many nestings are open before it or more are allowed.
#[derive(Clone, Copy)]
pub(crate) struct Reading {
    pub(crate) form: Form,
    pub(crate) at: u32,
    pub(crate) depth: u32,
}

/// What is read in a form of this name, if there is one.
pub(crate) fn reading_named(name: &str, at: u32, depth: u32) -> Option<Reading> {
    for (word, form) in FORMS {
        if *word == name {
            let form = *form;
            return Some(Reading { form, at, depth });
        }
    }
    None
}
