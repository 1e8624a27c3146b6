// Makes each of the built-in calls of action code on drafts of a small controller, and adds a line for each: its number, its name,
// its arguments, and its value, `done` or its fault. The calls are the lines of the file `rows` in the folder `acts`. What is expected
// was worked out by hand from the rules of the calls.
pub(crate) mod node;
mod requests;
pub(crate) mod row;
pub(crate) mod shown;
pub(crate) mod writing;

pub(crate) use writing::add;
