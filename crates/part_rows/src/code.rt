// Makes programs of action code for a small controller, that of the calls, and adds the listing of one, and of the other what each of its
// bodies without arguments ends with, run on a draft of its own. The bodies are the lines of the files `listed` and `rows` in the folder
// `code`. What bodies end with was worked out by hand from what instructions do; the listing, by a script from the lines.
mod declared;
mod instr;
mod program;
mod running;

pub(crate) use running::add;
