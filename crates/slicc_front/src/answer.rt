use ruby_base::Text;
use slicc_files::Refused;
use slicc_plan::Plan;

/// What a protocol's files come to.
#[derive(Drop)]
pub enum Front {
    /// They are read and keep all rules.
    Plan(Plan),
    /// A file breaks the language, or the protocol breaks a rule of names, types, flow or machines: the first place at which
    /// it does.
    Refused(Refused),
    /// The library has no file of this name.
    Absent(Text),
    /// The file of this name has more than 1,048,576 bytes.
    TooLarge(Text),
    /// The library met a fault as the file of this name was read.
    ReadFault(Text),
    NoMemory,
}
