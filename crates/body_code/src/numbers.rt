use ruby_base::Seq;

/// The numbers that a machine's bodies have among those of a program, as far as others call them.
#[derive(Drop)]
pub struct BodyNumbers {
    /// The machine's functions, by their numbers in the machine, in the order of their bodies.
    pub order: Seq<u16>,
    /// The number of the first of these bodies.
    pub first: u32,
    /// The number of the body from the states of the protocol's first machine to their permissions. Those of the other machines follow.
    pub permissions: u32,
}
