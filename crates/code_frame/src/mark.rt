/// Where the parts of a frame begin, to which a call comes back.
#[derive(Clone, Copy)]
pub struct Mark {
    pub base: usize,
    pub floor: usize,
}
