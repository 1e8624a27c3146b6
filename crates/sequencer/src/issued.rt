use crate::Asked;

/// A request that was issued at a seat, by the seat's number.
#[derive(Clone, Copy)]
pub struct Issued {
    pub seat: u32,
    pub asked: Asked,
}
