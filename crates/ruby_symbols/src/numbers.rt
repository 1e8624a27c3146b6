//! Numbers of what stands in lists.
ghost use Rattle.std.specs.Prelude.{◌≡◌, option_and_then};
ghost use Rattle.ruby_symbols.specs.Prelude.{is_number, short_number};

/// A place as a number of 16 bits, or `None` where it is beyond these.
pub fn short_number(place: Option<usize>) -> Option<u16>
    ensures { result ≡ option_and_then short_number place }
{
    match place {
        None => None,
        Some(n) => { if n < 65536 { Some(n as u16) } else { None } }
    }
}

/// Whether both are there, and are one number.
pub fn is_number(a: Option<u16>, b: Option<u16>) -> bool
    ensures { result ≡ is_number a b }
{
    match (a, b) {
        (Some(n), Some(k)) => n == k,
        _ => false,
    }
}
