ghost use Rattle.std.specs.Prelude.{◌≡◌, ◌/◌};
ghost use Rattle.ruby_value.specs.Prelude.{IsLine, line_of};

/// The line of a byte address, which is the address divided by 64.
pub fn line_of(address: u64) -> u64
    ensures line { result ≡ line_of address }
    ensures quotient { result ≡ address / 64 }
    ensures within { IsLine result }
{
    address / 64
}
