ghost use Rattle.std.specs.Prelude.{◌≡◌, ◌^◌, ◌<◌, ◌≤◌, pos, MatchOption};
ghost use Rattle.slicc_lex.specs.Prelude.{digit_value, number_of};

/// The largest number that a text may have.
const LARGEST: u64 = 0x7fff_ffff_ffff_ffff;

/// What a digit counts, in bases up to sixteen.
fn digit_value(digit: u8) -> u64
    ensures { result ≡ digit_value digit }
{
    let code = digit as u64;
    if code <= 57 {
        code.saturating_sub(48)
    } else if code <= 70 {
        code.saturating_sub(55)
    } else {
        code.saturating_sub(87)
    }
}

/// The number that digits stand for in a base; none where it is above 2^63 - 1.
pub fn number_of(base: u64, digits: &[u8]) -> Option<i64>
    requires { 1 ≤ base }
    ensures { MatchOption result (2 ^ 63 ≤ number_of base digits.now)
        (λ n. (n ≡ pos (number_of base digits.now)) × (number_of base digits.now < 2 ^ 63)) }
{
    let mut number: u64 = 0;
    for digit in digits {
        let next = base
            .saturating_mul(number)
            .saturating_add(digit_value(*digit));
        if next > LARGEST {
            return None;
        }
        number = next;
    }
    Some(number as i64)
}
