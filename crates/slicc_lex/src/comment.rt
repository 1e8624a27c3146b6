ghost use Rattle.std.specs.Prelude.{◌≡◌};
ghost use Rattle.slicc_lex.specs.Prelude.{close_len};

/// How many bytes there are up to the first `*/`, these two included.
pub fn close_len(bytes: &[u8]) -> Option<usize>
    ensures { result ≡ close_len bytes.now }
{
    let mut seen: usize = 0;
    let mut rest = bytes;
    while let [first, second, ..] = rest {
        if *first == b'*' && *second == b'/' {
            return Some(seen + 2);
        }
        rest = &rest[1..];
        seen += 1;
    }
    None
}
