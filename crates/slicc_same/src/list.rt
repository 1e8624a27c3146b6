//! Lists, compared item by item.
ghost use Rattle.std.specs.Prelude.{◌≡◌, Bool};
ghost use Rattle.slicc_same.specs.Alike.{all_alike};

/// What may be the same as another one, spans aside.
pub trait Same {
    ghost alike: { Self → Self → Bool };

    fn same(&self, other: &Self) -> bool
        ensures { result ≡ alike self.now other.now };
}

/// Whether the lists are as long, and each item is the same as the one at its place in the other list.
pub fn all_same<T: Same>(a: &[T], b: &[T]) -> bool
    ensures { result ≡ all_alike T.alike a.now b.now }
{
    let mut right = b;
    for x in a {
        let [y, others @ ..] = right else {
            return false;
        };
        if !x.same(y) {
            return false;
        }
        right = others;
    }
    right.is_empty()
}
