// The places behind the last element of a list, which must be blank.
ghost use Rattle.std.specs.Prelude.{◌≡◌, Bool};
ghost use Rattle.std.specs.Fn.{FnReturnsAt};
ghost use Rattle.basis.specs.Lists.{all};

// The loop has no early way out, so that the compiler can look at several places at once.
pub fn all_blank<T, B: Fn(&T) -> bool>(places: &[T], is_blank: B) -> bool
    requires { B.IsAlwaysCallable is_blank }
    ensures { (test : T → Bool) → ((x : T) (r : Bool) → FnReturnsAt B.Fn is_blank x r → r ≡ test x) → result ≡ all test places.now }
{
    let mut blank = true;
    for x in places {
        blank &= is_blank(x);
    }
    blank
}
