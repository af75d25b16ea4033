//! Values that show what holds of them.

ghost use Rattle.std.specs.List.{AllByRecursion};

/// Something of which a fact holds by its type alone, as that a version is in its range. The prover sees that fact in a
/// body only where a call states it. `show` is that call: it states the fact, and does nothing when the program runs.
pub trait Shows {
    /// Holds of each value of the type.
    ghost Shown: { Self → Type 0 };

    /// States what holds of this value.
    fn show(&self)
        ensures { Shown self.now };
}

/// States what holds of each member of a list. A walk that does nothing takes no time.
pub fn show_all<T: Shows>(members: &[T])
    ensures { AllByRecursion T.Shown members.now }
{
    for member in members {
        member.show();
    }
}

impl<T: Shows> Shows for Option<T> {
    ghost use Rattle.std.specs.Prelude.{IfSome};

    ghost Shown = { λ value. IfSome value T.Shown };

    #[inline(always)]
    fn show(&self) {
        if let Some(value) = self {
            value.show();
        }
    }
}
