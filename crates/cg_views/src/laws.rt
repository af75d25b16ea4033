//! Laws of reads among each other, of told puts and of the limit: contracts of functions that do nothing.

ghost use Rattle.cg_views.specs.Reading.{ReadsNeverFall, ToldSetsAreRead};
ghost use Rattle.cg_views.specs.Limits.{PassLimitValue};

/// No owner's entry goes back from one read to the next, if the first read begins the next, as the clauses of `read`
/// and `learn` say.
pub fn reads_never_fall()
    ensures { ReadsNeverFall }
{}

/// A key that was set in the own entry is read at its version or a later one, if what was told begins what was read.
pub fn told_sets_are_read()
    ensures { ToldSetsAreRead }
{}

/// The limit of passes has the value that is documented.
pub fn pass_limit_has_its_value()
    ensures { PassLimitValue }
{}
