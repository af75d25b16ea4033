//! Failures of a test's expectations.

ghost use Rattle.std.specs.Prelude.{◌≡◌, true, false, MatchResult};

use std::fmt::{Debug, Display};
use std::test::Fail;

/// Fails with these words unless the condition holds.
pub fn holds<W: Display + Drop>(condition: bool, words: W) -> Result<(), Fail>
    ensures { MatchResult result (λ _. condition ≡ true) (λ _. condition ≡ false) }
{
    if condition {
        return Ok(());
    }
    Err(Fail::new(words))
}

/// Fails with both values and these words unless the two are equal.
pub fn eq<T: PartialEq + Debug, W: Display + Drop>(found: &T, due: &T, words: W) -> Result<(), Fail>
    ensures { MatchResult result (λ _. T.eq found.now due.now ≡ true) (λ _. T.eq found.now due.now ≡ false) }
{
    if *found == *due {
        return Ok(());
    }
    Err(Fail::new(format_args!("{found:?} is not {due:?} {words}")))
}
