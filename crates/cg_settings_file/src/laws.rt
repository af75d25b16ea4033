//! Laws of the settings, each the contract of an empty function.

ghost use Rattle.std.specs.Prelude.{ℕ, List};
ghost use Rattle.cg_settings_file.specs.Laws.{LimitValues, AreDistinct};
ghost use Rattle.cg_settings_file.specs.Seeds.{distinct};

/// The limits are 1,000,000 rounds or exchanges and 60,000 ms; the default interval is 1,000 ms, the default seed 0. An
/// agent has at most 1,000,000 MiB of journal, 1,000,000 records and 8 receivers; by default 1,024, 1,000 and 2.
pub fn limits_have_their_values()
    ensures { LimitValues }
{}

/// Seeds that were sorted and made distinct rise strictly, and are the ones that were listed.
pub fn seeds_rise_and_are_those_listed()
    ensures { (listed : List ℕ) → AreDistinct listed (distinct listed) }
{}
