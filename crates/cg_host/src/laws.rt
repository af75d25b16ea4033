//! The law of the files, the contract of an empty function.

ghost use Rattle.cg_host.specs.Generation.{KeptIsRead};

/// The text of a generation is read back as that generation.
pub fn a_kept_generation_is_read()
    ensures { KeptIsRead }
{}
