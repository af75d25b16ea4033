//! Laws of the limits, of the names of keys and of the lines of faults, each the contract of an empty function.

ghost use Rattle.std.specs.Prelude.{◌≡◌};
ghost use Rattle.cg_types.specs.declared.fault.Fault.TheVariants.{OutOfMemory, ReadFault};
ghost use Rattle.cg_types.specs.declared.fault.TheConstants.{OUT_OF_MEMORY_LINE, READ_FAULT_LINE};
ghost use Rattle.cg_types.specs.Fault.{fault_text};
ghost use Rattle.cg_types.specs.Key.{EachKeyHasItsName};
ghost use Rattle.cg_types.specs.Limits.{LimitValues};

/// Each limit has the value that is documented.
pub fn limits_have_their_values()
    ensures { LimitValues }
{}

/// No two keys of states have one name.
pub fn keys_have_names_of_their_own()
    ensures { EachKeyHasItsName }
{}

/// The lines that are kept as bytes are those that the faults write.
pub fn lines_are_those_of_the_faults()
    ensures memory { OUT_OF_MEMORY_LINE.now ≡ fault_text OutOfMemory }
    ensures read { READ_FAULT_LINE.now ≡ fault_text ReadFault }
{}
