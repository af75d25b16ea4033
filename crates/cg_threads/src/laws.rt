//! Laws of receipts and of the callers' numbers, each the contract of an empty function.

ghost use Rattle.cg_threads.specs.Laws.{ReceiptsHaveTheNumbers};
ghost use Rattle.cg_threads.specs.Callers.{CallersHaveTheirNumbers};

/// The receipts of a caller's events of a kind have the numbers of the records of these, in their order, if confirmed
/// receipts are as many as the records.
pub fn receipts_have_the_numbers()
    ensures { ReceiptsHaveTheNumbers }
{}

/// Records and receipts name each worker by its number, and there are as many workers as callers.
pub fn callers_have_their_numbers()
    ensures { CallersHaveTheirNumbers }
{}
