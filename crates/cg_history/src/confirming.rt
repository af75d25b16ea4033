//! The test of receipts against records.

ghost use Rattle.std.specs.Prelude.{◌≡◌, ◌↔◌, IsTrue, MatchResult};
ghost use Rattle.cg_history.specs.Greatest.{AreAtMost};
ghost use Rattle.cg_history.specs.Confirming.{IsOf, Stands, ComesAfterAll, AreInOrder, AreConfirmed, IsFirstUnconfirmed, unconfirmed_fault};

use crate::greatest::Greatest;
use crate::item::{Item, Receipt, UnconfirmedReceipt};
use cg_types::Fault;

// Returns `true` if a receipt comes after the earlier ones of its caller, given that each of those does. A number
// greater than all of the caller's group shows it; else the nearest earlier receipt of the caller decides.
fn follows(before: &[Receipt], greatest: &Greatest, receipt: &Receipt) -> bool
    requires order { AreInOrder before.now }
    requires at_most { AreAtMost greatest.now before.now }
    ensures { IsTrue result ↔ ComesAfterAll before.now receipt.now }
{
    if greatest.of(receipt.caller) < receipt.number {
        return true;
    }
    let mut place = before.len();
    while place > 0 {
        place -= 1;
        let earlier = &before[place];
        if earlier.caller == receipt.caller {
            return earlier.number < receipt.number;
        }
    }
    true
}

// Returns `true` if a record is the one of a receipt.
fn is_of(item: &Item, receipt: &Receipt) -> bool
    ensures { IsTrue result ↔ IsOf item.now receipt.now }
{
    item.caller == receipt.caller && item.event == receipt.event && item.reply == receipt.reply
}

// Returns `true` if the record of a receipt is among the records, before which some were folded.
fn has(folded: u64, records: &[Item], receipt: &Receipt) -> bool
    ensures { IsTrue result ↔ Stands folded records.now receipt.now }
{
    match receipt.number.saturating_sub(folded).checked_sub(1) {
        None => false,
        Some(place) => match records.get(place as usize) {
            None => false,
            Some(item) => is_of(item, receipt),
        },
    }
}

// Returns the fault of a receipt that is not confirmed.
fn fault_of(folded: u64, receipt: &Receipt) -> Fault
    ensures { result ≡ unconfirmed_fault folded receipt.now }
{
    if receipt.number > 0 && receipt.number <= folded {
        Fault::Folded
    } else {
        Fault::Stranger
    }
}

/// Tests whether each receipt is in the records at its number, with its caller, event and reply, and numbers rise for
/// each caller. The records are those after the first `folded`, which are no longer kept. It takes no memory.
///
/// If not, it returns the first receipt that does not pass: as `Folded` if its number is 1 to `folded`, else as
/// `Stranger`.
///
/// Each receipt is compared with its record, and its number with the greatest so far among callers that leave the same
/// remainder by 1,024. Only if the number is not greater is the receipt compared with the nearest earlier one of its
/// caller. That takes as many steps as there are receipts of others between the two. So the time is linear in the
/// receipts if numbers rise, and if no two callers leave the same remainder; it is quadratic at worst.
pub fn confirms(
    folded: u64,
    records: &[Item],
    receipts: &[Receipt],
) -> Result<(), UnconfirmedReceipt>
    ensures { MatchResult result
        (λ _. AreConfirmed folded records.now receipts.now)
        (λ unconfirmed. IsFirstUnconfirmed folded records.now receipts.now unconfirmed) }
{
    let mut greatest = Greatest::new();
    for place in 0..receipts.len() {
        let receipt = &receipts[place];
        if !has(folded, records, receipt) || !follows(&receipts[..place], &greatest, receipt) {
            return Err(UnconfirmedReceipt {
                place,
                fault: fault_of(folded, receipt),
            });
        }
        greatest.raise(receipt.caller, receipt.number);
    }
    Ok(())
}
