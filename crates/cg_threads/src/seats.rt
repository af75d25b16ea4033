//! The seats of the workers.

ghost use Rattle.std.specs.Prelude.{◌≡◌, ◌≤◌, [], map, vec_len, vec_capacity};
ghost use Rattle.std.specs.List.{sum_by};
ghost use Rattle.cg_locked.specs.Shared.{callers_up_to};
ghost use Rattle.cg_threads.specs.Seats.{AreWorkers, AreUnused, parts_of};

use cg_locked::{Name, Seat};

/// The seat of each worker.
#[derive(Drop)]
pub struct Seats<N: Name> {
    pub receiver: Seat<N>,
    pub sender: Seat<N>,
    pub ticker: Seat<N>,
    pub operator: Seat<N>,
}

// Gives each of four new seats to its worker, and gives the list back.
pub(crate) fn given<N: Name>(seats: Vec<Seat<N>>) -> (Seats<N>, Vec<Seat<N>>)
    requires seats { (vec_len seats ≡ 4) × (map (λ s. s.caller) seats.items ≡ callers_up_to 4) }
    requires amounts { sum_by (λ s. s.amount) seats.items ≡ 0 }
    ensures callers { AreWorkers result.0 }
    ensures amounts { AreUnused result.0 }
    ensures parts { parts_of result.0 ≡ sum_by (λ s. s.parts) seats.items }
    ensures list { (result.1.items ≡ []) × (4 ≤ vec_capacity result.1) }
{
    let mut seats = seats;
    let operator = seats.pop().unwrap();
    let ticker = seats.pop().unwrap();
    let sender = seats.pop().unwrap();
    let receiver = seats.pop().unwrap();
    (
        Seats {
            receiver,
            sender,
            ticker,
            operator,
        },
        seats,
    )
}
