//! The seats of an agent's workers.

ghost use Rattle.std.specs.Prelude.{◌≡◌, ◌+◌, ◌<◌, vec_len};
ghost use Rattle.std.specs.List.{sum_by};

use cg_locked::{Name, Seat};

/// Takes the last seat.
pub(crate) fn take_last<N: Name>(seats: &mut Vec<Seat<N>>) -> Seat<N>
    requires { 0 < vec_len seats.old }
    ensures fewer { vec_len seats.new + 1 ≡ vec_len seats.old }
    ensures amounts { sum_by (λ s. s.amount) seats.new.items + result.amount ≡ sum_by (λ s. s.amount) seats.old.items }
    ensures parts { sum_by (λ s. s.parts) seats.new.items + result.parts ≡ sum_by (λ s. s.parts) seats.old.items }
{
    seats.pop().unwrap()
}
