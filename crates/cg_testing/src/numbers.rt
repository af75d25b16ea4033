//! Sample endpoints, generations, versions and keys by their numbers.

ghost use Rattle.std.specs.Prelude.{◌≡◌, ◌+◌};
ghost use Rattle.cg_types.specs.Numbers.{endpoint_of};
ghost use Rattle.cg_testing.specs.Nearest.{nearest_number, nearest_key};

use cg_types::{Endpoint, Generation, NUMBER_LIMIT, STATE_LIMIT, StateKey, Version};

/// The number of the endpoint 10.0.0.1:7000.
pub const A: u16 = 1;

/// The number of the endpoint 10.0.0.2:7000.
pub const B: u16 = 2;

/// The number of the endpoint 10.0.0.3:7000.
pub const C: u16 = 3;

/// The endpoint 10.0.HIGH.LOW:7000, of the two bytes of the number: endpoints rise with their numbers.
pub fn endpoint(number: u16) -> Endpoint
    ensures { result ≡ endpoint_of (167772160 + number) 7000 }
{
    let [a, b, c, d] = (167772160 + u32::from(number)).to_be_bytes();
    match Endpoint::new([a, b, c, d], 7000) {
        Some(endpoint) => endpoint,
        None => unreachable!(),
    }
}

/// The generation of a number, or the nearest one.
pub fn generation(number: u32) -> Generation
    ensures { result ≡ nearest_number number }
{
    match Generation::new(number.max(1).min(NUMBER_LIMIT - 1)) {
        Some(generation) => generation,
        None => unreachable!(),
    }
}

/// The version of a number, or the nearest one.
pub fn version(number: u32) -> Version
    ensures { result ≡ nearest_number number }
{
    match Version::new(number.max(1).min(NUMBER_LIMIT - 1)) {
        Some(version) => version,
        None => unreachable!(),
    }
}

/// The key of a number, or the nearest one.
pub fn key(number: u8) -> StateKey
    ensures { result ≡ nearest_key number }
{
    match StateKey::new(number.max(1).min(STATE_LIMIT)) {
        Some(key) => key,
        None => unreachable!(),
    }
}
