//! A cluster's name, and bytes in hexadecimal digits.

ghost use Rattle.std.specs.Prelude.{◌≡◌};
ghost use Rattle.cg_types.specs.Text.{cluster_of};
ghost use Rattle.cg_types.specs.declared.limits.TheConstants.{PARTITIONER};
ghost use Rattle.hex.specs.Hex.{decode_of};
ghost use Rattle.cg_text.specs.Gives.{readable, Finds};

use cg_types::{Cluster, Fault};
use hex::FromHexError;
use std::alloc::Global;

/// Reads a cluster's name, of 1 to 48 bytes, and returns the cluster of that name.
pub fn cluster_named(alloc: Global, name: &[u8]) -> Result<Cluster, Fault>
    ensures { Finds (λ c. c) result (readable (cluster_of name.now PARTITIONER)) }
{
    let Ok(name) = std::str::from_utf8(name) else {
        return Err(Fault::BadText);
    };
    match Cluster::new(alloc, name) {
        Ok(cluster) => Ok(cluster),
        Err(Fault::OutOfMemory) => Err(Fault::OutOfMemory),
        Err(_) => Err(Fault::BadText),
    }
}

/// Decodes an even number of hexadecimal digits to bytes; upper-case digits count too.
pub fn bytes_in(alloc: Global, digits: &[u8]) -> Result<Vec<u8>, Fault>
    ensures { Finds (λ v. v.items) result (readable (decode_of digits.now)) }
{
    match hex::decode(alloc, digits) {
        Ok(bytes) => Ok(bytes),
        Err(FromHexError::OutOfMemory) => Err(Fault::OutOfMemory),
        Err(_) => Err(Fault::BadText),
    }
}
