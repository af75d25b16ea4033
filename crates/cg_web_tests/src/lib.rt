//! Tests of the server of a node over HTTP: the bytes that answer the bytes of a connection.
#![tactic(auto)]

#[cfg(test)]
mod answered;
#[cfg(test)]
mod exchanges;
#[cfg(test)]
mod nodes;
#[cfg(test)]
mod refused;
