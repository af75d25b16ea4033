//! Lines on standard error about the files of a node and its port.

use cg_settings_file::{Unset, wanted_by_agents};
use cg_types::{Endpoint, Fault};
use std::io;
use std::io::Eprint;

/// Prints a file and its fault.
pub(crate) fn tell_file<R: Eprint>(rt: &R, path: &str, fault: Fault) {
    let _ = eprintln!(rt; "cg agent: {path}: {fault}");
}

/// Prints a file and the error at which a call of the system failed.
pub(crate) fn tell_error<R: Eprint>(rt: &R, path: &str, error: &io::Error) {
    let _ = eprintln!(rt; "cg agent: {path}: {error}");
}

/// Prints a settings file, the key that is refused, and the values that it wants.
pub(crate) fn tell_unset<R: Eprint>(rt: &R, path: &str, unset: &Unset) {
    let Some(key) = &unset.key else {
        tell_file(rt, path, unset.fault);
        return;
    };
    match wanted_by_agents(key.as_str()) {
        Some(wanted) => {
            let _ = eprintln!(rt; "cg agent: {path}: key \"{key}\": {wanted} wanted");
        }
        None => {
            let _ = eprintln!(rt; "cg agent: {path}: key \"{key}\": no key of an agent");
        }
    }
}

/// Prints the endpoint at which a node can't listen, and why.
pub(crate) fn tell_deaf<R: Eprint>(rt: &R, own: Endpoint, error: &io::Error) {
    let kind = error.kind();
    let _ = eprintln!(rt; "cg agent: cannot listen at {own}: {kind}");
}
