//! For tests: expectations, which fail and say what they found, and sample values over the types that all crates share.
//!
//! `expect!(x < 5)?` and `expect_eq!(x, 5)?` are used in tests where `assert!` and `assert_eq!` could be. They return
//! the failure and do not panic. So all that a test still holds is dropped in one place, and its proof is short. A number
//! that names no value gives the nearest value, so that samples of numbers cannot fail.
#![tactic(auto)]

mod entries;
mod expected;
mod nodes;
mod numbers;
mod texts;

pub use entries::{bare_delta, bare_entry, delta, entry_at_start, state};
pub use expected::{eq, holds};
pub use nodes::settings;
pub use numbers::{A, B, C, endpoint, generation, key, version};
pub use texts::{cluster, long_text};

/// Fails unless the condition holds, and then shows its text, or the words after it, as `format!` writes them.
#[macro_export]
macro_rules! expect {
    ($condition:expr $(,)?) => {
        $crate::holds($condition, concat!("not so: ", stringify!($condition)))
    };
    ($condition:expr, $($words:tt)+) => {
        $crate::holds($condition, format_args!($($words)+))
    };
}

/// Fails unless the two are equal, and then shows both, and the words after them, as `format!` writes them.
#[macro_export]
macro_rules! expect_eq {
    ($found:expr, $due:expr $(,)?) => {
        $crate::eq(&$found, &$due, "")
    };
    ($found:expr, $due:expr, $($words:tt)+) => {
        $crate::eq(&$found, &$due, format_args!($($words)+))
    };
}
