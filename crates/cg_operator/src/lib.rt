//! The operator of a running node: lines that show what the node holds, and that set or remove its keys.
//!
//! A line is read by its words; a view of a table is one text. The operator reads the table without a lock. Each line is
//! answered at once: its text is written and flushed before the next line is done. A `Console` is this operator at the
//! standard streams.
#![tactic(auto)]

mod answering;
mod command;
mod console;
mod operating;
mod reading;
mod shown;

pub use command::OperatorCommand;
pub use console::Console;
pub use operating::operate;
pub use reading::read_command;
pub use shown::{add_unpublished, table_text};
