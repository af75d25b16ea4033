//! `sim`: a script of starts, changes, rounds, losses and repeats, read line by line and played over the nodes of a
//! cluster. The words of a line are as `cg_text` reads them; generations are 1 to 2,147,483,647.
#![tactic(auto)]

pub mod laws;
mod line;
mod play;
mod printing;
mod reading;
mod settings;
mod simulating;
mod telling;
mod word;

pub use line::Line;
pub use reading::read_line;
pub use settings::settings_with;
pub use simulating::sim;
