//! A line of a script, as a value: settings, an action or a view.

use cg_core::Settings;
use cg_text::View;
use cg_types::Endpoint;
use cg_world::Action;

/// A line of a script.
#[derive(Debug, Drop)]
pub enum Line {
    /// `seeds EP ..`: the settings of all nodes, with these seeds.
    Seeds(Settings),
    /// `start`, `beat`, `set`, `open`, `tick` or `deliver`: an action.
    Act(Action),
    /// `gossipinfo`, `ring`, `digests` or `replicas`: a view of a node.
    Show(Endpoint, View),
}
