//! An agent's dispatcher: it sets times of the agent's points one by one, each within a window that the times set so far leave.
#![tactic(auto)]

pub mod chooser;
pub mod dispatcher;
mod falling;
pub mod plan;

pub use chooser::Chooser;
pub use dispatcher::Dispatcher;
pub use plan::Chosen;
