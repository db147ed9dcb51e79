//! What an agent has told.
use elim_step::Summary;
use stn_model::AgentId;

/// An agent that has published, with its summary.
#[derive(Drop)]
pub struct Told {
    pub(crate) agent: AgentId,
    pub(crate) summary: Summary,
}
