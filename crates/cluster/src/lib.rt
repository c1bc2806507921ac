//! A cluster of two halves in one process, and the exchange that heals their split.
#![tactic(auto)]

mod cluster;
mod crew;
mod fault;
mod finishing;
mod halves;
mod healing;
mod plan;
mod renewing;
mod settling;

pub use cluster::Cluster;
pub use fault::HealFault;
pub use healing::Healing;
pub use plan::Plan;
