use ruby_topology::Topology;
use ruby_world::RunLimits;
use slicc_plan::Plan;

/// What a run is, beside what happens in it: its protocol, its topology, its bounds, and its driver as it begins. It stands in contracts
/// alone: a running program makes none.
pub struct RunPlan<D> {
    pub plan: Plan,
    pub topology: Topology,
    pub limits: RunLimits,
    pub driver: D,
}
