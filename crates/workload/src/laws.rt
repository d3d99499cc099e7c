//! What the definition of a workload gives, for parts worked by hand.

ghost use Rattle.workload.specs.Prelude.{AreWorkedWorkloads};

/// The definition gives the parts of workloads that were worked by hand.
#[tactic(auto, using(crate::proofs::WorkedWorkload::worked))]
pub fn worked_workloads()
    ensures { AreWorkedWorkloads }
{}
