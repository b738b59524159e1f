// What holds of every run of the machine.
ghost use Rattle.job_core.specs.Runs.{EveryClosedRunSettles};

/// Does nothing. Its contract is the theorem on every run of the machine that ends with `Close`, in whatever order
/// the seats' steps came: each piece was taken once, and was entered once in every shard, or fails and was reported,
/// or was skipped and comes after one that was reported; and the outcome is that of one seat that takes the pieces
/// in order.
pub fn every_closed_run()
    ensures { EveryClosedRunSettles }
{}
