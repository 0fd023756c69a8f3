//! Laws of the steps of controllers. Each function does nothing: its contract is the law.

ghost use Rattle.stored_state.specs.Laws as law;

/// A message changes no controller of another job.
pub fn jobs_stay_apart()
    // Proved: **A message changes no controller of a job whose master neither sent it nor is to
    // take it**: so jobs whose masters have different names go on side by side.
    ensures { law.JobsStayApart }
{}
