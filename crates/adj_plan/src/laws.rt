//! What a plan says.

ghost use Rattle.adj_plan.specs.Told.{PlansAreTold};

/// What the lines of a plan say of statements is what its analyses say.
pub fn plan_law()
    ensures { PlansAreTold }
{}
