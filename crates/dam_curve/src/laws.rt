//! The laws of the definitions, each the contract of a function that does nothing.
//!
//! A caller that needs one of them in a proof calls the function, at no cost.

ghost use Rattle.std.specs.Prelude.{ℤ, ◌≤ℤ◌, List};
ghost use Rattle.dam_hour.specs.declared.step.Step.{Step};
ghost use Rattle.dam_curve.specs.JointPrice.{IsJointPrice};

/// The clearing prices of periods, added up, fall as the net volume rises. At equal net volumes they are equal.
pub fn prices_fall_as_net_rises()
    ensures { (periods : List (List Step)) (net other price other_price : ℤ)
        → IsJointPrice periods net price → IsJointPrice periods other other_price
        → net ≤ℤ other
        → other_price ≤ℤ price }
{
    dam_hour::laws::prices_fall_as_net_rises();
}
