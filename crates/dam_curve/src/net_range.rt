//! The ends of a curve: past them some period doesn't balance.

ghost use Rattle.std.specs.Prelude.{◌≡◌, ◌⊎◌, ℤ, ◌≤ℤ◌, ◌<ℤ◌, Some, None, List};
ghost use Rattle.dam_hour.specs.declared.step.Step.{Step};
ghost use Rattle.dam_curve.specs.Curve.{CurvesState, IsCurveAt, joint_welfare};

use crate::curves::Curve;

/// The net volumes between which periods balance, in tenths of a MW.
#[derive(Clone, Copy, PartialEq, Eq, Debug)]
pub struct NetRange {
    /// The least net volume at which each of them balances.
    pub least: i32,
    /// The greatest.
    pub most: i32,
}

impl Curve {
    /// The range of the net volumes at which each of the curve's periods balances. If they balance at none, its least net
    /// volume is above its greatest.
    pub fn net_range(self) -> NetRange
        ensures outside { (curves : CurvesState) (periods : List (List Step)) (least most net : ℤ)
            → IsCurveAt curves self periods least most → least ≤ℤ net → net ≤ℤ most
            → (net <ℤ result.least) ⊎ (result.most <ℤ net)
            → joint_welfare periods net ≡ None }
        ensures inside { (curves : CurvesState) (periods : List (List Step)) (least most net : ℤ)
            → IsCurveAt curves self periods least most
            → result.least ≤ℤ net → net ≤ℤ result.most
            → (w : ℤ) × (joint_welfare periods net ≡ Some w) }
    {
        NetRange {
            least: self.least,
            most: self.most,
        }
    }
}
