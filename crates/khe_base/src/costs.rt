//! What a deviation costs under a constraint's cost function and weight.

ghost use Rattle.std.specs.Prelude.{◌≡◌, ◌≤◌};
ghost use Rattle.khe_base.specs.Costs.{cost_of};
ghost use Rattle.khe_base.specs.declared.limits.TheConstants.{GREATEST_COST, GREATEST_DEVIATION, WEIGHT};

/// How the cost of a deviation grows: the `CostFunction` of a constraint.
#[derive(Clone, Copy, Debug, PartialEq, Eq)]
pub enum CostFn {
    /// The weight for each unit of deviation.
    Linear,
    /// The weight times the square of the deviation.
    Quadratic,
    /// The weight once, for any deviation above 0.
    Step,
}

/// The cost of a deviation under a weight: `w * d`, `w * d * d`, or `w` where `d` is above 0.
///
/// It takes constant time and no memory. The source of the three functions is the cost function
/// of the XHSTT format.
pub fn cost(function: CostFn, weight: u32, deviation: u64) -> u128
    requires weight { weight ≤ WEIGHT }
    requires deviation { deviation ≤ GREATEST_DEVIATION }
    ensures exact { result ≡ cost_of function weight deviation }
    ensures small { result ≤ GREATEST_COST }
{
    let weight = u128::from(weight);
    let deviation = u128::from(deviation);
    match function {
        CostFn::Linear => weight * deviation,
        CostFn::Quadratic => weight * deviation * deviation,
        CostFn::Step => { if deviation > 0 { weight } else { 0 } }
    }
}
