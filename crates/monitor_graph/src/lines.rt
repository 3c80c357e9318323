//! One monitor with its deviation, and what it costs.

ghost use Rattle.std.specs.Prelude.{◌≡◌, ◌<◌, ◌≤◌, ◌+◌, ◌-◌, ◌*◌, ◌^◌, ℕ, List, length, slice_get, slice_index_or, slice_set, All};
ghost use Rattle.std.specs.List.{sum_by};
ghost use Rattle.std.specs.Option.{option_map_or};
ghost use Rattle.khe_base.specs.declared.limits.TheConstants.{GREATEST_COST, GREATEST_DEVIATION, MONITORS};
ghost use Rattle.khe_base.specs.declared.numbers.MonitorId.{MonitorId};
ghost use Rattle.monitor_graph.specs.Lines.{line_cost, hard_cost, soft_cost, IsLine, AreTotalled};
ghost use Rattle.monitor_graph.specs.Trials.{AreTotalsWith, IsStill};

use khe_base::{CostFn, MonitorId, Totals, cost};

/// A monitor: how its constraint costs, and what it has now.
#[derive(Clone, Copy)]
pub struct Line {
    pub function: CostFn,
    pub weight: u32,
    /// Whether its cost is hard.
    pub required: bool,
    /// A monitor that is detached costs nothing.
    pub attached: bool,
    pub deviation: u64,
}

/// What a monitor costs, in constant time.
pub(crate) fn cost_of(line: &Line) -> u128
    requires { IsLine line.now }
    ensures value { result ≡ line_cost line.now }
    ensures small { result ≤ GREATEST_COST }
{
    if line.attached {
        cost(line.function, line.weight, line.deviation)
    } else {
        0
    }
}

/// What of a monitor's cost is hard.
pub(crate) fn hard_of(line: &Line) -> u128
    requires { IsLine line.now }
    ensures value { result ≡ hard_cost line.now }
    ensures small { result ≤ GREATEST_COST }
{
    hard_part(line, cost_of(line))
}

/// What of a monitor's cost is soft.
pub(crate) fn soft_of(line: &Line) -> u128
    requires { IsLine line.now }
    ensures value { result ≡ soft_cost line.now }
    ensures small { result ≤ GREATEST_COST }
{
    soft_part(line, cost_of(line))
}

/// What is hard of what a monitor costs.
fn hard_part(line: &Line, cost: u128) -> u128
    requires { cost ≡ line_cost line.now }
    ensures { result ≡ hard_cost line.now }
{
    if line.required { cost } else { 0 }
}

/// What is soft of what a monitor costs.
fn soft_part(line: &Line, cost: u128) -> u128
    requires { cost ≡ line_cost line.now }
    ensures { result ≡ soft_cost line.now }
{
    if line.required { 0 } else { cost }
}

/// Takes what a monitor costs from the total that it belongs to.
fn take_cost(hard: &mut u128, soft: &mut u128, line: &Line, cost: u128)
    requires cost { cost ≡ line_cost line.now }
    requires hard { hard_cost line.now ≤ hard.old }
    requires soft { soft_cost line.now ≤ soft.old }
    ensures hard { hard.new ≡ hard.old - hard_cost line.now }
    ensures soft { soft.new ≡ soft.old - soft_cost line.now }
{
    if line.required {
        *hard -= cost;
    } else {
        *soft -= cost;
    }
}

/// Adds what a monitor costs to the total that it belongs to.
fn add_cost(hard: &mut u128, soft: &mut u128, line: &Line, cost: u128)
    requires cost { cost ≡ line_cost line.now }
    requires hard { hard.old + hard_cost line.now < 2 ^ 128 }
    requires soft { soft.old + soft_cost line.now < 2 ^ 128 }
    ensures hard { hard.new ≡ hard.old + hard_cost line.now }
    ensures soft { soft.new ≡ soft.old + soft_cost line.now }
{
    if line.required {
        *hard += cost;
    } else {
        *soft += cost;
    }
}

/// Puts a line in the place of another, of which both costs are known, and keeps the totals by the
/// difference. The line is put first, before anything else is written, so that where its fields were just
/// read from that place only the changed one is stored.
#[tactic(auto, using(crate::proofs::LineLaws::totalled_set))]
pub(crate) fn replace(
    lines: &mut Vec<Line>,
    hard: &mut u128,
    soft: &mut u128,
    place: usize,
    line: Line,
    before: u128,
    after: u128,
)
    requires totalled { AreTotalled lines.old.items hard.old soft.old }
    requires known { place < length lines.old.items }
    requires line { IsLine line }
    requires before { (d : Line) → before ≡ line_cost (slice_index_or lines.old.items place d) }
    requires after { after ≡ line_cost line }
    ensures lines { lines.new.items ≡ slice_set lines.old.items place line }
    ensures totalled { AreTotalled lines.new.items hard.new soft.new }
{
    let old = lines[place];
    lines[place] = line;
    take_cost(hard, soft, &old, before);
    add_cost(hard, soft, &line, after);
}

/// Adjusts totals to a new deviation at a place.
pub(crate) fn shift(lines: &[Line], place: usize, deviation: u64, totals: &mut Totals)
    requires known { place < length lines.now }
    requires each { All IsLine lines.now }
    requires small { deviation ≤ GREATEST_DEVIATION }
    requires before { (ds : List ℕ) × AreTotalsWith lines.now ds totals.old × IsStill lines.now ds place }
    ensures { (ds : List ℕ) → AreTotalsWith lines.now ds totals.old → IsStill lines.now ds place → AreTotalsWith lines.now (slice_set ds place deviation) totals.new }
{
    let old = lines[place];
    if old.deviation == deviation {
        return;
    }
    let line = Line { deviation, ..old };
    exchange(totals, &old, &line);
}

/// Changes totals by the costs of a line that takes the place of another.
pub(crate) fn exchange(totals: &mut Totals, old: &Line, line: &Line)
    requires old { IsLine old.now }
    requires line { IsLine line.now }
    requires hard { hard_cost old.now ≤ totals.old.hard }
    requires soft { soft_cost old.now ≤ totals.old.soft }
    requires hard_small { totals.old.hard ≤ MONITORS * GREATEST_COST }
    requires soft_small { totals.old.soft ≤ MONITORS * GREATEST_COST }
    ensures hard { totals.new.hard ≡ totals.old.hard - hard_cost old.now + hard_cost line.now }
    ensures soft { totals.new.soft ≡ totals.old.soft - soft_cost old.now + soft_cost line.now }
{
    take_cost(&mut totals.hard, &mut totals.soft, old, cost_of(old));
    add_cost(&mut totals.hard, &mut totals.soft, line, cost_of(line));
}

/// The costs of some monitors, added up, in time in proportion to them.
pub(crate) fn totals_among(lines: &[Line], children: &[MonitorId]) -> Totals
    requires each { All IsLine lines.now }
    requires few { length children.now ≤ MONITORS }
    requires known { (k : ℕ) (d : MonitorId) → k < length children.now → (slice_index_or children.now k d).0 < length lines.now }
    ensures hard { result.hard ≡ sum_by (λ c. option_map_or hard_cost (slice_get lines.now c.0) 0) children.now }
    ensures soft { result.soft ≡ sum_by (λ c. option_map_or soft_cost (slice_get lines.now c.0) 0) children.now }
{
    let mut hard = 0;
    let mut soft = 0;
    for place in 0..children.len() {
        let line = &lines[children[place].0 as usize];
        hard += hard_of(line);
        soft += soft_of(line);
    }
    Totals { hard, soft }
}
