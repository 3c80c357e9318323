//! What the monitors that prefer some of a task's resources to others cost by the resource that it is given.

ghost use Rattle.std.specs.Prelude.{◌≡◌, ◌<◌, ◌≤◌, ◌+◌, if◌then◌else◌, All, IfOk, length};
ghost use Rattle.khe_base.specs.declared.limits.TheConstants.{GREATEST_COST, GREATEST_DEVIATION, MONITORS};
ghost use Rattle.khe_instance.specs.Costs.{is_hard};
ghost use Rattle.resource_match.specs.Smallness.{IsSmall};
ghost use Rattle.time_match.specs.Alike.{prefers_at};
ghost use Rattle.time_match.specs.Wishes.{IsSmallWish, capped, cost_more, is_preferred, prefers_place, wish_at, wish_cost, wished, wishes_among};

use crate::reads::facts;
use khe_base::limits::GREATEST_DEVIATION;
use khe_base::{EventId, MonitorId, NoMemory, ResourceId, Seq, Totals, cost};
use khe_engine::Engine;
use khe_instance::{Instance, Monitor, Point, Rule};
use khe_told::Family;
use std::alloc::Global;

/// What such a monitor costs with a resource of its set, and with any other.
#[derive(Clone, Copy)]
pub(crate) struct Wish {
    /// The number of its constraint.
    pub constraint: u32,
    /// Whether its cost is hard.
    pub required: bool,
    pub inside: u128,
    pub outside: u128,
}

/// Whether the constraint with a number prefers a resource.
fn is_preferred(inst: &Instance, constraint: u32, resource: ResourceId) -> bool
    ensures { result ≡ is_preferred inst.now constraint resource }
{
    if constraint >= inst.constraints() {
        return false;
    }
    match &inst.constraint(constraint).rule {
        Rule::PreferResources { resources, .. } => resources.has(resource.0),
        _ => false,
    }
}

/// What a wish costs with a resource.
fn wish_cost(inst: &Instance, wish: Wish, resource: ResourceId) -> u128
    requires { IsSmallWish wish }
    ensures is { result ≡ wish_cost inst.now resource wish }
    ensures small { result ≤ GREATEST_COST }
{
    if is_preferred(inst, wish.constraint, resource) {
        wish.inside
    } else {
        wish.outside
    }
}

/// What of a cost is hard.
fn hard_of(required: bool, cost: u128) -> u128
    ensures is { result ≡ (if required then cost else 0) }
    ensures small { result ≤ cost }
{
    if required { cost } else { 0 }
}

/// What of a cost is soft.
fn soft_of(required: bool, cost: u128) -> u128
    ensures is { result ≡ (if required then 0 else cost) }
    ensures small { result ≤ cost }
{
    if required { 0 } else { cost }
}

/// What wishes cost together with a resource, in time in proportion to them.
fn sum_of(inst: &Instance, wishes: &[Wish], resource: ResourceId) -> Totals
    requires few { length wishes.now ≤ MONITORS }
    requires each { All IsSmallWish wishes.now }
    ensures is { result ≡ wished inst.now wishes.now resource }
    ensures small { IsSmall result }
{
    let mut hard = 0;
    let mut soft = 0;
    for wish in wishes {
        let cost = wish_cost(inst, *wish, resource);
        hard += hard_of(wish.required, cost);
        soft += soft_of(wish.required, cost);
    }
    Totals { hard, soft }
}

/// What wishes cost together with a resource of an engine's instance, in time in proportion to them.
pub(crate) fn wished<F: Family>(
    engine: &Engine<'_, F>,
    wishes: &[Wish],
    resource: ResourceId,
) -> Totals
    requires few { length wishes.now ≤ MONITORS }
    requires each { All IsSmallWish wishes.now }
    ensures is { result ≡ wished engine.now.parts wishes.now resource }
    ensures small { IsSmall result }
{
    sum_of(engine.instance(), wishes, resource)
}

/// A deviation raised by the given number, or the greatest one.
fn capped(deviation: u64, more: u32) -> u64
    ensures is { result ≡ capped (deviation + more) }
    ensures small { result ≤ GREATEST_DEVIATION }
{
    if deviation > GREATEST_DEVIATION {
        return GREATEST_DEVIATION;
    }
    let sum = deviation + u64::from(more);
    if sum > GREATEST_DEVIATION {
        GREATEST_DEVIATION
    } else {
        sum
    }
}

/// What a monitor would cost if its deviation rose by the given number.
fn cost_more<F: Family>(engine: &Engine<'_, F>, number: MonitorId, more: u32) -> u128
    requires { number.0 < length engine.now.parts.monitors }
    ensures is { result ≡ cost_more engine.now.parts engine.now.state more number.0 }
    ensures small { result ≤ GREATEST_COST }
{
    facts(engine);
    let inst = engine.instance();
    let monitor = inst.monitor(number);
    let own = inst.constraint(monitor.constraint);
    if !engine.attached(number) {
        return 0;
    }
    let deviation = capped(engine.deviation(number), more);
    cost(own.cost, own.weight, deviation)
}

/// Whether the cost of a monitor is hard.
fn is_hard(inst: &Instance, monitor: Monitor) -> bool
    ensures { result ≡ is_hard inst.now monitor }
{
    monitor.constraint < inst.constraints() && inst.constraint(monitor.constraint).required
}

/// What a monitor costs as it is, and what it would cost if its deviation rose by the given number.
fn wish_of<F: Family>(engine: &Engine<'_, F>, number: MonitorId, more: u32) -> Wish
    requires { number.0 < length engine.now.parts.monitors }
    ensures is { result ≡ wish_at engine.now.parts engine.now.state more number.0 }
    ensures small { IsSmallWish result }
{
    facts(engine);
    let inst = engine.instance();
    let monitor = inst.monitor(number);
    Wish {
        constraint: monitor.constraint,
        required: is_hard(inst, monitor),
        inside: engine.cost(number),
        outside: cost_more(engine, number, more),
    }
}

/// Whether a rule prefers some resources at a point, which is a place of an event.
fn prefers_at(rule: &Rule, point: Point, event: EventId, place: u32) -> bool
    ensures { result ≡ prefers_at rule.now point event.0 place }
{
    let Rule::PreferResources { .. } = rule else {
        return false;
    };
    match point {
        Point::EventResource {
            event: own,
            place: at,
        } => event.0 == own.0 && place == at,
        _ => false,
    }
}

/// Whether the monitor with a number prefers some resources at a place of an event.
fn prefers(inst: &Instance, number: u32, event: EventId, place: u32) -> bool
    ensures { result ≡ prefers_place inst.now event.0 place number }
{
    if number >= inst.monitors() {
        return false;
    }
    let own = inst.monitor(MonitorId(number));
    if own.constraint >= inst.constraints() {
        return false;
    }
    prefers_at(
        &inst.constraint(own.constraint).rule,
        own.point,
        event,
        place,
    )
}

/// The wishes at a place of an event, for a meet of a duration, of these monitors. It takes time in proportion to
/// them.
pub(crate) fn wishes_among<F: Family>(
    alloc: Global,
    engine: &Engine<'_, F>,
    event: EventId,
    place: u32,
    duration: u32,
    numbers: &[u32],
) -> Result<Seq<Wish>, NoMemory>
    ensures are { IfOk result (λ ws. ws ≡ wishes_among engine.now.parts engine.now.state event.0 place duration numbers.now) }
    ensures small { IfOk result (All IsSmallWish) }
{
    let inst = engine.instance();
    let mut wishes = Seq::new(alloc);
    for number in numbers {
        if prefers(inst, *number, event, place) {
            wishes.push(wish_of(engine, MonitorId(*number), duration))?;
        }
    }
    Ok(wishes)
}
