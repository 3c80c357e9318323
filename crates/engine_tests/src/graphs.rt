//! Defects far apart among many monitors, and the children of a group in their order.

use crate::hand_graphs::{child, edit, graph_of, group_cost, remove_and_undo, set_each};
use khe_base::{GroupId, MonitorId, NoMemory, Totals};
use khe_told::Edit;
use monitor_graph::Graph;
use std::alloc::Global;
use std::test::Fail;

/// Defects at the edges of words, of 64 words and of 4,096 words, and the last monitor.
const FAR: &[u32] = &[
    0, 63, 64, 4_095, 4_096, 4_160, 262_143, 262_144, 700_001, 999_999,
];

/// The defects that are left without two of them.
const LEFT: &[u32] = &[0, 63, 4_095, 4_096, 4_160, 262_143, 700_001, 999_999];

/// Adds these monitors to the first group, which is made, and answers whether all were accepted.
fn group_of(graph: &mut Graph, children: &[u32]) -> Result<bool, NoMemory> {
    if edit(graph, Edit::MakeGroup)? != Ok(Some(0)) {
        return Ok(false);
    }
    for number in children {
        let add = Edit::AddChild {
            group: GroupId(0),
            child: MonitorId(*number),
        };
        if edit(graph, add)? != Ok(None) {
            return Ok(false);
        }
    }
    Ok(true)
}

/// Whether these are the children of the first group, in this order.
fn has_children(graph: &Graph, children: &[u32]) -> bool {
    let mut place = 0u32;
    for number in children {
        if child(graph, 0, place) != Some(MonitorId(*number)) {
            return false;
        }
        place = place.saturating_add(1);
    }
    child(graph, 0, place).is_none()
}

/// Whether a child that is removed comes back to its place.
fn comes_back(graph: &mut Graph) -> Result<bool, NoMemory> {
    let grouped = group_of(graph, &[1, 0, 2])? && has_children(graph, &[1, 0, 2]);
    let undone = remove_and_undo(graph, GroupId(0), MonitorId(0))?;
    Ok(grouped && undone && has_children(graph, &[1, 0, 2]))
}

/// Whether this is so among three monitors.
fn keeps_order(alloc: Global) -> Result<bool, NoMemory> {
    let mut graph = graph_of(alloc, &[(1, true)], 3)?;
    comes_back(&mut graph)
}

#[test]
fn a_child_comes_back_to_its_place(rt: HostRuntime) -> Result<(), Fail> {
    assert!(rt; keeps_order(rt.alloc())?);
    Ok(())
}

/// Whether the last of a million monitors goes into each of the 200 groups.
fn is_grouped(graph: &mut Graph) -> Result<bool, NoMemory> {
    for group in 0..200u32 {
        let last = Edit::AddChild {
            group: GroupId(group),
            child: MonitorId(999_999),
        };
        if edit(graph, Edit::MakeGroup)? != Ok(Some(group)) || edit(graph, last)? != Ok(None) {
            return Ok(false);
        }
    }
    Ok(graph.monitors() == 1_000_000)
}

/// Walks through all defects, and compares their numbers.
fn are_defects(graph: &Graph, numbers: &[u32]) -> bool {
    let mut from = 0;
    for number in numbers {
        if graph.next_defect(from) != Some(MonitorId(*number)) || *number == u32::MAX {
            return false;
        }
        from = *number + 1;
    }
    graph.next_defect(from).is_none()
}

/// Whether the defects are these after each of a thousand changes. A walk over all monitors for each defect,
/// or over all of them for each deviation that is set, would take minutes here.
fn are_found(graph: &mut Graph) -> bool {
    for deviation in 1..=1_000u64 {
        set_each(graph, FAR, deviation);
        if !are_defects(graph, FAR) {
            return false;
        }
    }
    true
}

/// Whether this is what the monitors cost then, and the last one in the last group.
fn costs_are_told(graph: &Graph) -> bool {
    let all = Totals {
        hard: 5_000,
        soft: 5_000,
    };
    let last = Totals {
        hard: 0,
        soft: 1_000,
    };
    graph.totals() == all && group_cost(graph, 199) == Some(last)
}

/// Whether two of the defects go.
fn are_left(graph: &mut Graph) -> bool {
    set_each(graph, &[64, 262_144], 0);
    are_defects(graph, LEFT) && graph.next_defect(1_000_000).is_none()
}

fn finds_them(graph: &mut Graph) -> bool {
    are_found(graph) && costs_are_told(graph) && are_left(graph)
}

/// Whether all this holds of a graph of a million monitors.
fn walks_far(alloc: Global) -> Result<bool, NoMemory> {
    let mut graph = graph_of(alloc, &[(1, true), (1, false)], 500_000)?;
    Ok(matches!(is_grouped(&mut graph), Ok(true)) && finds_them(&mut graph))
}

#[test]
fn defects_far_apart_among_a_million_monitors(rt: HostRuntime) -> Result<(), Fail> {
    assert!(rt; walks_far(rt.alloc())?);
    Ok(())
}
