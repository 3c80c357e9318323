//! The lines on what is short.

ghost use Rattle.std.specs.Prelude.{◌≡◌, ◌++◌, ◌+◌, ◌≤◌, OnOk, IfOk, IsTrue, codes, length, drop};
ghost use Rattle.std.specs.Fmt.{decimal};
ghost use Rattle.khe_base.specs.Text.{is_ascii};
ghost use Rattle.evaluation_report.specs.Demands as spec;
ghost use Rattle.hall_report.specs.declared.demand.Demand.TheVariants as demand;

use crate::words::push_count;
use hall_report::Demand;
use itoa::write_digits;
use khe_base::{MeetId, NoMemory, ResourceId, Text, TimeId};
use std::alloc::Global;

/// The first line on what is short, `deficit D demands N`: how many demands no assignment can serve,
/// and how many demands compete, which have a line each.
///
/// It fails only where memory is refused. It takes constant time and memory.
pub fn deficit_line(alloc: Global, deficit: u32, demands: u32) -> Result<Text, NoMemory>
    ensures { IfOk result (λ t. t ≡ spec.deficit_line deficit demands) }
{
    let mut line = Text::new(alloc);
    line.push_literal("deficit ")?;
    line.push_number(u128::from(deficit))?;
    line.push_literal(" demands ")?;
    line.push_number(u128::from(demands))?;
    line.push_literal("\n")?;
    Ok(line)
}

/// Adds the line of a demand: `demand M P O` for a task, with the number of its meet, its place and
/// the offset, or `unavailable R T` for a resource that is to be free at a time, by their numbers.
///
/// It fails only where memory is refused. It takes constant time, and no memory but for what is added.
pub fn push_demand_line(line: &mut Text, demand: Demand) -> Result<(), NoMemory>
    ensures { OnOk result (line.new ≡ line.old ++ spec.demand_line demand) }
{
    match demand {
        Demand::Task {
            meet,
            place,
            offset,
        } => push_task(line, meet, place, offset),
        Demand::Unavailable { resource, time } => push_unavailable(line, resource, time),
    }
}

/// Adds the line of a task's demand. A script that asks what is short writes millions of these, so the line is put
/// together on the stack, from its end on, and added at once: each text that is added by itself costs a look at the
/// memory that is left, and a copy of a few bytes.
#[tactic(auto, unfolding(crate::specs::Demands::demand_line))]
fn push_task(line: &mut Text, meet: MeetId, place: u32, offset: u32) -> Result<(), NoMemory>
    ensures { OnOk result (line.new ≡ line.old ++ spec.demand_line (demand.Task meet place offset)) }
{
    let mut room = [b'\n'; 48];
    line.push_literal(task_text(&mut room, meet.0, place, offset))
}

/// The line of a task, written in front of the line feed that the room ends with.
fn task_text(room: &mut [u8; 48], meet: u32, place: u32, offset: u32) -> &str
    requires { drop 47 room.old ≡ codes "\n" }
    ensures text { result.now
        ≡ codes "demand " ++ decimal meet ++ codes " " ++ decimal place ++ codes " " ++ decimal offset ++ codes "\n" }
    ensures ascii { IsTrue (is_ascii result.now) }
{
    let begin = put_task(room, meet, place, offset);
    unsafe { str::from_utf8_unchecked(&room[begin..]) }
}

/// Writes the line of a task in front of the line feed that the room ends with, and answers where it begins.
fn put_task(room: &mut [u8], meet: u32, place: u32, offset: u32) -> usize
    requires long { length room.old ≡ 48 }
    requires feed { drop 47 room.old ≡ codes "\n" }
    ensures within { result ≤ 48 }
    ensures written { drop result room.new
        ≡ codes "demand " ++ decimal meet ++ codes " " ++ decimal place ++ codes " " ++ decimal offset ++ codes "\n" }
{
    let at = put_number(room, offset, 47);
    let at = put_number(room, place, at);
    let at = put_number(room, meet, at);
    put_demand(room, at)
}

/// Writes a space and a number in front of what stands from `end` on, and answers where the space stands.
fn put_number(room: &mut [u8], number: u32, end: usize) -> usize
    requires within { end ≤ length room.old }
    requires space { 11 ≤ end }
    ensures short { end ≤ result + 11 }
    ensures within { result ≤ end }
    ensures written { drop result room.new ≡ codes " " ++ (decimal number ++ drop end room.old) }
{
    let at = write_digits(number as u64, room, end) - 1;
    room[at] = b' ';
    at
}

/// Writes `demand` in front of what stands from `end` on, and answers where it begins.
fn put_demand(room: &mut [u8], end: usize) -> usize
    requires within { end ≤ length room.old }
    requires space { 6 ≤ end }
    ensures within { result ≤ end }
    ensures written { drop result room.new ≡ codes "demand" ++ drop end room.old }
{
    let at = end - 6;
    room[at..end].copy_from_slice(b"demand");
    at
}

/// Adds the line of a resource that is to be free at a time.
#[tactic(auto, unfolding(crate::specs::Demands::demand_line))]
fn push_unavailable(line: &mut Text, resource: ResourceId, time: TimeId) -> Result<(), NoMemory>
    ensures { OnOk result (line.new ≡ line.old ++ spec.demand_line (demand.Unavailable resource time)) }
{
    line.push_literal("unavailable ")?;
    push_numbers(line, resource.0, time.0)
}

/// Adds two numbers with a space between them, and the line feed.
fn push_numbers(line: &mut Text, first: u32, second: u32) -> Result<(), NoMemory>
    ensures { OnOk result (line.new ≡ line.old ++ (decimal first ++ codes " " ++ decimal second ++ codes "\n")) }
{
    push_count(line, u128::from(first))?;
    line.push_literal(" ")?;
    push_count(line, u128::from(second))?;
    line.push_literal("\n")
}
