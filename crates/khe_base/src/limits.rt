//! The greatest sizes of an instance, each with its name. An archive beyond one of them is refused by that
//! name; within them no sum of durations, deviations or costs overflows. Also the greatest numbers of the
//! command line, and how many bytes are read or written at a time.

/// The greatest number of bytes of an archive: 64 MiB.
pub const ARCHIVE_BYTES: u64 = 67_108_864;

/// The greatest value of a number of an archive, but for the upper bounds of constraints.
pub const NUMBER: u32 = 1_000_000;

/// The greatest upper bound of a constraint: 2^31 - 1. A missing one is this number.
pub const GREATEST_BOUND: u32 = 2_147_483_647;

/// The greatest number of times of an instance.
pub const TIMES: u32 = 4_000;

/// The greatest number of time groups of an instance, weeks and days among them.
pub const TIME_GROUPS: u32 = 10_000;

/// The greatest number of resource types of an instance.
pub const RESOURCE_TYPES: u32 = 1_000;

/// The greatest number of resources of an instance.
pub const RESOURCES: u32 = 10_000;

/// The greatest number of resource groups of an instance.
pub const RESOURCE_GROUPS: u32 = 10_000;

/// The greatest number of events of an instance.
pub const EVENTS: u32 = 10_000;

/// The greatest number of event groups of an instance, courses among them.
pub const EVENT_GROUPS: u32 = 10_000;

/// The greatest number of constraints of an instance.
pub const CONSTRAINTS: u32 = 10_000;

/// The greatest sum of the durations of the events of an instance.
pub const DURATION: u32 = 100_000;

/// The greatest number of tasks of an instance: for each event its duration times its resources.
pub const TASKS: u32 = 400_000;

/// The greatest number of cells of an instance: its resources times its times.
pub const CELLS: u32 = 4_000_000;

/// The greatest number of time groups that one constraint lists.
pub const LISTED: u32 = 10_000;

/// The greatest number of monitors of an instance.
pub const MONITORS: u32 = 1_000_000;

/// The greatest number of watches of an instance: the events and the listed times that its
/// monitors name, together.
pub const WATCHES: u32 = 8_000_000;

/// The greatest least common multiple of the durations of the events of an instance: 2^62.
pub const UNIT: u64 = 4_611_686_018_427_387_904;

/// The greatest number of solutions of an archive.
pub const SOLUTIONS: u32 = 10_000;

/// The greatest weight of a constraint.
pub const WEIGHT: u32 = 1_000_000;

/// The greatest number of elements of an archive that are open at once.
pub const DEPTH: u32 = 32;

/// The greatest number of groups of monitors of a state.
pub const GROUPS: u32 = 200;

/// The greatest number of open marks.
pub const MARKS: u32 = 1_000;

/// The greatest number of moves of a chain of a repair.
pub const CHAIN_MOVES: u32 = 4;

/// The greatest number of chains that a repair may try.
pub const BUDGET: u32 = 1_000_000_000;

/// The greatest number of repairs of one timetable, each with its number as diversifier.
pub const JOBS: u32 = 10_000;

/// The greatest number of workers that share solutions or repairs.
pub const WORKERS: u32 = 64;

/// The greatest number of events of an archive that is made.
pub const MADE_EVENTS: u32 = 2_000;

/// The greatest number of bytes of a script: 16 MiB.
pub const SCRIPT_BYTES: u64 = 16_777_216;

/// The greatest number of digits of a number on the command line: the number then fits in 64 bits.
pub const DIGITS: usize = 18;

/// How many bytes are read or written at a time: 64 KiB.
pub const PIECE_BYTES: usize = 65_536;

/// The greatest deviation that the limits allow, 4 * 10^11: the workload of a resource that has all tasks, each
/// of the greatest workload.
pub const GREATEST_DEVIATION: u64 = TASKS as u64 * NUMBER as u64;

/// The greatest cost of one monitor that the limits allow: the greatest weight times the square of
/// the greatest deviation, 1.6 * 10^29.
pub const GREATEST_COST: u128 = WEIGHT as u128
    * GREATEST_DEVIATION as u128
    * GREATEST_DEVIATION as u128;

/// The greatest hard or soft total that the limits allow, of all monitors or of a group of them:
/// 1.6 * 10^35.
pub const GREATEST_TOTAL: u128 = MONITORS as u128 * GREATEST_COST;

/// The greatest count of one cell of a timetable, a resource and a time: the greatest number of
/// tasks.
pub const GREATEST_COUNT: u32 = TASKS;
