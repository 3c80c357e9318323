//! The rows of a grid: times of day, aligned over its columns.
//!
//! From the names of a column's times the longest common beginning that ends at a blank is cut; a column of one time
//! loses as many words as the column that loses fewest of those with more times. Where some rest is in two columns, or
//! there is but one, and the rests of all columns can be merged into one order, the rows are these rests. Else they are
//! positions.

use crate::busy::empty_lists;
use crate::layout::Column;
use crate::naming::time_name;
use khe_base::{NoMemory, Seq, Text, both};
use std::alloc::Global;
use xhstt_references::{Names, Seed};
use xhstt_shape::RawInstance;

/// A row of a grid: what it is called, or nothing where it has its position only, and the time that it has in each
/// column.
#[derive(Drop)]
pub(crate) struct Row {
    pub name: Option<Text>,
    pub times: Seq<Option<u32>>,
}

/// How many bytes two texts have in common at their beginnings.
fn common(first: &[u8], other: &[u8]) -> usize {
    let mut count = 0usize;
    for (one, two) in first.iter().zip(other.iter()) {
        if *one != *two {
            return count;
        }
        count = count.saturating_add(1);
    }
    count
}

/// How many blanks are among the first bytes of a text.
fn blanks(text: &[u8], first: usize) -> usize {
    let mut count = 0usize;
    for byte in text.iter().take(first) {
        if *byte == b' ' {
            count = count.saturating_add(1);
        }
    }
    count
}

/// How many words the names of a column with these times lose: those of their common beginning.
fn words_of(raw: &RawInstance, times: &[u32]) -> usize {
    let Some(first) = times.first() else {
        return 0;
    };
    let name = time_name(raw, *first).as_bytes();
    let mut shared = name.len();
    for time in times {
        shared = shared.min(common(name, time_name(raw, *time).as_bytes()));
    }
    blanks(name, shared)
}

/// How many words a column of one time loses: the fewest that one with more times loses.
fn fewest_words(raw: &RawInstance, columns: &[Column]) -> usize {
    let mut fewest = usize::MAX;
    for column in columns {
        if column.times.len() > 1 {
            fewest = fewest.min(words_of(raw, column.times.as_slice()));
        }
    }
    if fewest == usize::MAX { 0 } else { fewest }
}

/// The rest of a name without its first words, or the whole name where it has no more words than these.
fn rest_of(alloc: Global, name: &Text, words: usize) -> Result<Text, NoMemory> {
    if blanks(name.as_bytes(), usize::MAX) < words {
        return name.copy(alloc);
    }
    let mut rest = Text::new(alloc);
    let mut left = words;
    for character in name.as_str().chars() {
        if left == 0 {
            rest.push(character)?;
        } else if character == ' ' {
            left = left.saturating_sub(1);
        }
    }
    Ok(rest)
}

/// The rests of the names of all columns' times, one column after the other.
fn rests_of(alloc: Global, raw: &RawInstance, columns: &[Column]) -> Result<Seq<Text>, NoMemory> {
    let fewest = fewest_words(raw, columns);
    let mut rests = Seq::new(alloc);
    for column in columns {
        let times = column.times.as_slice();
        let words = if times.len() > 1 {
            words_of(raw, times)
        } else {
            fewest
        };
        add_rests(alloc, &mut rests, raw, times, words)?;
    }
    Ok(rests)
}

/// Adds the rests of the names of a column's times.
fn add_rests(
    alloc: Global,
    rests: &mut Seq<Text>,
    raw: &RawInstance,
    times: &[u32],
    words: usize,
) -> Result<(), NoMemory> {
    for time in times {
        let rest = rest_of(alloc, time_name(raw, *time), words)?;
        rests.push(rest)?;
    }
    Ok(())
}

/// The numbers of some texts by their order, equal ones having one number.
fn distinct(alloc: Global, texts: &[Text]) -> Result<Names, NoMemory> {
    let mut seed = Seed::new();
    for text in texts {
        seed.add(text.spelling());
    }
    let mut names = Names::new(alloc, seed.number());
    for text in texts {
        let _ = names.insert(text)?;
    }
    Ok(names)
}

/// The number of each rest of each column.
fn numbered(
    alloc: Global,
    columns: &[Column],
    rests: &[Text],
    names: &Names,
) -> Result<Seq<Seq<u32>>, NoMemory> {
    let mut lists = empty_lists(alloc, columns.len())?;
    let mut next = 0usize;
    for column in 0..columns.len() {
        for _ in columns[column].times.as_slice() {
            if let Some(rest) = rests.get(next) {
                let number = names.number(rest).unwrap_or(usize::MAX);
                let number = u32::try_from(number).unwrap_or(u32::MAX);
                push_at(&mut lists, column, number)?;
            }
            next = next.saturating_add(1);
        }
    }
    Ok(lists)
}

/// Adds a number to the list at a place, where there is one.
fn push_at(lists: &mut Seq<Seq<u32>>, place: usize, number: u32) -> Result<(), NoMemory> {
    if place < lists.len() {
        return lists.items[place].push(number);
    }
    Ok(())
}

/// How far columns are merged.
#[derive(Drop)]
struct Merging {
    /// How often each rest is in a column.
    wanted: Vec<u32>,
    /// How many columns each rest is next of.
    fronts: Vec<u32>,
    /// How many rests of each column have their rows.
    done: Vec<usize>,
}

/// The rest that is next of a column.
fn next_of(merging: &Merging, columns: &[Seq<u32>], column: usize) -> Option<u32> {
    let done = merging.done.get(column).copied()?;
    let numbers = columns.get(column)?;
    numbers.as_slice().get(done).copied()
}

/// Adds one to a count, where there is one at the place.
fn count(counts: &mut Vec<u32>, place: u32) {
    let place = place as usize;
    if place < counts.len() {
        counts[place] = counts[place].saturating_add(1);
    }
}

/// Columns of which no rest has its row yet.
fn begun(alloc: Global, columns: &[Seq<u32>], rests: usize) -> Result<Merging, NoMemory> {
    let wanted = vec![in alloc; 0u32; rests]?;
    let fronts = vec![in alloc; 0u32; rests]?;
    let done = vec![in alloc; 0usize; columns.len()]?;
    let mut merging = Merging {
        wanted,
        fronts,
        done,
    };
    for column in columns {
        for number in column.as_slice() {
            count(&mut merging.wanted, *number);
        }
        if let Some(number) = column.as_slice().first() {
            count(&mut merging.fronts, *number);
        }
    }
    Ok(merging)
}

/// The rest that the next row is: the first, by columns, that is next of each column that it is in.
fn next_row(merging: &Merging, columns: &[Seq<u32>]) -> Option<u32> {
    for column in 0..columns.len() {
        if let Some(number) = next_of(merging, columns, column) {
            let wanted = merging.wanted.get(number as usize);
            if wanted.is_some() && wanted == merging.fronts.get(number as usize) {
                return Some(number);
            }
        }
    }
    None
}

/// Gives a rest its row in each column that it is next of.
fn take(merging: &mut Merging, columns: &[Seq<u32>], number: u32) {
    for column in 0..columns.len() {
        if next_of(merging, columns, column) == Some(number) && column < merging.done.len() {
            merging.done[column] = merging.done[column].saturating_add(1);
            if let Some(next) = next_of(merging, columns, column) {
                count(&mut merging.fronts, next);
            }
        }
    }
}

/// The time of each column of which a rest is next.
fn times_at(
    alloc: Global,
    merging: &Merging,
    columns: &[Column],
    numbers: &[Seq<u32>],
    number: u32,
) -> Result<Seq<Option<u32>>, NoMemory> {
    let mut times = Seq::new(alloc);
    for column in 0..columns.len() {
        let is_next = next_of(merging, numbers, column) == Some(number);
        let done = merging.done.get(column).copied().unwrap_or(usize::MAX);
        let time = columns[column].times.as_slice().get(done).copied();
        times.push(if is_next { time } else { None })?;
    }
    Ok(times)
}

/// Whether each rest of each column has its row.
fn is_done(merging: &Merging, numbers: &[Seq<u32>]) -> bool {
    (0..numbers.len()).all(|column| next_of(merging, numbers, column).is_none())
}

/// A rest by its number.
fn copied(alloc: Global, rests: &[Text], number: u32) -> Result<Option<Text>, NoMemory> {
    match rests.get(number as usize) {
        Some(rest) => Ok(Some(rest.copy(alloc)?)),
        None => Ok(None),
    }
}

/// The row of a rest with this number, which is next of some columns.
fn row_of(
    alloc: Global,
    merging: &Merging,
    columns: &[Column],
    numbers: &[Seq<u32>],
    rests: &[Text],
    number: u32,
) -> Result<Row, NoMemory> {
    let times = times_at(alloc, merging, columns, numbers, number);
    let (times, name) = both(times, copied(alloc, rests, number))?;
    Ok(Row { name, times })
}

/// The rows of the rests, each of which has its own, or none where the columns can't be merged.
fn merged(
    alloc: Global,
    columns: &[Column],
    numbers: &[Seq<u32>],
    rests: &[Text],
) -> Result<Option<Seq<Row>>, NoMemory> {
    let mut merging = begun(alloc, numbers, rests.len())?;
    let mut rows = Seq::new(alloc);
    for _ in rests {
        if let Some(number) = next_row(&merging, numbers) {
            let row = row_of(alloc, &merging, columns, numbers, rests, number)?;
            rows.push(row)?;
            take(&mut merging, numbers, number);
        }
    }
    if is_done(&merging, numbers) {
        return Ok(Some(rows));
    }
    Ok(None)
}

/// The rests that are not there before, by their numbers.
fn firsts(alloc: Global, rests: &[Text], names: &Names) -> Result<Seq<Text>, NoMemory> {
    let mut firsts = Seq::new(alloc);
    for rest in rests {
        if names.number(rest) == Some(firsts.len()) {
            let first = rest.copy(alloc)?;
            firsts.push(first)?;
        }
    }
    Ok(firsts)
}

/// Rows that are rests, or none where they are to be positions.
fn by_rests(
    alloc: Global,
    raw: &RawInstance,
    columns: &[Column],
) -> Result<Option<Seq<Row>>, NoMemory> {
    let rests = rests_of(alloc, raw, columns)?;
    let names = distinct(alloc, rests.as_slice())?;
    if columns.len() != 1 && names.len() == rests.len() {
        return Ok(None);
    }
    let numbers = numbered(alloc, columns, rests.as_slice(), &names);
    let (numbers, firsts) = both(numbers, firsts(alloc, rests.as_slice(), &names))?;
    merged(alloc, columns, numbers.as_slice(), firsts.as_slice())
}

/// Rows that are positions: at least one, for the times that have a column of their own.
fn by_positions(alloc: Global, columns: &[Column]) -> Result<Seq<Row>, NoMemory> {
    let mut height = 1usize;
    for column in columns {
        height = height.max(column.times.len());
    }
    let mut rows = Seq::new(alloc);
    for position in 0..height {
        let times = times_in(alloc, columns, position)?;
        rows.push(Row { name: None, times })?;
    }
    Ok(rows)
}

/// The time of each column at a position.
fn times_in(
    alloc: Global,
    columns: &[Column],
    position: usize,
) -> Result<Seq<Option<u32>>, NoMemory> {
    let mut times = Seq::new(alloc);
    for column in columns {
        times.push(column.times.as_slice().get(position).copied())?;
    }
    Ok(times)
}

/// The rows of a grid with these columns. It takes time in proportion to its rows times its columns.
pub(crate) fn rows_of(
    alloc: Global,
    raw: &RawInstance,
    columns: &[Column],
) -> Result<Seq<Row>, NoMemory> {
    match by_rests(alloc, raw, columns)? {
        Some(rows) => Ok(rows),
        None => by_positions(alloc, columns),
    }
}
