//! What runs of programs end with, beside what they are to end with.

use crate::comparing::{Tally, note_unrun};
use crate::playing::text_of;
use khe_base::NoMemory;
use khe_io::MemorySink;

/// The status of a run, and all that it writes before.
#[derive(Clone, Copy)]
pub(crate) struct End<'a> {
    pub(crate) status: u8,
    pub(crate) text: &'a str,
}

/// What a run came to: its status and what its sink took.
pub(crate) type Ran = Result<(u8, MemorySink), NoMemory>;

/// Notes in a tally whether a run ended as it should, or that it could not be run.
pub(crate) fn note_run<R: Print>(
    rt: &R,
    tally: &mut Tally,
    what: &str,
    ran: &Ran,
    wanted: End<'_>,
) {
    match ran {
        Ok((status, sink)) => {
            let came = End {
                status: *status,
                text: text_of(sink.taken()),
            };
            note_end(rt, tally, what, came, wanted);
        }
        Err(_) => note_unrun(rt, tally, what),
    }
}

/// Notes in a tally whether a run ended as it should, and prints where it did not.
fn note_end<R: Print>(rt: &R, tally: &mut Tally, what: &str, came: End<'_>, wanted: End<'_>) {
    tally.compared = tally.compared.saturating_add(1);
    if came.status != wanted.status || came.text != wanted.text {
        tally.differing = tally.differing.saturating_add(1);
        let (left, right) = first_difference(came.text, wanted.text);
        let _ = println!(rt;
            "{}\nstatus {}, wanted {}\ncame:\n{}\nwanted:\n{}",
            what, came.status, wanted.status, left, right
        );
    }
}

/// The first lines of two texts that are not the same, each with nothing where its text has ended.
fn first_difference<'a>(came: &'a str, wanted: &'a str) -> (&'a str, &'a str) {
    let mut left = came.lines();
    let mut right = wanted.lines();
    loop {
        match (left.next(), right.next()) {
            (Some(one), Some(other)) => {
                if one != other {
                    return (one, other);
                }
            }
            (one, other) => return (one.unwrap_or(""), other.unwrap_or("")),
        }
    }
}

/// The first bytes of a text.
pub(crate) fn front_of(text: &str, count: usize) -> &str {
    match text.split_at_checked(count) {
        Some((front, _)) => front,
        None => text,
    }
}
