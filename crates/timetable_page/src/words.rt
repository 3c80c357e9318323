//! The words of the command line.

ghost use Rattle.std.specs.Prelude.{◌≡◌, ◌≤◌, ℕ, Option, None, Some, List, map, MatchOption, string_bytes};
ghost use Rattle.timetable_page.specs.Words as spec;

use khe_base::digits::number_of;
use khe_base::limits::{DIGITS, WORKERS};

/// How many solutions have timetables on a page where the words don't say.
pub const SHOWN: u32 = 8;

/// What options say.
#[derive(Clone, Copy)]
pub struct Told {
    /// How many of the first solutions have timetables.
    pub most: Option<u32>,
    /// Whether solutions that have timetables are named.
    pub listed: bool,
    /// How many workers judge the solutions, 1 to `WORKERS`.
    pub workers: Option<u32>,
}

/// Which solutions have timetables: the first ones, or those that the options name.
#[derive(Clone, Copy)]
pub struct Choice<'a> {
    /// What the options say.
    pub told: Told,
    /// The words of the options.
    pub options: &'a [String],
}

/// What the words of the command line ask for: the page of an archive.
#[derive(Clone, Copy)]
pub(crate) struct Request<'a> {
    /// The name of the archive.
    pub archive: &'a str,
    pub choice: Choice<'a>,
}

impl Choice<'_> {
    /// Whether the solution with a number has timetables. It takes time in proportion to the options.
    pub(crate) fn shows(&self, number: u32) -> bool
        ensures { result ≡ spec.shows self.now number }
    {
        if self.told.listed {
            return is_listed(self.options, number);
        }
        number < self.told.most.unwrap_or(SHOWN)
    }

    /// How many workers judge the solutions: one where the options don't say.
    pub(crate) fn workers(&self) -> u32
        ensures { (1 ≤ result) × (result ≤ WORKERS) }
    {
        self.told.workers.unwrap_or(1).clamp(1, WORKERS)
    }
}

/// What these words ask for, or `None` where they have no reading: an archive's name, and options with their values in
/// any order: `--solutions` or `--workers` at most once, or `--solution` as often as is wanted in place of `--solutions`.
#[tactic(auto, unfolding(crate::specs::Words::asked))]
pub(crate) fn request_of(words: &[String]) -> Option<Request<'_>>
    ensures { MatchOption result (spec.asked (map string_bytes words.now) ≡ None) (λ r. spec.asked (map string_bytes words.now) ≡ Some (r.archive.now, spec.shows r.choice)) }
{
    let [archive, options @ ..] = words else {
        return None;
    };
    let told = told_by(options)?;
    let choice = Choice { told, options };
    Some(Request {
        archive: archive.as_str(),
        choice,
    })
}

/// What options say, or `None` where they have no reading.
fn told_by(options: &[String]) -> Option<Told>
    ensures { result ≡ spec.told_by spec.nothing_told (map string_bytes options.now) }
{
    let mut told = Told {
        most: None,
        listed: false,
        workers: None,
    };
    let mut rest = options;
    while let [option, value, more @ ..] = rest {
        told = with_option(told, option.as_str(), value.as_str())?;
        rest = more;
    }
    if rest.is_empty() { Some(told) } else { None }
}

/// What is said with an option and its value more, or `None` where it has no reading.
#[tactic(auto, unfolding(crate::specs::Words::with_option))]
fn with_option(told: Told, option: &str, value: &str) -> Option<Told>
    ensures { result ≡ spec.with_option told option.now value.now }
{
    if "--solution" == option {
        return with_listed(told, value);
    }
    if "--solutions" == option {
        return with_most(told, value);
    }
    if "--workers" == option {
        return with_workers(told, value);
    }
    None
}

/// What is said with a solution that is named: in place of how many of the first ones.
#[tactic(auto, unfolding(crate::specs::Words::with_listed))]
fn with_listed(told: Told, value: &str) -> Option<Told>
    ensures { result ≡ spec.with_listed told value.now }
{
    let _named = number_of(DIGITS, value.as_bytes())?;
    if told.most.is_some() {
        return None;
    }
    Some(Told {
        most: None,
        listed: true,
        workers: told.workers,
    })
}

/// What is said with how many of the first solutions have timetables: once, and where none is named.
#[tactic(auto, unfolding(crate::specs::Words::with_most))]
fn with_most(told: Told, value: &str) -> Option<Told>
    ensures { result ≡ spec.with_most told value.now }
{
    let most = number_of(DIGITS, value.as_bytes())?;
    if told.most.is_some() || told.listed {
        return None;
    }
    Some(Told {
        most: Some(most),
        listed: false,
        workers: told.workers,
    })
}

/// What is said with a number of workers, once.
#[tactic(auto, unfolding(crate::specs::Words::with_workers))]
fn with_workers(told: Told, value: &str) -> Option<Told>
    ensures { result ≡ spec.with_workers told value.now }
{
    let workers = number_of(DIGITS, value.as_bytes())?;
    if told.workers.is_some() || workers < 1 || workers > WORKERS {
        return None;
    }
    Some(Told {
        most: told.most,
        listed: told.listed,
        workers: Some(workers),
    })
}

/// Whether options name the solution with a number.
fn is_listed(options: &[String], number: u32) -> bool
    ensures { result ≡ spec.is_listed (map string_bytes options.now) number }
{
    let mut rest = options;
    while let [option, value, more @ ..] = rest {
        if is_named(option.as_str(), value.as_str(), number) {
            return true;
        }
        rest = more;
    }
    false
}

/// Whether an option with its value names the solution with a number.
#[tactic(auto, unfolding(crate::specs::Words::is_named))]
fn is_named(option: &str, value: &str, number: u32) -> bool
    ensures { result ≡ spec.is_named option.now value.now number }
{
    if "--solution" == option {
        return is_number(value, number);
    }
    false
}

/// Whether a word writes a number.
#[tactic(auto, unfolding(crate::specs::Words::is_number))]
fn is_number(value: &str, number: u32) -> bool
    ensures { result ≡ spec.is_number value.now number }
{
    match number_of(DIGITS, value.as_bytes()) {
        Some(named) => named == number,
        None => false,
    }
}
