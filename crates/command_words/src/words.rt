//! The words of the command line.

ghost use Rattle.std.specs.Prelude.{◌≡◌, ◌≤◌, None, Some, map, IfSome, MatchOption, string_bytes};
ghost use Rattle.command_words.specs.Requests.{IsFit, asked_of, workers_in, AreChains};
ghost use Rattle.command_words.specs.Words.{all_by, archive_by, asked, asked_by, both_by, budget_by, chains_by, check_by, crew_by, depth_by, evaluating, job_by, jobs_by, made_by, make_by, match_by, match_with, placed_by, number_by, number_to, options_by, repair_by, repair_with, run_by, script_by, scripted_by, shares_by, solve_by, solve_with, told_by, value_of, workers_by, workers_of, after_by, construct_by, construct_with};
ghost use Rattle.std.specs.Option.{option_map};
ghost use Rattle.khe_base.specs.declared.limits.TheConstants.{CHAIN_MOVES, JOBS, WORKERS, MADE_EVENTS};

use khe_base::digits::{long_number_of, number_of};
use khe_base::limits::{BUDGET, CHAIN_MOVES, DIGITS, JOBS, MADE_EVENTS, WORKERS};

/// What the words of the command line ask for.
#[derive(Clone, Copy)]
pub enum Request<'a> {
    /// The report of an archive.
    Evaluate {
        /// The name of the archive.
        archive: &'a str,
        /// Whether the report is to have all monitors, also those without a deviation.
        all: bool,
        /// How many workers evaluate, 1 to `WORKERS`.
        workers: u32,
    },
    /// The answers to a script.
    Script {
        /// The name of the archive.
        archive: &'a str,
        /// The number of the solution that the script begins with, over all groups.
        solution: u32,
        /// The name of the script.
        script: &'a str,
        /// Whether its lines may speak of ties.
        tied: bool,
    },
    /// The canonical spelling of an archive.
    Check {
        /// The name of the archive.
        archive: &'a str,
    },
    /// An archive with one of its solutions repaired.
    Repair {
        /// The name of the archive.
        archive: &'a str,
        /// The number of the solution, over all groups.
        solution: u32,
        /// The greatest number of moves of a chain, 1 to `CHAIN_MOVES`.
        depth: u32,
        /// How many chains may be tried, 1 to `BUDGET`.
        budget: u32,
    },
    /// An archive with one of its solutions replaced by the least result of many repairs of it.
    Solve {
        /// The name of the archive.
        archive: &'a str,
        /// The number of the solution, over all groups.
        solution: u32,
        /// The greatest number of moves of a chain, 1 to `CHAIN_MOVES`.
        depth: u32,
        /// How many chains each job may try, 1 to `BUDGET`.
        budget: u32,
        /// How many jobs there are, 1 to `JOBS`.
        jobs: u32,
        /// How many workers do them, 1 to `WORKERS`.
        workers: u32,
    },
    /// An archive with the tasks of one time of one of its solutions matched.
    Match {
        /// The name of the archive.
        archive: &'a str,
        /// The number of the solution, over all groups.
        solution: u32,
        /// The number of the time.
        time: u32,
        /// The number of the resource type.
        rtype: u32,
    },
    /// An archive with a timetable that is constructed of one of its instances.
    Construct {
        /// The name of the archive.
        archive: &'a str,
        /// The number of the instance.
        instance: u32,
        /// Where the timetable is repaired, the greatest number of moves of a chain, 1 to `CHAIN_MOVES`, and how
        /// many chains may be tried, 1 to `BUDGET`.
        chains: Option<(u32, u32)>,
    },
    /// An archive that is made.
    Make {
        /// The seed of what is drawn, of at most `DIGITS` digits.
        seed: u64,
        /// How many events it has, 1 to `MADE_EVENTS`.
        size: u32,
    },
    /// The run of a job that is made.
    Run {
        /// The seed of what is drawn, of at most `DIGITS` digits.
        seed: u64,
        /// How many events it has, 1 to `MADE_EVENTS`.
        size: u32,
    },
}

/// What these words ask for, or `None` where they have no reading: the words are `evaluate`, a name, and in any
/// order `--all` and `--workers` with a number, or nothing more; or `script` or `tied`, a name, a number and a name;
/// or `check` and a name; or `repair`, a name, a number, and in any order `--depth` and `--budget`, each with a
/// number; or `solve`, a name, a number, and in any order these two, `--jobs` and `--workers`, each with a number; or
/// `construct`, a name, a number, and `--depth` and `--budget` in the same way or nothing more; or `match`, a name and
/// three numbers; or `make`, two numbers, and `--run` or nothing more.
pub fn request_of(words: &[String]) -> Option<Request<'_>>
    ensures asked { MatchOption result (asked (map string_bytes words.now) ≡ None) (λ r. asked (map string_bytes words.now) ≡ Some (asked_of r)) }
    ensures fit { IfSome result IsFit }
{
    match words {
        [command, first, more @ ..] => request_by(command.as_str(), first.as_str(), more),
        _ => None,
    }
}

/// What a command asks for with the words after it.
#[tactic(auto, unfolding(crate::specs::Words::asked_by))]
fn request_by<'a>(command: &str, first: &'a str, more: &'a [String]) -> Option<Request<'a>>
    ensures asked { MatchOption result (asked_by command.now first.now (map string_bytes more.now) ≡ None) (λ r. asked_by command.now first.now (map string_bytes more.now) ≡ Some (asked_of r)) }
    ensures fit { IfSome result IsFit }
{
    if command == "make" {
        return make_by(first, more);
    }
    archive_by(command, first, more)
}

/// What a command on an archive asks for with the archive's name and the words after it.
#[tactic(auto, unfolding(crate::specs::Words::archive_by))]
fn archive_by<'a>(command: &str, archive: &'a str, more: &'a [String]) -> Option<Request<'a>>
    ensures asked { MatchOption result (archive_by command.now archive.now (map string_bytes more.now) ≡ None) (λ r. archive_by command.now archive.now (map string_bytes more.now) ≡ Some (asked_of r)) }
    ensures fit { IfSome result IsFit }
{
    if command == "repair" {
        return repair_by(archive, more);
    }
    if command == "solve" {
        return solve_by(archive, more);
    }
    placed_by(command, archive, more)
}

/// What a command that constructs a timetable or matches asks for with the archive's name and the words after it, or
/// one that changes nothing.
#[tactic(auto, unfolding(crate::specs::Words::placed_by))]
fn placed_by<'a>(command: &str, archive: &'a str, more: &'a [String]) -> Option<Request<'a>>
    ensures asked { MatchOption result (placed_by command.now archive.now (map string_bytes more.now) ≡ None) (λ r. placed_by command.now archive.now (map string_bytes more.now) ≡ Some (asked_of r)) }
    ensures fit { IfSome result IsFit }
{
    if command == "construct" {
        return construct_by(archive, more);
    }
    if command == "match" {
        return match_by(archive, more);
    }
    told_by(command, archive, more)
}

/// What a command that changes nothing asks for with the archive's name and the words after it.
#[tactic(auto, unfolding(crate::specs::Words::told_by))]
fn told_by<'a>(command: &str, archive: &'a str, more: &'a [String]) -> Option<Request<'a>>
    ensures asked { MatchOption result (told_by command.now archive.now (map string_bytes more.now) ≡ None) (λ r. told_by command.now archive.now (map string_bytes more.now) ≡ Some (asked_of r)) }
    ensures fit { IfSome result IsFit }
{
    if command == "evaluate" {
        return evaluate_by(archive, more);
    }
    if command == "check" {
        return check_by(archive, more);
    }
    scripted_by(command, archive, more)
}

/// What a command that runs a script asks for with the archive's name and the words after it.
#[tactic(auto, unfolding(crate::specs::Words::scripted_by))]
fn scripted_by<'a>(command: &str, archive: &'a str, more: &'a [String]) -> Option<Request<'a>>
    ensures asked { MatchOption result (scripted_by command.now archive.now (map string_bytes more.now) ≡ None) (λ r. scripted_by command.now archive.now (map string_bytes more.now) ≡ Some (asked_of r)) }
    ensures fit { IfSome result IsFit }
{
    if command == "script" {
        return script_by(false, archive, more);
    }
    if command == "tied" {
        return script_by(true, archive, more);
    }
    None
}

/// The report that is asked for by the options after the archive's name.
fn evaluate_by<'a>(archive: &'a str, options: &'a [String]) -> Option<Request<'a>>
    ensures asked { MatchOption result (option_map (λ o. evaluating archive.now o.0) (options_by (map string_bytes options.now)) ≡ None) (λ r. option_map (λ o. evaluating archive.now o.0) (options_by (map string_bytes options.now)) ≡ Some (asked_of r)) }
    ensures workers { option_map workers_in result ≡ option_map (λ o. o.1) (options_by (map string_bytes options.now)) }
    ensures fit { IfSome result IsFit }
{
    let (all, workers) = options_by(options)?;
    Some(Request::Evaluate {
        archive,
        all,
        workers,
    })
}

/// Whether these options ask for all monitors, and for how many workers; or `None` where they have no
/// reading.
fn options_by(options: &[String]) -> Option<(bool, u32)>
    ensures options { result ≡ options_by (map string_bytes options.now) }
    ensures fit { IfSome result (λ o. (1 ≤ o.1) × (o.1 ≤ WORKERS)) }
{
    match options {
        [] => Some((false, 1)),
        [option] => all_by(option.as_str()),
        [option, value] => workers_by(false, option.as_str(), value.as_str()),
        [first, second, third] => both_by(first.as_str(), second.as_str(), third.as_str()),
        _ => None,
    }
}

/// All monitors by one worker, where the one option asks for all.
#[tactic(auto, unfolding(crate::specs::Words::all_by))]
fn all_by(option: &str) -> Option<(bool, u32)>
    ensures options { result ≡ all_by option.now }
    ensures fit { IfSome result (λ o. (1 ≤ o.1) × (o.1 ≤ WORKERS)) }
{
    if option == "--all" {
        Some((true, 1))
    } else {
        None
    }
}

/// All monitors, and the number of workers, where the words are both options in any order.
#[tactic(auto, unfolding(crate::specs::Words::both_by))]
fn both_by(first: &str, second: &str, third: &str) -> Option<(bool, u32)>
    ensures options { result ≡ both_by first.now second.now third.now }
    ensures fit { IfSome result (λ o. (1 ≤ o.1) × (o.1 ≤ WORKERS)) }
{
    if first == "--all" {
        return workers_by(true, second, third);
    }
    if third == "--all" {
        return workers_by(true, first, second);
    }
    None
}

/// The number of workers that an option asks for with its value, beside whether all monitors are asked
/// for.
#[tactic(auto, unfolding(crate::specs::Words::workers_by))]
fn workers_by(all: bool, option: &str, value: &str) -> Option<(bool, u32)>
    ensures workers { result ≡ workers_by all option.now value.now }
    ensures fit { IfSome result (λ o. (1 ≤ o.1) × (o.1 ≤ WORKERS)) }
{
    if option == "--workers" {
        let workers = workers_of(value)?;
        return Some((all, workers));
    }
    None
}

/// The number of workers that a word writes, 1 to `WORKERS`.
#[tactic(auto, unfolding(crate::specs::Words::workers_of))]
fn workers_of(word: &str) -> Option<u32>
    ensures workers { result ≡ workers_of word.now }
    ensures fit { IfSome result (λ n. (1 ≤ n) × (n ≤ WORKERS)) }
{
    number_to(WORKERS, word)
}

/// The number from 1 to a greatest one that a word writes.
#[tactic(auto, unfolding(crate::specs::Words::number_to))]
fn number_to(greatest: u32, word: &str) -> Option<u32>
    ensures number { result ≡ number_to greatest word.now }
    ensures fit { IfSome result (λ n. (1 ≤ n) × (n ≤ greatest)) }
{
    let number = number_of(DIGITS, word.as_bytes())?;
    if 1 <= number && number <= greatest {
        Some(number)
    } else {
        None
    }
}

/// What a script is asked for by these words after the archive's name.
fn script_by<'a>(tied: bool, archive: &'a str, words: &'a [String]) -> Option<Request<'a>>
    ensures asked { MatchOption result (script_by tied archive.now (map string_bytes words.now) ≡ None) (λ r. script_by tied archive.now (map string_bytes words.now) ≡ Some (asked_of r)) }
    ensures fit { IfSome result IsFit }
{
    let [solution, script] = words else {
        return None;
    };
    Some(Request::Script {
        archive,
        solution: number_of(DIGITS, solution.as_bytes())?,
        script: script.as_str(),
        tied,
    })
}

/// The canonical spelling of an archive, where no word stands after its name.
fn check_by<'a>(archive: &'a str, words: &'a [String]) -> Option<Request<'a>>
    ensures asked { MatchOption result (check_by archive.now (map string_bytes words.now) ≡ None) (λ r. check_by archive.now (map string_bytes words.now) ≡ Some (asked_of r)) }
    ensures fit { IfSome result IsFit }
{
    let [] = words else {
        return None;
    };
    Some(Request::Check { archive })
}

/// The word after an option among words that are options with their values, if the option is there. It
/// takes time in proportion to the words.
fn value_of<'a>(name: &str, options: &'a [String]) -> Option<&'a str>
    ensures { MatchOption result (value_of name.now (map string_bytes options.now) ≡ None) (λ v. value_of name.now (map string_bytes options.now) ≡ Some v.now) }
{
    let mut rest = options;
    while let [option, value, more @ ..] = rest {
        if name == option.as_str() {
            return Some(value.as_str());
        }
        rest = more;
    }
    None
}

/// The number from 1 to a greatest one that is the value of an option.
#[tactic(auto, unfolding(crate::specs::Words::number_by))]
fn number_by(name: &str, greatest: u32, options: &[String]) -> Option<u32>
    ensures number { result ≡ number_by name.now greatest (map string_bytes options.now) }
    ensures fit { IfSome result (λ n. (1 ≤ n) × (n ≤ greatest)) }
{
    number_to(greatest, value_of(name, options)?)
}

/// The greatest number of moves of a chain.
#[tactic(auto, unfolding(crate::specs::Words::depth_by))]
fn depth_by(options: &[String]) -> Option<u32>
    ensures depth { result ≡ depth_by (map string_bytes options.now) }
    ensures fit { IfSome result (λ n. (1 ≤ n) × (n ≤ CHAIN_MOVES)) }
{
    number_by("--depth", CHAIN_MOVES, options)
}

/// How many chains may be tried.
#[tactic(auto, unfolding(crate::specs::Words::budget_by))]
fn budget_by(options: &[String]) -> Option<u32>
    ensures budget { result ≡ budget_by (map string_bytes options.now) }
    ensures fit { IfSome result (λ n. 1 ≤ n) }
{
    number_by("--budget", BUDGET, options)
}

/// The repair that is asked for by the words after the archive's name.
fn repair_by<'a>(archive: &'a str, words: &'a [String]) -> Option<Request<'a>>
    ensures asked { MatchOption result (repair_by archive.now (map string_bytes words.now) ≡ None) (λ r. repair_by archive.now (map string_bytes words.now) ≡ Some (asked_of r)) }
    ensures fit { IfSome result IsFit }
{
    let [solution, options @ ..] = words else {
        return None;
    };
    repair_with(archive, number_of(DIGITS, solution.as_bytes())?, options)
}

/// The repair of a solution that is asked for by its options.
#[tactic(auto, unfolding(crate::specs::Words::repair_with))]
fn repair_with<'a>(archive: &'a str, solution: u32, options: &[String]) -> Option<Request<'a>>
    ensures asked { MatchOption result (repair_with archive.now solution (map string_bytes options.now) ≡ None) (λ r. repair_with archive.now solution (map string_bytes options.now) ≡ Some (asked_of r)) }
    ensures fit { IfSome result IsFit }
{
    if options.len() != 4 {
        return None;
    }
    Some(Request::Repair {
        archive,
        solution,
        depth: depth_by(options)?,
        budget: budget_by(options)?,
    })
}

/// The greatest number of moves of a chain, and how many chains each job may try.
#[tactic(auto, unfolding(crate::specs::Words::chains_by))]
fn chains_by(options: &[String]) -> Option<(u32, u32)>
    ensures chains { result ≡ chains_by (map string_bytes options.now) }
    ensures fit { IfSome result (λ c. (1 ≤ c.0) × (c.0 ≤ CHAIN_MOVES) × (1 ≤ c.1)) }
{
    let depth = depth_by(options)?;
    let budget = budget_by(options)?;
    Some((depth, budget))
}

/// How many jobs there are.
#[tactic(auto, unfolding(crate::specs::Words::jobs_by))]
fn jobs_by(options: &[String]) -> Option<u32>
    ensures jobs { result ≡ jobs_by (map string_bytes options.now) }
    ensures fit { IfSome result (λ n. (1 ≤ n) × (n ≤ JOBS)) }
{
    number_by("--jobs", JOBS, options)
}

/// How many workers do them.
#[tactic(auto, unfolding(crate::specs::Words::crew_by))]
fn crew_by(options: &[String]) -> Option<u32>
    ensures workers { result ≡ crew_by (map string_bytes options.now) }
    ensures fit { IfSome result (λ n. (1 ≤ n) × (n ≤ WORKERS)) }
{
    number_by("--workers", WORKERS, options)
}

/// How many jobs there are, and how many workers do them.
#[tactic(auto, unfolding(crate::specs::Words::shares_by))]
fn shares_by(options: &[String]) -> Option<(u32, u32)>
    ensures shares { result ≡ shares_by (map string_bytes options.now) }
    ensures fit { IfSome result (λ s. (1 ≤ s.0) × (s.0 ≤ JOBS) × (1 ≤ s.1) × (s.1 ≤ WORKERS)) }
{
    let jobs = jobs_by(options)?;
    let workers = crew_by(options)?;
    Some((jobs, workers))
}

/// The solve that is asked for by the words after the archive's name.
fn solve_by<'a>(archive: &'a str, words: &'a [String]) -> Option<Request<'a>>
    ensures asked { MatchOption result (solve_by archive.now (map string_bytes words.now) ≡ None) (λ r. solve_by archive.now (map string_bytes words.now) ≡ Some (asked_of r)) }
    ensures fit { IfSome result IsFit }
{
    let [solution, options @ ..] = words else {
        return None;
    };
    solve_with(archive, number_of(DIGITS, solution.as_bytes())?, options)
}

/// The solve of a solution that is asked for by its options.
#[tactic(auto, unfolding(crate::specs::Words::solve_with))]
fn solve_with<'a>(archive: &'a str, solution: u32, options: &[String]) -> Option<Request<'a>>
    ensures asked { MatchOption result (solve_with archive.now solution (map string_bytes options.now) ≡ None) (λ r. solve_with archive.now solution (map string_bytes options.now) ≡ Some (asked_of r)) }
    ensures workers { IfSome result (λ r. option_map (λ s. s.1) (shares_by (map string_bytes options.now)) ≡ Some (workers_in r)) }
    ensures fit { IfSome result IsFit }
{
    if options.len() != 8 {
        return None;
    }
    let (depth, budget) = chains_by(options)?;
    let (jobs, workers) = shares_by(options)?;
    Some(Request::Solve {
        archive,
        solution,
        depth,
        budget,
        jobs,
        workers,
    })
}

/// The matching that is asked for by the words after the archive's name.
fn match_by<'a>(archive: &'a str, words: &'a [String]) -> Option<Request<'a>>
    ensures asked { MatchOption result (match_by archive.now (map string_bytes words.now) ≡ None) (λ r. match_by archive.now (map string_bytes words.now) ≡ Some (asked_of r)) }
    ensures fit { IfSome result IsFit }
{
    let [solution, time, rtype] = words else {
        return None;
    };
    match_with(archive, solution.as_str(), time.as_str(), rtype.as_str())
}

/// The matching of the tasks of a solution at a time with the resources of a type.
#[tactic(auto, unfolding(crate::specs::Words::match_with))]
fn match_with<'a>(archive: &'a str, solution: &str, time: &str, rtype: &str) -> Option<Request<'a>>
    ensures asked { MatchOption result (match_with archive.now solution.now time.now rtype.now ≡ None) (λ r. match_with archive.now solution.now time.now rtype.now ≡ Some (asked_of r)) }
    ensures fit { IfSome result IsFit }
{
    Some(Request::Match {
        archive,
        solution: number_of(DIGITS, solution.as_bytes())?,
        time: number_of(DIGITS, time.as_bytes())?,
        rtype: number_of(DIGITS, rtype.as_bytes())?,
    })
}

/// The repair after a construction: none without options.
#[tactic(auto, unfolding(crate::specs::Words::after_by))]
fn after_by(options: &[String]) -> Option<Option<(u32, u32)>>
    ensures after { result ≡ after_by (map string_bytes options.now) }
    ensures fit { IfSome result AreChains }
{
    if options.is_empty() {
        return Some(None);
    }
    if options.len() != 4 {
        return None;
    }
    let chains = chains_by(options)?;
    Some(Some(chains))
}

/// The construction that is asked for by the words after the archive's name.
fn construct_by<'a>(archive: &'a str, words: &'a [String]) -> Option<Request<'a>>
    ensures asked { MatchOption result (construct_by archive.now (map string_bytes words.now) ≡ None) (λ r. construct_by archive.now (map string_bytes words.now) ≡ Some (asked_of r)) }
    ensures fit { IfSome result IsFit }
{
    let [instance, options @ ..] = words else {
        return None;
    };
    construct_with(archive, number_of(DIGITS, instance.as_bytes())?, options)
}

/// The construction of a timetable that is asked for by its options.
#[tactic(auto, unfolding(crate::specs::Words::construct_with))]
fn construct_with<'a>(archive: &'a str, instance: u32, options: &[String]) -> Option<Request<'a>>
    ensures asked { MatchOption result (construct_with archive.now instance (map string_bytes options.now) ≡ None) (λ r. construct_with archive.now instance (map string_bytes options.now) ≡ Some (asked_of r)) }
    ensures fit { IfSome result IsFit }
{
    let chains = after_by(options)?;
    Some(Request::Construct {
        archive,
        instance,
        chains,
    })
}

/// What is made by these words after the command: an archive, or the run of a job.
fn make_by<'a>(seed: &str, words: &[String]) -> Option<Request<'a>>
    ensures asked { MatchOption result (make_by seed.now (map string_bytes words.now) ≡ None) (λ r. make_by seed.now (map string_bytes words.now) ≡ Some (asked_of r)) }
    ensures fit { IfSome result IsFit }
{
    match words {
        [size] => made_by(seed, size.as_str()),
        [size, option] => run_by(seed, size.as_str(), option.as_str()),
        _ => None,
    }
}

/// The archive that is made from a seed with the given number of events.
#[tactic(auto, unfolding(crate::specs::Words::made_by))]
fn made_by<'a>(seed: &str, size: &str) -> Option<Request<'a>>
    ensures asked { MatchOption result (made_by seed.now size.now ≡ None) (λ r. made_by seed.now size.now ≡ Some (asked_of r)) }
    ensures fit { IfSome result IsFit }
{
    let (seed, size) = job_by(seed, size)?;
    Some(Request::Make { seed, size })
}

/// The run of a job, where an option asks for it.
#[tactic(auto, unfolding(crate::specs::Words::run_by))]
fn run_by<'a>(seed: &str, size: &str, option: &str) -> Option<Request<'a>>
    ensures asked { MatchOption result (run_by seed.now size.now option.now ≡ None) (λ r. run_by seed.now size.now option.now ≡ Some (asked_of r)) }
    ensures fit { IfSome result IsFit }
{
    if option == "--run" {
        let (seed, size) = job_by(seed, size)?;
        return Some(Request::Run { seed, size });
    }
    None
}

/// The seed and the number of events that two words write.
#[tactic(auto, unfolding(crate::specs::Words::job_by))]
fn job_by(seed: &str, size: &str) -> Option<(u64, u32)>
    ensures job { result ≡ job_by seed.now size.now }
    ensures fit { IfSome result (λ j. (1 ≤ j.1) × (j.1 ≤ MADE_EVENTS)) }
{
    let seed = long_number_of(seed.as_bytes())?;
    let size = number_to(MADE_EVENTS, size)?;
    Some((seed, size))
}
