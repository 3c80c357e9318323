//! What the words of the command line ask for.

ghost use Rattle.std.specs.Prelude.{◌≡◌, None, Some, map, true, codes, MatchOption, string_bytes, bytes_eq, if◌then◌else◌};
ghost use Rattle.talk_app.specs.Requests.{asked_of};
ghost use Rattle.talk_app.specs.Words.{asked, asked_by, demands_by};

use khe_base::digits::number_of;
use khe_base::limits::DIGITS;

/// The talk that the words of the command line ask for.
#[derive(Clone, Copy)]
pub(crate) struct Request<'a> {
    /// The name of the archive.
    pub archive: &'a str,
    /// The number of the solution that the talk begins with, over all groups.
    pub solution: u32,
    /// Whether demands are kept.
    pub demands: bool,
}

/// What these words ask for, or `None` where they have no reading: they are the archive's name, the number of a
/// solution, and `--demands` or nothing more.
pub(crate) fn request_of(words: &[String]) -> Option<Request<'_>>
    ensures { MatchOption result (asked (map string_bytes words.now) ≡ None) (λ r. asked (map string_bytes words.now) ≡ Some (asked_of r)) }
{
    match words {
        [archive, solution, options @ ..] => {
            request_by(archive.as_str(), solution.as_str(), options)
        }
        _ => None,
    }
}

/// What is asked for by a name, a number, and what stands after it.
fn request_by<'a>(archive: &'a str, solution: &str, options: &[String]) -> Option<Request<'a>>
    ensures { MatchOption result (asked_by archive.now solution.now (map string_bytes options.now) ≡ None) (λ r. asked_by archive.now solution.now (map string_bytes options.now) ≡ Some (asked_of r)) }
{
    Some(Request {
        archive,
        solution: number_of(DIGITS, solution.as_bytes())?,
        demands: demands_by(options)?,
    })
}

/// Whether demands are kept, by the words after the solution's number; or `None` where these have no reading.
fn demands_by(options: &[String]) -> Option<bool>
    ensures { result ≡ demands_by (map string_bytes options.now) }
{
    match options {
        [] => Some(false),
        [option] => demands_of(option.as_str()),
        _ => None,
    }
}

/// Whether demands are kept, by one word; or `None` where it is another.
fn demands_of(option: &str) -> Option<bool>
    ensures { result ≡ (if bytes_eq option.now (codes "--demands") then Some true else None) }
{
    if option == "--demands" {
        Some(true)
    } else {
        None
    }
}
