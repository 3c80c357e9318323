//! How far long work is: one line on a terminal, which each new one replaces and which is cleared in the end.

ghost use Rattle.std.specs.Prelude.{◌≡◌, None, false};

use khe_io::{Failed, Gate, Sink};
use std::sync::atomic::{AtomicBool, AtomicU64, Ordering};
use std::time::{Clock, Duration, Instant};

/// How many milliseconds pass at least between two lines.
const PAUSE: u64 = 250;

/// What takes a terminal's cursor to the beginning of its row and clears the row.
const CLEAR: &str = "\r\x1b[K";

/// Which of the two outputs are terminals.
#[derive(Clone, Copy)]
pub struct Terminals {
    /// Whether standard output is one.
    pub output: bool,
    /// Whether standard error is one.
    pub errors: bool,
}

/// What the numbers stand for with which workers pass the gate.
#[derive(Clone, Copy)]
pub enum Work<'a> {
    /// The numbers of jobs, and how many there are as the words write it.
    Jobs(&'a str),
    /// The numbers of solutions.
    Solutions,
}

/// What the workers pass the gate with where these words have a reading: jobs with `solve`, as many as the word
/// after `--jobs` says, and solutions with all other commands.
pub fn work_of(words: &[String]) -> Work<'_> {
    let [command, _, _, options @ ..] = words else {
        return Work::Solutions;
    };
    if command.as_str() != "solve" {
        return Work::Solutions;
    }
    Work::Jobs(value_of("--jobs", options))
}

/// The word after an option, or an empty one.
fn value_of<'a>(name: &str, options: &'a [String]) -> &'a str {
    let mut rest = options;
    while let [option, value, more @ ..] = rest {
        if option.as_str() == name {
            return value.as_str();
        }
        rest = more;
    }
    ""
}

/// Whether lines are shown: where standard error is a terminal, and a report doesn't go to a terminal while its
/// solutions are evaluated. What `solve` writes comes after its last job.
fn is_shown(work: Work<'_>, terminals: Terminals) -> bool
    ensures { terminals.errors ≡ false → result ≡ false }
{
    match work {
        Work::Jobs(_) => terminals.errors,
        Work::Solutions => terminals.errors && !terminals.output,
    }
}

/// A gate that lets every worker through at once. On a terminal it shows, some times a second at most, which number
/// a worker passes with, and how many seconds it is since the program began.
#[derive(Drop)]
pub struct Progress<'a, R> {
    system: &'a R,
    work: Work<'a>,
    /// When the program began; `None` where nothing is shown.
    start: Option<Instant>,
    /// From which millisecond since then on the next line may be shown.
    next: AtomicU64,
    /// Whether a line stands on the terminal.
    stands: AtomicBool,
}

impl<'a, R: Clock + Eprint> Progress<'a, R> {
    /// No line stands on the terminal. None will be shown where standard error isn't a terminal or the clock can't be
    /// read.
    pub fn new(system: &'a R, work: Work<'a>, terminals: Terminals) -> Progress<'a, R>
        ensures hidden { terminals.errors ≡ false → result.start ≡ None }
    {
        let start = if is_shown(work, terminals) {
            Instant::now(system).ok()
        } else {
            None
        };
        Progress {
            system,
            work,
            start,
            next: AtomicU64::new(0),
            stands: AtomicBool::new(false),
        }
    }

    /// How long it is since the program began, where a line is due. Of the workers that ask at one time one is told.
    fn due(&self) -> Option<Duration>
        ensures hidden { self.now.start ≡ None → result ≡ None }
    {
        let elapsed = self.start?.elapsed(self.system).ok()?;
        let now = u64::try_from(elapsed.as_millis()).ok()?;
        let next = self.next.load(Ordering::SeqCst);
        if now < next {
            return None;
        }
        let later = now.saturating_add(PAUSE);
        match self
            .next
            .compare_exchange(next, later, Ordering::SeqCst, Ordering::SeqCst)
        {
            Ok(_) => Some(elapsed),
            Err(_) => None,
        }
    }

    /// Shows a number and the time in place of the line that stands there. Where the terminal refuses it, the work
    /// goes on without it.
    fn show(&self, number: u64, elapsed: Duration) {
        let seconds = elapsed.as_secs();
        let _shown = match self.work {
            Work::Jobs(count) => eprint!(self.system;
                "{CLEAR}job {number} of {count}, {seconds} s"
            ),
            Work::Solutions => eprint!(self.system; "{CLEAR}solution {number}, {seconds} s"),
        };
        self.stands.store(true, Ordering::SeqCst);
    }

    /// Clears the line, if one stands on the terminal.
    pub fn clear(&self) {
        if self.stands.swap(false, Ordering::SeqCst) {
            let _cleared = eprint!(self.system; "{CLEAR}");
        }
    }
}

impl<'a, R: Clock + Eprint + Sync> Gate for Progress<'a, R> {
    fn pass(&self, job: u64) {
        if let Some(elapsed) = self.due() {
            self.show(job, elapsed);
        }
    }
}

/// A sink before which the line is cleared whenever it takes a piece.
#[derive(Drop)]
pub struct Cleared<'a, K, R> {
    pub out: K,
    pub progress: &'a Progress<'a, R>,
}

impl<'a, K: Sink, R: Clock + Eprint> Sink for Cleared<'a, K, R> {
    ghost taken = { λ s. K.taken s.out };

    ghost faults = { λ s. K.faults s.out };

    fn write(&mut self, piece: &[u8]) -> Result<usize, Failed> {
        self.progress.clear();
        self.out.write(piece)
    }
}
