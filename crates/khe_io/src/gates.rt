//! What a worker passes before each of its jobs.

/// What a worker passes before each job that it runs. A test can look there at which workers run
/// side by side; the product's own gate is always open.
pub trait Gate: Sync {
    /// Called by a worker before it runs the job with this number.
    fn pass(&self, job: u64);
}

/// A gate that lets every worker through at once.
#[derive(Clone, Copy)]
pub struct OpenGate;

impl Gate for OpenGate {
    fn pass(&self, _job: u64) {}
}
