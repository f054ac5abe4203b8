//! The gate that each job passes before it is solved.

/// The gate that each job passes before it is solved, on the thread that solves it. No result depends on a gate; tests
/// use gates to hold jobs.
pub trait Gate: Sync + Drop {
    /// The pool calls it once for each job, before it solves the job. `job` is the job's index in the list of pairs.
    /// Tests show this; no clause states it.
    fn enter(&self, job: usize);
}

/// A gate that is always open.
#[derive(Clone, Copy)]
pub struct NoGate;

impl Gate for NoGate {
    fn enter(&self, _job: usize) {}
}

/// A gate of any kind, in a box.
#[derive(Drop)]
pub struct BoxedGate(pub Box<dyn Gate + Drop>);

impl Gate for BoxedGate {
    fn enter(&self, job: usize) {
        self.0.enter(job)
    }
}
