//! What watches a round or a server at work.

ghost use Rattle.std.specs.Prelude.{ℕ};

/// What watches a round or a server at work: tests use it to hold threads up. A gate that waits
/// holds up only the thread that called it.
pub trait Gate: Sync {
    /// A place has passed. Of a gate only `pass` says so, and `fire_passed` asks for it.
    ghost has_passed: { Self → ℕ → Type 0 } = { λ _ _. Unit {0} };

    /// Called by a worker before it fires the work of this place.
    fn pass(&self, place: u64)
        ensures { has_passed self.now place };

    /// Called for this client after each of its answers.
    fn answered(&self, who: u64);

    /// Called after each round that moved its job, and each halt, with how many jobs are running as
    /// the caller last saw it.
    fn landed(&self, _running: usize) {}
}

/// The gate that holds nothing up.
#[derive(Clone, Copy)]
pub struct OpenGate;

impl Gate for OpenGate {
    fn pass(&self, _place: u64) {}

    fn answered(&self, _who: u64) {}
}
