//! Laws of the definitions. Nothing calls them, since it is the check that shows them.

ghost use Rattle.std.specs.Prelude.{ℕ, ◌≡◌, ◌≤◌, None, Ok};
ghost use Rattle.khe_base.specs.declared.limits.TheConstants.{MADE_EVENTS};
ghost use Rattle.xhstt_resolve.specs.Resolved.{archive_fault, resolved};
ghost use Rattle.xhstt_resolve.specs.declared.resolving.Resolved.{Resolved};
ghost use Rattle.archive_generator.specs.Made.{made};
ghost use Rattle.generator_laws.specs.Starts.{HasStart};

// Whatever the seed, an archive of a size that may be asked for has no fault.
fn no_archive_is_refused()
    ensures { (seed size : ℕ) → 1 ≤ size → size ≤ MADE_EVENTS → archive_fault (made seed size) ≡ None }
{}

// It is resolved to instances, and its first solution is completed by the parts of its instance.
fn each_archive_has_a_start()
    ensures { (seed size : ℕ) → 1 ≤ size → size ≤ MADE_EVENTS
        → (r : Resolved) × (resolved (made seed size) ≡ Ok r) × HasStart seed size r }
{}
