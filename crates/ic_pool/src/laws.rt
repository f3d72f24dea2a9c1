//! Laws of the definitions that the contracts of this crate cite.

ghost use Rattle.std.specs.Prelude.{◌≡◌, ◌^◌, ◌<◌, ◌≤◌, ◌↔◌, ◌⊎◌, ℕ, [], ◌∷◌, Result, Ok, Err, IsTrue, false, map};
ghost use Rattle.std.specs.List.{Contains};
ghost use Rattle.ic_flights.specs.Flight.{FlightParts, is_blocked};
ghost use Rattle.ic_term.specs.Configuration.{configuration_nodes};
ghost use Rattle.ic_round.specs.Firing.{fired};
ghost use Rattle.ic_round.specs.Rounds.{round};
ghost use Rattle.ic_flights.specs.Played.{PlayedParts, round_of};
ghost use Rattle.ic_pool.specs.Played.{played};
ghost use Rattle.ic_pool.specs.PoolFault.{Answers, OfWorkers, is_of_flight, is_of_workers, fault_number, all_faults};
ghost use Rattle.ic_pool.specs.Workers.{ByWorkers, played_by};
ghost use Rattle.ic_pool.specs.declared.fault.PoolFault.{PoolFault};
ghost use Rattle.ic_pool.specs.declared.fault.PoolFault.TheVariants.{NoWorkers, Overgrown, NamesOut, Memory, RoundsOut};
ghost use Rattle.ic_pool.specs.declared.limits.TheConstants.{MAX_THREADS};

/// The limit of threads.
pub fn limits_are()
    ensures threads { MAX_THREADS ≡ 64 }
{}

/// A flight is refused exactly where it is blocked; else its round is made.
pub fn blocked_flights_are_refused()
    ensures { (f : FlightParts) → (played f ≡ Ok (round_of f)) ↔ (is_blocked f ≡ false) }
{}

/// Where one thread or workers answer a refusal of the flight itself, it is blocked. Any other
/// refusal of some workers is `Memory`, or comes of the workers.
pub fn refused_flights_are_blocked()
    ensures alone { (f : FlightParts) (fault : PoolFault) → Answers (Err fault) (played f)
        → IsTrue (is_of_flight fault) → IsTrue (is_blocked f) }
    ensures workers { (workers : ℕ) (f : FlightParts) (fault : PoolFault)
        → ByWorkers {T = PlayedParts} (Err fault) (played_by workers f)
        → IsTrue (is_of_flight fault) → IsTrue (is_blocked f) }
    ensures others { (workers : ℕ) (f : FlightParts) (fault : PoolFault) → 0 < workers
        → ByWorkers {T = PlayedParts} (Err fault) (played_by workers f)
        → is_of_flight fault ≡ false → (fault ≡ Memory) ⊎ IsTrue (is_of_workers fault) }
{}

/// The order of the refusals of a flight: no rounds are left, then more than 8,192 nodes once all
/// active equations have fired, then names past 2^62. Where none holds, the name, the rules, the
/// configuration before and the rounds are the flight's, and the configuration after is the round.
pub fn refusals_come_in_order()
    ensures rounds_out { (f : FlightParts) → (played f ≡ Err RoundsOut) ↔ (f.rounds ≡ 2 ^ 62) }
    ensures overgrown { (f : FlightParts) → (played f ≡ Err Overgrown) ↔ (¬ (f.rounds ≡ 2 ^ 62)
        × (8192 < configuration_nodes (fired f.rules.rules f.config))) }
    ensures names_out { (f : FlightParts) → (played f ≡ Err NamesOut) ↔ (¬ (f.rounds ≡ 2 ^ 62)
        × (configuration_nodes (fired f.rules.rules f.config) ≤ 8192)
        × (2 ^ 62 < (fired f.rules.rules f.config).next)) }
    ensures name { (f : FlightParts) (p : PlayedParts) → played f ≡ Ok p → p.name ≡ f.name }
    ensures rules { (f : FlightParts) (p : PlayedParts) → played f ≡ Ok p → p.rules ≡ f.rules }
    ensures before { (f : FlightParts) (p : PlayedParts) → played f ≡ Ok p → p.before ≡ f.config }
    ensures after { (f : FlightParts) (p : PlayedParts) → played f ≡ Ok p
        → p.after ≡ round f.rules.rules f.config }
    ensures rounds { (f : FlightParts) (p : PlayedParts) → played f ≡ Ok p → p.rounds ≡ f.rounds }
{}

/// One thread answers the round or the first refusal, or `Memory`; but `RoundsOut` is told before
/// any memory is asked for.
pub fn one_thread_answers_so()
    ensures { (f : FlightParts) (r : Result PlayedParts PoolFault) → Answers r (played f)
        ↔ ((r ≡ played f) ⊎ ((r ≡ Err Memory) × ¬ (f.rounds ≡ 2 ^ 62))) }
{}

/// A round by no workers is refused before all else. Workers answer what one thread does, and where
/// a round is to be made also that a thread could not be started, or that a result was lost or
/// strange.
pub fn workers_answer_so()
    ensures none { (f : FlightParts) (r : Result PlayedParts PoolFault)
        → ByWorkers r (played_by 0 f) ↔ (r ≡ Err NoWorkers) }
    ensures some { (workers : ℕ) (f : FlightParts) (r : Result PlayedParts PoolFault)
        → 0 < workers → ByWorkers r (played_by workers f) ↔ (Answers r (played f)
        ⊎ ((is_blocked f ≡ false) × OfWorkers r)) }
{}

/// The lasting numbers of the faults.
pub fn numbers_are_lasting()
    ensures all { (fault : PoolFault) → Contains all_faults fault }
    ensures numbers { map fault_number all_faults
        ≡ 1 ∷ 2 ∷ 3 ∷ 4 ∷ 5 ∷ 6 ∷ 7 ∷ 8 ∷ [] }
{}

/// With no workers a flight is refused; with any other number the answer is that of one.
pub fn the_number_of_workers_makes_no_difference()
    ensures none { (f : FlightParts) → played_by 0 f ≡ Err NoWorkers }
    ensures some { (workers : ℕ) (f : FlightParts) → 0 < workers → played_by workers f ≡ played f }
{}
