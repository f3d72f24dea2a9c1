//! Crews of standing workers, and the rounds that they make.

ghost use Rattle.std.specs.Prelude.{◌≡◌, ◌<◌, All, length, vec_len, true, IfOk, IfErr, IsTrue, map};
ghost use Rattle.std.specs.List.{AllByRecursion};
ghost use Rattle.std.specs.Arc.{arc_value};
ghost use Rattle.ic_term.specs.Symbol.{is_over};
ghost use Rattle.ic_round.specs.Works.{suits, result_of};
ghost use Rattle.ic_round.specs.WorkViews.{work_of, fired_of};
ghost use Rattle.ic_pool.specs.Workers.{round_or_refusal};
ghost use Rattle.ic_pool.specs.declared.fault.PoolFault.TheVariants.{Lost};
ghost use Rattle.ic_crew.specs.Crews.{ByCrew, is_spending};
ghost use Rattle.ic_crew.specs.WorkLists.{works_of};

use crate::answers::Answer;
use crate::dealing::deal;
use crate::matching::match_answers;
use crate::parcels::{Parcel, Returned};
use crate::posts::{Line, Post, line_and_post};
use ic_flat::Flat;
use ic_flat_round::{filled, settle, works};
use ic_flights::{Flight, MAX_ROUNDS, Played, made_for};
use ic_pool::{MAX_THREADS, PoolFault};
use ic_round::{Fired, Work};
use ic_rules::RuleSet;
use std::alloc::{AllocError, Global};
use std::marker::Model;
use std::sync::{Arc, Wait};

/// Workers that stand ready. Dropping the crew ends them.
#[derive(Drop)]
pub struct Crew {
    lines: Vec<Line>,
    spent: bool,
}

impl Model for Crew {
    ghost use Rattle.std.specs.Prelude.{vec_len};
    ghost use Rattle.ic_crew.specs.Crews.{CrewParts, IsCrew, coded_crew};

    ghost Value = { CrewParts };

    ghost coded = { coded_crew };

    ghost view = { λ c. record { workers = vec_len c.lines; spent = c.spent } };

    ghost invariant = { λ c. IsCrew (record { workers = vec_len c.lines; spent = c.spent }) };
}

impl Crew {
    ghost use Rattle.std.specs.Prelude.{Err, min, false, ◌||◌};
    ghost use Rattle.ic_flights.specs.Played.{round_of};
    ghost use Rattle.ic_pool.specs.Played.{played};
    ghost use Rattle.ic_pool.specs.declared.limits.TheConstants.{MAX_THREADS};
    ghost use Rattle.ic_crew.specs.Crews.{IsCrew, new_crew, crew_refusal, is_spent_by};

    /// A crew of so many workers, but no more than 64, and a post for each of them. Whoever calls
    /// this starts a thread for each post, which calls `stand`.
    pub fn new(alloc: Global, workers: usize) -> Result<(Crew, Vec<Post>), PoolFault>
        ensures crew { IfOk result (λ made. made.0 ≡ new_crew workers) }
        ensures posts { IfOk result (λ made. vec_len made.1 ≡ min workers MAX_THREADS) }
        ensures refusal { IfErr result (λ fault. fault ≡ crew_refusal workers) }
    {
        if workers == 0 {
            return Err(PoolFault::NoWorkers);
        }
        let (lines, posts) = posts(alloc, workers.min(MAX_THREADS))?;
        let crew = Crew {
            lines,
            spent: false,
        };
        Ok((crew, posts))
    }

    /// How many workers it has.
    pub fn workers(&self) -> usize
        ensures workers { result ≡ self.now.workers }
        ensures sound { IsCrew self.now }
    {
        self.lines.len()
    }

    /// Whether it is spent: no further round is made by it.
    pub fn is_spent(&self) -> bool
        ensures spent { result ≡ self.now.spent }
        ensures sound { IsCrew self.now }
    {
        self.spent
    }

    /// The round of a flight, made by the crew. It is the same round for every number of workers and
    /// in whatever order they work.
    ///
    /// Its faults are tried in the order `RoundsOut`, `Overgrown`, `NamesOut`. Then come `Memory`
    /// where a growth was refused here or to a worker, `Lost` where a worker is gone or an answer is
    /// missing, and `Stranger` where an answer was not asked for. After one of these three the crew
    /// is spent, and answers `Lost` whatever it is asked for.
    pub fn play<R: Wait>(
        &mut self,
        rt: &R,
        alloc: Global,
        flight: &Flight,
    ) -> Result<Played, PoolFault>
        ensures any_workers { IfOk result (λ played. played ≡ round_of flight.now) }
        ensures answer { self.old.spent ≡ false → ByCrew result (played flight.now) }
        ensures spent { self.old.spent ≡ true → result ≡ Err Lost }
        ensures spends { self.new.spent ≡ (self.old.spent || is_spent_by result) }
        ensures workers { self.new.workers ≡ self.old.workers }
    {
        if self.spent {
            return Err(PoolFault::Lost);
        }
        let played = self.play_by_lines(rt, alloc, flight);
        self.spent = match played {
            Ok(_) => false,
            Err(fault) => is_spending(fault),
        };
        played
    }

    fn play_by_lines<R: Wait>(
        &self,
        rt: &R,
        alloc: Global,
        flight: &Flight,
    ) -> Result<Played, PoolFault>
        ensures any_workers { IfOk result (λ played. played ≡ round_of flight.now) }
        ensures answer { ByCrew result (played flight.now) }
    {
        if flight.rounds() == MAX_ROUNDS {
            return Err(PoolFault::RoundsOut);
        }
        let rules = flight.shared_rules().shared();
        let after = round_by_lines(rt, alloc, &self.lines, rules, flight.config())?;
        Ok(made_for(alloc, flight, after)?)
    }
}

/// Whether a crew is spent after this fault: answers to an earlier round may still come.
fn is_spending(fault: PoolFault) -> bool
    ensures { result ≡ is_spending fault }
{
    match fault {
        PoolFault::Memory | PoolFault::Lost | PoolFault::Stranger => true,
        _ => false,
    }
}

/// So many posts, and the crew's ends of them.
fn posts(alloc: Global, count: usize) -> Result<(Vec<Line>, Vec<Post>), AllocError>
    ensures lines { IfOk result (λ made. vec_len made.0 ≡ count) }
    ensures posts { IfOk result (λ made. vec_len made.1 ≡ count) }
{
    let mut lines = Vec::with_capacity(alloc, count)?;
    let mut posts = Vec::with_capacity(alloc, count)?;
    for _ in 0..count {
        let (line, post) = line_and_post(alloc)?;
        lines.push(line)?;
        posts.push(post)?;
    }
    Ok((lines, posts))
}

/// The configuration after one round, whose works go out by these lines.
fn round_by_lines<R: Wait>(
    rt: &R,
    alloc: Global,
    lines: &[Line],
    rules: &Arc<RuleSet>,
    config: &Flat,
) -> Result<Flat, PoolFault>
    requires over { IsTrue (is_over (arc_value rules.now).symbols config.now) }
    requires some { 0 < length lines.now }
    ensures round { ByCrew result (round_or_refusal (arc_value rules.now).rules config.now) }
    ensures over { IfOk result (λ after. IsTrue (is_over (arc_value rules.now).symbols after)) }
{
    let known: &RuleSet = rules;
    let works = works(alloc, known, config)?;
    let results = fire_by_lines(rt, alloc, lines, rules, works)?;
    let fired = filled(alloc, known, config, results)?;
    Ok(settle(alloc, &fired)?)
}

/// The results of works, in their order, which go out by these lines. No more lines are used than
/// there are works. All parcels go out before the first answer is awaited.
fn fire_by_lines<R: Wait>(
    rt: &R,
    alloc: Global,
    lines: &[Line],
    rules: &Arc<RuleSet>,
    works: Vec<Work>,
) -> Result<Vec<Fired>, PoolFault>
    requires suit { AllByRecursion (λ w. IsTrue (suits (arc_value rules.now).rules w)) (works_of works) }
    requires some { 0 < length lines.now }
    ensures results { IfOk result (λ fired. map fired_of fired.items
        ≡ map (result_of (arc_value rules.now).rules) (works_of works)) }
    ensures spends { IfErr result (λ fault. IsTrue (is_spending fault)) }
{
    if works.is_empty() {
        return Ok(Vec::new(alloc));
    }
    let copies = copies_of(alloc, &works)?;
    let lines = &lines[..lines.len().min(works.len())];
    let parcels = parcels_of(alloc, rules, deal(alloc, rules, works, lines.len())?)?;
    let answers = answers_by_lines(rt, alloc, lines, parcels, copies.len())?;
    match_answers(alloc, rules, copies, answers)
}

/// A copy of each work.
fn copies_of(alloc: Global, works: &[Work]) -> Result<Vec<Work>, AllocError>
    ensures { IfOk result (λ copies. works_of copies ≡ map work_of works.now) }
{
    let mut copies = Vec::with_capacity(alloc, works.len())?;
    for work in works {
        copies.push(work.copy(alloc)?)?;
    }
    Ok(copies)
}

/// A parcel for each part.
fn parcels_of(
    alloc: Global,
    rules: &Arc<RuleSet>,
    parts: Vec<Vec<Work>>,
) -> Result<Vec<Parcel>, AllocError>
    requires { All (λ part. All (λ w. IsTrue (suits (arc_value rules.now).rules (work_of w)))
        part.items) parts.items }
{
    let mut parcels = Vec::with_capacity(alloc, parts.len())?;
    for works in parts {
        parcels.push(Parcel::new(rules, works)?)?;
    }
    Ok(parcels)
}

/// The answers that come back for parcels, one by each line.
fn answers_by_lines<R: Wait>(
    rt: &R,
    alloc: Global,
    lines: &[Line],
    parcels: Vec<Parcel>,
    count: usize,
) -> Result<Vec<Answer>, PoolFault>
    ensures { IfErr result (λ fault. IsTrue (is_spending fault)) }
{
    let mut answers = Vec::with_capacity(alloc, count)?;
    send(rt, lines, parcels)?;
    for line in lines {
        match line.returned.recv(rt) {
            Ok(Returned::Answers(mut more)) => answers.append(&mut more)?,
            Ok(Returned::NoMemory) => return Err(PoolFault::Memory),
            Err(_) => return Err(PoolFault::Lost),
        }
    }
    Ok(answers)
}

/// Sends a parcel by each line.
fn send<R: Wait>(rt: &R, lines: &[Line], parcels: Vec<Parcel>) -> Result<(), PoolFault>
    ensures { IfErr result (λ fault. fault ≡ Lost) }
{
    let mut parcels = parcels.into_iter();
    for line in lines {
        let Some(parcel) = parcels.next() else {
            return Err(PoolFault::Lost);
        };
        if line.parcels.send(rt, parcel).is_err() {
            return Err(PoolFault::Lost);
        }
    }
    Ok(())
}
