//! Pending pairs that are taken in generations.

ghost use Rattle.std.specs.Prelude.{◌≡◌, ◌+◌, ◌^◌, ◌<◌, ◌≤◌, true, false, Ok, Contains, length};
ghost use Rattle.std.specs.List.{AllByRecursion};
ghost use Rattle.ic_machine.specs.declared.equation.Equation.{Equation as AnyEquation};
ghost use Rattle.ic_machine.specs.Generations.{Advances, IsWithin};
ghost use Rattle.ic_machine.specs.Net.{IsActive, IsStuck};

use crate::machine::{Machine, MachineFault};
use crate::plan::Program;

/// The pairs of a generation that are still to be taken: of those that are pending, the first ones up to an end.
#[derive(Clone, Copy, PartialEq, Eq)]
pub struct Generation {
    pub end: usize,
}

impl Machine {
    /// The generation of all pairs that are pending.
    pub fn generation(&self) -> Generation
        ensures { result ≡ record { end = length self.now.pending } }
    {
        Generation {
            end: self.pending().len(),
        }
    }

    /// Takes the pairs of a generation, each once, until none is left or so many have fired. Those that come of it are of the
    /// next one. Answers whether none is left. Where it is broken off, the net is that before the next pair.
    pub fn run_generation(
        &mut self,
        program: &Program,
        generation: &mut Generation,
        steps: u64,
    ) -> Result<bool, MachineFault>
        requires arities { self.old.arities ≡ program.now.arities }
        requires few { self.old.interactions + steps < 2 ^ 64 }
        requires within { IsWithin generation.old self.old.pending }
        ensures advances { Advances program.now generation.old generation.new self.old self.new }
        ensures within { IsWithin generation.new self.new.pending }
        ensures at_most { self.new.interactions ≤ self.old.interactions + steps }
        ensures over { result ≡ Ok true → generation.new.end ≡ 0 }
        ensures all { result ≡ Ok false
            → self.new.interactions ≡ self.old.interactions + steps }
        ensures left { result ≡ Ok false → 0 < generation.new.end }
    {
        let mut left = steps;
        while generation.end > 0 {
            if left == 0 {
                return Ok(false);
            }
            let next = Generation {
                end: generation.end - 1,
            };
            if self.take_first(program)? {
                left -= 1;
            }
            *generation = next;
            left -= self.take_spare_firsts(program, generation, left);
        }
        Ok(true)
    }

    /// Fires pairs of a generation, as long as the first pending one has a plan and memory is spare, until none is left or so many have
    /// fired. Answers how many have fired.
    fn take_spare_firsts(
        &mut self,
        program: &Program,
        generation: &mut Generation,
        steps: u64,
    ) -> u64
        requires arities { self.old.arities ≡ program.now.arities }
        requires few { self.old.interactions + steps < 2 ^ 64 }
        requires within { IsWithin generation.old self.old.pending }
        ensures advances { Advances program.now generation.old generation.new self.old self.new }
        ensures within { IsWithin generation.new self.new.pending }
        ensures fired { self.new.interactions ≡ self.old.interactions + result }
        ensures at_most { result ≤ steps }
        ensures left { generation.new.end ≤ generation.old.end }
    {
        let Some(most) = program.most() else {
            return 0;
        };
        let pairs = steps.min(generation.end as u64);
        let times = self.tables.spare_for(most, pairs);
        if times == 0 {
            return 0;
        }
        let fired = self
            .tables
            .fire_firsts(program, &mut self.counts, most, times);
        // What a pair without a plan left over is spare again.
        self.tables.spare += (times - fired) as usize * most;
        self.interactions += fired;
        generation.end -= fired as usize;
        fired
    }

    /// Whether a pending pair has a plan.
    pub fn has_active(&self, program: &Program) -> bool
        ensures some { result ≡ true → (e : AnyEquation) × Contains self.now.pending e
            × IsActive program.now e }
        ensures none { result ≡ false → AllByRecursion (IsStuck program.now) self.now.pending }
    {
        for pair in self.tables.pending.as_slice() {
            if program.number_for(*pair).is_some() {
                return true;
            }
        }
        false
    }
}
