//! Plans: what a rule makes of two agents, ready to be made.

ghost use Rattle.std.specs.Prelude.{◌≡◌, ℕ, ◌+◌, ◌^◌, ◌<◌, ◌≤◌, [], ◌∷◌, ◌++◌, None, Some, length, map, slice_get, IfSome, IfNone, IfOk, OnOk, OnErr};
ghost use Rattle.std.specs.Option.{option_map};
ghost use Rattle.ic_machine.specs.Plan.{planned, plan_of, IsPlan, ArePlans};
ghost use Rattle.ic_machine.specs.Net.{IsStuck, IsPair};
ghost use Rattle.ic_machine.specs.inner.Pairs.{HasNumber};
ghost use Rattle.ic_machine.specs.inner.Tables.{size_of, NeedAtMost};

use crate::equation::Equation;
use crate::pairs::PairIndex;
use smallvec::SmallVec;
use std::alloc::{AllocError, Global};
use std::marker::Model;

/// The registers of two words that are to be made equal.
#[derive(Clone, Copy)]
pub struct Link {
    pub left: u32,
    pub right: u32,
}

/// An agent that is to be made: its symbol, and the register of each argument. Up to four stand in the value itself.
#[derive(Drop)]
pub struct Make {
    pub symbol: u32,
    pub operands: SmallVec<u32, 4>,
}

/// What a rule makes of two agents: so many fresh names, agents in this order, and equations.
#[derive(Drop)]
pub struct Plan {
    pub names: u32,
    pub makes: Vec<Make>,
    pub links: Vec<Link>,
}

/// The plans of pairs of symbols.
#[derive(Drop)]
pub struct Program {
    arities: Vec<u32>,
    pairs: PairIndex,
    plans: Vec<Plan>,
    /// No plan needs more than so much, where that is a number.
    most: Option<usize>,
}

impl Model for Program {
    ghost use Rattle.std.specs.Prelude.{map};
    ghost use Rattle.ic_machine.specs.Plan.{Plans, planned};

    ghost Value = { Plans };

    ghost view = { λ p. record {
      arities = p.arities.items;
      pairs = p.pairs;
      plans = map planned p.plans.items;
    } };

    ghost use Rattle.ic_machine.specs.inner.Tables.{IsProgram};

    ghost invariant = { λ p. IsProgram
        (record {
          arities = p.arities.items;
          pairs = p.pairs;
          plans = map planned p.plans.items;
        }) p.most };
}

impl Program {
    /// No plans, for symbols of these arities.
    pub fn new(alloc: Global, arities: Vec<u32>) -> Result<Program, AllocError>
        ensures { IfOk result (λ p. p ≡ record { arities = arities.items; pairs = []; plans = [] }) }
    {
        let pairs = PairIndex::new(alloc, arities.len())?;
        Ok(Program {
            arities,
            pairs,
            plans: Vec::new(alloc),
            most: Some(0),
        })
    }

    /// Adds the plan of two symbols that have none, as they meet in this order.
    pub fn add(&mut self, a: u32, b: u32, plan: Plan) -> Result<(), AllocError>
        requires a { a < length self.old.arities }
        requires b { b < length self.old.arities }
        requires new { plan_of self.old a b ≡ None }
        requires plan { (left right : ℕ) → slice_get self.old.arities a ≡ Some left
            → slice_get self.old.arities b ≡ Some right
            → IsPlan self.old.arities (left + right) (planned plan) }
        requires few { length self.old.plans < 2 ^ 32 }
        ensures added { OnOk result (self.new ≡ record {
          arities = self.old.arities;
          pairs = self.old.pairs ++ (a, b) ∷ [];
          plans = self.old.plans ++ planned plan ∷ [];
        }) }
        ensures same { OnErr result (self.new ≡ self.old) }
        ensures sound { ArePlans self.new }
    {
        let arguments = self.arities[a as usize] as usize + self.arities[b as usize] as usize;
        self.plans.reserve(1)?;
        self.pairs.push(a, b)?;
        self.most = greater(self.most, need_of(arguments, &plan));
        self.plans.push_reserved(plan);
        Ok(())
    }

    /// How many arguments an agent of each symbol has.
    pub fn arities(&self) -> &[u32]
        ensures arities { result.now ≡ self.now.arities }
        ensures sound { ArePlans self.now }
    {
        self.arities.as_slice()
    }

    /// The plan of two symbols.
    pub fn plan(&self, a: u32, b: u32) -> Option<&Plan>
        requires a { a < length self.now.arities }
        requires b { b < length self.now.arities }
        ensures plan { option_map (λ p. planned p.now) result ≡ plan_of self.now a b }
        ensures sound { ArePlans self.now }
    {
        match self.pairs.get(a, b) {
            None => None,
            Some(number) => self.plans.get(number as usize),
        }
    }

    /// No plan needs more than so much: registers for its arguments, names and agents, and equations, all together.
    #[inline(always)]
    pub(crate) fn most(&self) -> Option<usize>
        ensures most { IfSome result (λ most. NeedAtMost most self.now) }
        ensures sound { ArePlans self.now }
    {
        self.most
    }

    /// The plans, by their numbers.
    pub(crate) fn plans(&self) -> &[Plan]
        ensures { map planned result.now ≡ self.now.plans }
    {
        self.plans.as_slice()
    }

    /// The plan with a number.
    #[inline(always)]
    pub(crate) fn plan_at(&self, number: u32) -> &Plan
        requires { number < length self.now.plans }
        ensures { slice_get self.now.plans number ≡ Some (planned result.now) }
    {
        &self.plans[number as usize]
    }

    /// The number of the plan of an equation, where both sides are agents whose symbols have one.
    #[inline(always)]
    pub(crate) fn number_for(&self, equation: Equation) -> Option<u32>
        ensures found { IfSome result (HasNumber self.now equation) }
        ensures none { IfNone result (IsPair equation → IsStuck self.now equation) }
    {
        if equation.left.tag == 0 || equation.right.tag == 0 {
            return None;
        }
        self.number_of_pair(equation)
    }

    /// The number of the plan of a pair of agents, where their symbols have one.
    #[inline(always)]
    pub(crate) fn number_of_pair(&self, pair: Equation) -> Option<u32>
        requires pair { IsPair pair }
        ensures found { IfSome result (HasNumber self.now pair) }
        ensures none { IfNone result (IsStuck self.now pair) }
    {
        self.pairs.get(pair.left.tag - 1, pair.right.tag - 1)
    }
}

/// How many registers a plan needs for so many arguments, names and agents, and how many equations it makes, all together.
fn need_of(arguments: usize, plan: &Plan) -> Option<usize>
    ensures { IfSome result (λ need. arguments + size_of (planned plan.now) ≡ need) }
{
    let made = plan.names as usize + plan.makes.len();
    made.checked_add(plan.links.len())?.checked_add(arguments)
}

/// The greater one of two numbers, where both are there.
fn greater(one: Option<usize>, other: Option<usize>) -> Option<usize>
    ensures most { IfSome result (λ most. IfSome one (λ a. a ≤ most) × IfSome other (λ b. b ≤ most)) }
    ensures both { IfSome result (λ most. (IfNone one ⊥) × IfNone other ⊥) }
{
    match (one, other) {
        (Some(one), Some(other)) => Some(one.max(other)),
        _ => None,
    }
}
