//! Equations that are put at the end, and taken at both ends.

ghost use Rattle.std.specs.Prelude.{◌≡◌, ◌+◌, ◌^◌, ◌<◌, ◌≤◌, [], ◌∷◌, ◌++◌, MatchOption, IfOk, OnErr, OnOk, drop, length, take, vec_capacity, vec_len};
ghost use Rattle.ic_machine.specs.declared.equation.Equation.{Equation as AnyEquation};
ghost use Rattle.ic_machine.specs.inner.Pairs.{IsFirst, IsLast};

use crate::equation::Equation;
use std::alloc::{AllocError, Global};
use std::marker::Model;

/// Equations in order. Those that were taken at the front keep their memory until more is needed.
#[derive(Drop)]
pub(crate) struct Queue {
    equations: Vec<Equation>,
    /// How many at the front were taken.
    taken: usize,
}

impl Model for Queue {
    ghost use Rattle.ic_machine.specs.inner.Queue.{Queued, queued, IsQueue};

    ghost Value = { Queued };

    ghost view = { queued };

    ghost invariant = { IsQueue };
}

impl Queue {
    /// Takes no memory.
    pub(crate) fn new(alloc: Global) -> Queue
        ensures { result.items ≡ [] }
    {
        Queue {
            equations: Vec::new(alloc),
            taken: 0,
        }
    }

    /// How many equations there are.
    pub(crate) fn len(&self) -> usize
        ensures count { result ≡ length self.now.items }
        ensures few { result < 2 ^ 63 }
    {
        self.equations.len() - self.taken
    }

    /// The equations, the first one first.
    pub(crate) fn as_slice(&self) -> &[Equation]
        ensures { result.now ≡ self.now.items }
    {
        &self.equations[self.taken..]
    }

    /// The first one of some.
    #[inline(always)]
    pub(crate) fn first(&self) -> Equation
        requires { 1 ≤ length self.now.items }
        ensures { IsFirst result self.now.items }
    {
        self.equations[self.taken]
    }

    /// The last one, if there is one.
    #[inline(always)]
    pub(crate) fn last(&self) -> Option<Equation>
        ensures { MatchOption result (self.now.items ≡ []) (λ e. IsLast e self.now.items) }
    {
        let end = self.equations.len();
        if end == self.taken {
            return None;
        }
        Some(self.equations[end - 1])
    }

    /// Takes the memory for so many more. Where more is needed and more than half were taken, it takes their memory first, by time
    /// that is theirs.
    pub(crate) fn reserve(&mut self, more: usize) -> Result<(), AllocError>
        ensures items { self.new.items ≡ self.old.items }
        ensures capacity { self.old.capacity ≤ self.new.capacity }
        ensures room { OnOk result (length self.old.items + more ≤ self.new.capacity) }
    {
        let free = self.equations.capacity() - self.equations.len();
        if free < more && self.len() < self.taken {
            self.close_up();
        }
        self.equations.reserve(more)
    }

    /// Puts one at the end, for which there is memory.
    #[inline(always)]
    pub(crate) fn push_reserved(&mut self, equation: Equation)
        requires { length self.old.items < self.old.capacity }
        ensures items { self.new.items ≡ self.old.items ++ equation ∷ [] }
        ensures capacity { self.new.capacity ≡ self.old.capacity }
    {
        self.equations.push_reserved(equation);
    }

    /// Takes the last one out.
    #[inline(always)]
    pub(crate) fn pop(&mut self)
        requires { 1 ≤ length self.old.items }
        ensures items { (e : AnyEquation) → IsLast e self.old.items
            → self.old.items ≡ self.new.items ++ e ∷ [] }
        ensures len { length self.old.items ≡ length self.new.items + 1 }
        ensures capacity { self.new.capacity ≡ self.old.capacity }
    {
        self.equations.take_last();
    }

    /// Takes the first one out.
    #[inline(always)]
    pub(crate) fn take_first(&mut self)
        requires { 1 ≤ length self.old.items }
        ensures items { (e : AnyEquation) → IsFirst e self.old.items
            → self.old.items ≡ e ∷ self.new.items }
        ensures len { length self.old.items ≡ length self.new.items + 1 }
        ensures capacity { self.old.capacity ≤ self.new.capacity + 1 }
    {
        self.taken += 1;
    }

    /// Takes all but so many at the front out.
    pub(crate) fn split_off(&mut self, count: usize) -> Result<Queue, AllocError>
        requires { count ≤ length self.old.items }
        ensures items { OnOk result (self.new.items ≡ take count self.old.items) }
        ensures tail { IfOk result (λ q. q.items ≡ drop count self.old.items) }
        ensures err { OnErr result (self.new.items ≡ self.old.items) }
    {
        let equations = self.equations.split_off(self.taken + count)?;
        Ok(Queue {
            equations,
            taken: 0,
        })
    }

    /// The equations alone.
    pub(crate) fn into_vec(self) -> Vec<Equation>
        ensures { result.items ≡ self.items }
    {
        let mut equations = self.equations;
        take_front(&mut equations, self.taken);
        equations
    }

    /// Moves the equations to the front.
    fn close_up(&mut self)
        ensures items { self.new.items ≡ self.old.items }
        ensures capacity { self.old.capacity ≤ self.new.capacity }
    {
        take_front(&mut self.equations, self.taken);
        self.taken = 0;
    }
}

/// Takes so many out at the front.
fn take_front(equations: &mut Vec<Equation>, count: usize)
    requires { count ≤ vec_len equations.old }
    ensures items { equations.new.items ≡ drop count equations.old.items }
    ensures capacity { vec_capacity equations.new ≡ vec_capacity equations.old }
{
    let left = equations.len() - count;
    equations.copy_within(count.., 0);
    equations.truncate(left);
}
