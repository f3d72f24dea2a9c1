//! Terms, agents and equations: their nodes, names and copies, and whether two are the same.

ghost use Rattle.std.specs.Prelude.{◌≡◌, ◌++◌, min, IfOk, OnErr, OnOk};
ghost use Rattle.ic_term.specs.Tree.{nodes, names, tree_eq, pair_names, pair_nodes, pair_eq};
ghost use Rattle.std.specs.Cmp.{on_per, on_equiv, partial_equiv_from_equiv};
ghost use Rattle.ic_term.specs.Term.{tree, cell_tree, pair};
ghost use Rattle.ic_term.specs.lemmas.TreeLaws.{tree_eq-equivalence, pair_eq-equivalence};

use std::alloc::{AllocError, Global};

/// A term: a name, or an agent.
#[cycle(term)]
#[derive(Drop)]
pub enum Term {
    Name(u64),
    Agent(Box<Cell>),
}

/// An agent: the number of its symbol, and its arguments in order.
#[cycle(term)]
#[derive(Drop)]
pub struct Cell {
    pub sym: u32,
    pub args: Vec<Term>,
}

/// An equation of two terms.
#[derive(Drop)]
pub struct Equation {
    pub left: Term,
    pub right: Term,
}

impl Term {
    /// How many names and agents the term has, or 2^64 - 1 where there are more.
    #[cycle(nodes)]
    pub fn nodes(&self) -> u64
        ensures { result ≡ min (nodes (tree self.now)) u64.MAX }
    {
        match self {
            Term::Name(_) => 1,
            Term::Agent(cell) => cell.nodes(),
        }
    }

    /// A copy, equal to its source.
    #[cycle(copy)]
    pub fn copy(&self, alloc: Global) -> Result<Term, AllocError>
        ensures { IfOk result (λ copy. tree copy ≡ tree self.now) }
    {
        match self {
            Term::Name(name) => Ok(Term::Name(*name)),
            Term::Agent(cell) => {
                let copy = cell.copy(alloc)?;
                Ok(Term::Agent(Box::new(alloc, copy)?))
            }
        }
    }

    /// Appends the names of the term in the order of the text, each as often as it occurs.
    #[cycle(names)]
    pub(crate) fn append_names(&self, list: &mut Vec<u64>) -> Result<(), AllocError>
        ensures { OnOk result (list.new.items ≡ list.old.items ++ names (tree self.now)) }
    {
        match self {
            Term::Name(name) => {
                list.push(*name)?;
                Ok(())
            }
            Term::Agent(cell) => cell.append_names(list),
        }
    }
}

impl Cell {
    /// How many names and agents the agent has, itself among them, or 2^64 - 1 where there are more.
    #[cycle(nodes)]
    pub fn nodes(&self) -> u64
        ensures { result ≡ min (nodes (cell_tree self.now)) u64.MAX }
    {
        let mut count = 1u64;
        for term in &self.args {
            count = count.saturating_add(term.nodes());
        }
        count
    }

    /// A copy, equal to its source.
    #[cycle(copy)]
    pub fn copy(&self, alloc: Global) -> Result<Cell, AllocError>
        ensures { IfOk result (λ copy. cell_tree copy ≡ cell_tree self.now) }
    {
        let mut args = Vec::with_capacity(alloc, self.args.len())?;
        for term in &self.args {
            args.push(term.copy(alloc)?)?;
        }
        Ok(Cell {
            sym: self.sym,
            args,
        })
    }

    /// Appends the names of the agent in the order of the text, each as often as it occurs.
    #[cycle(names)]
    pub(crate) fn append_names(&self, list: &mut Vec<u64>) -> Result<(), AllocError>
        ensures { OnOk result (list.new.items ≡ list.old.items ++ names (cell_tree self.now)) }
    {
        for term in &self.args {
            term.append_names(list)?;
        }
        Ok(())
    }
}

impl Equation {
    /// How many names and agents the equation has, or 2^64 - 1 where there are more.
    pub fn nodes(&self) -> u64
        ensures { result ≡ min (pair_nodes (pair self.now)) u64.MAX }
    {
        self.left.nodes().saturating_add(self.right.nodes())
    }

    /// A copy, equal to its source.
    pub fn copy(&self, alloc: Global) -> Result<Equation, AllocError>
        ensures { IfOk result (λ copy. pair copy ≡ pair self.now) }
    {
        Ok(Equation {
            left: self.left.copy(alloc)?,
            right: self.right.copy(alloc)?,
        })
    }

    /// Appends the names of the equation, the left term's first, each as often as it occurs.
    pub(crate) fn append_names(&self, list: &mut Vec<u64>) -> Result<(), AllocError>
        ensures { OnOk result (list.new.items ≡ list.old.items ++ pair_names (pair self.now)) }
    {
        self.left.append_names(list)?;
        self.right.append_names(list)
    }
}

impl PartialEq for Term {
    ghost eq = { λ t u. tree_eq (tree t) (tree u) };

    ghost laws = { on_per tree (partial_equiv_from_equiv tree_eq-equivalence) };

    fn eq(&self, other: &Term) -> bool {
        same_term(self, other)
    }
}

impl Eq for Term {
    ghost laws = { on_equiv tree tree_eq-equivalence };
}

impl PartialEq for Cell {
    ghost eq = { λ c d. tree_eq (cell_tree c) (cell_tree d) };

    ghost laws = { on_per cell_tree (partial_equiv_from_equiv tree_eq-equivalence) };

    fn eq(&self, other: &Cell) -> bool {
        same_cell(self, other)
    }
}

impl Eq for Cell {
    ghost laws = { on_equiv cell_tree tree_eq-equivalence };
}

impl PartialEq for Equation {
    ghost eq = { λ e f. pair_eq (pair e) (pair f) };

    ghost laws = { on_per pair (partial_equiv_from_equiv pair_eq-equivalence) };

    fn eq(&self, other: &Equation) -> bool {
        self.left == other.left && self.right == other.right
    }
}

impl Eq for Equation {
    ghost laws = { on_equiv pair pair_eq-equivalence };
}

#[cycle(same)]
fn same_term(left: &Term, right: &Term) -> bool
    ensures { result ≡ tree_eq (tree left.now) (tree right.now) }
{
    match (left, right) {
        (Term::Name(left), Term::Name(right)) => left == right,
        (Term::Agent(left), Term::Agent(right)) => same_cell(left, right),
        _ => false,
    }
}

#[cycle(same)]
fn same_cell(left: &Cell, right: &Cell) -> bool
    ensures { result ≡ tree_eq (cell_tree left.now) (cell_tree right.now) }
{
    if left.sym != right.sym {
        return false;
    }
    if left.args.len() != right.args.len() {
        return false;
    }
    for i in 0..left.args.len() {
        if !same_term(&left.args[i], &right.args[i]) {
            return false;
        }
    }
    true
}
