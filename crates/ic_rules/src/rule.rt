//! Rules: their agents with the names numbered, and whether one is lopsided.

ghost use Rattle.std.specs.Prelude.{◌≡◌, ◌++◌, ◌==◌, ◌&&◌, map, length, IfOk, IfSome, IsNone, IsTrue, ◌↔◌, not, true, false};
ghost use Rattle.std.specs.List.{flat_map};
ghost use Rattle.ic_term.specs.Tree.{names};
ghost use Rattle.ic_term.specs.Term.{tree};
ghost use Rattle.ic_rules.specs.Renaming.{are_paired, renamed, number_among};
ghost use Rattle.ic_rules.specs.inner.Arguments.{firsts_of, is_own_swap};

use crate::firsts::Firsts;
use crate::renaming::{first_occurrences, names_of, number_terms};
use ic_term::{Cell, Term, same_terms};
use std::alloc::{AllocError, Global};
use std::marker::Model;

/// An interaction rule: two symbols by number, the arguments of each, and how many names it has. The names are
/// numbered 0, 1, .. by first occurrence, left arguments first.
#[derive(Drop)]
pub struct Rule {
    left: u32,
    right: u32,
    left_args: Vec<Term>,
    right_args: Vec<Term>,
    names: usize,
}

impl Model for Rule {
    ghost use Rattle.std.specs.Prelude.{map};
    ghost use Rattle.ic_term.specs.Term.{tree};
    ghost use Rattle.ic_rules.specs.Rule.{Rule as PlainRule, IsRule};
    ghost use Rattle.ic_rules.specs.lemmas.Codings.{coded_rule};

    ghost Value = { PlainRule };

    ghost coded = { coded_rule };

    ghost view = { λ r. record {
      left = r.left;
      right = r.right;
      left_args = map tree r.left_args.items;
      right_args = map tree r.right_args.items;
      names = r.names;
    } };

    ghost invariant = { λ r. IsRule
        (record {
          left = r.left;
          right = r.right;
          left_args = map tree r.left_args.items;
          right_args = map tree r.right_args.items;
          names = r.names;
        }) };
}

impl Rule {
    ghost use Rattle.ic_rules.specs.Rule.{IsRule, numbered, is_lopsided, rule_names};
    ghost use Rattle.ic_rules.specs.Written.{written};

    pub fn left(&self) -> u32
        ensures left { result ≡ self.now.left }
        ensures sound { IsRule self.now }
    {
        self.left
    }

    pub fn right(&self) -> u32
        ensures right { result ≡ self.now.right }
        ensures sound { IsRule self.now }
    {
        self.right
    }

    pub fn left_args(&self) -> &[Term]
        ensures args { map tree result.now ≡ self.now.left_args }
        ensures sound { IsRule self.now }
    {
        self.left_args.as_slice()
    }

    pub fn right_args(&self) -> &[Term]
        ensures args { map tree result.now ≡ self.now.right_args }
        ensures sound { IsRule self.now }
    {
        self.right_args.as_slice()
    }

    /// How many names there are, each of which occurs twice.
    pub fn names(&self) -> usize
        ensures names { result ≡ self.now.names }
        ensures sound { IsRule self.now }
    {
        self.names
    }

    /// The rule of two agents with its names numbered, or `None` where it is lopsided.
    pub(crate) fn of_agents(
        alloc: Global,
        left: &Cell,
        right: &Cell,
    ) -> Result<Option<Rule>, AllocError>
        requires { are_paired (rule_names (written (left.now, right.now))) ≡ true }
        ensures lopsided { IfOk result
            (λ rule. IsNone rule
            ↔ IsTrue (is_lopsided (numbered (written (left.now, right.now))))) }
        ensures sound { IfOk result (λ rule. IfSome rule IsRule) }
        ensures rule { IfOk result
            (λ rule. IfSome rule (λ rule. rule ≡ numbered (written (left.now, right.now)))) }
    {
        let arguments = number(alloc, &left.args, &right.args)?;
        if is_lopsided(alloc, left.sym, right.sym, &arguments)? {
            return Ok(None);
        }
        Ok(Some(Rule {
            left: left.sym,
            right: right.sym,
            left_args: arguments.left,
            right_args: arguments.right,
            names: arguments.names,
        }))
    }
}

impl PartialEq for Rule {
    ghost use Rattle.std.specs.Cmp.{partial_equiv_from_equiv};
    ghost use Rattle.ic_rules.specs.Rule.{rule_eq};
    ghost use Rattle.ic_rules.specs.lemmas.RuleLaws.{rule_eq-equivalence};

    ghost eq = { rule_eq };

    ghost laws = { partial_equiv_from_equiv rule_eq-equivalence };

    fn eq(&self, other: &Rule) -> bool {
        other.left == self.left
            && other.right == self.right
            && same_terms(&self.left_args, &other.left_args)
            && same_terms(&self.right_args, &other.right_args)
            && other.names == self.names
    }
}

impl Eq for Rule {
    ghost use Rattle.ic_rules.specs.lemmas.RuleLaws.{rule_eq-equivalence};

    ghost laws = { rule_eq-equivalence };
}

/// The arguments of a rule with its names numbered, and how many names there are.
#[derive(Drop)]
struct Arguments {
    left: Vec<Term>,
    right: Vec<Term>,
    names: usize,
}

/// The arguments with their names numbered by their places among these.
fn number_by(
    alloc: Global,
    left: &[Term],
    right: &[Term],
    firsts: &Firsts,
) -> Result<Arguments, AllocError>
    ensures left { IfOk result
        (λ n. map tree n.left.items
        ≡ map (renamed (number_among firsts.now)) (map tree left.now)) }
    ensures right { IfOk result
        (λ n. map tree n.right.items
        ≡ map (renamed (number_among firsts.now)) (map tree right.now)) }
    ensures names { IfOk result (λ n. n.names ≡ length firsts.now) }
{
    Ok(Arguments {
        left: number_terms(alloc, left, firsts)?,
        right: number_terms(alloc, right, firsts)?,
        names: firsts.len(),
    })
}

/// The arguments with their names numbered by first occurrence, the left ones first.
fn number(alloc: Global, left: &[Term], right: &[Term]) -> Result<Arguments, AllocError>
    ensures left { IfOk result
        (λ n. map tree n.left.items
        ≡ map (renamed (number_among (firsts_of left.now right.now))) (map tree left.now)) }
    ensures right { IfOk result
        (λ n. map tree n.right.items
        ≡ map (renamed (number_among (firsts_of left.now right.now))) (map tree right.now)) }
    ensures names { IfOk result (λ n. n.names ≡ length (firsts_of left.now right.now)) }
{
    let names = names_of(alloc, left, right)?;
    let firsts = first_occurrences(alloc, &names)?;
    number_by(alloc, left, right, &firsts)
}

/// Whether numbered arguments are their own swap: the right ones before the left ones, numbered anew.
fn is_own_swap(alloc: Global, arguments: &Arguments) -> Result<bool, AllocError>
    ensures { IfOk result
        (λ same. same
        ≡ is_own_swap (map tree arguments.now.left.items)
        (map tree arguments.now.right.items) arguments.now.names) }
{
    let swap = number(alloc, &arguments.right, &arguments.left)?;
    let same = same_terms(&arguments.left, &swap.left)
        && same_terms(&arguments.right, &swap.right)
        && arguments.names == swap.names;
    Ok(same)
}

/// Whether a rule of a symbol with itself isn't its own swap.
fn is_lopsided(
    alloc: Global,
    left: u32,
    right: u32,
    arguments: &Arguments,
) -> Result<bool, AllocError>
    ensures { IfOk result
        (λ lopsided. lopsided
        ≡ (left == right
        && not (is_own_swap (map tree arguments.now.left.items)
        (map tree arguments.now.right.items) arguments.now.names))) }
{
    if left != right {
        return Ok(false);
    }
    Ok(!is_own_swap(alloc, arguments)?)
}
