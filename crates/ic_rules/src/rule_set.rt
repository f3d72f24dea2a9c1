//! Rule sets: how they are built, why rules make none, and the rule of two symbols.

ghost use Rattle.std.specs.Prelude.{◌≡◌, ◌≤◌, ◌+◌, ◌↔◌, IsTrue, nat_le, length, map, min, sum_by, None, is_some, ◌||◌, IfOk, IfErr, OnOk, Ok, Err};
ghost use Rattle.std.specs.List.{list_all, position_from, AllByRecursion};
ghost use Rattle.ic_term.specs.Tree.{nodes};
ghost use Rattle.ic_term.specs.Term.{tree};
ghost use Rattle.ic_rules.specs.Rule.{rule_nodes, numbered, stands_for, IsRule};
ghost use Rattle.ic_rules.specs.RuleFault.{Answers};
ghost use Rattle.ic_rules.specs.RuleSet.{built, are_few, rule_for, IsRuleSet, first_uncounted, first_repeated, first_lopsided};
ghost use Rattle.ic_rules.specs.inner.RuleFault.{IsTwice, IsLopsided};
ghost use Rattle.ic_rules.specs.Written.{written};
ghost use Rattle.ic_rules.specs.inner.Places.{ArePlaces, pair_cmp};
ghost use Rattle.std.specs.BTreeMap.{get};
ghost use Rattle.ic_rules.specs.declared.rule_set.RuleFault.TheVariants.{Memory};

use crate::fit::first_unfit;
use crate::limits::{MAX_RULE_NODES, MAX_RULES, MAX_WIDE_RULES};
use crate::renaming::{are_paired, names_of};
use crate::rule::Rule;
use ic_term::{Cell, MAX_SYMBOLS, Symbols, Term, nodes_of_terms};
use std::alloc::{AllocError, AllocFailed, Global};
use std::collections::BTreeMap;
use std::marker::Model;

/// Why rules make no rule set, in the order in which it is tried. A rule is named by its place from 0.
#[derive(Clone, Copy, PartialEq, Eq)]
pub enum RuleFault {
    /// There are too many rules, or too many nodes in the arguments of one.
    Limit,
    /// The symbol of the first agent that is unknown or has another arity.
    Arity(u32),
    /// The first rule with a name that doesn't occur exactly twice in it.
    NameCount(u32),
    /// The first rule whose unordered pair of symbols an earlier rule has.
    Twice(u32),
    /// The first rule of a symbol with itself that isn't its own swap.
    Lopsided(u32),
    /// A growth was refused.
    Memory,
}

impl From<AllocError> for RuleFault {
    ghost from_gives = { λ _ fault. fault ≡ Memory };

    fn from(_error: AllocError) -> RuleFault {
        RuleFault::Memory
    }
}

impl<T: Drop> From<AllocFailed<T>> for RuleFault {
    ghost from_gives = { λ _ fault. fault ≡ Memory };

    fn from(_error: AllocFailed<T>) -> RuleFault {
        RuleFault::Memory
    }
}

/// At most so many rules are gone through one by one, where the rule of two symbols is looked for.
const FEW: usize = 8;

/// Two symbols by number, in this order.
#[derive(Clone, Copy, PartialEq, Eq, PartialOrd, Ord)]
struct SymbolPair {
    first: u32,
    second: u32,
}

/// Symbols and rules over them, at most one for each unordered pair of symbols.
#[derive(Drop)]
pub struct RuleSet {
    symbols: Symbols,
    rules: Vec<Rule>,
    places: BTreeMap<SymbolPair, usize>,
}

impl Model for RuleSet {
    ghost use Rattle.std.specs.Prelude.{◌≡◌, ◌&&◌, ◌==◌};
    ghost use Rattle.std.specs.BTreeMap.{get};
    ghost use Rattle.ic_rules.specs.RuleSet.{Rules, IsRuleSet};
    ghost use Rattle.ic_rules.specs.lemmas.Codings.{coded_rules};

    ghost Value = { Rules };

    ghost coded = { coded_rules };

    ghost use Rattle.ic_rules.specs.inner.Places.{ArePlaces};

    ghost view = { λ s. record { symbols = s.symbols; rules = s.rules.items } };

    ghost invariant = { λ s. IsRuleSet (record { symbols = s.symbols; rules = s.rules.items })
        × ArePlaces s.places s.rules.items };
}

impl RuleSet {
    ghost use Rattle.ic_rules.specs.RuleSet.{AreServed};

    /// The rule set of these rules, the names of each numbered by first occurrence.
    pub fn build(
        alloc: Global,
        symbols: Symbols,
        rules: Vec<(Cell, Cell)>,
    ) -> Result<RuleSet, RuleFault>
        ensures { Answers result (built symbols (map written rules.items)) }
    {
        let (rules, places) = prepared(alloc, &symbols, &rules)?;
        Ok(RuleSet {
            symbols,
            rules,
            places,
        })
    }

    pub fn symbols(&self) -> &Symbols
        ensures symbols { result.now ≡ self.now.symbols }
        ensures sound { IsRuleSet self.now }
    {
        &self.symbols
    }

    pub fn rules(&self) -> &[Rule]
        ensures rules { result.now ≡ self.now.rules }
        ensures sound { IsRuleSet self.now }
    {
        self.rules.as_slice()
    }

    /// Whether symbols, rules and the nodes of all arguments together keep the limits of what is served. Takes a step
    /// for each node.
    pub fn are_served(&self) -> bool
        ensures served { IsTrue result ↔ AreServed self.now }
        ensures sound { IsRuleSet self.now }
    {
        self.symbols.len() <= MAX_SYMBOLS
            && self.rules.len() <= MAX_RULES
            && argument_nodes(&self.rules) <= MAX_RULE_NODES
    }

    /// The place of the rule of two symbols, and whether `a` is its right symbol only. Goes through a few rules twice at
    /// most, and takes two look-ups at most where there are more.
    #[inline(always)]
    pub fn find(&self, a: u32, b: u32) -> Option<(usize, bool)>
        ensures rule { result ≡ rule_for self.now.rules a b }
        ensures sound { IsRuleSet self.now }
    {
        if self.rules.len() <= FEW {
            return find_among(&self.rules, a, b);
        }
        self.find_by_places(a, b)
    }

    /// The same, by the map of places.
    #[inline(never)]
    fn find_by_places(&self, a: u32, b: u32) -> Option<(usize, bool)>
        ensures { result ≡ rule_for self.now.rules a b }
    {
        let pair = SymbolPair {
            first: a,
            second: b,
        };
        let turned = SymbolPair {
            first: b,
            second: a,
        };
        match self.places.get(&pair) {
            Some(place) => Some((*place, false)),
            None => match self.places.get(&turned) {
                Some(place) => Some((*place, true)),
                None => None,
            },
        }
    }
}

/// The place of the rule of two symbols, and whether `a` is its right symbol only, rule by rule.
#[inline(always)]
fn find_among(rules: &[Rule], a: u32, b: u32) -> Option<(usize, bool)>
    ensures { result ≡ rule_for rules.now a b }
{
    match place_among(rules, a, b) {
        Some(place) => Some((place, false)),
        None => match place_among(rules, b, a) {
            Some(place) => Some((place, true)),
            None => None,
        },
    }
}

/// The place of the first rule of two symbols, as they stand.
#[inline(always)]
fn place_among(rules: &[Rule], left: u32, right: u32) -> Option<usize>
    ensures { result ≡ position_from (stands_for left right) 0 rules.now }
{
    for (place, rule) in rules.iter().enumerate() {
        if rule.left() == left && rule.right() == right {
            return Some(place);
        }
    }
    None
}

impl PartialEq for RuleSet {
    ghost use Rattle.std.specs.Cmp.{partial_equiv_from_equiv};
    ghost use Rattle.ic_rules.specs.RuleSet.{rules_eq};
    ghost use Rattle.ic_rules.specs.lemmas.RuleLaws.{rules_eq-equivalence};

    ghost eq = { rules_eq };

    ghost laws = { partial_equiv_from_equiv rules_eq-equivalence };

    fn eq(&self, other: &RuleSet) -> bool {
        self.symbols == other.symbols && self.rules == other.rules
    }
}

impl Eq for RuleSet {
    ghost use Rattle.ic_rules.specs.lemmas.RuleLaws.{rules_eq-equivalence};

    ghost laws = { rules_eq-equivalence };
}

/// The rules with their names numbered, and the place of each by its symbols, or why they make no rule set.
fn prepared(
    alloc: Global,
    symbols: &Symbols,
    rules: &[(Cell, Cell)],
) -> Result<(Vec<Rule>, BTreeMap<SymbolPair, usize>), RuleFault>
    ensures built { IfOk result (λ parts. Ok (record { symbols = symbols.now; rules = parts.0.items })
        ≡ built symbols.now (map written rules.now)) }
    ensures sound { IfOk result
        (λ parts. IsRuleSet (record { symbols = symbols.now; rules = parts.0.items })) }
    ensures places { IfOk result (λ parts. ArePlaces parts.1 parts.0.items) }
    ensures refused { IfErr result
        (λ fault. Answers (Err fault) (built symbols.now (map written rules.now))) }
{
    if !are_few(rules) {
        return Err(RuleFault::Limit);
    }
    if let Some(sym) = first_unfit(symbols, rules) {
        return Err(RuleFault::Arity(sym));
    }
    if let Some(place) = first_uncounted(alloc, rules)? {
        return Err(RuleFault::NameCount(place));
    }
    let places = places_of(alloc, rules)?;
    let rules = number_rules(alloc, rules)?;
    Ok((rules, places))
}

/// Whether neither the rules nor the nodes of one rule's arguments are too many.
fn are_few(rules: &[(Cell, Cell)]) -> bool
    ensures { result ≡ are_few (map written rules.now) }
{
    rules.len() <= MAX_WIDE_RULES && are_short(rules)
}

/// Whether the arguments of no rule have too many nodes.
fn are_short(rules: &[(Cell, Cell)]) -> bool
    ensures { result
        ≡ list_all (λ r. nat_le (rule_nodes r) MAX_RULE_NODES) (map written rules.now) }
{
    for (left, right) in rules {
        if nodes_of_sides(&left.args, &right.args) > MAX_RULE_NODES {
            return false;
        }
    }
    true
}

/// How many nodes the arguments of all rules have, or 2^64 - 1 where there are more.
fn argument_nodes(rules: &[Rule]) -> u64
    ensures { result ≡ min (sum_by rule_nodes rules.now) u64.MAX }
{
    let mut count = 0u64;
    for rule in rules {
        count = count.saturating_add(nodes_of_sides(rule.left_args(), rule.right_args()));
    }
    count
}

/// How many nodes the arguments of a rule have, or 2^64 - 1 where there are more.
fn nodes_of_sides(left: &[Term], right: &[Term]) -> u64
    ensures { result
        ≡ min (sum_by nodes (map tree left.now) + sum_by nodes (map tree right.now)) u64.MAX }
{
    nodes_of_terms(left).saturating_add(nodes_of_terms(right))
}

/// The first rule with a name that doesn't occur exactly twice.
fn first_uncounted(alloc: Global, rules: &[(Cell, Cell)]) -> Result<Option<u32>, AllocError>
    requires { length rules.now ≤ MAX_WIDE_RULES }
    ensures { IfOk result (λ place. place ≡ first_uncounted (map written rules.now)) }
{
    for (i, (left, right)) in rules.iter().enumerate() {
        let names = names_of(alloc, &left.args, &right.args)?;
        if !are_paired(alloc, &names)? {
            return Ok(Some(i as u32));
        }
    }
    Ok(None)
}

/// The place of each rule by its symbols, or `Twice` for the first whose unordered pair an earlier rule has.
fn places_of(
    alloc: Global,
    rules: &[(Cell, Cell)],
) -> Result<BTreeMap<SymbolPair, usize>, RuleFault>
    requires { length rules.now ≤ MAX_WIDE_RULES }
    ensures places { IfOk result (λ places. ArePlaces places (map written rules.now)) }
    ensures single { OnOk result (first_repeated (map written rules.now) ≡ None) }
    ensures twice { IfErr result (IsTwice (map written rules.now)) }
{
    let mut places = BTreeMap::new(alloc);
    for (i, (left, right)) in rules.iter().enumerate() {
        let pair = SymbolPair {
            first: left.sym,
            second: right.sym,
        };
        if has_pair(&places, pair) {
            return Err(RuleFault::Twice(i as u32));
        }
        places.insert(pair, i)?;
    }
    Ok(places)
}

/// Whether there is a place for these symbols, in this order or the other.
fn has_pair(places: &BTreeMap<SymbolPair, usize>, pair: SymbolPair) -> bool
    ensures { result
        ≡ (is_some (get pair_cmp places.now pair)
        || is_some (get pair_cmp places.now (record { first = pair.second; second = pair.first }))) }
{
    let turned = SymbolPair {
        first: pair.second,
        second: pair.first,
    };
    places.contains_key(&pair) || places.contains_key(&turned)
}

/// The rules with their names numbered, or `Lopsided` for the first of a symbol with itself that isn't its own swap.
fn number_rules(alloc: Global, rules: &[(Cell, Cell)]) -> Result<Vec<Rule>, RuleFault>
    requires few { length rules.now ≤ MAX_WIDE_RULES }
    requires counted { first_uncounted (map written rules.now) ≡ None }
    ensures rules { IfOk result (λ out. out.items ≡ map numbered (map written rules.now)) }
    ensures each { IfOk result (λ out. AllByRecursion IsRule out.items) }
    ensures level { OnOk result (first_lopsided (map written rules.now) ≡ None) }
    ensures lopsided { IfErr result (IsLopsided (map written rules.now)) }
{
    let mut numbered = Vec::with_capacity(alloc, rules.len())?;
    for (i, (left, right)) in rules.iter().enumerate() {
        match Rule::of_agents(alloc, left, right)? {
            None => return Err(RuleFault::Lopsided(i as u32)),
            Some(rule) => numbered.push(rule)?,
        }
    }
    Ok(numbered)
}
