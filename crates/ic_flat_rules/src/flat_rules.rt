//! Rules with the words of their sides.

ghost use Rattle.std.specs.Prelude.{◌≡◌, ◌<◌, length, IfOk, IfSome, slice_get};
ghost use Rattle.std.specs.Arc.{arc_value};
ghost use Rattle.ic_rules.specs.RuleSet.{IsRuleSet};
ghost use Rattle.ic_flat_rules.specs.RuleWords.{rule_words};

use crate::writing::words_of_rules;
use ic_flat::Word;
use ic_rules::RuleSet;
use std::alloc::{AllocError, Global};
use std::marker::Model;
use std::sync::Arc;

/// A rule set, with the arguments of each rule as words that are ready to be copied.
#[derive(Drop)]
pub struct FlatRules {
    rules: Arc<RuleSet>,
    /// The words of all rules, rule by rule.
    words: Vec<Word>,
    /// Where the words of each rule begin, and where those of the last one end.
    bounds: Vec<usize>,
}

impl Model for FlatRules {
    ghost use Rattle.std.specs.Prelude.{◌≡◌};
    ghost use Rattle.std.specs.List.{flat_map};
    ghost use Rattle.ic_rules.specs.RuleSet.{Rules, IsRuleSet};
    ghost use Rattle.ic_rules.specs.lemmas.Codings.{coded_rules};
    ghost use Rattle.ic_flat_rules.specs.RuleWords.{rule_words, bounds_from};

    ghost Value = { Rules };

    ghost coded = { coded_rules };

    ghost use Rattle.std.specs.Arc.{arc_value};

    ghost view = { λ s. arc_value s.rules };

    ghost invariant = { λ s. IsRuleSet (arc_value s.rules)
        × (s.words.items ≡ flat_map rule_words (arc_value s.rules).rules)
        × (s.bounds.items ≡ bounds_from 0 (arc_value s.rules).rules) };
}

impl FlatRules {
    /// The same rules with their words. Takes memory in proportion to the rules, which it shares, and
    /// their nodes.
    pub fn new(alloc: Global, rules: Arc<RuleSet>) -> Result<FlatRules, AllocError>
        ensures { IfOk result (λ flat. flat ≡ arc_value rules) }
    {
        let (words, bounds) = words_of_rules(alloc, rules.rules())?;
        Ok(FlatRules {
            rules,
            words,
            bounds,
        })
    }

    pub fn rules(&self) -> &RuleSet
        ensures rules { result.now ≡ self.now }
        ensures sound { IsRuleSet self.now }
    {
        &self.rules
    }

    /// The rules without their words, to be shared.
    pub fn shared(&self) -> &Arc<RuleSet>
        ensures { arc_value result.now ≡ self.now }
    {
        &self.rules
    }

    /// How many names the rule at a place has.
    pub fn names(&self, place: usize) -> u64
        requires { place < length self.now.rules }
        ensures { IfSome (slice_get self.now.rules place) (λ rule. result ≡ rule.names) }
    {
        self.rules.rules()[place].names() as u64
    }

    /// The words of the rule at a place: those of its left arguments, then those of its right ones.
    pub fn words(&self, place: usize) -> &[Word]
        requires { place < length self.now.rules }
        ensures { IfSome (slice_get self.now.rules place) (λ rule. result.now ≡ rule_words rule) }
    {
        let begin = self.bounds[place];
        let end = self.bounds[place + 1];
        &self.words[begin..end]
    }
}
