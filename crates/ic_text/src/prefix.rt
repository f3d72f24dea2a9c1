//! A configuration in prefix notation, made of its bytes without a step into what they nest.

ghost use Rattle.std.specs.Prelude.{◌≡◌, ℕ, ◌+◌, ◌*◌, ◌<◌, ◌^◌, ◌∷◌, IfOk, OnOk, List, Some, drop, length, reverse};
ghost use Rattle.std.specs.List.{AllByRecursion};
ghost use Rattle.ic_text.specs.declared.token.Mark.TheVariants.{LeftBrace};
ghost use Rattle.ic_text.specs.Token.{Token, mark, mark_of, tokens};
ghost use Rattle.ic_text.specs.Source.{Phrase, phrase_words};
ghost use Rattle.ic_text.specs.SystemSource.{RulePhrase, rules_words};
ghost use Rattle.ic_text.specs.inner.Prefix.{first_run, head_word, head_words, mark_scan, node_of, nodes_of, scan, scan_at, scan_run, scanned};
ghost use Rattle.ic_text.specs.inner.Words.{phrase_prefix, rules_prefix};

use crate::token::{Mark, is_word_byte, mark_of};
use std::alloc::{AllocError, Global};

/// A word, and how many arguments follow it.
#[derive(Clone, Copy)]
pub(crate) struct Node<'a> {
    pub text: &'a [u8],
    pub arity: usize,
}

/// The words of a configuration in the order of the text, and how many terms its interface has; or the words of rules,
/// and how many agents are their sides.
#[derive(Drop)]
pub(crate) struct Prefix<'a> {
    pub nodes: Vec<Node<'a>>,
    pub terms: usize,
}

impl Prefix<'_> {
    /// How many words these are.
    pub(crate) fn words(&self) -> usize
        ensures { result ≡ length self.now.nodes.items }
    {
        self.nodes.len()
    }
}

/// Where in a text a word begins, and how many arguments follow it. It takes less memory than a node.
#[derive(Clone, Copy)]
pub(crate) struct Head {
    pub start: usize,
    pub arity: usize,
}

impl Head {
    /// The word of this text, which begins there.
    #[inline(always)]
    pub(crate) fn node(self, text: &[u8]) -> Node
        ensures { node_of result ≡ head_word text.now self }
    {
        if text.len() < self.start {
            return Node {
                text: &[],
                arity: self.arity,
            };
        }
        Node {
            text: first_run(&text[self.start..]),
            arity: self.arity,
        }
    }
}

/// The word bytes that a text begins with.
fn first_run(text: &[u8]) -> &[u8]
    ensures { result.now ≡ first_run text.now }
{
    for (place, byte) in text.iter().enumerate() {
        if !is_word_byte(*byte) {
            return &text[..place];
        }
    }
    text
}

/// The same as a prefix, with the places of the words.
#[derive(Drop)]
pub(crate) struct Outline {
    pub heads: Vec<Head>,
    pub terms: usize,
}

impl Outline {
    /// How many words these are.
    pub(crate) fn words(&self) -> usize
        ensures { result ≡ length self.now.heads.items }
    {
        self.heads.len()
    }
}

/// What is known of tokens that are scanned from their end: the words, the arguments so far of each list that is open,
/// those of the list that just opened, and the terms outside all parentheses before a `|`.
#[derive(Drop)]
pub(crate) struct Scan {
    heads: Vec<Head>,
    counts: Vec<usize>,
    arity: usize,
    terms: usize,
}

impl Scan {
    /// Takes the word that a run of word bytes makes which begins at a place, if it has a byte, before what was scanned.
    #[inline(always)]
    fn take_run(&mut self, start: usize, run: &[u8]) -> Result<(), AllocError>
        requires { self.old.terms + length run.now < 2 ^ 64 }
        ensures { OnOk result ((text : List ℕ) → first_run (drop start text) ≡ run.now →
            scanned text self.new ≡ scan_run run.now (scanned text self.old)) }
    {
        if run.is_empty() {
            return Ok(());
        }
        let arity = self.arity;
        self.arity = 0;
        self.heads.push(Head { start, arity })?;
        if self.counts.is_empty() {
            self.terms += 1;
        }
        Ok(())
    }

    /// Takes the mark before what was scanned.
    #[inline(always)]
    fn take_mark(&mut self, mark: Mark) -> Result<(), AllocError>
        requires { AllByRecursion (λ count. count + 1 < 2 ^ 64) (reverse self.old.counts.items) }
        ensures { OnOk result ((text : List ℕ) →
            scanned text self.new ≡ mark_scan mark (scanned text self.old)) }
    {
        self.arity = 0;
        match mark {
            Mark::Open => self.arity = self.counts.pop().unwrap_or(0),
            Mark::Close => self.counts.push(1)?,
            Mark::Comma => {
                if let Some(count) = self.counts.pop() {
                    self.counts.push(count + 1)?;
                }
            }
            Mark::Bar => self.terms = 0,
            _ => {}
        }
        Ok(())
    }

    /// Takes a byte that is no word byte before what was scanned: a mark, or else a blank.
    fn take_other(&mut self, byte: u8) -> Result<(), AllocError>
        requires { AllByRecursion (λ count. count + 1 < 2 ^ 64) (reverse self.old.counts.items) }
        ensures { OnOk result ((text : List ℕ) →
            scanned text self.new ≡ scan_at (mark_of byte) (scanned text self.old)) }
    {
        match mark_of(byte) {
            Some(mark) => self.take_mark(mark),
            None => Ok(()),
        }
    }

    /// The same, with the commonest bytes tested first.
    #[inline(always)]
    fn take_byte(&mut self, byte: u8) -> Result<(), AllocError>
        requires { AllByRecursion (λ count. count + 1 < 2 ^ 64) (reverse self.old.counts.items) }
        ensures { OnOk result ((text : List ℕ) →
            scanned text self.new ≡ scan_at (mark_of byte) (scanned text self.old)) }
    {
        match byte {
            b'(' => self.take_mark(Mark::Open),
            b')' => self.take_mark(Mark::Close),
            b',' => self.take_mark(Mark::Comma),
            b'=' => self.take_mark(Mark::Equals),
            b' ' => Ok(()),
            _ => self.take_other(byte),
        }
    }
}

/// What is known of the tokens of a text. Takes one pass over its bytes, from their end. Room is made for so many words
/// at first, and for as many lists that are open at once.
fn scan_of(alloc: Global, text: &[u8], words: usize) -> Result<Scan, AllocError>
    requires { (ts : List Token) × (tokens text.now ≡ Some ts) }
    ensures { IfOk result (λ found. (ts : List Token) → tokens text.now ≡ Some ts →
        scanned text.now found ≡ scan ts) }
{
    let heads = Vec::with_capacity(alloc, words)?;
    let counts = Vec::with_capacity(alloc, words)?;
    let mut scan = Scan {
        heads,
        counts,
        arity: 0,
        terms: 0,
    };
    let mut place = text.len();
    let mut end = place;
    while place > 0 {
        place -= 1;
        let byte = text[place];
        if !is_word_byte(byte) {
            scan.take_run(place + 1, &text[place + 1..end])?;
            end = place;
            scan.take_byte(byte)?;
        }
    }
    scan.take_run(0, &text[..end])?;
    Ok(scan)
}

/// Where the words stand of a configuration that a text spells, and its number of terms, or those of rules after a `{`,
/// and how many agents are their sides. Room is made for so many words at first.
pub(crate) fn outline_of(alloc: Global, text: &[u8], words: usize) -> Result<Outline, AllocError>
    requires { (ts : List Token) × (tokens text.now ≡ Some ts) }
    ensures nodes { IfOk result (λ found. (p : Phrase) →
        tokens text.now ≡ Some (phrase_words p) →
        head_words text.now found.heads.items ≡ phrase_prefix p) }
    ensures terms { IfOk result (λ found. (p : Phrase) →
        tokens text.now ≡ Some (phrase_words p) → found.terms ≡ length p.interface) }
    ensures rules { IfOk result (λ found. (rs : List RulePhrase) →
        tokens text.now ≡ Some (mark LeftBrace ∷ rules_words rs) →
        head_words text.now found.heads.items ≡ rules_prefix rs) }
    ensures agents { IfOk result (λ found. (rs : List RulePhrase) →
        tokens text.now ≡ Some (mark LeftBrace ∷ rules_words rs) →
        found.terms ≡ 2 * length rs) }
{
    let scan = scan_of(alloc, text, words)?;
    let Scan {
        mut heads,
        terms,
        ..
    } = scan;
    heads.reverse();
    Ok(Outline { heads, terms })
}

/// The words that begin at places of a text.
fn nodes_at<'a>(alloc: Global, text: &'a [u8], heads: &[Head]) -> Result<Vec<Node<'a>>, AllocError>
    ensures { IfOk result (λ nodes. nodes_of nodes.items ≡ head_words text.now heads.now) }
{
    let mut nodes = Vec::with_capacity(alloc, heads.len())?;
    for head in heads {
        nodes.push(head.node(text))?;
    }
    Ok(nodes)
}

/// The words of a configuration that a text spells, and its number of terms, or those of rules after a `{`, and how
/// many agents are their sides. Room is made for so many words at first.
pub(crate) fn prefix_of(alloc: Global, text: &[u8], words: usize) -> Result<Prefix, AllocError>
    requires { (ts : List Token) × (tokens text.now ≡ Some ts) }
    ensures nodes { IfOk result (λ found. (p : Phrase) →
        tokens text.now ≡ Some (phrase_words p) → nodes_of found.nodes.items ≡ phrase_prefix p) }
    ensures terms { IfOk result (λ found. (p : Phrase) →
        tokens text.now ≡ Some (phrase_words p) → found.terms ≡ length p.interface) }
    ensures rules { IfOk result (λ found. (rs : List RulePhrase) →
        tokens text.now ≡ Some (mark LeftBrace ∷ rules_words rs) →
        nodes_of found.nodes.items ≡ rules_prefix rs) }
    ensures agents { IfOk result (λ found. (rs : List RulePhrase) →
        tokens text.now ≡ Some (mark LeftBrace ∷ rules_words rs) →
        found.terms ≡ 2 * length rs) }
{
    let outline = outline_of(alloc, text, words)?;
    let nodes = nodes_at(alloc, text, &outline.heads)?;
    Ok(Prefix {
        nodes,
        terms: outline.terms,
    })
}
