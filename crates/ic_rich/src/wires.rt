//! Where the wires of a rule by an arrow lead.

use crate::fault::{RichFault, WireReason};
use crate::spans::{Equation, Span};
use crate::tokens::{Kind, Token};
use std::alloc::{AllocError, Global};
use std::collections::BTreeMap;

/// What stands across from a name that is a side of an equation.
#[derive(Clone, Copy)]
struct Across {
    equation: usize,
    other: Span,
}

/// What a wire leads to from one of its ends.
#[derive(Clone, Copy)]
pub(crate) enum End {
    /// A name within a term, or of the left side.
    Name(usize),
    /// A term of an agent.
    Term(Span),
}

/// The wires of the tokens of a rule.
#[derive(Drop)]
pub(crate) struct Wires {
    /// For each token the place where its name stands again, or its own.
    partners: Vec<usize>,
    /// For each token what stands across from it, if it is a side of an equation.
    across: Vec<Option<Across>>,
    /// Which equations were passed.
    passed: Vec<bool>,
}

/// Notes that a name stands at a place, which has stood before, on the left side or not.
fn note_again(
    partners: &mut Vec<usize>,
    first: usize,
    place: usize,
    is_left: bool,
) -> Result<(), WireReason> {
    if partners.get(first).copied() != Some(first) {
        return Err(if is_left {
            WireReason::TwiceRight
        } else {
            WireReason::ThriceRight
        });
    }
    if let Some(partner) = partners.get_mut(first) {
        *partner = place;
    }
    if let Some(partner) = partners.get_mut(place) {
        *partner = first;
    }
    Ok(())
}

/// For each token the place where its name stands again, where that of the arrow is given.
fn partners_of(alloc: Global, tokens: &[Token], arrow: usize) -> Result<Vec<usize>, RichFault> {
    let mut partners: Vec<usize> = (0..tokens.len()).collect(alloc)?;
    let mut firsts: BTreeMap<&[u8], usize> = BTreeMap::new(alloc);
    for (place, token) in tokens.iter().enumerate() {
        if token.kind == Kind::Name {
            match firsts.get(token.text).copied() {
                None => {
                    firsts.insert(token.text, place)?;
                }
                Some(_) if place < arrow => {
                    return Err(WireReason::TwiceLeft.at(token.at));
                }
                Some(first) => {
                    if let Err(reason) = note_again(&mut partners, first, place, first < arrow) {
                        return Err(reason.at(token.at));
                    }
                }
            }
        }
    }
    Ok(partners)
}

/// The refusal of a name that stands once.
fn refused_alone(partners: &[usize], tokens: &[Token], arrow: usize) -> Result<(), RichFault> {
    for (place, token) in tokens.iter().enumerate() {
        if token.kind == Kind::Name && partners.get(place).copied() == Some(place) {
            let reason = if place < arrow {
                WireReason::NotRight
            } else {
                WireReason::OnceRight
            };
            return Err(reason.at(token.at));
        }
    }
    Ok(())
}

/// The place of the name that a term is, if it is one.
fn name_of(tokens: &[Token], term: Span) -> Option<usize> {
    let place = term.only()?;
    match tokens.get(place) {
        Some(token) if token.kind == Kind::Name => Some(place),
        _ => None,
    }
}

/// Notes what stands across from a side of an equation, if it is a name. It answers whether it is.
fn note_across(across: &mut [Option<Across>], tokens: &[Token], term: Span, entry: Across) -> bool {
    let Some(place) = name_of(tokens, term) else {
        return false;
    };
    if let Some(found) = across.get_mut(place) {
        *found = Some(entry);
    }
    true
}

/// The place in the text at which a term begins.
fn begin_of(tokens: &[Token], term: Span) -> usize {
    match tokens.get(term.from) {
        Some(token) => token.at,
        None => 0,
    }
}

/// For each token what stands across from it. Two agents that meet are refused.
fn across_of(
    alloc: Global,
    tokens: &[Token],
    equations: &[Equation],
) -> Result<Vec<Option<Across>>, RichFault> {
    let mut across = vec![in alloc; None; tokens.len()]?;
    for (equation, it) in equations.iter().enumerate() {
        let right = Across {
            equation,
            other: it.right,
        };
        let left = Across {
            equation,
            other: it.left,
        };
        let has_left = note_across(&mut across, tokens, it.left, right);
        let has_right = note_across(&mut across, tokens, it.right, left);
        if !has_left && !has_right {
            return Err(WireReason::Meeting.at(begin_of(tokens, it.left)));
        }
    }
    Ok(across)
}

impl Wires {
    /// The wires of these tokens, of which that of the arrow has this place.
    pub(crate) fn new(
        alloc: Global,
        tokens: &[Token],
        arrow: usize,
        equations: &[Equation],
    ) -> Result<Wires, RichFault> {
        let partners = partners_of(alloc, tokens, arrow)?;
        refused_alone(&partners, tokens, arrow)?;
        let across = across_of(alloc, tokens, equations)?;
        let passed = vec![in alloc; false; equations.len()]?;
        Ok(Wires {
            partners,
            across,
            passed,
        })
    }

    /// The place where the name of a token stands again.
    fn partner(&self, place: usize) -> usize {
        self.partners.get(place).copied().unwrap_or(place)
    }

    /// Notes that an equation is passed.
    fn pass(&mut self, equation: usize) {
        if let Some(passed) = self.passed.get_mut(equation) {
            *passed = true;
        }
    }

    /// Where a wire leads from the name at a place.
    pub(crate) fn follow(&mut self, tokens: &[Token], from: usize) -> End {
        let mut at = self.partner(from);
        for _ in 0..tokens.len() {
            let Some(across) = self.across.get(at).copied().flatten() else {
                break;
            };
            self.pass(across.equation);
            match name_of(tokens, across.other) {
                Some(name) => at = self.partner(name),
                None => return End::Term(across.other),
            }
        }
        End::Name(at)
    }

    /// The first equation that no wire of the left side has passed.
    fn first_left(&self) -> Option<usize> {
        for (place, passed) in self.passed.iter().enumerate() {
            if !*passed {
                return Some(place);
            }
        }
        None
    }

    /// Refuses equations that no wire of the left side has passed. Two agents meet there, or a wire leads round.
    pub(crate) fn refused_rest(
        &mut self,
        tokens: &[Token],
        equations: &[Equation],
    ) -> Result<(), RichFault> {
        let Some(first) = self.first_left() else {
            return Ok(());
        };
        for equation in equations.iter().skip(first) {
            if self.meets(tokens, *equation) {
                let at = begin_of(tokens, equation.left);
                return Err(WireReason::Meeting.at(at));
            }
        }
        let at = match equations.get(first) {
            Some(equation) => begin_of(tokens, equation.left),
            None => 0,
        };
        Err(WireReason::Circle.at(at))
    }

    /// Whether the wire of an equation of a name and an agent leads to a second agent.
    fn meets(&mut self, tokens: &[Token], equation: Equation) -> bool {
        let (left, right) = (
            name_of(tokens, equation.left),
            name_of(tokens, equation.right),
        );
        match (left, right) {
            (Some(name), None) | (None, Some(name)) => {
                matches!(self.follow(tokens, name), End::Term(_))
            }
            _ => false,
        }
    }
}
