//! Reading the tokens of a rule by an arrow.

use crate::fault::{LetReason, RichFault, RuleReason};
use crate::spans::{Equation, Side, Span};
use crate::tokens::{Kind, Token};
use std::alloc::Global;

/// A place among the tokens of a rule.
#[derive(Drop)]
pub(crate) struct Reader<'r, 't> {
    tokens: &'r [Token<'t>],
    next: usize,
    /// The place at which the rule ends.
    end: usize,
}

/// What closes an open mark of a term.
#[derive(Clone, Copy)]
enum Open {
    Arguments,
}

impl<'r, 't> Reader<'r, 't> {
    pub(crate) fn new(tokens: &'r [Token<'t>], end: usize) -> Reader<'r, 't> {
        Reader {
            tokens,
            next: 0,
            end,
        }
    }

    /// What the next token is.
    fn kind(&self) -> Kind {
        match self.tokens.get(self.next) {
            Some(token) => token.kind,
            None => Kind::End,
        }
    }

    /// Goes on to the token after the next one.
    fn pass(&mut self) {
        self.next = self.next.saturating_add(1);
    }

    /// Goes on after a mark, if it is the next token.
    fn takes(&mut self, mark: u8) -> bool {
        let is_next = self.kind() == Kind::Mark(mark);
        if is_next {
            self.pass();
        }
        is_next
    }

    /// The place of what stands here.
    fn at(&self) -> usize {
        match self.tokens.get(self.next) {
            Some(token) => token.at,
            None => self.end,
        }
    }

    /// The refusal of what stands here.
    fn refused(&self, reason: RuleReason) -> RichFault {
        reason.at(self.at())
    }

    /// A side of the rule: a symbol, and its arguments in parentheses.
    pub(crate) fn side(&mut self, alloc: Global) -> Result<Side, RichFault> {
        let symbol = self.next;
        let mut args = Vec::new(alloc);
        if self.kind() != Kind::Symbol {
            return Err(self.refused(RuleReason::NoSide));
        }
        self.pass();
        if !self.takes(b'(') {
            return Ok(Side { symbol, args });
        }
        for _ in 0..=self.tokens.len() {
            args.push(self.argument(alloc)?)?;
            if !self.takes(b',') {
                break;
            }
        }
        if self.takes(b')') {
            Ok(Side { symbol, args })
        } else {
            Err(self.refused(RuleReason::NoClosing))
        }
    }

    /// An argument of a side: a name, or a pattern.
    fn argument(&mut self, alloc: Global) -> Result<Span, RichFault> {
        match self.kind() {
            Kind::Name | Kind::Symbol => self.term(alloc),
            _ => Err(self.refused(RuleReason::NoName)),
        }
    }

    /// The `><` between the two sides.
    pub(crate) fn meeting(&mut self) -> Result<(), RichFault> {
        if self.takes(b'>') && self.takes(b'<') {
            Ok(())
        } else {
            Err(self.refused(RuleReason::NoMeeting))
        }
    }

    /// The place of the `=>` after the second side.
    pub(crate) fn arrow(&mut self) -> Result<usize, RichFault> {
        let place = self.next;
        if self.kind() == Kind::Arrow {
            self.pass();
            Ok(place)
        } else {
            Err(self.refused(RuleReason::NoArrow))
        }
    }

    /// The equations up to the end of the rule, after whose last one a `,` may stand.
    pub(crate) fn equations(&mut self, alloc: Global) -> Result<Vec<Equation>, RichFault> {
        let mut equations = Vec::new(alloc);
        for _ in 0..=self.tokens.len() {
            if self.kind() == Kind::End {
                break;
            }
            equations.push(self.equation(alloc)?)?;
            if !self.takes(b',') && self.kind() != Kind::End {
                return Err(self.refused(RuleReason::NoEnd));
            }
        }
        Ok(equations)
    }

    fn equation(&mut self, alloc: Global) -> Result<Equation, RichFault> {
        let left = self.term(alloc)?;
        if !self.takes(b'~') && !self.takes(b'=') {
            return Err(self.refused(RuleReason::NoSign));
        }
        let right = self.term(alloc)?;
        Ok(Equation { left, right })
    }

    /// Reads a term, after which nothing stands.
    pub(crate) fn only_term(&mut self, alloc: Global) -> Result<(), RichFault> {
        self.term(alloc)?;
        if self.kind() == Kind::End {
            Ok(())
        } else {
            Err(LetReason::NoEnd.at(self.at()))
        }
    }

    /// The tokens of a term.
    fn term(&mut self, alloc: Global) -> Result<Span, RichFault> {
        let from = self.next;
        let mut open = Vec::new(alloc);
        let mut wanted = true;
        for _ in 0..=self.tokens.len() {
            if !wanted && open.is_empty() {
                break;
            }
            wanted = if wanted {
                self.begin(&mut open)?
            } else {
                self.go_on(&mut open)?
            };
        }
        Ok(Span {
            from,
            to: self.next,
        })
    }

    /// Reads a name, a symbol, or a symbol and the mark that opens its arguments. It answers whether a term is to
    /// follow.
    fn begin(&mut self, open: &mut Vec<Open>) -> Result<bool, RichFault> {
        match self.kind() {
            Kind::Name => {
                self.pass();
                Ok(false)
            }
            Kind::Symbol => {
                self.pass();
                let has_arguments = self.takes(b'(');
                if has_arguments {
                    open.push(Open::Arguments)?;
                }
                Ok(has_arguments)
            }
            _ => Err(self.refused(RuleReason::NoTerm)),
        }
    }

    /// Reads what follows a term within another one. It answers whether a term is to follow.
    fn go_on(&mut self, open: &mut Vec<Open>) -> Result<bool, RichFault> {
        if self.takes(b',') {
            return Ok(true);
        }
        match open.pop() {
            Some(Open::Arguments) if self.takes(b')') => Ok(false),
            _ => Err(self.refused(RuleReason::NoClosing)),
        }
    }
}
