//! Rules with patterns, split into rules of the calculus: two agents meet, and then an agent that holds what both held meets the
//! agent within the pattern.

use crate::fault::{NestReason, Reason, RichFault};
use crate::fresh::Fresh;
use crate::holes::{Hole, missing_in};
use crate::nodes::{MAX_ARGUMENTS, Node, Row, without};
use crate::patterns::{Pattern, overlap};
use crate::restoring::{Waiter, Waiters};
use crate::signs::Signs;
use crate::spans::Span;
use ic_text::MAX_WIDE_TEXT;
use std::alloc::{AllocError, Global};
use std::collections::BTreeMap;

/// How many holes are noted at most.
const MAX_HOLES: usize = 64;

/// The sides of the last rule into which a rule is split.
#[derive(Drop)]
pub(crate) struct Leaf {
    pub(crate) symbols: [Vec<u8>; 2],
    /// How many of the arguments are of the left side.
    pub(crate) left: usize,
    pub(crate) args: Vec<Span>,
}

/// What is written in the place of a rule: others that come first, and its last one.
#[derive(Drop)]
pub(crate) struct Share {
    pub(crate) before: Vec<u8>,
    pub(crate) leaf: Option<Leaf>,
    /// Whether a hole of it was noted.
    has_hole: bool,
}

/// The rules with patterns of a text, and what is written of them.
#[derive(Drop)]
pub(crate) struct Splitting<'t> {
    alloc: Global,
    patterns: Vec<Pattern<'t>>,
    signs: Signs<'t>,
    waiting: Vec<Node>,
    shares: Vec<Share>,
    holes: Vec<Hole>,
    waiters: Waiters,
    /// How many bytes are made.
    made: usize,
}

impl<'t> Splitting<'t> {
    pub(crate) fn new(alloc: Global, signs: Signs<'t>) -> Splitting<'t> {
        Splitting {
            alloc,
            patterns: Vec::new(alloc),
            signs,
            waiting: Vec::new(alloc),
            shares: Vec::new(alloc),
            holes: Vec::new(alloc),
            waiters: BTreeMap::new(alloc),
            made: 0,
        }
    }

    /// Adds a rule, and answers its number.
    pub(crate) fn add(&mut self, pattern: Pattern<'t>) -> Result<usize, RichFault> {
        let number = self.patterns.len();
        self.patterns.push(pattern)?;
        self.shares.push(Share {
            before: Vec::new(self.alloc),
            leaf: None,
            has_hole: false,
        })?;
        Ok(number)
    }

    /// A rule, and what is written of it.
    pub(crate) fn get(&self, rule: usize) -> Option<(&Pattern<'t>, &Share)> {
        match (self.patterns.get(rule), self.shares.get(rule)) {
            (Some(pattern), Some(share)) => Some((pattern, share)),
            _ => None,
        }
    }

    /// The holes of the rules, and the agents that wait, alone.
    pub(crate) fn into_parts(self) -> (Vec<Hole>, Waiters) {
        let Splitting {
            alloc: _,
            patterns: _,
            signs: _,
            waiting: _,
            shares: _,
            holes,
            waiters,
            made: _,
        } = self;
        (holes, waiters)
    }

    /// Where a rule begins in the text.
    fn at(&self, rule: usize) -> usize {
        match self.patterns.get(rule) {
            Some(pattern) => pattern.at(),
            None => 0,
        }
    }

    /// Where the rule of a row begins in the text.
    fn at_row(&self, rows: &[Row], place: usize) -> usize {
        match rows.get(place) {
            Some(row) => self.at(row.rule),
            None => 0,
        }
    }

    /// Splits the rules of two symbols that have these numbers.
    pub(crate) fn split(
        &mut self,
        rules: &[usize],
        fresh: &mut Fresh<'t>,
    ) -> Result<(), RichFault> {
        let Some(root) = self.root_of(rules)? else {
            return Ok(());
        };
        self.waiting.push(root)?;
        for _ in 0..u64::MAX {
            let Some(node) = self.waiting.pop() else {
                break;
            };
            match self.column_of(&node) {
                Some(column) => self.part(node, column, fresh)?,
                None => self.leave(node)?,
            }
        }
        Ok(())
    }

    /// The node of these rules, whose first one says which side is the left one.
    fn root_of(&mut self, rules: &[usize]) -> Result<Option<Node>, RichFault> {
        let Some(rule) = rules.first() else {
            return Ok(None);
        };
        let Some(first) = self.patterns.get(*rule) else {
            return Ok(None);
        };
        let [left, right] = first.sides();
        let (one, other) = (first.text(left.symbol), first.text(right.symbol));
        if one == other {
            return Err(NestReason::Itself.at(first.place_of(right.symbol)));
        }
        let mut node = Node::new(self.alloc, [one, other], left.args.len())?;
        for rule in rules {
            let args = self.args_of(*rule, one, node.left)?;
            let row = self.same_width(&node.rows, Row { rule: *rule, args }, None)?;
            node.rows.push(row)?;
        }
        Ok(Some(node))
    }

    /// The arguments of a rule, whose left side has this symbol, and so many arguments.
    fn args_of(&mut self, rule: usize, left: &[u8], count: usize) -> Result<Vec<Span>, RichFault> {
        let Some(pattern) = self.patterns.get_mut(rule) else {
            return Ok(Vec::new(self.alloc));
        };
        pattern.turn(left);
        let [one, other] = pattern.sides();
        if one.args.len() != count {
            return Err(NestReason::Arity.at(pattern.place_of(one.symbol)));
        }
        let mut args = one.args.to_vec(self.alloc)?;
        args.extend_from_slice(&other.args)?;
        Ok(args)
    }

    /// A row, which is refused if it has not as many arguments as those before it: at a term, or at the right side.
    fn same_width(&self, rows: &[Row], row: Row, term: Option<Span>) -> Result<Row, RichFault> {
        let is_same = match rows.first() {
            Some(first) => first.args.len() == row.args.len(),
            None => true,
        };
        match self.patterns.get(row.rule) {
            Some(pattern) if !is_same => {
                let [_, right] = pattern.sides();
                let place = match term {
                    Some(term) => term.from,
                    None => right.symbol,
                };
                Err(NestReason::Arity.at(pattern.place_of(place)))
            }
            _ => Ok(row),
        }
    }

    /// Whether a row has a name at a place.
    fn has_name(&self, row: &Row, column: usize) -> bool {
        match (self.patterns.get(row.rule), row.args.get(column)) {
            (Some(pattern), Some(arg)) => pattern.is_name(*arg),
            _ => true,
        }
    }

    /// The first place at which no row has a name.
    fn column_of(&self, node: &Node) -> Option<usize> {
        for column in 0..node.width() {
            if !self.have_name(&node.rows, column) {
                return Some(column);
            }
        }
        None
    }

    /// Whether one of these rows has a name at a place.
    fn have_name(&self, rows: &[Row], column: usize) -> bool {
        for row in rows {
            if self.has_name(row, column) {
                return true;
            }
        }
        false
    }

    /// The symbol that a row has at a place.
    fn symbol_at(&self, row: &Row, column: usize) -> &'t [u8] {
        match self.patterns.get(row.rule) {
            Some(pattern) => pattern.text(row.token_at(column)),
            None => b"".as_slice(),
        }
    }

    /// Splits a node at a place at which each row has a symbol.
    fn part(&mut self, node: Node, column: usize, fresh: &mut Fresh<'t>) -> Result<(), RichFault> {
        let Some(first) = node.rows.first() else {
            return Ok(());
        };
        let (rule, token) = (first.rule, first.token_at(column));
        if node.width() > MAX_ARGUMENTS.saturating_add(1) {
            return Err(self.refused_at(rule, token, NestReason::Wide));
        }
        let [one, other] = &node.symbols;
        let waiter = fresh.symbol(self.alloc, one, other)?;
        let made = node.meeting(self.alloc, column, &waiter)?;
        self.put_before(rule, &made)?;
        self.note_waiter(&node, column, &waiter)?;
        let places = self.wait_for(node, column, &waiter)?;
        self.note_hole(rule, token, &places)
    }

    /// Notes the agent that the two of a node become, and for which argument it waits.
    fn note_waiter(&mut self, node: &Node, column: usize, waiter: &[u8]) -> Result<(), RichFault> {
        let [one, other] = &node.symbols;
        let made = Waiter {
            symbols: [one.to_vec(self.alloc)?, other.to_vec(self.alloc)?],
            left: node.left,
            column,
        };
        self.waiters.insert(waiter.to_vec(self.alloc)?, made)?;
        Ok(())
    }

    /// The refusal of a rule at a token.
    fn refused_at(&self, rule: usize, token: usize, reason: NestReason) -> RichFault {
        let at = match self.patterns.get(rule) {
            Some(pattern) => pattern.place_of(token),
            None => 0,
        };
        reason.at(at)
    }

    /// Notes a rule that is written before another one.
    fn put_before(&mut self, rule: usize, made: &[u8]) -> Result<(), RichFault> {
        self.made = self.made.saturating_add(made.len());
        if self.made > MAX_WIDE_TEXT {
            return Err(RichFault::Refused(Reason::TooLong, self.at(rule)));
        }
        match self.shares.get_mut(rule) {
            Some(share) => Ok(share.before.extend_from_slice(made)?),
            None => Ok(()),
        }
    }

    /// Has the nodes wait into which a node is split: those of the new agent and each symbol at a place. It answers which of these
    /// symbols is whose.
    fn wait_for(
        &mut self,
        node: Node,
        column: usize,
        waiter: &[u8],
    ) -> Result<BTreeMap<&'t [u8], usize>, RichFault> {
        let left = node.width().saturating_sub(1);
        let mut places: BTreeMap<&[u8], usize> = BTreeMap::new(self.alloc);
        let mut nodes: Vec<Node> = Vec::new(self.alloc);
        for row in node.into_rows() {
            let symbol = self.symbol_at(&row, column);
            let place = places.get(symbol).copied().unwrap_or(nodes.len());
            if place == nodes.len() {
                places.insert(symbol, place)?;
                nodes.push(Node::new(self.alloc, [waiter, symbol], left)?)?;
            }
            let inner = self.inner_row(row, column, nodes.get(place))?;
            if let Some(child) = nodes.get_mut(place) {
                child.rows.push(inner)?;
            }
        }
        for child in nodes {
            self.waiting.push(child)?;
        }
        Ok(places)
    }

    /// Notes the first hole of a rule, which has one of these symbols where a token stands.
    fn note_hole(
        &mut self,
        rule: usize,
        token: usize,
        places: &BTreeMap<&'t [u8], usize>,
    ) -> Result<(), RichFault> {
        let Some(missing) = missing_in(self.signs, places) else {
            return Ok(());
        };
        match (self.patterns.get(rule), self.shares.get_mut(rule)) {
            (Some(pattern), Some(share)) if !share.has_hole && self.holes.len() < MAX_HOLES => {
                share.has_hole = true;
                Ok(self.holes.push(missing.hole(self.alloc, pattern, token)?)?)
            }
            _ => Ok(()),
        }
    }

    /// What is left of a row where the term at a place has met the new agent: the other arguments, and those of the term.
    fn inner_row(&self, row: Row, column: usize, child: Option<&Node>) -> Result<Row, RichFault> {
        let Row { rule, args } = row;
        let (mut others, term) = without(self.alloc, &args, column)?;
        if let (Some(pattern), Some(term)) = (self.patterns.get(rule), term) {
            others.extend_from_slice(&pattern.args_of(self.alloc, term)?)?;
        }
        let row = Row { rule, args: others };
        match child {
            Some(node) => self.same_width(&node.rows, row, term),
            None => Ok(row),
        }
    }

    /// Ends with a node that is split no more: of one row with names alone.
    fn leave(&mut self, node: Node) -> Result<(), RichFault> {
        if node.rows.len() > 1 {
            return Err(self.refused_rows(&node.rows));
        }
        let Node {
            symbols,
            left,
            mut rows,
        } = node;
        if let Some(Row { rule, args }) = rows.pop() {
            if let Some(share) = self.shares.get_mut(rule) {
                share.leaf = Some(Leaf {
                    symbols,
                    left,
                    args,
                });
            }
        }
        Ok(())
    }

    /// Why rows can't be told apart: one overlaps the first one, or none of their arguments may be looked at first.
    fn refused_rows(&self, rows: &[Row]) -> RichFault {
        let (first, second) = (self.at_row(rows, 0), self.at_row(rows, 1));
        match self.overlapping(rows) {
            Ok(Some(rule)) => NestReason::Overlap(first).at(self.at(rule)),
            Ok(None) => NestReason::Unordered(first).at(second),
            Err(_) => RichFault::Memory,
        }
    }

    /// The first rule whose patterns overlap those of the first row.
    fn overlapping(&self, rows: &[Row]) -> Result<Option<usize>, AllocError> {
        let Some((first, others)) = rows.split_first() else {
            return Ok(None);
        };
        let Some(one) = self.patterns.get(first.rule) else {
            return Ok(None);
        };
        for row in others {
            if let Some(other) = self.patterns.get(row.rule) {
                if overlap(self.alloc, (one, &first.args), (other, &row.args))? {
                    return Ok(Some(row.rule));
                }
            }
        }
        Ok(None)
    }
}
