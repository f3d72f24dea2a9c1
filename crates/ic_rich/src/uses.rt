//! Files whose rules a text uses: `use "nat.rich"` among its rules, and among theirs.

use crate::fault::{Reason, UseReason};
use crate::segments::{Segment, after_blanks, leading_word, part_of, segments_of};
use crate::tokens::first_word;
use std::alloc::{AllocError, AllocFailed, Global};

/// How many files there are at most, with the first one.
const MAX_FILES: usize = 64;

/// What gives the files that a text names.
pub trait Files {
    /// The path of the text that is read, or nothing.
    fn path(&self) -> &str;

    /// The text of the file of this path, without comments, or none if it can't be read.
    fn text_of(&self, alloc: Global, path: &[u8]) -> Result<Option<Vec<u8>>, AllocError>;

    /// The file of the library that a text names so, as `lib/nat.rich`, or none if there is none.
    fn of_library(&self, alloc: Global, path: &[u8]) -> Result<Option<Found>, AllocError>;
}

/// A file that was found, with its text without comments.
#[derive(Drop)]
pub struct Found {
    pub path: Vec<u8>,
    pub text: Vec<u8>,
}

/// A text with its rules.
#[derive(Drop)]
pub(crate) struct Source {
    pub(crate) path: Vec<u8>,
    pub(crate) text: Vec<u8>,
    pub(crate) segments: Vec<Segment>,
    /// Where the `use` of the first text stands by which it came.
    pub(crate) root: usize,
}

/// A place of a text.
#[derive(Clone, Copy)]
pub(crate) struct Place {
    pub(crate) source: usize,
    pub(crate) at: usize,
}

/// Where a text uses another one.
#[derive(Clone, Copy)]
struct Edge {
    place: Place,
    to: usize,
}

/// The texts, of which the first one is that which is read, and which of them use which.
#[derive(Drop)]
pub(crate) struct Sources {
    pub(crate) all: Vec<Source>,
    edges: Vec<Edge>,
}

/// Why texts aren't joined.
#[derive(Clone, Copy)]
pub(crate) enum UseFault {
    /// It is refused, at this place.
    Refused(Reason, Place),
    /// A rule at the first place has the symbols of one at the second.
    Same(Place, Place),
    /// A growth was refused.
    Memory,
}

impl UseReason {
    /// The refusal at a place.
    fn at(self, place: Place) -> UseFault {
        UseFault::Refused(Reason::Use(self), place)
    }
}

impl From<AllocError> for UseFault {
    fn from(_error: AllocError) -> UseFault {
        UseFault::Memory
    }
}

impl<T: Drop> From<AllocFailed<T>> for UseFault {
    fn from(_failed: AllocFailed<T>) -> UseFault {
        UseFault::Memory
    }
}

/// A `use`: where the word stands, and the path, if one stands in quotes.
#[derive(Drop)]
struct Use {
    at: usize,
    path: Option<Vec<u8>>,
}

/// Where the word of a `use` stands, if a segment is one.
pub(crate) fn use_at(text: &[u8], segment: Segment) -> Option<usize> {
    let part = segment.part_of(text);
    let is_use = segment.within && leading_word(part) == b"use".as_slice();
    is_use.then_some(segment.to.saturating_sub(after_blanks(part).len()))
}

/// Whether a text has blanks alone.
fn is_over(text: &[u8]) -> bool {
    after_blanks(text).is_empty()
}

/// What follows the first byte of a text.
fn after_first(text: &[u8]) -> &[u8] {
    let (_, rest) = text.split_at(text.len().min(1));
    rest
}

/// What stands in quotes, where nothing else follows.
fn quoted(text: &[u8]) -> Option<&[u8]> {
    if text.first().copied() != Some(b'"') {
        return None;
    }
    let inner = after_first(text);
    for (place, byte) in inner.iter().enumerate() {
        if *byte == b'"' {
            let (path, end) = inner.split_at(place);
            let is_path = !path.is_empty() && is_over(after_first(end));
            return is_path.then_some(path);
        }
    }
    None
}

/// The path that stands after the word `use`, which stands at a place of a segment.
fn path_of(
    alloc: Global,
    text: &[u8],
    segment: Segment,
    at: usize,
) -> Result<Option<Vec<u8>>, AllocError> {
    let words = part_of(text, at, segment.to);
    let (_, rest) = words.split_at(first_word(words).len().min(words.len()));
    match quoted(after_blanks(rest)) {
        Some(path) => Ok(Some(path.to_vec(alloc)?)),
        None => Ok(None),
    }
}

/// Each `use` of a text.
fn uses_of(alloc: Global, source: &Source) -> Result<Vec<Use>, AllocError> {
    let mut uses = Vec::new(alloc);
    for segment in &source.segments {
        if let Some(at) = use_at(&source.text, *segment) {
            let path = path_of(alloc, &source.text, *segment, at)?;
            uses.push(Use { at, path })?;
        }
    }
    Ok(uses)
}

/// The folder of a path, with the `/` at its end, or nothing.
fn folder_of(path: &[u8]) -> &[u8] {
    for place in (0..path.len()).rev() {
        if path[place] == b'/' {
            return &path[..=place];
        }
    }
    &path[..0]
}

/// A path that a file names: from the folder of that file, unless it begins at the root.
fn beside(alloc: Global, file: &[u8], path: &[u8]) -> Result<Vec<u8>, AllocError> {
    if path.first().copied() == Some(b'/') {
        return path.to_vec(alloc);
    }
    let mut full = folder_of(file).to_vec(alloc)?;
    full.extend_from_slice(path)?;
    Ok(full)
}

impl Sources {
    pub(crate) fn new(alloc: Global) -> Sources {
        Sources {
            all: Vec::new(alloc),
            edges: Vec::new(alloc),
        }
    }

    /// Finds a text and all that it uses.
    pub(crate) fn find<F: Files>(
        &mut self,
        alloc: Global,
        text: Vec<u8>,
        files: &F,
    ) -> Result<(), UseFault> {
        let path = files.path().as_bytes().to_vec(alloc)?;
        self.add(alloc, path, text, 0)?;
        for source in 0..MAX_FILES {
            let uses = match self.all.get(source) {
                Some(source) => uses_of(alloc, source)?,
                None => break,
            };
            self.use_all(alloc, source, uses, files)?;
        }
        self.refuse_circle(alloc)
    }

    /// Adds the texts that a text uses.
    fn use_all<F: Files>(
        &mut self,
        alloc: Global,
        source: usize,
        uses: Vec<Use>,
        files: &F,
    ) -> Result<(), UseFault> {
        for used in uses {
            self.use_one(alloc, source, used, files)?;
        }
        Ok(())
    }

    fn add(
        &mut self,
        alloc: Global,
        path: Vec<u8>,
        text: Vec<u8>,
        root: usize,
    ) -> Result<(), UseFault> {
        let segments = segments_of(alloc, &text)?;
        Ok(
            self.all.push(Source {
                path,
                text,
                segments,
                root,
            })?,
        )
    }

    /// Adds the text that a text uses, unless it is there.
    fn use_one<F: Files>(
        &mut self,
        alloc: Global,
        source: usize,
        used: Use,
        files: &F,
    ) -> Result<(), UseFault> {
        let Use { at, path } = used;
        let place = Place { source, at };
        let Some(path) = path else {
            return Err(UseReason::NoPath.at(place));
        };
        let (full, root) = match self.all.get(source) {
            Some(by) if source == 0 => (beside(alloc, &by.path, &path)?, at),
            Some(by) => (beside(alloc, &by.path, &path)?, by.root),
            None => return Ok(()),
        };
        let to = match self.place_of(&full) {
            Some(to) => to,
            None => self.read(alloc, full, &path, root, place, files)?,
        };
        Ok(self.edges.push(Edge { place, to })?)
    }

    /// Reads the text of a path, or one of the library that is named so, and answers its place.
    fn read<F: Files>(
        &mut self,
        alloc: Global,
        path: Vec<u8>,
        named: &[u8],
        root: usize,
        place: Place,
        files: &F,
    ) -> Result<usize, UseFault> {
        if let Some(text) = files.text_of(alloc, &path)? {
            return self.add_new(alloc, Found { path, text }, root, place);
        }
        let Some(found) = files.of_library(alloc, named)? else {
            return Err(UseReason::NoFile.at(place));
        };
        match self.place_of(&found.path) {
            Some(to) => Ok(to),
            None => self.add_new(alloc, found, root, place),
        }
    }

    /// Adds a text that isn't there, and answers its place.
    fn add_new(
        &mut self,
        alloc: Global,
        found: Found,
        root: usize,
        place: Place,
    ) -> Result<usize, UseFault> {
        let to = self.all.len();
        if to >= MAX_FILES {
            return Err(UseReason::ManyFiles.at(place));
        }
        self.add(alloc, found.path, found.text, root)?;
        Ok(to)
    }

    /// The place of the text of a path.
    fn place_of(&self, path: &[u8]) -> Option<usize> {
        for (place, source) in self.all.iter().enumerate() {
            if source.path.as_slice() == path {
                return Some(place);
            }
        }
        None
    }

    /// Refuses texts that use one another in a circle: those that are left where one after the other is taken away that uses
    /// none of those that are left, or that none of them uses.
    fn refuse_circle(&self, alloc: Global) -> Result<(), UseFault> {
        let mut open = vec![in alloc; true; self.all.len()]?;
        for _ in 0..self.all.len() {
            self.close(&mut open);
        }
        for source in 0..self.all.len() {
            if open.get(source).copied() == Some(true) {
                if let Some(place) = self.use_within(&open, source) {
                    return Err(UseReason::Circle.at(place));
                }
            }
        }
        Ok(())
    }

    /// Takes away texts that use none of those that are left, or that none of them uses.
    fn close(&self, open: &mut Vec<bool>) {
        for source in 0..self.all.len() {
            if self.use_within(open, source).is_none() || !self.is_used_within(open, source) {
                if let Some(is_open) = open.get_mut(source) {
                    *is_open = false;
                }
            }
        }
    }

    /// Whether an open text uses this one.
    fn is_used_within(&self, open: &[bool], source: usize) -> bool {
        for edge in &self.edges {
            if edge.to == source && open.get(edge.place.source).copied() == Some(true) {
                return true;
            }
        }
        false
    }

    /// Where a text uses an open one, if it does.
    fn use_within(&self, open: &[bool], source: usize) -> Option<Place> {
        for edge in &self.edges {
            if edge.place.source == source && open.get(edge.to).copied() == Some(true) {
                return Some(edge.place);
            }
        }
        None
    }
}
