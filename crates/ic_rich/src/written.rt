//! What a text is written as, and whence each part of it comes.

use crate::fault::{Reason, RichFault};
use ic_text::MAX_WIDE_TEXT;
use std::alloc::Global;

/// From this place on what is written comes from that place of the text on.
#[derive(Clone, Copy)]
struct Stretch {
    written: usize,
    read: usize,
    /// Whether it was made of what stands at that place, and not copied.
    is_made: bool,
}

impl Stretch {
    /// The place in the text of a place that is written.
    fn place_of(self, at: usize) -> usize {
        if self.is_made {
            self.read
        } else {
            self.read.saturating_add(at.saturating_sub(self.written))
        }
    }
}

/// What a text is written as.
#[derive(Drop)]
pub struct Written {
    text: Vec<u8>,
    /// Whence it comes, if that is noted.
    stretches: Option<Vec<Stretch>>,
}

impl Written {
    /// Nothing. It is noted, or not, whence what is written comes.
    pub(crate) fn new(alloc: Global, notes: bool) -> Written {
        Written {
            text: Vec::new(alloc),
            stretches: notes.then_some(Vec::new(alloc)),
        }
    }

    /// What is written.
    pub fn text(&self) -> &[u8] {
        &self.text
    }

    /// The place in the text from which comes what is written at a place, where that is noted.
    pub fn place_of(&self, at: usize) -> usize {
        let Some(stretches) = &self.stretches else {
            return at;
        };
        for stretch in stretches.iter().rev() {
            if stretch.written <= at {
                return stretch.place_of(at);
            }
        }
        at
    }

    /// Refuses so many bytes more, which come from a place, if these are too many.
    pub(crate) fn refuse_beyond(&self, count: u64, at: usize) -> Result<(), RichFault> {
        if (self.text.len() as u64).saturating_add(count) > MAX_WIDE_TEXT as u64 {
            return Err(RichFault::Refused(Reason::TooLong, at));
        }
        Ok(())
    }

    /// Notes whence what is written next comes, unless it goes on after what is written.
    fn note(&mut self, read: usize, is_made: bool) -> Result<(), RichFault> {
        let written = self.text.len();
        let Some(stretches) = &mut self.stretches else {
            return Ok(());
        };
        match stretches.last() {
            Some(last) if last.is_made == is_made && last.place_of(written) == read => Ok(()),
            _ => Ok(stretches.push(Stretch {
                written,
                read,
                is_made,
            })?),
        }
    }

    /// Writes bytes that come from a place of the text, or are made of what stands there.
    fn put_either(&mut self, bytes: &[u8], at: usize, is_made: bool) -> Result<(), RichFault> {
        self.refuse_beyond(bytes.len() as u64, at)?;
        self.note(at, is_made)?;
        Ok(self.text.extend_from_slice(bytes)?)
    }

    /// Writes bytes that stand at a place of the text.
    pub(crate) fn put(&mut self, bytes: &[u8], at: usize) -> Result<(), RichFault> {
        self.put_either(bytes, at, false)
    }

    /// Writes bytes that are made of what stands at a place of the text.
    pub(crate) fn put_made(&mut self, bytes: &[u8], at: usize) -> Result<(), RichFault> {
        self.put_either(bytes, at, true)
    }

    /// What is written from a place on.
    pub(crate) fn part_from(&self, start: usize) -> &[u8] {
        let (_, part) = self.text.split_at(start.min(self.text.len()));
        part
    }

    /// Takes away what is written from a place on.
    pub(crate) fn cut(&mut self, start: usize) {
        self.text.truncate(start);
        let Some(stretches) = &mut self.stretches else {
            return;
        };
        for _ in 0..stretches.len() {
            match stretches.last() {
                Some(stretch) if stretch.written >= start => {
                    stretches.pop();
                }
                _ => break,
            }
        }
    }
}
