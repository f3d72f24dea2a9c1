//! Expanding a text, with the forms that it has, and why one is refused.

ghost use Rattle.std.specs.Prelude.{◌≡◌, ◌⊎◌, ℕ, List, Ok, IfOk, IfErr};
ghost use Rattle.ic_text.specs.declared.fault.TextFault.TheVariants.{Syntax, Limit};
ghost use Rattle.ic_expand.specs.Expanding.{expanded};
ghost use Rattle.ic_expand.specs.Streams.{Expands, IsCause, text_fault};
ghost use Rattle.ic_expand.specs.inner.Causes.{IsOfForms};
ghost use Rattle.ic_expand.specs.declared.texts.Unexpanded.TheVariants as unexpanded;

use crate::comments::without_comments;
use crate::fault::{ExpandFault, Reason};
use crate::forms::has_form;
use crate::writing::expand;
use ic_rich::{
    Files, Found, JoinFault, JoinRefusal, Joined, Origin, Places, Remarks, RichFault, Unfolded,
    Wording, join, unfold,
};
use ic_text::TextFault;
use std::alloc::{AllocError, AllocFailed, Global};

/// The text of the calculus for which a text stands, and the words in which what it comes to is told.
#[derive(Drop)]
pub struct Expanded {
    pub text: Vec<u8>,
    pub wording: Wording,
}

impl Expanded {
    /// The same, where the text is kept for which it stands.
    fn of_origin(self, origin: Origin) -> Expanded
        ensures { result.text.items ≡ self.text.items }
    {
        let Expanded { text, wording } = self;
        Expanded {
            text,
            wording: wording.with_origin(origin),
        }
    }
}

/// Why a text is refused, and at which place of which text, the one without comments, as it is told.
#[derive(Drop)]
pub struct Refusal {
    pub fault: TextFault,
    pub body: Vec<u8>,
    pub at: usize,
    pub sentence: Vec<u8>,
}

/// Why there is no text for which a text stands.
#[derive(Drop)]
pub enum Unexpanded {
    Refused(Refusal),
    /// A growth was refused.
    Memory,
}

impl From<AllocError> for Unexpanded {
    ghost from_gives = { λ _ e. e ≡ unexpanded.Memory };

    fn from(_error: AllocError) -> Unexpanded {
        Unexpanded::Memory
    }
}

impl<T: Drop> From<AllocFailed<T>> for Unexpanded {
    ghost from_gives = { λ _ e. e ≡ unexpanded.Memory };

    fn from(_failed: AllocFailed<T>) -> Unexpanded {
        Unexpanded::Memory
    }
}

/// The text of the calculus for which a text stands, whatever forms it has, with the rules of the files that it uses.
pub fn expand_text<F: Files>(alloc: Global, text: &[u8], files: &F) -> Result<Expanded, Unexpanded>
    ensures text { IfOk result (λ out. Expands text.now (Ok out.text.items)) }
    ensures refused { IfErr result (λ cause. IsCause text.now cause) }
{
    if has_form(alloc, text)? {
        formed_text(alloc, text, files)
    } else {
        formless_text(alloc, text)
    }
}

/// What a text with forms is expanded to, or its refusal.
fn formed_text<F: Files>(alloc: Global, text: &[u8], files: &F) -> Result<Expanded, Unexpanded>
    ensures text { IfOk result (λ out. (plain : List ℕ) × (expanded plain ≡ Ok out.text.items)) }
    ensures refused { IfErr result IsOfForms }
{
    let body = without_comments(alloc, text)?;
    match join(alloc, body, &Uncommented { files }) {
        Ok(joined) => joined_text(alloc, joined),
        Err(JoinFault::Memory) => Err(Unexpanded::Memory),
        Err(JoinFault::Refused(refused)) => Err(of_refusal(refused, TextFault::Syntax)),
    }
}

/// What is legal in a text that isn't refused, and mostly a mistake.
pub fn remarks_of<F: Files>(alloc: Global, text: &[u8], files: &F) -> Result<Remarks, AllocError> {
    let body = without_comments(alloc, text)?;
    match join(alloc, body, &Uncommented { files }) {
        Ok(joined) => joined.remarks(alloc),
        Err(JoinFault::Memory) => Err(AllocError),
        Err(JoinFault::Refused(_)) => Ok(Remarks::new(alloc)),
    }
}

/// Files, whose texts are given without comments.
#[derive(Drop)]
struct Uncommented<'f, F> {
    files: &'f F,
}

impl<F: Files> Files for Uncommented<'_, F> {
    fn path(&self) -> &str {
        self.files.path()
    }

    fn text_of(&self, alloc: Global, path: &[u8]) -> Result<Option<Vec<u8>>, AllocError> {
        match self.files.text_of(alloc, path)? {
            Some(text) => Ok(Some(without_comments(alloc, &text)?)),
            None => Ok(None),
        }
    }

    fn of_library(&self, alloc: Global, path: &[u8]) -> Result<Option<Found>, AllocError> {
        match self.files.of_library(alloc, path)? {
            Some(found) => {
                let text = without_comments(alloc, &found.text)?;
                Ok(Some(Found {
                    path: found.path,
                    text,
                }))
            }
            None => Ok(None),
        }
    }
}

/// Why a text isn't expanded that is refused with a fault at a place of it.
fn of_refusal(refused: JoinRefusal, fault: TextFault) -> Unexpanded
    ensures { (fault ≡ Syntax) ⊎ (fault ≡ Limit) → IsOfForms result }
{
    Unexpanded::Refused(Refusal {
        fault,
        body: refused.text,
        at: refused.at,
        sentence: refused.sentence,
    })
}

/// What a text with the rules of the files that it uses is expanded to, or its refusal. The text is kept.
fn joined_text(alloc: Global, joined: Joined) -> Result<Expanded, Unexpanded>
    ensures text { IfOk result (λ out. (plain : List ℕ) × (expanded plain ≡ Ok out.text.items)) }
    ensures refused { IfErr result IsOfForms }
{
    match read_joined(alloc, &joined) {
        Ok(out) => Ok(out.of_origin(Origin::Formed(joined))),
        Err(cause) => Err(cause),
    }
}

/// What a text with the rules of the files that it uses is expanded to, or its refusal.
fn read_joined(alloc: Global, joined: &Joined) -> Result<Expanded, Unexpanded>
    ensures text { IfOk result (λ out. (plain : List ℕ) × (expanded plain ≡ Ok out.text.items)) }
    ensures refused { IfErr result IsOfForms }
{
    match unfold(alloc, joined.text(), Places::Left) {
        Ok(written) => unfolded_text(alloc, joined, written),
        Err(RichFault::Memory) => Err(Unexpanded::Memory),
        Err(RichFault::Refused(reason, at)) => {
            let refused = joined.refused_for(alloc, reason, at)?;
            Err(of_refusal(refused, form_fault(reason)))
        }
    }
}

/// The fault of a text with forms that is refused.
fn form_fault(reason: ic_rich::Reason) -> TextFault
    ensures { (result ≡ Syntax) ⊎ (result ≡ Limit) }
{
    if reason.is_limit() {
        TextFault::Limit
    } else {
        TextFault::Syntax
    }
}

/// What is expanded of what a text with forms is unfolded to, or its refusal.
fn unfolded_text(alloc: Global, joined: &Joined, written: Unfolded) -> Result<Expanded, Unexpanded>
    ensures text { IfOk result (λ out. (plain : List ℕ) × (expanded plain ≡ Ok out.text.items)) }
    ensures refused { IfErr result IsOfForms }
{
    match expand(alloc, written.text()) {
        Ok(text) => {
            let wording = written.into_wording(alloc, &text)?;
            Ok(Expanded { text, wording })
        }
        Err(ExpandFault::Memory) => Err(Unexpanded::Memory),
        Err(ExpandFault::Refused(reason, at)) => {
            let words = reason_sentence(alloc, reason)?;
            let place = place_in(alloc, joined, at)?;
            let refused = joined.refused(alloc, place, &words)?;
            Err(of_refusal(refused, text_fault(reason)))
        }
    }
}

/// The place in a text with the rules of others from which comes what stands at one of what that is unfolded to.
fn place_in(alloc: Global, joined: &Joined, at: usize) -> Result<usize, AllocError> {
    match unfold(alloc, joined.text(), Places::Noted) {
        Ok(written) => Ok(written.place_of(at)),
        Err(RichFault::Memory) => Err(AllocError),
        Err(RichFault::Refused(_, _)) => Ok(at),
    }
}

/// What a text without forms is expanded to, or its refusal.
fn formless_text(alloc: Global, text: &[u8]) -> Result<Expanded, Unexpanded>
    ensures text { IfOk result (λ out. expanded text.now ≡ Ok out.text.items) }
    ensures refused { IfErr result (λ cause. IsCause text.now cause) }
{
    match expand(alloc, text) {
        Ok(out) => {
            let body = without_comments(alloc, text)?;
            let wording = Wording::of_names(alloc, &body, &out)?;
            let out = Expanded { text: out, wording };
            Ok(out.of_origin(Origin::Body(body)))
        }
        Err(ExpandFault::Memory) => Err(Unexpanded::Memory),
        Err(ExpandFault::Refused(reason, at)) => {
            let sentence = reason_sentence(alloc, reason)?;
            let (fault, body) = (text_fault(reason), body_of(alloc, text, reason)?);
            Err(Unexpanded::Refused(Refusal {
                fault,
                body,
                at,
                sentence,
            }))
        }
    }
}

/// The text in which the place of a refusal is told: without comments, where each place is on the same line and in the same
/// column, unless it is too long.
fn body_of(alloc: Global, text: &[u8], reason: Reason) -> Result<Vec<u8>, AllocError> {
    match reason {
        Reason::TextBytes => text.to_vec(alloc),
        Reason::NoText
        | Reason::NotSymbol
        | Reason::NoSymbol
        | Reason::NoCopier(_)
        | Reason::NoEraser(_)
        | Reason::Again
        | Reason::NoRules
        | Reason::NoEnd => without_comments(alloc, text),
    }
}

/// What is said before the number of arguments of a symbol that is no copier.
const COPIERS: &[u8] = b"copy needs a symbol with two arguments, and this one has ";

/// What is said before that of a symbol that is no eraser.
const ERASERS: &[u8] = b"erase needs a symbol without arguments, and this one has ";

/// What is said of a symbol that no term has.
const IN_NO_TERM: &[u8] = b"copy and erase need a symbol that stands in a term, \
and this one stands in none: write it where it has to copy or erase";

/// What is said where no rule is left.
const NONE_LEFT: &[u8] = b"no rule is left for which this stands: \
each is given, or an earlier copy or erase stands for it";

/// What is said after that number.
const FIRST: &[u8] = b" where it stands first";

/// What is amiss at the place of a refusal.
fn reason_sentence(alloc: Global, reason: Reason) -> Result<Vec<u8>, AllocError> {
    match reason {
        Reason::TextBytes => Vec::from_slice(alloc, b"a text has at most 8589934592 bytes"),
        Reason::NoText => {
            Vec::from_slice(
                alloc,
                b"a text begins with { or <: rules stand in braces, then a configuration as <r | Add(r,1) ~ 2>, and a comment begins with #; lines for serve aren't expanded",
            )
        }
        Reason::NotSymbol => {
            Vec::from_slice(
                alloc,
                b"copy and erase need a symbol: A to Z or 0 to 9, and then letters and digits",
            )
        }
        Reason::NoSymbol => Vec::from_slice(alloc, IN_NO_TERM),
        Reason::NoCopier(count) => counted(alloc, COPIERS, count),
        Reason::NoEraser(count) => counted(alloc, ERASERS, count),
        Reason::Again => Vec::from_slice(alloc, b"an earlier copy or erase has this symbol"),
        Reason::NoRules => Vec::from_slice(alloc, NONE_LEFT),
        Reason::NoEnd => Vec::from_slice(alloc, b"; or } is looked for here"),
    }
}

/// What is amiss with a symbol that has so many arguments.
fn counted(alloc: Global, words: &[u8], count: usize) -> Result<Vec<u8>, AllocError> {
    let mut sentence = words.to_vec(alloc)?;
    sentence.extend_from_slice(count.to_string(alloc)?.as_bytes())?;
    sentence.extend_from_slice(FIRST)?;
    Ok(sentence)
}

/// The fault of a text that is refused.
fn text_fault(reason: Reason) -> TextFault
    ensures { result ≡ text_fault reason }
{
    match reason {
        Reason::TextBytes => TextFault::Limit,
        Reason::NoText
        | Reason::NotSymbol
        | Reason::NoSymbol
        | Reason::NoCopier(_)
        | Reason::NoEraser(_)
        | Reason::Again
        | Reason::NoRules
        | Reason::NoEnd => TextFault::Syntax,
    }
}
