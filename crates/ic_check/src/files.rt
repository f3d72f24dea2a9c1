//! Looking over files, one after the other.

ghost use Rattle.std.specs.Prelude.{◌≡◌, ◌⊎◌, [], ◌∷◌, ℕ, List, IfOk, IfErr, OnErr, map, string_bytes};
ghost use Rattle.ic_check.specs.Files.{Content, Grows, LooksOver, content_of, worse};
ghost use Rattle.ic_check.specs.inner.Verdicts.{verdict_by};

use crate::findings::{Finding, Layout, put_finding};
use crate::remarks::placed;
use crate::texts::{check_given, check_refused};
use crate::writing::Style;
use ic_causes::shown_path;
use ic_streams::StreamFault;
use ic_text::TextFault;
use std::alloc::{AllocError, Global};
use std::io::Write;

/// Why a rich text stands for none: the fault at a place of its text, and what is said of it.
#[derive(Drop)]
pub struct Refused {
    pub text: Vec<u8>,
    pub at: usize,
    pub fault: TextFault,
    pub words: Vec<u8>,
}

/// What a file gives.
#[derive(Drop)]
pub enum Given {
    Text(Vec<u8>),
    /// Lines for a client, whatever they begin with.
    Script(Vec<u8>),
    /// A rich text that stands for none: why.
    Refused(Refused),
    /// It isn't looked over: the lines that say why.
    Unread(Vec<u8>),
}

/// What was found of files, the worst last.
#[derive(Clone, Copy)]
pub enum Verdict {
    Fine,
    Faulty,
    /// One isn't looked over.
    Unread,
}

/// What gives files, each when it is asked for.
pub trait Source {
    /// What the file of a path gives, as far as that can be said.
    ghost gives: { Self → List ℕ → Content → Type 0 };

    /// What the file of this path gives.
    fn give(&self, alloc: Global, path: &str) -> Result<Given, AllocError>
        ensures given { IfOk result (λ given. gives self.now path.now (content_of given)) };
}

/// Writes the faults and warnings of the files of these paths, in their order, each as it is found, and flushes them
/// after each file. A file that isn't given doesn't keep the others from being looked over; why it isn't is appended to
/// `told`, also where a fault comes later. What is written and told is tried.
pub fn check_files<S: Source, W: Write>(
    alloc: Global,
    source: &S,
    paths: &[String],
    layout: Layout,
    writer: &mut W,
    told: &mut Vec<u8>,
) -> Result<Verdict, StreamFault>
    ensures looked { IfOk result (LooksOver (S.gives source.now) (map string_bytes paths.now)) }
    ensures grows { Grows (W.contents writer.old) (W.contents writer.new) }
    ensures sort { IfErr result
        (λ fault. (fault ≡ StreamFault.Memory) ⊎ (fault ≡ StreamFault.Write)) }
{
    let mut worst = Verdict::Fine;
    for path in paths {
        let verdict = check_file(alloc, source, path.as_str(), layout, writer, told)?;
        worst = worse(worst, verdict);
    }
    Ok(worst)
}

/// The worse of two.
fn worse(one: Verdict, other: Verdict) -> Verdict
    ensures { result ≡ worse one other }
{
    match (one, other) {
        (Verdict::Unread, _) | (_, Verdict::Unread) => Verdict::Unread,
        (Verdict::Faulty, _) | (_, Verdict::Faulty) => Verdict::Faulty,
        (Verdict::Fine, Verdict::Fine) => Verdict::Fine,
    }
}

/// Writes the faults and warnings of the file of this path. Where it isn't given, why is appended to `told`.
fn check_file<S: Source, W: Write>(
    alloc: Global,
    source: &S,
    path: &str,
    layout: Layout,
    writer: &mut W,
    told: &mut Vec<u8>,
) -> Result<Verdict, StreamFault>
    ensures looked { IfOk result (LooksOver (S.gives source.now) (path.now ∷ [])) }
    ensures grows { Grows (W.contents writer.old) (W.contents writer.new) }
    ensures sort { IfErr result
        (λ fault. (fault ≡ StreamFault.Memory) ⊎ (fault ≡ StreamFault.Write)) }
{
    let given = source.give(alloc, path)?;
    let shown = shown_path(alloc, path.as_bytes())?;
    let style = style_of(layout, &shown, path.as_bytes());
    match given {
        Given::Text(text) => {
            let is_faulty = check_given(alloc, style, false, &text, writer)?;
            Ok(verdict_of(is_faulty))
        }
        Given::Script(text) => {
            let is_faulty = check_given(alloc, style, true, &text, writer)?;
            Ok(verdict_of(is_faulty))
        }
        Given::Refused(refused) => {
            check_refused(alloc, style, refused, writer)?;
            Ok(Verdict::Faulty)
        }
        Given::Unread(why) => {
            told.extend_from_slice(&why)?;
            Ok(Verdict::Unread)
        }
    }
}

/// Appends what is told of a warning at a place of the text that the file of this path has.
pub fn put_warning(
    alloc: Global,
    layout: Layout,
    path: &str,
    text: &[u8],
    at: usize,
    words: &[u8],
    out: &mut Vec<u8>,
) -> Result<(), AllocError> {
    let shown = shown_path(alloc, path.as_bytes())?;
    let style = style_of(layout, &shown, path.as_bytes());
    let placed = placed(text, None, at, TextFault::Syntax, words.to_vec(alloc)?);
    let warning = Finding {
        line: placed.line,
        column: placed.column,
        fault: None,
        words: placed.words,
    };
    put_finding(alloc, layout, style.file, &warning, out)
}

/// How a file is told of, the path of which is shown so.
fn style_of<'a>(layout: Layout, shown: &'a [u8], path: &'a [u8]) -> Style<'a> {
    let file = match layout {
        Layout::Lines => shown,
        Layout::Objects => path,
    };
    Style { layout, file }
}

/// What is found of a text, by whether it has a fault.
fn verdict_of(is_faulty: bool) -> Verdict
    ensures { result ≡ verdict_by is_faulty }
{
    if is_faulty {
        Verdict::Faulty
    } else {
        Verdict::Fine
    }
}
