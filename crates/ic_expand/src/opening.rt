//! What a word reads of the text that a reader gives: that text, or where it is rich what it is expanded to.

ghost use Rattle.std.specs.Prelude.{◌≡◌, ◌≢◌, ◌⊎◌, ℕ, List, Some, IfOk, IfErr, OnOk, false, true};
ghost use Rattle.std.specs.Io.KnownBytes.{prepend_known};
ghost use Rattle.ic_streams.specs.Streams.{FaultOf};
ghost use Rattle.ic_expand.specs.Marks.{is_rich};
ghost use Rattle.ic_expand.specs.Opening.{BeginsPlain, BeginsRich, ReadsRich, is_expanded, left_of};
ghost use Rattle.ic_expand.specs.Streams.{Expands};
ghost use Rattle.ic_expand.specs.inner.Causes.{TakesFront};

use crate::marks::{TELLING, is_marked};
use crate::stream::{read_whole, told_text};
use crate::texts::Expanded;
use ic_rich::{Files, Wording};
use ic_streams::StreamFault;
use std::alloc::Global;
use std::io::{self, Chain, Cursor, ErrorKind, Read};

/// How many bytes are read at a time.
const CHUNK: usize = 8_192;

/// What a word reads.
#[derive(Drop)]
pub enum Opened<R> {
    /// The first bytes of a text, and then the others.
    Going(Chain<Cursor<Vec<u8>>, R>),
    /// A text of which all was read to see whether it is rich.
    Whole(Cursor<Vec<u8>>),
    /// What a rich text is expanded to, and its words, unless what comes of it is told as it is.
    Rich(Cursor<Vec<u8>>, Option<Wording>),
}

impl<R> Opened<R> {
    /// Whether it is what a rich text is expanded to.
    pub fn is_expanded(&self) -> bool
        ensures { result ≡ is_expanded self.now }
    {
        match self {
            Opened::Rich(_, _) => true,
            Opened::Going(_) | Opened::Whole(_) => false,
        }
    }

    /// The words in which is told what comes of it, if it has some.
    pub fn wording(&self) -> Option<&Wording> {
        match self {
            Opened::Rich(_, Some(wording)) => Some(wording),
            Opened::Rich(_, None) | Opened::Going(_) | Opened::Whole(_) => None,
        }
    }

    /// The same, where what comes of it is told as it is.
    pub fn told_plain(self) -> Opened<R>
        ensures { is_expanded result ≡ is_expanded self }
    {
        match self {
            Opened::Rich(text, _) => Opened::Rich(text, None),
            other => other,
        }
    }
}

impl<R: Read> Read for Opened<R> {
    ghost remaining = { left_of R.remaining };

    fn read(&mut self, buf: &mut [u8]) -> io::Result<usize> {
        match self {
            Opened::Going(text) => text.read(buf),
            Opened::Whole(text) => text.read(buf),
            Opened::Rich(text, _) => text.read(buf),
        }
    }
}

/// What a reader gives, before a rich text is expanded.
#[derive(Drop)]
pub enum Begun<R> {
    /// A text that isn't rich, as it is read.
    Plain(Opened<R>),
    /// A rich text, all of it, or one byte more than one may have.
    Rich(Vec<u8>),
}

/// Begins with the text that a reader gives, which is rich where that is said, and where it begins with the word `#rich`. Any
/// other one is read as it is; a rich one is read whole first.
pub fn begin_text<R: Read + Drop>(
    alloc: Global,
    mut reader: R,
    said: bool,
) -> Result<Begun<R>, StreamFault>
    // These hold of the text that the reader has, where it tells its bytes.
    ensures plain { (text : List ℕ) → R.remaining reader ≡ Some text → is_rich said text ≡ false
        → IfOk result (BeginsPlain R.remaining text) }
    ensures rich { (text : List ℕ) → R.remaining reader ≡ Some text → is_rich said text ≡ true
        → IfOk result (BeginsRich text) }
    ensures sort { IfErr result
        (λ fault. (fault ≡ StreamFault.Read) ⊎ (fault ≡ StreamFault.Memory)) }
{
    let (front, is_whole) = read_front(alloc, &mut reader)?;
    let is_rich = is_rich_front(said, &front);
    let mut opened = opened_with(front, is_whole, reader);
    if !is_rich {
        return Ok(Begun::Plain(opened));
    }
    let text = read_whole(alloc, &mut opened)?;
    Ok(Begun::Rich(text))
}

/// Opens a rich text, which is expanded. Of one that is refused `told` gets the lines.
pub fn open_rich<R: Read, F: Files>(
    alloc: Global,
    text: &[u8],
    files: &F,
    told: &mut Vec<u8>,
) -> Result<Opened<R>, StreamFault>
    ensures rich { IfOk result (ReadsRich R.remaining text.now) }
    ensures refused { IfErr result (λ fault. FaultOf Expands text.now fault) }
    ensures sort { IfErr result
        (λ fault. (fault ≢ StreamFault.Write) × (fault ≢ StreamFault.Read)) }
    ensures quiet { OnOk result (told.new.items ≡ told.old.items) }
{
    let out = told_text(alloc, text, files, told)?;
    Ok(rich_with(out))
}

/// Whether a text is rich that begins so.
fn is_rich_front(said: bool, front: &[u8]) -> bool
    ensures { result ≡ is_rich said front.now }
{
    said || is_marked(front)
}

/// What is read of a text that is expanded to this one.
fn rich_with<R: Read>(out: Expanded) -> Opened<R>
    ensures left { left_of R.remaining result ≡ Some out.text.items }
    ensures expanded { is_expanded result ≡ true }
{
    Opened::Rich(Cursor::new(out.text), Some(out.wording))
}

/// What is read of a text whose front was taken from this reader, or all of it.
fn opened_with<R: Read + Drop>(front: Vec<u8>, is_whole: bool, reader: R) -> Opened<R>
    ensures going { is_whole ≡ false
        → left_of R.remaining result ≡ prepend_known front.items (R.remaining reader) }
    ensures whole { is_whole ≡ true → left_of R.remaining result ≡ Some front.items }
    ensures plain { is_expanded result ≡ false }
{
    if is_whole {
        Opened::Whole(Cursor::new(front))
    } else {
        Opened::Going(Cursor::new(front).chain(reader))
    }
}

/// As much of a text as tells whether it is marked, or all of it, and whether it is all.
fn read_front<R: Read>(alloc: Global, reader: &mut R) -> Result<(Vec<u8>, bool), StreamFault>
    ensures front { IfOk result
        (λ read. TakesFront read.0.items read.1 (R.remaining reader.old) (R.remaining reader.new)) }
    ensures sort { IfErr result
        (λ fault. (fault ≡ StreamFault.Read) ⊎ (fault ≡ StreamFault.Memory)) }
{
    let mut front = Vec::new(alloc);
    let mut chunk = [0u8; CHUNK];
    for _ in 0..u64::MAX {
        if front.len() >= TELLING {
            return Ok((front, false));
        }
        match reader.read(&mut chunk) {
            Ok(0) => return Ok((front, true)),
            Ok(count) => front.extend_from_slice(&chunk[..count])?,
            Err(error) if error.kind() == ErrorKind::Interrupted => {}
            Err(_) => return Err(StreamFault::Read),
        }
    }
    Err(StreamFault::Read)
}
