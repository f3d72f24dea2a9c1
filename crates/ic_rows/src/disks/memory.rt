//! Scripts of a disk in memory, behind a fuse, and of the two frames on it.

ghost use Rattle.std.specs.Prelude.{◌+◌, ◌≤◌, length, IfOk};

use crate::disks::calls::call;
use crate::disks::told::Told;
use crate::disks::words::{body_of, byte, first_of, number, number_and_rest};
use ic_disk::{Blow, Choice, FuseDisk, MemDisk, Then};
use ic_frames::{Frames, HEAD, KeepFault, MAX_BODY, OpenCause, Opened, create};
use std::alloc::{AllocError, Global};

/// Where a script stands: a disk, or the frames that are open on it; and the frame that was found last.
#[derive(Drop)]
struct Bench {
    alloc: Global,
    disk: Option<FuseDisk>,
    frames: Option<Frames<FuseDisk>>,
    found: Vec<u8>,
}

/// What the words of a script over an empty disk are answered.
pub fn in_memory(alloc: Global, script: &str) -> Result<Vec<u8>, AllocError> {
    let mut bench = Bench {
        alloc,
        disk: Some(unfused(MemDisk::new(alloc))),
        frames: None,
        found: Vec::new(alloc),
    };
    let mut told = Told::new(alloc);
    bench.tell_words(&mut told, script)?;
    Ok(told.into_line())
}

/// A disk of which no call fails.
fn unfused(disk: MemDisk) -> FuseDisk {
    FuseDisk::new(disk, u64::MAX, Blow::Before, Then::GoOn)
}

impl Bench {
    fn tell_words(&mut self, told: &mut Told, script: &str) -> Result<(), AllocError> {
        for word in script.split(", ") {
            let (verb, rest) = first_of(word);
            self.word(told, verb, rest)?;
        }
        Ok(())
    }

    fn word(&mut self, told: &mut Told, verb: &str, rest: &str) -> Result<(), AllocError> {
        match verb {
            "has" | "fuse" | "crash" => self.change(verb, rest),
            "bytes" => self.tell_bytes(told),
            "find" => self.find(told),
            "leave" => self.leave(),
            "usable" => self.tell_usable(told),
            "begin" | "keep" | "stage" => self.keep(told, verb, rest),
            "holds" => self.tell_held(told, rest),
            _ => match &mut self.disk {
                Some(disk) => call(self.alloc, told, disk, verb, rest),
                None => told.say("none"),
            },
        }
    }

    /// Puts another disk in the place of this one, lays a fuse, or leaves what a crash leaves.
    fn change(&mut self, verb: &str, rest: &str) -> Result<(), AllocError> {
        let Some(disk) = self.disk.take() else {
            return Ok(());
        };
        self.disk = Some(match verb {
            "has" => unfused(MemDisk::from_bytes(body_of(self.alloc, rest)?)),
            "fuse" => fused(disk.into_inner(), rest),
            _ => unfused(disk.into_inner().crash(choice_of(rest))?),
        });
        Ok(())
    }

    /// The bytes of the disk, which has no fuse then.
    fn tell_bytes(&mut self, told: &mut Told) -> Result<(), AllocError> {
        let Some(disk) = self.disk.take() else {
            return told.say("none");
        };
        let disk = disk.into_inner();
        let outcome = told.bytes(disk.bytes());
        self.disk = Some(unfused(disk));
        outcome
    }

    /// Opens the frames of the disk.
    fn find(&mut self, told: &mut Told) -> Result<(), AllocError> {
        let Some(disk) = self.disk.take() else {
            return told.say("none");
        };
        match Frames::open(self.alloc, disk) {
            Ok(opened) => {
                let Opened { frames, frame } = opened;
                self.frames = Some(frames);
                self.found = frame;
                told.outcome(true)
            }
            Err(fault) => {
                self.disk = Some(fault.disk);
                told.say(if fault.cause == OpenCause::Damaged {
                    "damaged"
                } else {
                    "e"
                })
            }
        }
    }

    /// Closes the frames.
    fn leave(&mut self) -> Result<(), AllocError> {
        if let Some(frames) = self.frames.take() {
            self.disk = Some(frames.close());
        }
        Ok(())
    }

    /// Whether the frames are neither broken nor worn.
    fn tell_usable(&self, told: &mut Told) -> Result<(), AllocError> {
        match &self.frames {
            Some(frames) => told.whether(!frames.broken() && !frames.worn()),
            None => told.say("none"),
        }
    }

    /// Makes a body the first, keeps it, or writes it after the closed gate.
    fn keep(&mut self, told: &mut Told, verb: &str, text: &str) -> Result<(), AllocError> {
        let mut frame = frame_of(self.alloc, text)?;
        match (&mut self.disk, &mut self.frames) {
            (Some(disk), None) if verb == "begin" => told.outcome(create(disk, &mut frame).is_ok()),
            (None, Some(frames)) if verb == "keep" => told.outcome(frames.keep(&mut frame).is_ok()),
            (None, Some(frames)) => told.outcome(staged(frames, &mut frame).is_ok()),
            _ => told.say("none"),
        }
    }

    /// Whether the body that was found last is this one.
    fn tell_held(&self, told: &mut Told, text: &str) -> Result<(), AllocError> {
        let body = body_of(self.alloc, text)?;
        told.whether(self.found.get(HEAD..) == Some(body.as_slice()))
    }
}

/// A frame with the body of a text, its head to be filled in.
fn frame_of(alloc: Global, text: &str) -> Result<Vec<u8>, AllocError>
    ensures head { IfOk result (λ frame. 13 ≤ length frame.items) }
    ensures short { IfOk result (λ frame. length frame.items ≤ 13 + MAX_BODY) }
{
    let mut body = body_of(alloc, text)?;
    let mut frame = Vec::from_slice(alloc, &[0; HEAD])?;
    if body.len() <= MAX_BODY {
        frame.append(&mut body)?;
    }
    Ok(frame)
}

/// Closes the gate and writes the body of this frame after it.
fn staged(frames: &mut Frames<FuseDisk>, frame: &mut [u8]) -> Result<(), KeepFault>
    requires head { 13 ≤ length frame.old }
    requires short { length frame.old ≤ 13 + MAX_BODY }
{
    frames.close_gate()?;
    frames.write_body(frame)
}

/// The disk of which the call of a text fails: it is made `before` or `after`, or torn after so many bytes.
fn fused(disk: MemDisk, text: &str) -> FuseDisk {
    let (at, rest) = number_and_rest(text);
    let (blow, then) = first_of(rest);
    let blow = match blow {
        "before" => Blow::Before,
        "after" => Blow::After,
        _ => Blow::Torn(number(blow)),
    };
    let then = match then {
        "stop" => Then::Stop,
        _ => Then::GoOn,
    };
    FuseDisk::new(disk, at, blow, then)
}

/// The choice of these words, as `synced`, `written`, `fill 255` or `front 13`.
fn choice_of(text: &str) -> Choice {
    let (word, rest) = first_of(text);
    match word {
        "synced" => Choice::Synced,
        "written" => Choice::Written,
        "fill" => Choice::Fill(byte(rest)),
        _ => Choice::Front(number(rest)),
    }
}
