//! A book on a disk in memory, of which a call fails.
//!
//! `LIFE + LIFE ..`, the first on a new disk, each on what the last one left, or, after `on BYTES `, on a disk with
//! these bytes. A life is `CALL WORD ; WORD ..`: this call to the disk fails, counted from the first of the opening,
//! and no other; none where it is 0. Then the book is closed.
//!
//! A word is a command line, `by WHO LINE`, or `times COUNT WORD` for the same word so many times, of which the last
//! answer is told. `due PLACE` takes the flight that is due from a place on, `land K` lands the round of the K-th
//! flight or halts its job, and `round` does both. Further words are `keep` and `page`, and for what the book tells
//! `log`, `entry K`, `table` and `start`.

use crate::answers::number_first;
use crate::scripts::command_of;
use ic_book::{Book, BookFault};
use ic_commands::print_reply;
use ic_disk::{Blow, FuseDisk, MemDisk, Then};
use ic_flights::Flight;
use ic_jobs::{Command, Entry, Event, Landed, Reply, Table};
use ic_notation::{Trouble, bytes_of};
use ic_pool::play_alone;
use ic_slots::create;
use std::alloc::{AllocError, Global};

/// What the words of lives are answered so far, and the flights that they took.
#[derive(Drop)]
struct Told {
    alloc: Global,
    flights: Vec<Flight>,
    line: Vec<u8>,
}

/// What the words of each life are answered, with ` ; ` between them and ` + ` between lives.
pub fn book(alloc: Global, text: &str) -> Result<Vec<u8>, Trouble> {
    let mut told = Told {
        alloc,
        flights: Vec::new(alloc),
        line: Vec::new(alloc),
    };
    told.lives(text)?;
    Ok(told.line)
}

/// A new disk with the empty table.
pub fn new_disk(alloc: Global) -> Result<MemDisk, Trouble> {
    let mut disk = MemDisk::new(alloc);
    match create(alloc, &mut disk) {
        Ok(()) => Ok(disk),
        Err(_fault) => Err(Trouble("not created")),
    }
}

/// The disk that a life names, or else this one; and the rest of the life.
fn begun(alloc: Global, left: MemDisk, life: &str) -> Result<(MemDisk, &str), Trouble> {
    let Some(named) = life.strip_prefix("on ") else {
        return Ok((left, life));
    };
    let (digits, rest) = named.split_once(' ').unwrap_or((named, ""));
    let bytes = bytes_of(alloc, digits.as_bytes())?;
    Ok((MemDisk::from_bytes(bytes), rest))
}

impl Told {
    fn lives(&mut self, lives: &str) -> Result<(), Trouble> {
        let mut disk = new_disk(self.alloc)?;
        for (place, life) in lives.split(" + ").enumerate() {
            self.say(if place > 0 { " + " } else { "" })?;
            disk = self.life(disk, life)?;
        }
        Ok(())
    }

    /// A life on what the last one left, and what it leaves.
    fn life(&mut self, left: MemDisk, life: &str) -> Result<MemDisk, Trouble> {
        let (disk, life) = begun(self.alloc, left, life)?;
        let (call, words) = number_first(life);
        let disk = FuseDisk::new(disk, call, Blow::Before, Then::GoOn);
        match Book::open(self.alloc, disk) {
            Ok(book) => self.life_of(book, words),
            Err(_fault) => Err(Trouble("not opened")),
        }
    }

    fn life_of(&mut self, mut book: Book<FuseDisk>, words: &str) -> Result<MemDisk, Trouble> {
        let outcome = self.words(&mut book, words);
        let disk = book.close().into_inner();
        match outcome {
            Ok(()) => Ok(disk),
            Err(trouble) => Err(trouble),
        }
    }

    fn words(&mut self, book: &mut Book<FuseDisk>, words: &str) -> Result<(), Trouble> {
        for (place, word) in words.split(" ; ").enumerate() {
            self.say(if place > 0 { " ; " } else { "" })?;
            self.word(book, word)?;
        }
        Ok(())
    }

    fn word(&mut self, book: &mut Book<FuseDisk>, word: &str) -> Result<(), Trouble> {
        let (verb, rest) = word.split_once(' ').unwrap_or((word, ""));
        let (number, rest) = number_first(rest);
        match verb {
            "times" => self.times(book, number, rest),
            "by" => self.command(book, number, rest),
            "due" => self.due(book, number as usize),
            "land" => self.land(book, (number as usize).saturating_sub(1)),
            "log" => self.tell_counts(book.log().len(), book.kept()),
            "table" => self.tell_jobs(book.table()),
            "start" => self.tell_jobs(book.start()),
            "entry" => self.tell_entry(book.log(), (number as usize).saturating_sub(1)),
            _ => self.ask(book, word),
        }
    }

    /// A word that takes no flight, so many times.
    fn times(&mut self, book: &mut Book<FuseDisk>, count: u64, word: &str) -> Result<(), Trouble> {
        let before = self.line.len();
        for _ in 0..count {
            self.line.truncate(before);
            self.ask(book, word)?;
        }
        Ok(())
    }

    /// A command line, or `round`, `keep` or `page`.
    fn ask(&mut self, book: &mut Book<FuseDisk>, word: &str) -> Result<(), Trouble> {
        match word {
            "round" => self.round(book),
            "keep" => self.tell_kept(book.keep()),
            "page" => {
                let outcome = book.new_page(self.alloc);
                self.tell_kept(outcome)
            }
            _ => self.command(book, 0, word),
        }
    }

    fn command(&mut self, book: &mut Book<FuseDisk>, who: u64, word: &str) -> Result<(), Trouble> {
        let command = command_of(self.alloc, word)?;
        match book.command(self.alloc, who, command) {
            Ok(reply) => Ok(self.tell_reply(&reply)?),
            Err(fault) => Ok(self.say(fault_word(fault))?),
        }
    }

    /// Takes the flight that is due from a place on, and tells its job and place.
    fn due(&mut self, book: &mut Book<FuseDisk>, after: usize) -> Result<(), Trouble> {
        match book.due(after) {
            Ok(Some(flight)) => Ok(self.take(flight)?),
            Ok(None) => Ok(self.say("none")?),
            Err(fault) => Ok(self.say(fault_word(fault))?),
        }
    }

    fn take(&mut self, flight: Flight) -> Result<(), AllocError> {
        self.tell_flight(&flight)?;
        self.flights.push(flight)?;
        Ok(())
    }

    fn tell_flight(&mut self, flight: &Flight) -> Result<(), AllocError> {
        self.line.extend_from_slice(flight.name().as_bytes())?;
        let place = flight.place();
        let text = format!(in self.alloc; " {place}")?;
        self.line.extend_from_slice(text.as_bytes())
    }

    /// Makes the round that is due.
    fn round(&mut self, book: &mut Book<FuseDisk>) -> Result<(), Trouble> {
        let word = match book.due(0) {
            Ok(Some(flight)) => landed(self.alloc, book, &flight),
            Ok(None) => "none",
            Err(fault) => fault_word(fault),
        };
        Ok(self.say(word)?)
    }

    /// Lands the round of the flight that was taken at a place of their list.
    fn land(&mut self, book: &mut Book<FuseDisk>, place: usize) -> Result<(), Trouble> {
        let word = match self.flights.get(place) {
            Some(flight) => landed(self.alloc, book, flight),
            None => "no such flight",
        };
        Ok(self.say(word)?)
    }

    fn say(&mut self, text: &str) -> Result<(), AllocError> {
        self.line.extend_from_slice(text.as_bytes())
    }

    fn tell_kept(&mut self, outcome: Result<(), BookFault>) -> Result<(), Trouble> {
        let word = match outcome {
            Ok(()) => "ok",
            Err(fault) => fault_word(fault),
        };
        Ok(self.say(word)?)
    }

    fn tell_reply(&mut self, reply: &Reply) -> Result<(), AllocError> {
        let mut text = print_reply(self.alloc, reply)?;
        self.line.append(&mut text)
    }

    fn tell_counts(&mut self, entries: usize, kept: usize) -> Result<(), Trouble> {
        let text = format!(in self.alloc; "{entries} kept {kept}")?;
        Ok(self.say(&text)?)
    }

    /// The jobs of a table.
    fn tell_jobs(&mut self, table: &Table) -> Result<(), Trouble> {
        let reply = table.copy(self.alloc)?.apply(Command::List)?;
        Ok(self.tell_reply(&reply)?)
    }

    /// An entry: who sent it, what it is, and its reply.
    fn tell_entry(&mut self, log: &[Entry], place: usize) -> Result<(), Trouble> {
        let Some(entry) = log.get(place) else {
            return Err(Trouble("no such entry"));
        };
        let who = entry.who;
        let text = format!(in self.alloc; "{who} ")?;
        self.say(&text)?;
        self.tell_event(&entry.event)?;
        Ok(self.tell_reply(&entry.reply)?)
    }

    fn tell_event(&mut self, event: &Event) -> Result<(), AllocError> {
        match event {
            Event::Command(_) => self.say("command "),
            Event::Round(name) => {
                self.say("round ")?;
                self.line.extend_from_slice(name.as_bytes())?;
                self.say(" ")
            }
        }
    }
}

/// Why a call on a book was refused.
fn fault_word(fault: BookFault) -> &'static str {
    match fault {
        BookFault::Broken => "broken",
        BookFault::LogFull => "log full",
        BookFault::Worn => "worn",
        BookFault::Memory => "memory",
        BookFault::Device => "device",
    }
}

/// Lands the round of a flight, or halts its job where it is blocked.
fn landed(alloc: Global, book: &mut Book<FuseDisk>, flight: &Flight) -> &'static str {
    let outcome = if flight.blocked() {
        book.halt(flight)
    } else {
        match play_alone(alloc, flight) {
            Ok(played) => book.land(played),
            Err(_fault) => return "not played",
        }
    };
    match outcome {
        Ok(Landed::Moved) => "moved",
        Ok(Landed::Stale) => "stale",
        Err(fault) => fault_word(fault),
    }
}
