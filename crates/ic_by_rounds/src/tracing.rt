//! What is told of rounds as they come.

ghost use Rattle.std.specs.Prelude.{◌≡◌, ◌⊎◌, ℕ, ◌≤◌, List, [], ◌++◌, true, false, None, IfErr, OnOk, length};
ghost use Rattle.std.specs.Option.{option_to_list};
ghost use Rattle.std.specs.List.{flat_map};
ghost use Rattle.std.specs.Io.KnownBytes.{Appends};
ghost use Rattle.ic_machine.specs.Net.{equations_left};
ghost use Rattle.ic_rules.specs.System.{SystemParts};
ghost use Rattle.ic_by_rounds.specs.Tables.{head_line, row_line};
ghost use Rattle.ic_by_rounds.specs.declared.tracing.Format.TheVariants.{Table as Lines};
ghost use Rattle.ic_by_rounds.specs.inner.Amounts.{AreOrigins, Tells};
ghost use Rattle.ic_by_rounds.specs.inner.Showing.{ToldRows};
ghost use Rattle.ic_streams.specs.declared.fault.StreamFault.TheVariants.{Memory, Write as Unwritten};

use crate::amounts::Origins;
use crate::columns::Columns;
use crate::picture::picture;
use crate::row::Row;
use crate::rows::{put_head, put_line, put_object};
use crate::summary::Summary;
use ic_flat::WideSystem;
use ic_in_place::{End, Rows};
use ic_machine::Machine;
use ic_streams::{StreamFault, write_line};
use std::alloc::{AllocError, Global};
use std::io::Write;

/// How a trace is shown.
#[derive(Clone, Copy, PartialEq, Eq)]
pub enum Format {
    /// A line for each round, with tabs between its numbers, after a line that names them.
    Table,
    /// A picture in SVG: the equations that are fired as bars, and the nodes before the first round and after each as a line.
    /// A bar is the sum of several rounds if there are more of them than the picture has columns.
    Picture,
    /// A line for each round: an object of JSON with its numbers.
    Objects,
}

/// How many bytes of rows are written together.
const TOGETHER: usize = 16_384;

/// A round that fires so many pairs took some time: its row is written at once.
const LONG: u64 = 4_096;

/// What is told of rounds.
#[derive(Drop)]
pub(crate) struct Tracing {
    alloc: Global,
    format: Format,
    /// What the nodes and names of rows come from.
    origins: Origins,
    before: u64,
    pub(crate) summary: Summary,
    /// What isn't written yet: the rows that were told last.
    unwritten: Vec<u8>,
    columns: Columns,
    /// A first row without pairs: it is shown only if that round is one.
    held: Option<Row>,
}

impl Tracing {
    /// Of no round yet.
    pub(crate) fn new(alloc: Global, format: Format) -> Tracing
        ensures { result.format ≡ format }
    {
        Tracing {
            alloc,
            format,
            origins: Origins::new(alloc),
            before: 0,
            summary: Summary::new(0),
            unwritten: Vec::new(alloc),
            columns: Columns::new(alloc),
            held: None,
        }
    }

    /// Drops what isn't written yet, and begins a table, if that is asked for.
    fn begin_table(&mut self) -> Result<(), AllocError>
        ensures format { self.new.format ≡ self.old.format }
        ensures origins { self.new.origins ≡ self.old.origins }
        ensures held { self.new.held ≡ self.old.held }
        ensures line { self.old.format ≡ Lines → OnOk result
            (self.new.unwritten.items ≡ head_line) }
    {
        self.unwritten.clear();
        match self.format {
            Format::Table => put_head(&mut self.unwritten),
            Format::Picture | Format::Objects => Ok(()),
        }
    }

    /// Shows what is left, as all rounds are over that there are: so many, which ended so.
    pub(crate) fn end<W: Write>(
        &mut self,
        rounds: u64,
        end: End,
        writer: &mut W,
    ) -> Result<(), StreamFault>
        ensures all { self.old.format ≡ Lines → 1 ≤ rounds → OnOk result
            (Appends (W.contents writer.old) (W.contents writer.new)
            (self.old.unwritten.items ++ flat_map row_line (option_to_list self.old.held))) }
        ensures none { self.old.format ≡ Lines → rounds ≡ 0 → OnOk result
            (Appends (W.contents writer.old) (W.contents writer.new) self.old.unwritten.items) }
        ensures fails { IfErr result (λ fault. (fault ≡ Memory) ⊎ (fault ≡ Unwritten)) }
    {
        if rounds > 0 {
            self.show_held()?;
        }
        self.summary = self.summary.ended(end);
        match self.format {
            Format::Picture => {
                let before = Some(self.before);
                let drawn = picture(self.alloc, before, &self.columns, self.summary)?;
                write_line(writer, &drawn)
            }
            Format::Table | Format::Objects => self.write(writer),
        }
    }

    /// Shows the first row, if it was held back.
    fn show_held(&mut self) -> Result<(), AllocError>
        ensures format { self.new.format ≡ self.old.format }
        ensures origins { self.new.origins ≡ self.old.origins }
        ensures held { self.new.held ≡ None }
        ensures line { self.old.format ≡ Lines → OnOk result (self.new.unwritten.items
            ≡ self.old.unwritten.items ++ flat_map row_line (option_to_list self.old.held)) }
    {
        match self.held.take() {
            Some(row) => self.show(row),
            None => Ok(()),
        }
    }

    fn show(&mut self, row: Row) -> Result<(), AllocError>
        ensures format { self.new.format ≡ self.old.format }
        ensures origins { self.new.origins ≡ self.old.origins }
        ensures held { self.new.held ≡ self.old.held }
        ensures line { self.old.format ≡ Lines → OnOk result
            (self.new.unwritten.items ≡ self.old.unwritten.items ++ row_line row) }
    {
        self.summary = self.summary.with(row);
        match self.format {
            Format::Table => put_line(row, &mut self.unwritten),
            Format::Objects => put_object(self.alloc, row, &mut self.unwritten),
            Format::Picture => self.columns.add(row),
        }
    }

    fn write<W: Write>(&mut self, writer: &mut W) -> Result<(), StreamFault>
        ensures format { self.new.format ≡ self.old.format }
        ensures origins { self.new.origins ≡ self.old.origins }
        ensures held { self.new.held ≡ self.old.held }
        ensures written { OnOk result
            (Appends (W.contents writer.old) (W.contents writer.new) self.old.unwritten.items) }
        ensures none { OnOk result (self.new.unwritten.items ≡ []) }
        ensures fails { IfErr result (λ fault. fault ≡ Unwritten) }
    {
        write_line(writer, &self.unwritten)?;
        self.unwritten.clear();
        Ok(())
    }

    /// Writes the rows that were told, if they are many or the last of them took some time.
    fn write_if_due<W: Write>(&mut self, pairs: u64, writer: &mut W) -> Result<(), StreamFault>
        ensures format { self.new.format ≡ self.old.format }
        ensures origins { self.new.origins ≡ self.old.origins }
        ensures held { self.new.held ≡ self.old.held }
        ensures written { OnOk result ((written : List ℕ)
            × Appends (W.contents writer.old) (W.contents writer.new) written
            × (written ++ self.new.unwritten.items ≡ self.old.unwritten.items)) }
        ensures fails { IfErr result (λ fault. fault ≡ Unwritten) }
    {
        if pairs >= LONG || self.unwritten.len() >= TOGETHER {
            self.write(writer)?;
        }
        Ok(())
    }

    /// The row of a round of a machine.
    fn row_of(&self, round: u64, pairs: u64, machine: &Machine) -> Row
        ensures round { result.round ≡ round }
        ensures pairs { result.pairs ≡ pairs }
        ensures equations { result.equations ≡ equations_left machine.now }
        ensures figures { (s : SystemParts) (numbers : List ℕ)
            → AreOrigins s numbers self.now.origins
            → length machine.now.counts ≡ length numbers → Tells s numbers
            (equations_left machine.now) machine.now.counts result.nodes result.names }
    {
        let equations = machine.equations_left();
        let figures = self.origins.figures(equations, machine.fired());
        Row {
            round,
            pairs,
            nodes: figures.nodes,
            equations,
            names: figures.names,
        }
    }
}

/// Whether a round is the first, and has no pairs.
fn is_bare_first(round: u64, pairs: u64) -> bool
    ensures yes { result ≡ true → (round ≡ 1) × (pairs ≡ 0) }
    ensures no { result ≡ false → ¬ ((round ≡ 1) × (pairs ≡ 0)) }
{
    round == 1 && pairs == 0
}

impl<W: Write> Rows<W> for Tracing {
    ghost fails = { λ fault. (fault ≡ Memory) ⊎ (fault ≡ Unwritten) };

    ghost tells = { λ s numbers first t before now told.
        ToldRows s numbers first t before now told };

    fn begin(
        &mut self,
        alloc: Global,
        system: &WideSystem,
        numbers: &[u32],
    ) -> Result<(), AllocError> {
        let origins = Origins::of(alloc, system, numbers)?;
        self.origins = origins;
        self.before = system.config().nodes();
        self.summary = Summary::new(self.before);
        self.held = None;
        self.begin_table()?;
        Ok(())
    }

    fn over(
        &mut self,
        round: u64,
        pairs: u64,
        machine: &Machine,
        writer: &mut W,
    ) -> Result<(), StreamFault> {
        let row = self.row_of(round, pairs, machine);
        if is_bare_first(round, pairs) {
            self.held = Some(row);
            return Ok(());
        }
        self.show_held()?;
        self.show(row)?;
        self.write_if_due(pairs, writer)?;
        Ok(())
    }
}
