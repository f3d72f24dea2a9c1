//! The table.

ghost use Rattle.std.specs.Prelude.{◌≡◌, ◌==◌, ◌&&◌, ◌<◌, ℕ, Some, None, is_some, if◌then◌else◌, IfOk, OnOk, OnErr};
ghost use Rattle.std.specs.Ordering.{nat_cmp};
ghost use Rattle.std.specs.BTreeMap.{get};
ghost use Rattle.ic_names.specs.Table.{found, slot_of};

use crate::row::{NONE, Row, place_of};
use crate::span::rows_for;
use std::alloc::{AllocError, Global};
use std::collections::BTreeMap;

/// For each name a number, if it has one.
#[derive(Drop)]
pub struct NameTable {
    rows: Vec<Row>,
    /// The numbers of names that have no place in the rows.
    others: BTreeMap<u64, u32>,
}

impl NameTable {
    ghost use Rattle.ic_names.specs.Table.{found, slot_of};

    /// A table in which no name has a number yet, laid out for these names. It takes four slots of 4 bytes for each of
    /// them at most, as often as it stands there, and time in proportion.
    pub fn new(alloc: Global, names: &[u64]) -> Result<NameTable, AllocError>
        ensures { IfOk result (λ table. (x : ℕ) → found table x ≡ None) }
    {
        let rows = rows_for(alloc, names)?;
        let others = BTreeMap::new(alloc);
        Ok(NameTable { rows, others })
    }

    /// The number that a name has.
    #[inline(always)]
    pub fn get(&self, name: u64) -> Option<u32>
        ensures { result ≡ found self.now name }
    {
        match slot(&self.rows, name) {
            Some(number) if number == NONE => None,
            Some(number) => Some(number),
            None => get_other(&self.others, name),
        }
    }

    /// Gives a name a number in the place of the one that it has. Where memory runs out, nothing is changed.
    #[inline(always)]
    pub fn set(&mut self, name: u64, number: u32) -> Result<(), AllocError>
        requires { number < u32.MAX }
        ensures set { OnOk result ((x : ℕ) → found self.new x
            ≡ (if name == x then Some number else found self.old x)) }
        ensures refused { OnErr result ((x : ℕ) → found self.new x ≡ found self.old x) }
    {
        if !fill(&mut self.rows, name, number) {
            set_other(&mut self.others, name, number)?;
        }
        Ok(())
    }
}

/// The number of a name that has no place in the rows. Few have none, so this stands by itself.
#[inline(never)]
fn get_other(others: &BTreeMap<u64, u32>, name: u64) -> Option<u32>
    ensures { result ≡ get nat_cmp others.now name }
{
    others.get(&name).copied()
}

/// Gives a name that has no place in the rows a number.
#[inline(never)]
fn set_other(others: &mut BTreeMap<u64, u32>, name: u64, number: u32) -> Result<(), AllocError>
    ensures set { OnOk result ((x : ℕ) → get nat_cmp others.new x
        ≡ (if name == x then Some number else get nat_cmp others.old x)) }
    ensures refused { OnErr result ((x : ℕ) → get nat_cmp others.new x
        ≡ get nat_cmp others.old x) }
{
    others.insert(name, number)?;
    Ok(())
}

/// What stands in the place of a name, if it has one in these rows.
fn slot(rows: &[Row], name: u64) -> Option<u32>
    ensures { result ≡ slot_of rows.now name }
{
    let (row, column) = place_of(name);
    rows.get(row)?.slot(column)
}

/// Puts a number in the place of a name, if it has one in these rows, and tells whether it has.
fn fill(rows: &mut Vec<Row>, name: u64, number: u32) -> bool
    ensures there { result ≡ is_some (slot_of rows.old.items name) }
    ensures filled { (x : ℕ) → slot_of rows.new.items x
        ≡ (if result && (name == x) then Some number else slot_of rows.old.items x) }
{
    let (row, column) = place_of(name);
    if rows.len() <= row {
        return false;
    }
    rows[row].fill(column, number)
}
