//! Rows of rounds as lines of a table, and as objects of JSON.

ghost use Rattle.std.specs.Prelude.{◌≡◌, ◌++◌, ◌∷◌, [], OnOk};
ghost use Rattle.std.specs.Fmt.{decimal};
ghost use Rattle.ic_by_rounds.specs.Tables.{head_line, row_line};

use crate::row::Row;
use ic_text::put_decimal;
use std::alloc::{AllocError, Global};

/// Appends the line that names the numbers of a row, with tabs between them.
pub(crate) fn put_head(out: &mut Vec<u8>) -> Result<(), AllocError>
    ensures { OnOk result (out.new.items ≡ out.old.items ++ head_line) }
{
    out.extend_from_slice(b"round\tpairs\tnodes\tequations\tnames\n")
}

/// Appends the line of a row.
pub(crate) fn put_line(row: Row, out: &mut Vec<u8>) -> Result<(), AllocError>
    ensures { OnOk result (out.new.items ≡ out.old.items ++ row_line row) }
{
    put_number(row.round, b'\t', out)?;
    put_number(row.pairs, b'\t', out)?;
    put_number(row.nodes, b'\t', out)?;
    put_number(row.equations, b'\t', out)?;
    put_number(row.names, b'\n', out)
}

/// Appends a number in decimal, and the byte after it.
#[inline(always)]
fn put_number(number: u64, after: u8, out: &mut Vec<u8>) -> Result<(), AllocError>
    ensures { OnOk result (out.new.items ≡ out.old.items ++ (decimal number ++ after ∷ [])) }
{
    put_decimal(number, out)?;
    out.push(after)?;
    Ok(())
}

/// Appends the object of a row.
pub(crate) fn put_object(alloc: Global, row: Row, out: &mut Vec<u8>) -> Result<(), AllocError> {
    let Row {
        round,
        pairs,
        nodes,
        equations,
        names,
    } = row;
    let line = format!(in alloc;
        "{{\"round\":{round},\"pairs\":{pairs},\"nodes\":{nodes},\
         \"equations\":{equations},\"names\":{names}}}\n"
    )?;
    out.extend_from_slice(line.as_bytes())?;
    Ok(())
}
