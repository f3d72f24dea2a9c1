//! What is found in a text, and how it is told: in lines, or as objects of JSON.

ghost use Rattle.std.specs.Prelude.{◌≡◌, ◌<◌, false, true, IfOk};

use ic_text::{TextFault, print_fault, put_decimal};
use std::alloc::{AllocError, Global};

/// How faults and warnings are told.
#[derive(Clone, Copy)]
pub enum Layout {
    /// As lines, which begin with the file's path; of it a byte that is no printable ASCII is shown as `?`.
    Lines,
    /// As objects of JSON, one a line, which have the path as it is.
    Objects,
}

/// A fault or a warning.
#[derive(Drop)]
pub(crate) struct Finding {
    /// The line of the file, where one is told.
    pub line: Option<u64>,
    /// The column of the line, where one is told.
    pub column: Option<u64>,
    /// The fault. A warning has none.
    pub fault: Option<TextFault>,
    /// What is said of it, or nothing.
    pub words: Vec<u8>,
}

/// What is found in a text that is looked over at once, or in a line.
#[derive(Drop)]
pub(crate) struct Findings {
    pub is_faulty: bool,
    pub list: Vec<Finding>,
}

impl Findings {
    /// A fault, and nothing else.
    pub(crate) fn of_fault(alloc: Global, fault: Finding) -> Result<Findings, AllocError>
        ensures { IfOk result (λ findings. findings.is_faulty ≡ true) }
    {
        let mut list = Vec::new(alloc);
        list.push(fault)?;
        Ok(Findings {
            is_faulty: true,
            list,
        })
    }

    /// Warnings, or nothing.
    pub(crate) fn of_warnings(list: Vec<Finding>) -> Findings
        ensures { result.is_faulty ≡ false }
    {
        Findings {
            is_faulty: false,
            list,
        }
    }
}

/// Appends what is told of a finding in the file of this name.
pub(crate) fn put_finding(
    alloc: Global,
    layout: Layout,
    file: &[u8],
    finding: &Finding,
    out: &mut Vec<u8>,
) -> Result<(), AllocError> {
    match layout {
        Layout::Lines => put_line(alloc, file, finding, out),
        Layout::Objects => put_object(alloc, file, finding, out),
    }
}

/// Appends the line of a finding.
fn put_line(
    alloc: Global,
    file: &[u8],
    finding: &Finding,
    out: &mut Vec<u8>,
) -> Result<(), AllocError> {
    out.extend_from_slice(file)?;
    put_number(b":", finding.line, out)?;
    put_number(b":", finding.column, out)?;
    out.extend_from_slice(b": ")?;
    match &finding.fault {
        Some(fault) => out.extend_from_slice(&print_fault(alloc, fault)?)?,
        None => out.extend_from_slice(b"warning")?,
    }
    if !finding.words.is_empty() {
        put_after(b": ", &finding.words, out)?;
    }
    out.extend_from_slice(b"\n")
}

/// Appends bytes after these ones.
pub(crate) fn put_after(head: &[u8], bytes: &[u8], out: &mut Vec<u8>) -> Result<(), AllocError> {
    out.extend_from_slice(head)?;
    out.extend_from_slice(bytes)
}

/// Appends the object of a finding, on a line.
fn put_object(
    alloc: Global,
    file: &[u8],
    finding: &Finding,
    out: &mut Vec<u8>,
) -> Result<(), AllocError> {
    put_string(b"{\"file\":", file, out)?;
    put_number(b",\"line\":", finding.line, out)?;
    put_number(b",\"column\":", finding.column, out)?;
    match &finding.fault {
        Some(fault) => put_fault(alloc, fault, &finding.words, out)?,
        None => put_string(b",\"warning\":", &finding.words, out)?,
    }
    out.extend_from_slice(b"}\n")
}

/// Appends the fields of a fault and its sentence, where there is one.
fn put_fault(
    alloc: Global,
    fault: &TextFault,
    words: &[u8],
    out: &mut Vec<u8>,
) -> Result<(), AllocError> {
    put_string(b",\"fault\":", &print_fault(alloc, fault)?, out)?;
    if words.is_empty() {
        return Ok(());
    }
    put_string(b",\"sentence\":", words, out)
}

/// Appends a number after these bytes, where there is one.
pub(crate) fn put_number(
    head: &[u8],
    number: Option<u64>,
    out: &mut Vec<u8>,
) -> Result<(), AllocError> {
    if let Some(number) = number {
        out.extend_from_slice(head)?;
        put_decimal(number, out)?;
    }
    Ok(())
}

/// Appends bytes as a string of JSON, after these ones.
fn put_string(head: &[u8], bytes: &[u8], out: &mut Vec<u8>) -> Result<(), AllocError> {
    out.extend_from_slice(head)?;
    out.push(b'"')?;
    for byte in bytes {
        put_escaped(*byte, out)?;
    }
    out.push(b'"')?;
    Ok(())
}

/// Appends a byte as it stands in a string of JSON.
fn put_escaped(byte: u8, out: &mut Vec<u8>) -> Result<(), AllocError> {
    if byte == b'"' || byte == b'\\' {
        out.push(b'\\')?;
        out.push(byte)?;
    } else if byte < 32 {
        out.extend_from_slice(b"\\u00")?;
        out.push(hex_digit(byte / 16))?;
        out.push(hex_digit(byte % 16))?;
    } else {
        out.push(byte)?;
    }
    Ok(())
}

/// A digit of a number in base 16.
fn hex_digit(digit: u8) -> u8
    requires { digit < 16 }
{
    if digit < 10 {
        b'0' + digit
    } else {
        b'W' + digit
    }
}
