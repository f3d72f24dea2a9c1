//! Rounds as a picture, in SVG.

use crate::columns::{Column, Columns};
use crate::summary::Summary;
use std::alloc::{AllocError, Global};
use std::fmt::Write;

/// What a picture's width and the greatest heights of bars and line stand for; not 0.
#[derive(Clone, Copy)]
struct Scale {
    width: u64,
    bars: u64,
    line: u64,
}

/// The picture of rounds: a bar for each column, and a line through the nodes before the first and after each, if these are known.
pub(crate) fn picture(
    alloc: Global,
    before: Option<u64>,
    columns: &Columns,
    summary: Summary,
) -> Result<Vec<u8>, AllocError> {
    let scale = scale_of(columns.as_slice(), summary.nodes);
    let mut out = String::new(alloc);
    put_title(columns.width(), summary, &mut out)?;
    put_bars(columns.as_slice(), scale, &mut out)?;
    if let Some(nodes) = before {
        put_line(columns.as_slice(), nodes, scale, &mut out)?;
    }
    let nodes = before.map(|_| summary.nodes);
    put_axes(scale.bars, nodes, summary.rounds, &mut out)?;
    Ok(out.into_bytes())
}

fn scale_of(columns: &[Column], nodes: u64) -> Scale {
    let mut bars = 1u64;
    for column in columns {
        bars = bars.max(column.pairs);
    }
    Scale {
        width: (columns.len() as u64).max(1),
        bars,
        line: nodes.max(1),
    }
}

/// Appends how a picture begins, and its title, which says whether rounds were cut, and how many a bar is for, if it is for
/// several.
fn put_title(width: u64, summary: Summary, out: &mut String) -> Result<(), AllocError> {
    out.push_str(
        "<svg xmlns='http://www.w3.org/2000/svg' viewBox='0 0 800 450' font-family='sans-serif'>\n\
         <rect width='800' height='450' fill='white'/>\n\
         <text x='400' y='24' text-anchor='middle'>",
    )?;
    if summary.is_partial {
        out.push_str("partial: ")?;
    }
    put_counted(summary.rounds, "round", out)?;
    put_counted(summary.interactions, "interaction", out)?;
    let (greatest, (whole, tenth)) = (summary.greatest, summary.average());
    write!(
        out,
        "at most {greatest} and on average {whole}.{tenth} in a round"
    )?;
    if width > 1 {
        write!(out, "; each bar is the sum of {width} rounds")?;
    }
    out.push_str("</text>\n")
}

/// Appends a number and what it counts.
fn put_counted(count: u64, what: &str, out: &mut String) -> Result<(), AllocError> {
    let plural = if count == 1 { "" } else { "s" };
    write!(out, "{count} {what}{plural}, ")
}

/// Appends the bars, in a window in which a unit is one column and one pair.
fn put_bars(columns: &[Column], scale: Scale, out: &mut String) -> Result<(), AllocError> {
    let Scale { width, bars, .. } = scale;
    write!(
        out,
        "<svg x='80' y='50' width='640' height='350' preserveAspectRatio='none' \
         viewBox='0.95 0 {width} {bars}'>\n\
         <g fill='#aaa' transform='matrix(1 0 0 -1 0 {bars})'>\n"
    )?;
    let mut place = 0u64;
    for column in columns {
        place = place.saturating_add(1);
        let pairs = column.pairs;
        write!(out, "<rect width='0.9' x='{place}' height='{pairs}'/>\n")?;
    }
    out.push_str("</g></svg>\n")
}

/// Appends the line, in tenths of the picture's unit from where the axes meet.
fn put_line(
    columns: &[Column],
    before: u64,
    scale: Scale,
    out: &mut String,
) -> Result<(), AllocError> {
    out.push_str(
        "<g transform='matrix(0.1 0 0 -0.1 80 400)'>\n\
         <polyline fill='none' stroke='black' stroke-width='20' points='\n",
    )?;
    put_point(scale, 0, before, out)?;
    let mut place = 0u64;
    for column in columns {
        place = place.saturating_add(1);
        put_point(scale, place, column.nodes, out)?;
    }
    out.push_str("'/></g>\n")
}

/// Appends the point of so many nodes after the column at a place.
fn put_point(scale: Scale, place: u64, nodes: u64, out: &mut String) -> Result<(), AllocError> {
    let across = u128::from(place) * 6400 / u128::from(scale.width.max(1));
    let up = u128::from(nodes) * 3500 / u128::from(scale.line.max(1));
    write!(out, "{across},{up}\n")
}

/// Appends the axes and their numbers: those of the line only if there is one, which goes up to so many nodes.
fn put_axes(
    bars: u64,
    nodes: Option<u64>,
    rounds: u64,
    out: &mut String,
) -> Result<(), AllocError> {
    let greatest = if rounds == 0 { 0 } else { bars };
    out.push_str(
        "<path d='M80 50V400H720V50' fill='none' stroke='black'/>\n\
         <text x='80' y='42'>pairs fired (bars)</text>\n",
    )?;
    if nodes.is_some() {
        out.push_str("<text x='720' y='42' text-anchor='end'>nodes (line)</text>\n")?;
    }
    write!(
        out,
        "<text x='74' y='56' text-anchor='end'>{greatest}</text>\n\
         <text x='74' y='404' text-anchor='end'>0</text>\n"
    )?;
    if let Some(nodes) = nodes {
        write!(
            out,
            "<text x='726' y='56'>{nodes}</text>\n<text x='726' y='404'>0</text>\n"
        )?;
    }
    write!(
        out,
        "<text x='80' y='420'>0</text>\n\
         <text x='400' y='440' text-anchor='middle'>rounds</text>\n\
         <text x='720' y='420' text-anchor='end'>{rounds}</text>\n\
         </svg>\n"
    )
}
