//! Wires: what is joined of two ports, and names that stand at ports.

ghost use Rattle.std.specs.Prelude.{◌≡◌, ◌++◌, IfOk, OnOk, map};
ghost use Rattle.ic_nets.specs.Nets.{joints_in, name_wires, plain_wires, standings, joins_names, standings_at, wire_of, wires_at, with_standing};
ghost use Rattle.ic_nets.specs.inner.Named.{AreIndexed};

use crate::links::{End, Link, Standing};
use crate::net::Wire;
use crate::port::Port;
use std::alloc::{AllocError, Global};
use std::collections::BTreeMap;

/// The wires between ports that are joined, the ports at which names stand, and how many equations have two names.
pub(crate) fn parted(
    alloc: Global,
    links: &[Link],
) -> Result<(Vec<Wire>, Vec<Standing>, usize), AllocError>
    ensures wires { IfOk result (λ parts. parts.0.items ≡ plain_wires links.now) }
    ensures standings { IfOk result (λ parts. parts.1.items ≡ standings 0 links.now) }
    ensures joints { IfOk result (λ parts. parts.2 ≡ joints_in links.now) }
{
    let mut wires = Vec::new(alloc);
    let mut standings = Vec::new(alloc);
    let mut joints = 0;
    for link in links {
        if part(link, joints, &mut wires, &mut standings)? {
            joints += 1;
        }
    }
    Ok((wires, standings, joints))
}

/// Adds the wire or the names of what is joined, and tells whether two names are.
fn part(
    link: &Link,
    joint: usize,
    wires: &mut Vec<Wire>,
    standings: &mut Vec<Standing>,
) -> Result<bool, AllocError>
    ensures wires { OnOk result (wires.new.items ≡ wires.old.items ++ wires_at link.now) }
    ensures standings { OnOk result
        (standings.new.items ≡ standings.old.items ++ standings_at joint link.now) }
    ensures joint { IfOk result (λ is_joint. is_joint ≡ joins_names link.now) }
{
    match (link.from, link.to) {
        (End::At(from), End::At(to)) => wires.push(Wire {
            from,
            to,
            active: link.active,
        })?,
        (End::At(port), End::Named(name)) | (End::Named(name), End::At(port)) => {
            standings.push(Standing { name, port })?;
        }
        (End::Named(left), End::Named(right)) => {
            standings.push(Standing {
                name: left,
                port: Port::Left(joint),
            })?;
            standings.push(Standing {
                name: right,
                port: Port::Right(joint),
            })?;
            return Ok(true);
        }
    }
    Ok(false)
}

/// The wires of names that stand at ports, in the order in which the names come first.
pub(crate) fn name_wires(alloc: Global, standings: &[Standing]) -> Result<Vec<Wire>, AllocError>
    ensures { IfOk result (λ wires. wires.items ≡ name_wires standings.now) }
{
    let mut wires = Vec::with_capacity(alloc, standings.len())?;
    let mut places = BTreeMap::new(alloc);
    for standing in standings {
        add_standing(standing, &mut wires, &mut places)?;
    }
    values_of(alloc, &wires)
}

/// Adds to the wires of names that one stands at one more port. The place of each is found in a tree, so that no names can be
/// chosen that are slow to find.
fn add_standing(
    standing: &Standing,
    wires: &mut Vec<(u64, Wire)>,
    places: &mut BTreeMap<u64, usize>,
) -> Result<(), AllocError>
    requires { AreIndexed places.old wires.old.items }
    ensures wires { OnOk result
        (wires.new.items ≡ with_standing wires.old.items standing.now) }
    ensures indexed { OnOk result (AreIndexed places.new wires.new.items) }
{
    match places.get(&standing.name).copied() {
        Some(place) => {
            let wire = wire_of(Some(wires[place].1), standing);
            wires[place] = (standing.name, wire);
        }
        None => {
            places.insert(standing.name, wires.len())?;
            wires.push((standing.name, wire_of(None, standing)))?;
        }
    }
    Ok(())
}

/// The wire of a name once it stands at one more port; free where it has stood at none.
fn wire_of(found: Option<Wire>, standing: &Standing) -> Wire
    ensures { result ≡ wire_of found standing.now }
{
    match found {
        None => Wire {
            from: standing.port,
            to: Port::Free(standing.name),
            active: false,
        },
        Some(wire) => Wire {
            from: wire.from,
            to: standing.port,
            active: false,
        },
    }
}

/// The wires, without their names.
fn values_of(alloc: Global, wires: &[(u64, Wire)]) -> Result<Vec<Wire>, AllocError>
    ensures { IfOk result (λ listed. listed.items ≡ map (λ w. w.1) wires.now) }
{
    let mut listed = Vec::with_capacity(alloc, wires.len())?;
    for (_, wire) in wires {
        listed.push(*wire)?;
    }
    Ok(listed)
}
