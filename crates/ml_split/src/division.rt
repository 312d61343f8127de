// Divides a set into parts.
ghost use Rattle.std.specs.Prelude.{◌≡◌, [], map, IfOk, OnOk, position};
ghost use Rattle.std.specs.BTreeSet.{keys};
ghost use Rattle.ml_split.specs.Parts as spec;
ghost use Rattle.ml_split.specs.Steps.{HasNames, is_named, with_name, with_member_of};

use crate::assignment::{UNRULED, name_of};
use crate::{Part, Parts, Rules};
use ml_base::{Address, AddressList, Bytes, Row};
use std::alloc::{AllocError, Global};
use std::collections::BTreeSet;

// The place of the first part with this name, or None if there is none.
fn position_of(parts: &[Part], name: &[u8]) -> Option<usize>
    ensures { result ≡ position (is_named name.now) parts.now }
{
    parts.iter().position(|part| part.name.as_slice() == name)
}

// Adds a part of this name without members, if none has it. `seen` has the names that are there.
fn add_part<'a>(
    alloc: Global,
    parts: &mut Vec<Part>,
    seen: &mut BTreeSet<&'a [u8]>,
    name: &'a [u8],
) -> Result<(), AllocError>
    requires { HasNames (map (λ k. k.now) (keys seen.old)) parts.old.items }
    ensures parts { OnOk result (parts.new.items ≡ with_name name.entry.now parts.old.items) }
    ensures names { OnOk result (HasNames (map (λ k. k.now) (keys seen.new)) parts.new.items) }
{
    if seen.insert(name)? {
        parts.push(Part {
            name: Bytes::from_slice(alloc, name)?,
            members: AddressList::new(alloc),
        })?;
    }
    Ok(())
}

// The parts that the rules name, without members.
fn empty_parts(alloc: Global, rules: &Rules) -> Result<Vec<Part>, AllocError>
    ensures { IfOk result (λ parts. parts.items ≡ spec.parts rules.now []) }
{
    let mut parts = Vec::new(alloc);
    let mut seen = BTreeSet::new(alloc);
    for rule in rules.as_slice() {
        add_part(alloc, &mut parts, &mut seen, rule.name.as_slice())?;
    }
    add_part(alloc, &mut parts, &mut seen, UNRULED)?;
    Ok(parts)
}

// Adds a member at the end of the first part of this name.
fn add_member(parts: &mut Vec<Part>, name: &[u8], a: Address) -> Result<(), AllocError>
    ensures { OnOk result (parts.new.items ≡ with_member_of name.now a parts.old.items) }
{
    if let Some(at) = position_of(parts.as_slice(), name) {
        parts[at].members.push(a)?;
    }
    Ok(())
}

/// The parts of a set: one for every name, in the order in which the rules use them first, and then one named `-` for
/// addresses that no rule takes. Each has its members in the order of the set. A part may be without members.
pub fn split(alloc: Global, rules: &Rules, set: &AddressList) -> Result<Parts, AllocError>
    ensures { IfOk result (λ parts. parts ≡ spec.parts rules.now set.now) }
{
    let mut parts = empty_parts(alloc, rules)?;
    for a in set.as_slice() {
        add_member(&mut parts, name_of(rules, a), a.copy(alloc)?)?;
    }
    Ok(Row::from_vec(parts))
}
