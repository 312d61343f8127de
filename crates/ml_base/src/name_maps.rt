// A search in maps whose keys are names of files.
ghost use Rattle.std.specs.Prelude.{◌≡◌, ◌≤◌};
ghost use Rattle.ml_base.specs.Absent.{NoEntryOf};

use crate::Name;
use std::collections::BTreeMap;

/// The next place of a kind, from `from` on, at which a map has an entry, or `end` if it has none before `end`.
pub fn next_place<V>(map: &BTreeMap<Name, V>, kind: u8, from: u64, end: u64) -> u64
    requires { from ≤ end }
    ensures range { (from ≤ result) × (result ≤ end) }
    ensures none { NoEntryOf map.now kind from result }
{
    match map.range(Name { kind, at: from }..).next() {
        Some((name, _)) if name.kind == kind && name.at < end => name.at,
        _ => end,
    }
}
