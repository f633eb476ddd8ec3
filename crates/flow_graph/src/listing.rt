//! Lists of successors.
ghost use Rattle.std.specs.Prelude.{◌≡◌, ◌++◌, ◌==◌, map, filter, IfOk, OnOk};
ghost use Rattle.std.specs.List.{dedup};
ghost use Rattle.std.specs.List.Sorted.{IsNonDecreasingBy, IsPermutation};
ghost use Rattle.machine_spec.specs.Machine as table;
ghost use Rattle.bilv_spec.specs.Run.{some_of};
ghost use Rattle.bilv_spec.specs.Graph as graph;
ghost use Rattle.graph_nodes.specs.Graphs.{letter_of, successor_of};
ghost use Rattle.flow_graph.specs.Programs.{place};

use graph_nodes::{Letter, Successor, is_place};
use std::alloc::AllocError;

/// Adds a successor at the address that there is, if there is one. The error is want of memory.
pub(crate) fn push_some(
    found: &mut Vec<Successor>,
    letter: Letter,
    to: Option<u32>,
) -> Result<(), AllocError>
    ensures { OnOk result (map successor_of found.new.items ≡ map successor_of found.old.items ++ map (graph.successor (letter_of letter)) (some_of to)) }
{
    match to {
        None => Ok(()),
        Some(to) => {
            found.push(Successor { letter, to })?;
            Ok(())
        }
    }
}

/// Adds a successor at each address. The error is want of memory.
pub(crate) fn push_each(
    found: &mut Vec<Successor>,
    letter: Letter,
    targets: &[u32],
) -> Result<(), AllocError>
    ensures { OnOk result (map successor_of found.new.items ≡ map successor_of found.old.items ++ map (graph.successor (letter_of letter)) targets.now) }
{
    for to in targets {
        found.push(Successor { letter, to: *to })?;
    }
    Ok(())
}

/// The number of a letter in the order of the letters.
fn letter_number(letter: Letter) -> u64
    ensures { result ≡ graph.letter_order (letter_of letter) }
{
    match letter {
        Letter::Next => 0,
        Letter::Jump => 1,
        Letter::Call => 2,
        Letter::Return => 3,
    }
}

/// A number that rises as successors do: by the address, and at one address by the letter.
fn place_of(successor: Successor) -> u64
    ensures { result ≡ place (successor_of successor) }
{
    successor.to as u64 * 4 + letter_number(successor.letter)
}

/// Those at whose address a row can stand.
fn aligned(mut found: Vec<Successor>, narrow: bool) -> Vec<Successor>
    ensures { result.items ≡ filter (λ s. table.is_place narrow s.to) found.items }
{
    if narrow {
        found.retain(|s| is_place(true, s.to));
        return found;
    }
    found.retain(|s| is_place(false, s.to));
    found
}

/// The successors by rising places.
fn sorted(mut found: Vec<Successor>) -> Result<Vec<Successor>, AllocError>
    ensures moved { IfOk result (λ v. IsPermutation found.items v.items) }
    ensures rising { IfOk result (λ v. IsNonDecreasingBy (λ s. place (successor_of s)) v.items) }
{
    found.sort_by_key(|s| place_of(*s))?;
    Ok(found)
}

/// The successors without those whose place is that of the one before.
fn distinct(mut found: Vec<Successor>) -> Vec<Successor>
    ensures { result.items ≡ dedup (λ x y. place (successor_of x) == place (successor_of y)) found.items }
{
    found.dedup_by_key(|s| place_of(*s));
    found
}

/// The successors at whose address a row can stand, by rising addresses and in the order of their letters, each once. The error is want of memory.
pub(crate) fn ordered(found: Vec<Successor>, narrow: bool) -> Result<Vec<Successor>, AllocError>
    ensures { IfOk result (λ v. map successor_of v.items ≡ graph.sort (filter (λ s. table.is_place narrow s.to) (map successor_of found.items))) }
{
    let found = sorted(aligned(found, narrow))?;
    Ok(distinct(found))
}
