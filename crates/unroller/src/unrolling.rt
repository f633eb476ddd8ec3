//! The unrolled program of a program, and the unrolled frame of a frame.
ghost use Rattle.std.specs.Prelude.{◌≡◌, ◌↔◌, List, ◌≤◌, ◌<◌, ◌^◌, ℕ, Bool, true, false, [], None, IfOk, IfErr, Contains, filter, length, map, slice_index_or};
ghost use Rattle.std.specs.List.Sorted.{IsNonDecreasingBy, IsStrictlyIncreasing};
ghost use Rattle.bilv_spec.specs.Elf.{IsKeptRuns};
ghost use Rattle.bilv_spec.specs.Notes.{Notes as SpecNotes};
ghost use Rattle.flag_live.specs.Contracted.{LiveStayWith};
ghost use Rattle.graph_nodes.specs.Graphs.{IsFlagSet, IsGraph, addresses_of};
ghost use Rattle.graph_nodes.specs.Places.{AreRising};
ghost use Rattle.notes_value.specs.FrameViews.{contract_of};
ghost use Rattle.notes_value.specs.NoteViews.{notes_of};
ghost use Rattle.notes_value.specs.declared.notes.Contract.{Contract as ListedContract};
ghost use Rattle.frame_spec.specs.Frames.{Contract as NotedContract};
ghost use Rattle.frame_spec.specs.FramePoints.{has_heads};
ghost use Rattle.frame_spec.specs.FrameUnrolling as frames;
ghost use Rattle.frame_spec.specs.FrameWalk as walks;
ghost use Rattle.program_points.specs.Listed.{HasTooMany, IsTooMany};
ghost use Rattle.question_form.specs.Forms.{AreRootsFormed, AreStepsFormed, IsFormed};
ghost use Rattle.question_form.specs.FrameViews.{IsHeadless, frame_unrolled_of};
ghost use Rattle.question_form.specs.Views.{unrolled_of};
ghost use Rattle.question_form.specs.declared.unrolled.Root.{Root};
ghost use Rattle.program_value.specs.Programs.{program_of};
ghost use Rattle.unroller.specs.Asking.{asking, frame_of, program_asking};
ghost use Rattle.unroller.specs.Frames.{parts_frame};
ghost use Rattle.unroller.specs.Heads.{head_places};
ghost use Rattle.unroller.specs.Keys.{address_of, is_of};
ghost use Rattle.unroller.specs.Steps.{AreAllCodes, WritesFew};
ghost use Rattle.unroller.specs.Lookups.{HasForm};
ghost use Rattle.unroller.specs.RootPoints.{BeginAtOwn, IsEntryFirst};
ghost use Rattle.unroller.specs.Rows.{AssignsLiveOnly, HasListsOf};
ghost use Rattle.known_bytes.specs.Runs.{AreRuns};
ghost use Rattle.start_value.specs.Starts.{layout_of};
ghost use Rattle.walk_spec.specs.Unrolled.{byte_of_runs, point_at};
ghost use Rattle.walk_spec.specs.Unrolling.{IsUnrolling};

use crate::codes::{codes_at, literals_at};
use crate::keys::{Aims, addresses};
use crate::numbering::number_points;
use crate::placing::{Coded, calls, points_of};
use crate::roots::{heads, roots_of};
use crate::steps::{add_codes, contract_addresses};
use elf32_reader::Image;
use flag_live::trim;
use graph_nodes::Graph;
use known_bytes::known_bytes;
use machine_law::{Machine, is_narrow};
use notes_index::index_of;
use notes_value::Contract;
use program_points::{Cuts, PointsFault};
use program_value::Program;
use question_form::{Code, Unrolled};
use std::alloc::{AllocError, Global};

/// The runs of kept addresses, which are words.
fn kept<'a>(image: &'a Image<'a>) -> &'a [(u32, u32)]
    ensures runs { IsKeptRuns image.now result.now }
    ensures words { (i : ℕ) → i < length result.now → ((slice_index_or result.now i (0, 0)).0 < 2 ^ 32) × ((slice_index_or result.now i (0, 0)).1 < 2 ^ 32) }
{
    let runs = image.kept_runs();
    for (first, last) in runs {
        prove!(*first <= u32::MAX);
        prove!(*last <= u32::MAX);
    }
    runs
}

/// The numbers of the invariants of notes that have none.
fn no_invariants<'a>() -> &'a [u32]
    ensures { result.now ≡ [] }
{
    &[]
}

/// The contracts of notes that have none.
fn no_contracts<'a>() -> &'a [Contract]
    ensures { result.now ≡ [] }
{
    &[]
}

/// What makes a frame: its program, the numbers of those assert lines that are invariants, the contracts that its calls step over, in the order of their ranks,
/// and the contract whose frame it is, if it is one's; and all contracts of the notes. The program is the frame's: of a contract's frame its function is the
/// contract's, and its notes require what the contract needs, and ensure and fix nothing.
#[derive_where(Clone, Copy)]
pub struct FrameParts<'a, M: Machine> {
    pub program: Program<'a, M>,
    pub invariants: &'a [u32],
    pub stepped: &'a [Contract],
    pub own: Option<&'a Contract>,
    pub contracts: &'a [Contract],
}

/// Where the runs of a frame are cut, and the addresses of the contracts that it steps over, in their order.
#[derive(Drop)]
struct CutPlaces {
    heads: Vec<u32>,
    stepped: Vec<u32>,
}

/// The places of a frame's cuts. The error is want of memory.
fn cut_places<M: Machine>(alloc: Global, parts: &FrameParts<M>) -> Result<CutPlaces, AllocError>
    ensures heads { IfOk result (λ v. (x : ℕ) → Contains (head_places parts.now.invariants.now (notes_of parts.now.program.notes.now).asserts) x
        ↔ Contains v.heads.items x) }
    ensures stepped { IfOk result (λ v. v.stepped.items ≡ map (λ x. x.at) parts.now.stepped.now) }
{
    let heads = heads(alloc, parts.program.notes, parts.invariants)?;
    let stepped = contract_addresses(alloc, parts.stepped)?;
    Ok(CutPlaces { heads, stepped })
}

/// The addresses that have codes: those of rows, and those of contract steps, each once and rising.
#[derive(Drop)]
struct CodePlaces {
    rows: Vec<u32>,
    steps: Vec<u32>,
}

/// The addresses of the points of numbers, of rows and of contract steps. The error is want of memory.
fn code_places(alloc: Global, keys: &[u128]) -> Result<CodePlaces, AllocError>
    ensures rows { IfOk result (λ v. IsStrictlyIncreasing v.rows.items) }
    ensures steps { IfOk result (λ v. IsStrictlyIncreasing v.steps.items) }
    ensures few_rows { IfOk result (λ v. length v.rows.items ≤ length keys.now) }
    ensures few_steps { IfOk result (λ v. length v.steps.items ≤ length keys.now) }
    ensures of_rows { IfOk result (λ v. (x : ℕ) → Contains (map address_of (filter (is_of false) keys.now)) x ↔ Contains v.rows.items x) }
    ensures of_steps { IfOk result (λ v. (x : ℕ) → Contains (map address_of (filter (is_of true) keys.now)) x ↔ Contains v.steps.items x) }
{
    let rows = addresses(alloc, keys, false)?;
    let steps = addresses(alloc, keys, true)?;
    Ok(CodePlaces { rows, steps })
}

/// What stands at the addresses that have codes, of rows each with its part of the assert lines by address; by the contracts that are stepped over and their
/// addresses. The error is want of memory.
fn all_codes<M: Machine>(
    alloc: Global,
    program: &Program<M>,
    graph: &Graph,
    coded: Coded,
    asserts: &[(u32, usize)],
    contracts: &[Contract],
    stepped: &[u32],
) -> Result<Vec<Code>, AllocError>
    requires nodes { AreRising graph.now.nodes.items }
    requires rows { (a : ℕ) → Contains coded.rows.now a → Contains (addresses_of graph.now) a }
    requires sorted { IsNonDecreasingBy (λ x. x.0) asserts.now }
    requires stepped { stepped.now ≡ map (λ x. x.at) contracts.now }
    requires steps { (a : ℕ) → Contains coded.steps.now a → Contains stepped.now a }
    requires few { (x : ListedContract) → Contains contracts.now x → WritesFew x }
    ensures { (n : SpecNotes) (e : ℕ) (o : ℕ → Bool) (noted : List NotedContract) → IsGraph (program_asking M.machine program.now.image.now n e o) graph.now →
        LiveStayWith (program_asking M.machine program.now.image.now n e o) noted graph.now →
        IfOk result (λ v. AreAllCodes (program_asking M.machine program.now.image.now n e o) M.bank noted contracts.now stepped.now coded.entry.rows.now
        coded.entry.steps.now asserts.now v.items) }
{
    let mut codes = codes_at::<M>(alloc, program, graph, coded.rows, asserts)?;
    add_codes(&mut codes, contracts, stepped, coded.steps)?;
    Ok(codes)
}

/// The unrolled frame, as `unroll_contracted` makes it, of a function that is asked for flags at the exit besides those of its notes: the set `out`, N 8, Z 4, C 2
/// and V 1. What is asked for is read at the exit, so that its assignments stay.
///
/// # Errors
///
/// `TooMany` with the count `max + 1` exactly where there are more than `max` points; out of memory.
fn unroll_with<'a, M: Machine>(
    alloc: Global,
    graph: &Graph,
    parts: &FrameParts<'a, M>,
    out: u8,
    k: u64,
    max: u64,
) -> Result<Unrolled<'a>, PointsFault>
    requires max { max ≤ 16777216 }
    requires k { k ≤ 4096 }
    requires out { out < 16 }
    requires graph { IsGraph (program_of parts.now.program) graph.now }
    requires few { (x : ListedContract) → Contains parts.now.stepped.now x → WritesFew x }
    ensures unrolled { (asked : ℕ → Bool) → IsFlagSet out asked → IfOk result (λ u.
        frames.IsUnrolling (parts_frame (asking (program_of parts.now.program) asked) parts.now)
        (map contract_of parts.now.contracts.now) k (frame_unrolled_of u)) }
    ensures lists { (asked : ℕ → Bool) → IsFlagSet out asked →
        IfOk result (λ u. HasListsOf (asking (program_of parts.now.program) asked) M.bank (map contract_of parts.now.contracts.now) (frame_unrolled_of u)) }
    ensures lean { (asked : ℕ → Bool) → IsFlagSet out asked →
        IfOk result (λ u. AssignsLiveOnly (asking (program_of parts.now.program) asked) (map contract_of parts.now.contracts.now) (frame_unrolled_of u)) }
    ensures formed { IfOk result (λ u. IsFormed u) }
    ensures roots { IfOk result (λ u. AreRootsFormed u) }
    ensures steps { IfOk result (λ u. AreStepsFormed u) }
    ensures invariants { IfOk result (λ u. u.invariants.now ≡ parts.now.invariants.now) }
    ensures stepped { IfOk result (λ u. u.stepped ≡ parts.now.stepped) }
    ensures owned { IfOk result (λ u. u.own ≡ parts.now.own) }
    ensures heads { IfOk result (λ u.
        u.heads ≡ has_heads (parts_frame (program_of parts.now.program) parts.now)) }
    ensures own { IfOk result (λ u. BeginAtOwn u) }
    ensures first { IfOk result (λ u. IsEntryFirst u) }
    ensures headed { IfOk result (λ u. u.heads ≡ false → (x : Root) → Contains u.roots.items x → x.head ≡ None) }
    ensures few { IfOk result (λ u. length u.points.items ≤ max) }
    ensures form { IfOk result (λ u. HasForm M.machine u) }
    ensures addresses { IfOk result (λ u. (i : ℕ) → i < length (unrolled_of u).points → (point_at (unrolled_of u) i).point.at < 2 ^ 32) }
    ensures layout { IfOk result (λ u. layout_of u.form ≡ M.form) }
    ensures runs { IfOk result (λ u. AreRuns u.known.items) }
    ensures beyond { (x : ℕ) → 2 ^ 32 ≤ x → IfOk result (λ u. byte_of_runs (unrolled_of u).known x ≡ None) }
    ensures headless { parts.now.invariants.now ≡ [] → parts.now.stepped.now ≡ [] → parts.now.own ≡ None → IfOk result (λ u. IsHeadless u) }
    ensures more { (asked : ℕ → Bool) → IsFlagSet out asked →
        IfErr result (HasTooMany (parts_frame (asking (program_of parts.now.program) asked) parts.now) k max) }
{
    parts.program.image.bytes();
    let live = trim(alloc, graph, parts.contracts, out)?;
    let places = cut_places(alloc, parts)?;
    let cuts = Cuts {
        heads: &places.heads,
        stepped: &places.stepped,
    };
    let listed = number_points(alloc, &live, &cuts, parts.program.entry, k, max)?;
    let keys = listed.keys;
    let mut stacks = listed.stacks;
    let addresses = code_places(alloc, &keys)?;
    let index = index_of(alloc, parts.program.notes)?;
    let called = calls(alloc, &live, &mut stacks, &keys)?;
    let coded = Coded {
        rows: &addresses.rows,
        steps: &addresses.steps,
    };
    let codes = all_codes::<M>(
        alloc,
        &parts.program,
        &live,
        coded,
        &index.asserts,
        parts.stepped,
        &places.stepped,
    )?;
    let literals = literals_at::<M>(alloc, parts.program.image, &live, &addresses.rows)?;
    let roots = roots_of(
        alloc,
        &listed.segments,
        &keys,
        &index.asserts,
        parts.program.entry,
    )?;
    let aims = Aims {
        heads: &places.heads,
        stepped: &places.stepped,
        asserts: &index.asserts,
        keys: &keys,
    };
    let placed = points_of(alloc, &live, &stacks.frames, &aims, coded, &called)?;
    let known = known_bytes(alloc, parts.program.image, parts.program.notes)?;
    Ok(Unrolled {
        form: M::layout(),
        big: parts.program.big,
        narrow: is_narrow::<M>(),
        link: M::link(),
        entry: parts.program.entry,
        notes: parts.program.notes,
        invariants: parts.invariants,
        heads: !places.heads.is_empty(),
        stepped: parts.stepped,
        own: parts.own,
        asserts: index.asserts,
        kept: kept(parts.program.image),
        known: known.runs,
        literals,
        frames: stacks.frames,
        roots,
        codes,
        points: placed.points,
        edges: placed.edges,
    })
}

/// The unrolled program, as `unroll` makes it, of a function that is asked for flags at the exit besides those of its notes: the set `out`, N 8, Z 4, C 2 and
/// V 1. What is asked for is read at the exit, so that its assignments stay.
///
/// # Errors
///
/// `TooMany` with the count `max + 1` exactly where there are more than `max` points; out of memory.
pub fn unroll_asking<'a, M: Machine>(
    alloc: Global,
    graph: &Graph,
    program: &Program<'a, M>,
    out: u8,
    k: u64,
    max: u64,
) -> Result<Unrolled<'a>, PointsFault>
    requires max { max ≤ 16777216 }
    requires k { k ≤ 4096 }
    requires out { out < 16 }
    requires graph { IsGraph (program_of program.now) graph.now }
    ensures unrolled { (asked : ℕ → Bool) → IsFlagSet out asked →
        IfOk result (λ u. IsUnrolling (asking (program_of program.now) asked) k (unrolled_of u)) }
    ensures lists { (asked : ℕ → Bool) → IsFlagSet out asked →
        IfOk result (λ u. HasListsOf (asking (program_of program.now) asked) M.bank [] (frame_unrolled_of u)) }
    ensures lean { (asked : ℕ → Bool) → IsFlagSet out asked →
        IfOk result (λ u. AssignsLiveOnly (asking (program_of program.now) asked) [] (frame_unrolled_of u)) }
    ensures formed { IfOk result (λ u. IsFormed u) }
    ensures roots { IfOk result (λ u. AreRootsFormed u) }
    ensures few { IfOk result (λ u. length u.points.items ≤ max) }
    ensures form { IfOk result (λ u. HasForm M.machine u) }
    ensures addresses { IfOk result (λ u. (i : ℕ) → i < length (unrolled_of u).points → (point_at (unrolled_of u) i).point.at < 2 ^ 32) }
    ensures layout { IfOk result (λ u. layout_of u.form ≡ M.form) }
    ensures runs { IfOk result (λ u. AreRuns u.known.items) }
    ensures beyond { (x : ℕ) → 2 ^ 32 ≤ x → IfOk result (λ u. byte_of_runs (unrolled_of u).known x ≡ None) }
    ensures headless { IfOk result (λ u. IsHeadless u) }
    ensures more { (asked : ℕ → Bool) → IsFlagSet out asked →
        IfErr result (IsTooMany (asking (program_of program.now) asked) k max) }
{
    let parts = FrameParts {
        program: *program,
        invariants: no_invariants(),
        stepped: no_contracts(),
        own: None,
        contracts: no_contracts(),
    };
    let unrolled = unroll_with::<M>(alloc, graph, &parts, out, k, max)?;
    Ok(unrolled)
}

/// The unrolled program of a program with at most `k` backward transfers, from its flow graph: every point once, by backward transfers, address and stack, with
/// its exits in the order of a step and an edge for each of the program's. Lists stand once for each address; known bytes are borrowed from the file.
///
/// A list is that of the row as it is lifted, but without the assignments of flags that no path reads before the flag is surely assigned again, and with the
/// constant of a literal in place of its load where the literal's four bytes are kept.
///
/// # Errors
///
/// `TooMany` with the count `max + 1` exactly where there are more than `max` points; want of memory.
pub fn unroll<'a, M: Machine>(
    alloc: Global,
    graph: &Graph,
    program: &Program<'a, M>,
    k: u64,
    max: u64,
) -> Result<Unrolled<'a>, PointsFault>
    requires max { max ≤ 16777216 }
    requires k { k ≤ 4096 }
    requires graph { IsGraph (program_of program.now) graph.now }
    ensures unrolled { IfOk result (λ u. IsUnrolling (program_of program.now) k (unrolled_of u)) }
    ensures lists { IfOk result (λ u. HasListsOf (program_of program.now) M.bank [] (frame_unrolled_of u)) }
    ensures lean { IfOk result (λ u. AssignsLiveOnly (program_of program.now) [] (frame_unrolled_of u)) }
    ensures formed { IfOk result (λ u. IsFormed u) }
    ensures roots { IfOk result (λ u. AreRootsFormed u) }
    ensures few { IfOk result (λ u. length u.points.items ≤ max) }
    ensures form { IfOk result (λ u. HasForm M.machine u) }
    ensures addresses { IfOk result (λ u. (i : ℕ) → i < length (unrolled_of u).points → (point_at (unrolled_of u) i).point.at < 2 ^ 32) }
    ensures layout { IfOk result (λ u. layout_of u.form ≡ M.form) }
    ensures runs { IfOk result (λ u. AreRuns u.known.items) }
    ensures beyond { (x : ℕ) → 2 ^ 32 ≤ x → IfOk result (λ u. byte_of_runs (unrolled_of u).known x ≡ None) }
    ensures headless { IfOk result (λ u. IsHeadless u) }
    ensures more { IfErr result (IsTooMany (program_of program.now) k max) }
{
    let unrolled = unroll_asking::<M>(alloc, graph, program, 0, k, max)?;
    Ok(unrolled)
}

/// The unrolled frame of a program whose assert lines of these numbers are invariants, so that its runs are cut at their addresses, the heads: every point once,
/// with at most `k` backward transfers in its segment, by where the segment begins, backward transfers, address and stack; and a root for each segment. An edge
/// to a head leads to no point, but to the head and its assert lines. All else is as `unroll` makes it.
///
/// # Errors
///
/// `TooMany` with the count `max + 1` exactly where there are more than `max` points; want of memory.
pub fn unroll_frame<'a, M: Machine>(
    alloc: Global,
    graph: &Graph,
    program: &Program<'a, M>,
    invariants: &'a [u32],
    k: u64,
    max: u64,
) -> Result<Unrolled<'a>, PointsFault>
    requires max { max ≤ 16777216 }
    requires k { k ≤ 4096 }
    requires graph { IsGraph (program_of program.now) graph.now }
    ensures unrolled { IfOk result (λ u.
        frames.IsUnrolling (frame_of (program_of program.now) invariants.now) [] k (frame_unrolled_of u)) }
    ensures lists { IfOk result (λ u. HasListsOf (program_of program.now) M.bank [] (frame_unrolled_of u)) }
    ensures lean { IfOk result (λ u. AssignsLiveOnly (program_of program.now) [] (frame_unrolled_of u)) }
    ensures formed { IfOk result (λ u. IsFormed u) }
    ensures roots { IfOk result (λ u. AreRootsFormed u) }
    ensures steps { IfOk result (λ u. AreStepsFormed u) }
    ensures heads { IfOk result (λ u. u.heads ≡ has_heads (frame_of (program_of program.now) invariants.now)) }
    ensures own { IfOk result (λ u. BeginAtOwn u) }
    ensures first { IfOk result (λ u. IsEntryFirst u) }
    ensures headed { IfOk result (λ u. u.heads ≡ false → (x : Root) → Contains u.roots.items x → x.head ≡ None) }
    ensures few { IfOk result (λ u. length u.points.items ≤ max) }
    ensures form { IfOk result (λ u. HasForm M.machine u) }
    ensures addresses { IfOk result (λ u. (i : ℕ) → i < length (frame_unrolled_of u).points → (walks.point_at (frame_unrolled_of u) i).point.at < 2 ^ 32) }
    ensures layout { IfOk result (λ u. layout_of u.form ≡ M.form) }
    ensures runs { IfOk result (λ u. AreRuns u.known.items) }
    ensures beyond { (x : ℕ) → 2 ^ 32 ≤ x → IfOk result (λ u. byte_of_runs (frame_unrolled_of u).known x ≡ None) }
    ensures more { IfErr result (HasTooMany (frame_of (program_of program.now) invariants.now) k max) }
{
    let parts = FrameParts {
        program: *program,
        invariants,
        stepped: no_contracts(),
        own: None,
        contracts: no_contracts(),
    };
    let unrolled = unroll_contracted::<M>(alloc, graph, &parts, k, max)?;
    Ok(unrolled)
}

/// The unrolled frame of a frame with contracts: a call of a contract that the frame steps over leads to a point where the contract step is made, which is left
/// by its return. A flag is read where a contract step is made that reads it, and at the exit of each contract's frame that does. All else is as `unroll_frame` makes
/// it.
///
/// # Errors
///
/// `TooMany` with the count `max + 1` exactly where there are more than `max` points; want of memory.
pub fn unroll_contracted<'a, M: Machine>(
    alloc: Global,
    graph: &Graph,
    parts: &FrameParts<'a, M>,
    k: u64,
    max: u64,
) -> Result<Unrolled<'a>, PointsFault>
    requires max { max ≤ 16777216 }
    requires k { k ≤ 4096 }
    requires graph { IsGraph (program_of parts.now.program) graph.now }
    requires few { (x : ListedContract) → Contains parts.now.stepped.now x → WritesFew x }
    ensures unrolled { IfOk result (λ u.
        frames.IsUnrolling (parts_frame (program_of parts.now.program) parts.now)
        (map contract_of parts.now.contracts.now) k (frame_unrolled_of u)) }
    ensures lists { IfOk result (λ u.
        HasListsOf (program_of parts.now.program) M.bank (map contract_of parts.now.contracts.now) (frame_unrolled_of u)) }
    ensures lean { IfOk result (λ u.
        AssignsLiveOnly (program_of parts.now.program) (map contract_of parts.now.contracts.now) (frame_unrolled_of u)) }
    ensures formed { IfOk result (λ u. IsFormed u) }
    ensures roots { IfOk result (λ u. AreRootsFormed u) }
    ensures steps { IfOk result (λ u. AreStepsFormed u) }
    ensures stepped { IfOk result (λ u. u.stepped ≡ parts.now.stepped) }
    ensures owned { IfOk result (λ u. u.own ≡ parts.now.own) }
    ensures heads { IfOk result (λ u.
        u.heads ≡ has_heads (parts_frame (program_of parts.now.program) parts.now)) }
    ensures own { IfOk result (λ u. BeginAtOwn u) }
    ensures first { IfOk result (λ u. IsEntryFirst u) }
    ensures headed { IfOk result (λ u. u.heads ≡ false → (x : Root) → Contains u.roots.items x → x.head ≡ None) }
    ensures few { IfOk result (λ u. length u.points.items ≤ max) }
    ensures form { IfOk result (λ u. HasForm M.machine u) }
    ensures addresses { IfOk result (λ u. (i : ℕ) → i < length (frame_unrolled_of u).points → (walks.point_at (frame_unrolled_of u) i).point.at < 2 ^ 32) }
    ensures layout { IfOk result (λ u. layout_of u.form ≡ M.form) }
    ensures runs { IfOk result (λ u. AreRuns u.known.items) }
    ensures beyond { (x : ℕ) → 2 ^ 32 ≤ x → IfOk result (λ u. byte_of_runs (frame_unrolled_of u).known x ≡ None) }
    ensures more { IfErr result (HasTooMany (parts_frame (program_of parts.now.program) parts.now) k max) }
{
    let unrolled = unroll_with::<M>(alloc, graph, parts, 0, k, max)?;
    Ok(unrolled)
}
