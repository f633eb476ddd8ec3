//! Sections and symbols (System V ABI, object files: sections, symbol table).
ghost use Rattle.std.specs.Prelude.{ℕ, ◌≡◌, ◌≢◌, ◌≤◌, ◌<◌, ◌+◌, ◌*◌, ◌↔◌, IsTrue, IfOk, length, take, drop, MatchOption, MatchResult, slice_index};
ghost use Rattle.std.specs.Bool.{MatchBool};
ghost use Rattle.machine_spec.specs.Machine as machine;
ghost use Rattle.bilv_spec.specs.Elf.{field};
ghost use Rattle.bilv_spec.specs.ElfFaults.{BadSymbolTable, FileFaultApplies, section, section_count, HasSections, IsSymbols, IsBadSymbols, IsName, IsFunction, IsFunctionSymbol, Finds};
ghost use Rattle.elf32_reader.specs.Marks.{AreMarks};
ghost use Rattle.elf32_reader.specs.Symbols.{IsHeader, IsNamed, IsUnnamed, IsReadable, IsSeen, IsLeast, Adds, IsMissed};

use crate::fields::{half, word};
use crate::marks::{names_end, nul_marks};
use std::alloc::{AllocError, Global};
use thiserror::Error;

/// SHT_SYMTAB.
const SYMBOLS: u32 = 2;
/// SHT_STRTAB.
const NAMES: u32 = 3;
/// STT_FUNC.
const FUNCTION: u8 = 2;

/// Why a name has not one address.
#[derive(Clone, Copy, Debug, PartialEq, Eq, Error)]
pub enum SymFault {
    /// No function has the name.
    #[error("no function")]
    NoFunction,
    /// Functions at several addresses have the name; these are the two least, the lesser first.
    #[error("ambiguous {0} {1}")]
    Ambiguous(u32, u32),
}

/// The parts of a section header that are read.
#[derive(Clone, Copy)]
struct SectionHeader {
    kind: u32,
    offset: u32,
    size: u32,
    link: u32,
    entry_size: u32,
}

/// The least addresses that were found for a name.
#[derive(Clone, Copy)]
enum Found {
    Nothing,
    One(u32),
    Several(u32, u32),
}

/// The header of section `i`.
fn section_header(file: &[u8], i: u32) -> SectionHeader
    requires order { 52 ≤ length file.now }
    requires table { field file.now 4 32 + 40 * section_count file.now ≤ length file.now }
    requires within { i < section_count file.now }
    ensures { IsHeader file.now i result }
{
    let at = word(file, 32) as usize + 40 * i as usize;
    SectionHeader {
        kind: word(file, at + 4),
        offset: word(file, at + 16),
        size: word(file, at + 20),
        link: word(file, at + 24),
        entry_size: word(file, at + 36),
    }
}

/// A symbol of section `i` has no name that ends in its table.
fn is_unnamed(file: &[u8], marks: &[usize], i: u32) -> bool
    requires order { 52 ≤ length file.now }
    requires marks { AreMarks file.now marks.now }
    requires table { field file.now 4 32 + 40 * section_count file.now ≤ length file.now }
    requires within { i < section_count file.now }
    requires readable { IsReadable file.now i }
    ensures { MatchBool result (IsUnnamed file.now i) (IsNamed file.now i) }
{
    let symbols = section_header(file, i);
    let names = section_header(file, symbols.link);
    let end = names_end(file, marks, names.offset as usize, names.size as usize);
    for k in 0..symbols.size / 16 {
        if word(file, symbols.offset as usize + 16 * k as usize) as usize >= end {
            return true;
        }
    }
    false
}

/// The symbol table of section `i` is not as it has to be.
fn is_bad_table(file: &[u8], marks: &[usize], i: u32) -> bool
    requires order { 52 ≤ length file.now }
    requires marks { AreMarks file.now marks.now }
    requires table { field file.now 4 32 + 40 * section_count file.now ≤ length file.now }
    requires within { i < section_count file.now }
    ensures { MatchBool result (IsBadSymbols file.now i) (¬ IsBadSymbols file.now i) }
{
    let symbols = section_header(file, i);
    if symbols.entry_size != 16 {
        return true;
    }
    if symbols.size % 16 != 0 {
        return true;
    }
    if (file.len() as u64) < symbols.offset as u64 + symbols.size as u64 {
        return true;
    }
    if half(file, 48) as u32 <= symbols.link {
        return true;
    }
    let names = section_header(file, symbols.link);
    if names.kind != NAMES {
        return true;
    }
    if (file.len() as u64) < names.offset as u64 + names.size as u64 {
        return true;
    }
    is_unnamed(file, marks, i)
}

/// Section `i` is a symbol table that is not as it has to be.
fn is_bad_section(file: &[u8], marks: &[usize], i: u32) -> bool
    requires order { 52 ≤ length file.now }
    requires marks { AreMarks file.now marks.now }
    requires table { field file.now 4 32 + 40 * section_count file.now ≤ length file.now }
    requires within { i < section_count file.now }
    ensures { MatchBool result (((section file.now i).kind ≡ 2) × IsBadSymbols file.now i)
        ((section file.now i).kind ≡ 2 → ¬ IsBadSymbols file.now i) }
{
    if section_header(file, i).kind != SYMBOLS {
        return false;
    }
    is_bad_table(file, marks, i)
}

/// A symbol table is not as it has to be, in a file with a table of sections.
fn has_bad_section(file: &[u8], marks: &[usize]) -> bool
    requires order { 52 ≤ length file.now }
    requires marks { AreMarks file.now marks.now }
    requires sections { HasSections file.now }
    requires entry { field file.now 2 46 ≡ 40 }
    requires table { field file.now 4 32 + 40 * section_count file.now ≤ length file.now }
    ensures { MatchBool result (FileFaultApplies file.now BadSymbolTable) (¬ FileFaultApplies file.now BadSymbolTable) }
{
    for i in 0..half(file, 48) as u32 {
        if is_bad_section(file, marks, i) {
            return true;
        }
    }
    false
}

/// The sections or a symbol table are not as they have to be. The error is want of memory.
pub(crate) fn has_bad_symbols(alloc: Global, file: &[u8]) -> Result<bool, AllocError>
    requires { 52 ≤ length file.now }
    ensures { IfOk result (λ bad. MatchBool bad (FileFaultApplies file.now BadSymbolTable) (¬ FileFaultApplies file.now BadSymbolTable)) }
{
    let count = half(file, 48);
    let start = word(file, 32);
    if start == 0 || count == 0 {
        return Ok(false);
    }
    if half(file, 46) != 40 {
        return Ok(true);
    }
    if (file.len() as u64) < start as u64 + 40 * count as u64 {
        return Ok(true);
    }
    let marks = nul_marks(alloc, file)?;
    let bad = has_bad_section(file, &marks);
    Ok(bad)
}

/// The bytes `name` stand in the file at `start`.
fn stands_at(file: &[u8], start: usize, name: &[u8]) -> bool
    requires { start + length name.now ≤ length file.now }
    ensures { MatchBool result (take (length name.now) (drop start file.now) ≡ name.now) (take (length name.now) (drop start file.now) ≢ name.now) }
{
    let text = &file[start..start + name.len()];
    text == name
}

/// The name at `at` in the table of names is `name`, which has no NUL.
fn name_is(file: &[u8], link: u32, names: &SectionHeader, at: u32, name: &[u8]) -> bool
    requires header { IsHeader file.now link names.now }
    requires room { names.now.offset + names.now.size ≤ length file.now }
    ensures { MatchBool result (IsName file.now (section file.now link) at name.now) (¬ IsName file.now (section file.now link) at name.now) }
{
    if at as usize + name.len() >= names.size as usize {
        return false;
    }
    let start = names.offset as usize + at as usize;
    if file[start + name.len()] != 0 {
        return false;
    }
    if !stands_at(file, start, name) {
        return false;
    }
    for byte in name {
        if *byte == 0 {
            return false;
        }
    }
    true
}

/// The unit of the addresses at which rows can stand.
fn unit(narrow: bool) -> u32
    ensures { result ≡ machine.unit narrow }
{
    if narrow { 2 } else { 4 }
}

/// The address of symbol `k` of section `i`, where it is the function `name`.
fn function_at(
    file: &[u8],
    i: u32,
    symbols: &SectionHeader,
    names: &SectionHeader,
    k: u32,
    name: &[u8],
    narrow: bool,
) -> Option<u32>
    requires order { 52 ≤ length file.now }
    requires header { IsHeader file.now i symbols.now }
    requires linked { IsHeader file.now symbols.now.link names.now }
    requires readable { IsReadable file.now i }
    requires within { 16 * k < symbols.now.size }
    ensures { MatchOption result ((a : ℕ) → ¬ IsFunctionSymbol narrow file.now i k name.now a) (IsFunctionSymbol narrow file.now i k name.now) }
{
    let at = symbols.offset as usize + 16 * k as usize;
    if file[at + 12] % 16 != FUNCTION {
        return None;
    }
    if half(file, at + 14) == 0 {
        return None;
    }
    let address = word(file, at + 4);
    if address % unit(narrow) != 0 {
        return None;
    }
    if !name_is(file, symbols.link, names, word(file, at), name) {
        return None;
    }
    Some(address)
}

/// The two least addresses, with one address more.
fn with_address(found: Found, a: u32) -> Found
    ensures { Adds found a result }
{
    match found {
        Found::Nothing => Found::One(a),
        Found::One(b) => {
            if a < b {
                return Found::Several(a, b);
            }
            if b < a {
                return Found::Several(b, a);
            }
            found
        }
        Found::Several(b, c) => {
            if a < b {
                return Found::Several(a, b);
            }
            if b < a && a < c {
                return Found::Several(b, a);
            }
            found
        }
    }
}

/// The two least addresses of the function, with symbol `k` of section `i`.
fn with_symbol(
    file: &[u8],
    i: u32,
    symbols: &SectionHeader,
    names: &SectionHeader,
    k: u32,
    name: &[u8],
    narrow: bool,
    found: Found,
) -> Found
    requires order { 52 ≤ length file.now }
    requires header { IsHeader file.now i symbols.now }
    requires linked { IsHeader file.now symbols.now.link names.now }
    requires readable { IsReadable file.now i }
    requires table { IsSymbols file.now i }
    requires within { 16 * k < symbols.now.size }
    requires least { IsLeast (IsSeen narrow file.now name.now i k) found }
    ensures { IsLeast (IsSeen narrow file.now name.now i (k + 1)) result }
{
    match function_at(file, i, symbols, names, k, name, narrow) {
        Some(a) => with_address(found, a),
        None => found,
    }
}

/// The two least addresses of the function, with the symbols of section `i`.
fn with_table(file: &[u8], i: u32, name: &[u8], narrow: bool, found: Found) -> Found
    requires order { 52 ≤ length file.now }
    requires table { field file.now 4 32 + 40 * section_count file.now ≤ length file.now }
    requires readable { IsReadable file.now i }
    requires symbols { IsSymbols file.now i }
    requires least { IsLeast (IsSeen narrow file.now name.now i 0) found }
    ensures { IsLeast (IsSeen narrow file.now name.now (i + 1) 0) result }
{
    let symbols = section_header(file, i);
    let names = section_header(file, symbols.link);
    let mut found = found;
    for k in 0..symbols.size / 16 {
        found = with_symbol(file, i, &symbols, &names, k, name, narrow, found);
    }
    found
}

/// The two least addresses of the function, with section `i`.
fn with_section(file: &[u8], i: u32, name: &[u8], narrow: bool, found: Found) -> Found
    requires order { 52 ≤ length file.now }
    requires accepted { ¬ FileFaultApplies file.now BadSymbolTable }
    requires sections { HasSections file.now }
    requires within { i < section_count file.now }
    requires least { IsLeast (IsSeen narrow file.now name.now i 0) found }
    ensures { IsLeast (IsSeen narrow file.now name.now (i + 1) 0) result }
{
    if section_header(file, i).kind != SYMBOLS {
        return found;
    }
    with_table(file, i, name, narrow, found)
}

/// The two least addresses of the function.
fn least_addresses(file: &[u8], name: &[u8], narrow: bool) -> Found
    requires order { 52 ≤ length file.now }
    requires accepted { ¬ FileFaultApplies file.now BadSymbolTable }
    ensures { IsLeast (IsFunction narrow file.now name.now) result }
{
    let count = half(file, 48);
    if word(file, 32) == 0 || count == 0 {
        return Found::Nothing;
    }
    let mut found = Found::Nothing;
    for i in 0..count as u32 {
        found = with_section(file, i, name, narrow, found);
    }
    found
}

/// The address of the function `name`, or why it has not one.
pub(crate) fn find_function(file: &[u8], name: &[u8], narrow: bool) -> Result<u32, SymFault>
    requires order { 52 ≤ length file.now }
    requires accepted { ¬ FileFaultApplies file.now BadSymbolTable }
    ensures { MatchResult result (Finds narrow file.now name.now) (IsMissed narrow file.now name.now) }
{
    match least_addresses(file, name, narrow) {
        Found::Nothing => Err(SymFault::NoFunction),
        Found::One(a) => Ok(a),
        Found::Several(a, b) => Err(SymFault::Ambiguous(a, b)),
    }
}
