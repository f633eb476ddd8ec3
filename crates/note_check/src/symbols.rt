//! The symbol tables of a file (System V ABI, object files: sections, symbol table).
ghost use Rattle.std.specs.Prelude.{ℕ, ◌≡◌, ◌≤◌, ◌<◌, ◌+◌, ◌*◌, ◌≢◌, length, take, drop, slice_index};
ghost use Rattle.std.specs.Bool.{MatchBool};
ghost use Rattle.bilv_spec.specs.Elf.{field};
ghost use Rattle.bilv_spec.specs.ElfFaults.{section, section_count, HasSections, IsImage, IsName, IsSymbols};
ghost use Rattle.bilv_spec.specs.Files.{is_rv};
ghost use Rattle.notes_value.specs.NoteViews.{function_of};
ghost use Rattle.note_check.specs.Options.{symbol_place, IsSymbolOf, IsThumb, IsThumbSymbol, LacksSymbols};

use crate::fields::{half, word};
use notes_value::Function;

/// SHT_SYMTAB.
const SYMBOLS: u32 = 2;
/// STT_FUNC.
const FUNCTION: u8 = 2;
/// What e_machine is for RISC-V.
const RISC_V: u16 = 243;

/// The parts of a section header that are read.
#[derive(Clone, Copy)]
struct Table {
    offset: u32,
    size: u32,
    link: u32,
}

/// The file is for RISC-V.
pub(crate) fn is_risc_v(file: &[u8]) -> bool
    requires { IsImage file.now }
    ensures { result ≡ is_rv file.now }
{
    half(file, 18) == RISC_V
}

/// How many sections a file has; none where it has no table of sections.
fn table_count(file: &[u8]) -> u16
    requires { IsImage file.now }
    ensures sections { 0 < result → HasSections file.now }
    ensures count { result ≤ section_count file.now }
    ensures all { HasSections file.now → result ≡ section_count file.now }
{
    if word(file, 32) == 0 {
        return 0;
    }
    half(file, 48)
}

/// Where the header of section `i` stands.
fn section_place(file: &[u8], i: u32) -> usize
    requires accepted { IsImage file.now }
    requires sections { HasSections file.now }
    requires within { i < section_count file.now }
    ensures place { result ≡ field file.now 4 32 + 40 * i }
    ensures room { result + 40 ≤ length file.now }
    ensures order { 52 ≤ length file.now }
{
    word(file, 32) as usize + 40 * i as usize
}

/// Section `i` is a symbol table.
fn is_symbols(file: &[u8], i: u32) -> bool
    requires accepted { IsImage file.now }
    requires sections { HasSections file.now }
    requires within { i < section_count file.now }
    ensures { MatchBool result (IsSymbols file.now i) (¬ IsSymbols file.now i) }
{
    word(file, section_place(file, i) + 4) == SYMBOLS
}

/// The parts of the header of section `i`.
fn table_at(file: &[u8], i: u32) -> Table
    requires accepted { IsImage file.now }
    requires sections { HasSections file.now }
    requires within { i < section_count file.now }
    ensures offset { result.offset ≡ (section file.now i).offset }
    ensures size { result.size ≡ (section file.now i).size }
    ensures link { result.link ≡ (section file.now i).link }
{
    let at = section_place(file, i);
    Table {
        offset: word(file, at + 16),
        size: word(file, at + 20),
        link: word(file, at + 24),
    }
}

/// A file has a symbol table.
fn has_symbols(file: &[u8]) -> bool
    requires { IsImage file.now }
    ensures { MatchBool result ((i : ℕ) × IsSymbols file.now i) ((i : ℕ) → ¬ IsSymbols file.now i) }
{
    for i in 0..table_count(file) {
        if is_symbols(file, i as u32) {
            return true;
        }
    }
    false
}

/// A function is named by a symbol, and the file has no symbol table.
pub(crate) fn lacks_symbols(file: &[u8], function: &Function) -> bool
    requires { IsImage file.now }
    ensures { MatchBool result (LacksSymbols file.now (function_of function.now)) (¬ LacksSymbols file.now (function_of function.now)) }
{
    match function {
        Function::At(_) => false,
        Function::Named(_) => !has_symbols(file),
    }
}

/// The bytes `name` stand in the file at `start`.
fn stands_at(file: &[u8], start: usize, name: &[u8]) -> bool
    requires { start + length name.now ≤ length file.now }
    ensures { MatchBool result (take (length name.now) (drop start file.now) ≡ name.now) (take (length name.now) (drop start file.now) ≢ name.now) }
{
    let text = &file[start..start + name.len()];
    text == name
}

/// No byte is a NUL.
fn has_no_nul(name: &[u8]) -> bool
    ensures { MatchBool result ((i : ℕ) → i < length name.now → slice_index name.now i ≢ 0)
        (¬ ((i : ℕ) → i < length name.now → slice_index name.now i ≢ 0)) }
{
    for byte in name {
        if *byte == 0 {
            return false;
        }
    }
    true
}

/// The name at `at` in the table of names of section `link` is `name`.
fn name_is(file: &[u8], link: u32, at: u32, name: &[u8]) -> bool
    requires accepted { IsImage file.now }
    requires sections { HasSections file.now }
    requires within { link < section_count file.now }
    requires room { (section file.now link).offset + (section file.now link).size ≤ length file.now }
    ensures { MatchBool result (IsName file.now (section file.now link) at name.now) (¬ IsName file.now (section file.now link) at name.now) }
{
    let names = table_at(file, link);
    if at as usize + name.len() >= names.size as usize {
        return false;
    }
    let start = names.offset as usize + at as usize;
    if file[start + name.len()] != 0 {
        return false;
    }
    if !stands_at(file, start, name) {
        return false;
    }
    has_no_nul(name)
}

/// The symbol at a place in section `i` is that of a function.
fn is_of(file: &[u8], i: u32, place: usize, function: &Function) -> bool
    requires accepted { IsImage file.now }
    requires table { IsSymbols file.now i }
    requires room { place + 16 ≤ length file.now }
    ensures { MatchBool result (IsSymbolOf file.now (function_of function.now) i place) (¬ IsSymbolOf file.now (function_of function.now) i place) }
{
    match function {
        Function::At(a) => word(file, place + 4) as u64 == *a as u64 + 1,
        Function::Named(name) => {
            let link = table_at(file, i).link;
            name_is(file, link, word(file, place), name)
        }
    }
}

/// Where symbol `k` of section `i` stands.
fn symbol_place(file: &[u8], i: u32, k: u32) -> usize
    requires accepted { IsImage file.now }
    requires table { IsSymbols file.now i }
    requires within { 16 * k < (section file.now i).size }
    ensures place { result ≡ symbol_place file.now i k }
    ensures room { result + 16 ≤ length file.now }
    ensures order { 52 ≤ length file.now }
{
    table_at(file, i).offset as usize + 16 * k as usize
}

/// Symbol `k` of section `i` says that a function is Thumb code.
fn is_thumb_symbol(file: &[u8], i: u32, k: u32, function: &Function) -> bool
    requires accepted { IsImage file.now }
    requires table { IsSymbols file.now i }
    requires within { 16 * k < (section file.now i).size }
    ensures { MatchBool result (IsThumbSymbol file.now (function_of function.now) i k) (¬ IsThumbSymbol file.now (function_of function.now) i k) }
{
    let place = symbol_place(file, i, k);
    if file[place + 12] % 16 != FUNCTION {
        return false;
    }
    if half(file, place + 14) == 0 {
        return false;
    }
    if word(file, place + 4) % 2 == 0 {
        return false;
    }
    is_of(file, i, place, function)
}

/// A symbol of section `i` says so.
fn has_thumb_symbol(file: &[u8], i: u32, function: &Function) -> bool
    requires accepted { IsImage file.now }
    requires table { IsSymbols file.now i }
    ensures { MatchBool result ((k : ℕ) × IsThumbSymbol file.now (function_of function.now) i k)
        ((k : ℕ) → ¬ IsThumbSymbol file.now (function_of function.now) i k) }
{
    for k in 0..table_at(file, i).size / 16 {
        if is_thumb_symbol(file, i, k, function) {
            return true;
        }
    }
    false
}

/// Section `i` is a symbol table, and a symbol of it says so.
fn section_has_thumb(file: &[u8], i: u32, function: &Function) -> bool
    requires accepted { IsImage file.now }
    requires sections { HasSections file.now }
    requires within { i < section_count file.now }
    ensures { MatchBool result ((k : ℕ) × IsThumbSymbol file.now (function_of function.now) i k)
        ((k : ℕ) → ¬ IsThumbSymbol file.now (function_of function.now) i k) }
{
    if !is_symbols(file, i) {
        return false;
    }
    has_thumb_symbol(file, i, function)
}

/// Some symbol says so.
fn says_thumb(file: &[u8], function: &Function) -> bool
    requires { IsImage file.now }
    ensures { MatchBool result ((i : ℕ) × ((k : ℕ) × IsThumbSymbol file.now (function_of function.now) i k))
        ((i k : ℕ) → ¬ IsThumbSymbol file.now (function_of function.now) i k) }
{
    for i in 0..table_count(file) {
        if section_has_thumb(file, i as u32, function) {
            return true;
        }
    }
    false
}

/// A function is Thumb code of an ARM file.
pub(crate) fn is_thumb(file: &[u8], function: &Function) -> bool
    requires { IsImage file.now }
    ensures { MatchBool result (IsThumb file.now (function_of function.now)) (¬ IsThumb file.now (function_of function.now)) }
{
    if is_risc_v(file) {
        return false;
    }
    says_thumb(file, function)
}
