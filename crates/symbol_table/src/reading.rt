//! Reads the symbols of a file.
ghost use Rattle.std.specs.Prelude.{◌≡◌, ◌≢◌, ◌≤◌, ◌<◌, ◌+◌, ◌*◌, ◌/◌, ◌++◌, if◌then◌else◌, [], ◌∷◌, IfOk, IfErr, OnOk, length, min, drop};
ghost use Rattle.bilv_spec.specs.Elf.{field};
ghost use Rattle.bilv_spec.specs.ElfFaults.{section, section_count, BadSymbolTable, FileFaultApplies, HasSections, IsImage};
ghost use Rattle.elf32_reader.specs.Refusals.{IsRefused};
ghost use Rattle.symbol_table.specs.Symbols.{entry, is_listed, sections_to, symbol_at, symbols_in, symbols_of, symbols_to};
ghost use Rattle.symbol_table.specs.Views.{symbol_of, table_of};

use crate::fields::{half, word};
use crate::symbol::Symbol;
use crate::table::SymbolTable;
use elf32_reader::{ElfFault, read_image};
use std::alloc::{AllocError, Global};

/// SHT_SYMTAB.
const SYMBOLS: u32 = 2;

/// The parts of a section header that are read.
#[derive(Clone, Copy)]
struct SectionHeader {
    kind: u32,
    offset: u32,
    size: u32,
    link: u32,
}

/// The header of section `i`.
fn section_header(file: &[u8], i: u32) -> SectionHeader
    requires order { 52 ≤ length file.now }
    requires table { field file.now 4 32 + 40 * section_count file.now ≤ length file.now }
    requires within { i < section_count file.now }
    ensures kind { result.kind ≡ (section file.now i).kind }
    ensures offset { result.offset ≡ (section file.now i).offset }
    ensures size { result.size ≡ (section file.now i).size }
    ensures link { result.link ≡ (section file.now i).link }
{
    let at = word(file, 32) as usize + 40 * i as usize;
    SectionHeader {
        kind: word(file, at + 4),
        offset: word(file, at + 16),
        size: word(file, at + 20),
        link: word(file, at + 24),
    }
}

/// Whether the entry at an offset is a defined symbol of no type, of data or of a function.
fn is_listed(file: &[u8], at: usize) -> bool
    requires order { 6 ≤ length file.now }
    requires room { at + 16 ≤ length file.now }
    ensures { result ≡ is_listed file.now at }
{
    file[at + 12] % 16 < 3 && half(file, at + 14) != 0
}

/// The symbol of the entry at an offset, with its name in the table of names at another.
fn symbol_at<'a>(file: &'a [u8], names: u32, at: usize) -> Symbol<'a>
    requires order { 6 ≤ length file.now }
    requires room { at + 16 ≤ length file.now }
    ensures { symbol_of result ≡ symbol_at file.now names at }
{
    let start = (names as usize + word(file, at) as usize).min(file.len());
    Symbol {
        text: &file[start..],
        value: word(file, at + 4),
        size: word(file, at + 8),
    }
}

/// Appends the symbol of an entry, if it is listed.
fn push_entry<'a>(
    out: &mut Vec<Symbol<'a>>,
    file: &'a [u8],
    names: u32,
    at: usize,
) -> Result<(), AllocError>
    requires order { 6 ≤ length file.now }
    requires room { at + 16 ≤ length file.now }
    ensures { OnOk result (table_of out.new.items ≡ table_of out.old.items ++ entry file.now names at) }
{
    if !is_listed(file, at) {
        return Ok(());
    }
    out.push(symbol_at(file, names, at))?;
    Ok(())
}

/// Appends the symbols of the first `count` entries of a table.
fn push_entries<'a>(
    out: &mut Vec<Symbol<'a>>,
    file: &'a [u8],
    names: u32,
    start: u32,
    count: u32,
) -> Result<(), AllocError>
    requires order { 6 ≤ length file.now }
    requires room { start + 16 * count ≤ length file.now }
    ensures { OnOk result (table_of out.new.items ≡ table_of out.old.items ++ symbols_to file.now names start count) }
{
    for k in 0..count {
        push_entry(out, file, names, start as usize + 16 * k as usize)?;
    }
    Ok(())
}

/// Appends the symbols of section `i`.
fn push_section<'a>(out: &mut Vec<Symbol<'a>>, file: &'a [u8], i: u32) -> Result<(), AllocError>
    requires order { 52 ≤ length file.now }
    requires accepted { ¬ FileFaultApplies file.now BadSymbolTable }
    requires sections { HasSections file.now }
    requires within { i < section_count file.now }
    ensures { OnOk result (table_of out.new.items ≡ table_of out.old.items ++ symbols_in file.now (section file.now i)) }
{
    let symbols = section_header(file, i);
    if symbols.kind != SYMBOLS {
        return Ok(());
    }
    let names = section_header(file, symbols.link);
    push_entries(out, file, names.offset, symbols.offset, symbols.size / 16)?;
    Ok(())
}

/// The symbols of a file whose sections and symbol tables are as they have to be.
fn all_symbols<'a>(alloc: Global, file: &'a [u8]) -> Result<Vec<Symbol<'a>>, AllocError>
    requires order { 52 ≤ length file.now }
    requires accepted { ¬ FileFaultApplies file.now BadSymbolTable }
    ensures { IfOk result (λ v. table_of v.items ≡ symbols_of file.now) }
{
    let mut out = Vec::new(alloc);
    if word(file, 32) == 0 {
        return Ok(out);
    }
    for i in 0..half(file, 48) as u32 {
        push_section(&mut out, file, i)?;
    }
    Ok(out)
}

/// The symbols of the symbol tables of an ELF32 file that [`elf32_reader::read_image`] takes, in the file's order: those of no type, of data and of functions
/// that are defined (System V ABI, object files: symbol table). A file without sections or without a symbol table has none. The table borrows the file's
/// bytes; memory is taken for the symbols, and for a while for what `read_image` takes.
///
/// # Errors
///
/// The first fault of the file in the order of [`ElfFault`], or `Memory` where memory ran out.
pub fn read_symbols<'a>(alloc: Global, file: &'a [u8]) -> Result<SymbolTable<'a>, ElfFault>
    ensures accepted { OnOk result (IsImage file.now) }
    ensures table { IfOk result (λ t. t ≡ symbols_of file.now) }
    ensures refused { IfErr result (IsRefused file.now) }
{
    let _image = read_image(alloc, file)?;
    match all_symbols(alloc, file) {
        Err(_) => Err(ElfFault::Memory),
        Ok(symbols) => Ok(SymbolTable { symbols }),
    }
}
