//! The image of a file: what it loads, and where its functions are.
ghost use Rattle.std.specs.Prelude.{ℕ, ◌≡◌, ◌≤◌, ◌<◌, ◌+◌, ◌^◌, ◌&&◌, slice_index, IfOk, IfErr, OnOk, MatchOption, MatchResult, None};
ghost use Rattle.bilv_spec.specs.Elf.{field, is_big, loaded, byte_at, flags_at, kept_at, IsKeptRuns};
ghost use Rattle.bilv_spec.specs.ElfFaults.{IsImage, Finds, BadSymbolTable, FileFaultApplies};
ghost use Rattle.bilv_spec.specs.Files.{is_rv, order_of};
ghost use Rattle.word_spec.specs.Memory as memory;
ghost use Rattle.elf32_reader.specs.Refusals.{IsRefused, IsClear};
ghost use Rattle.elf32_reader.specs.Symbols.{IsMissed};
ghost use Rattle.elf32_reader.specs.Images.{IsTied};
ghost use Rattle.elf32_reader.specs.Portions.{IsFirstPart};

use crate::fault::ElfFault;
use crate::fields::half;
use crate::header::{RISC_V, check_header};
use crate::parts::{Part, first_part};
use crate::runs::{is_kept, kept_runs};
use crate::segments::{
    ProgramHeader, covering, overlaps, passes_file, passes_memory, sorted_segments,
};
use crate::symbols::{SymFault, find_function, has_bad_symbols};
use std::alloc::Global;
use std::marker::Model;

/// An ELF32 file that no fault refuses. In contracts it is the list of the file's bytes.
#[derive(Drop)]
pub struct Image<'a> {
    file: &'a [u8],
    found: Vec<ProgramHeader>,
    runs: Vec<(u32, u32)>,
}

impl<'a> Model for Image<'a> {
    ghost use Rattle.std.specs.Prelude.{ℕ, List};
    ghost use Rattle.elf32_reader.specs.Images.{IsRead};

    ghost Value = { List ℕ };

    ghost view = { λ i. i.file.now };

    ghost invariant = { λ i. IsRead i.file.now i.found.items i.runs.items };
}

/// The segments of a file whose header has no fault.
fn load_segments(alloc: Global, file: &[u8]) -> Result<Vec<ProgramHeader>, ElfFault>
    requires { IsClear file.now 8 }
    ensures tied { IfOk result (λ v. IsTied file.now v.items) }
    ensures clear { OnOk result (IsClear file.now 11) }
    ensures refused { IfErr result (IsRefused file.now) }
{
    if passes_memory(file) {
        return Err(ElfFault::SegmentRange);
    }
    if passes_file(file) {
        return Err(ElfFault::FileSize);
    }
    match sorted_segments(alloc, file) {
        Err(_) => Err(ElfFault::Memory),
        Ok(found) => {
            if overlaps(&found) {
                return Err(ElfFault::Overlap);
            }
            Ok(found)
        }
    }
}

/// The fault of the symbol tables, in a file of which no fault before it applies.
fn check_symbols(alloc: Global, file: &[u8]) -> Result<(), ElfFault>
    requires { IsClear file.now 11 }
    ensures clear { OnOk result (¬ FileFaultApplies file.now BadSymbolTable) }
    ensures refused { IfErr result (IsRefused file.now) }
{
    match has_bad_symbols(alloc, file) {
        Err(_) => Err(ElfFault::Memory),
        Ok(true) => Err(ElfFault::SymbolTable),
        Ok(false) => Ok(()),
    }
}

/// Reads a file (System V ABI, object files and program loading). The image borrows the file's bytes; memory is
/// taken for its loaded segments and its kept runs, and, while it is read, one number for each 4,096 bytes of the file.
///
/// # Errors
///
/// The first fault of the file in the order of [`ElfFault`], or `Memory` where memory ran out.
pub fn read_image<'a>(alloc: Global, bytes: &'a [u8]) -> Result<Image<'a>, ElfFault>
    ensures accepted { OnOk result (IsImage bytes.now) }
    ensures image { IfOk result (λ i. i ≡ bytes.now) }
    ensures refused { IfErr result (IsRefused bytes.now) }
{
    check_header(bytes)?;
    let found = load_segments(alloc, bytes)?;
    check_symbols(alloc, bytes)?;
    match kept_runs(alloc, &found) {
        Err(_) => Err(ElfFault::Memory),
        Ok(runs) => Ok(Image {
            file: bytes,
            found,
            runs,
        }),
    }
}

/// The byte that segments load at an address.
fn byte_of(file: &[u8], found: &[ProgramHeader], a: u32) -> Option<u8>
    requires { IsTied file.now found.now }
    ensures { result ≡ byte_at file.now a }
{
    match covering(found, a) {
        None => None,
        Some(h) => {
            let at = a - h.address;
            if at < h.in_file {
                return Some(file[h.offset as usize + at as usize]);
            }
            Some(0)
        }
    }
}

/// The flags of the segment that is loaded at an address, else 0.
fn flags_of(file: &[u8], found: &[ProgramHeader], a: u32) -> u32
    requires { IsTied file.now found.now }
    ensures { result ≡ flags_at file.now a }
{
    match covering(found, a) {
        None => 0,
        Some(h) => h.flags,
    }
}

/// The byte at an address is loaded and no run changes it.
fn kept_of(file: &[u8], found: &[ProgramHeader], a: u32) -> bool
    requires { IsTied file.now found.now }
    ensures { result ≡ kept_at file.now a }
{
    match covering(found, a) {
        None => false,
        Some(h) => is_kept(h.flags),
    }
}

/// Segments end at or before 2^32.
fn ends_of(file: &[u8], found: &[ProgramHeader])
    requires { IsTied file.now found.now }
    ensures { (x : ℕ) → 2 ^ 32 ≤ x → loaded file.now x ≡ None }
{}

/// Bytes are below 256.
fn bytes_of(file: &[u8])
    ensures { (i : ℕ) → slice_index file.now i < 256 }
{}

impl<'a> Image<'a> {
    /// The file's bytes are below 256.
    pub fn bytes(&self)
        ensures { (i : ℕ) → slice_index self.now i < 256 }
    {
        bytes_of(self.file);
    }

    /// No byte is loaded from 2^32 on.
    pub fn ends(&self)
        ensures { (x : ℕ) → 2 ^ 32 ≤ x → loaded self.now x ≡ None }
    {
        ends_of(self.file, &self.found);
    }

    /// The byte that is loaded at an address.
    pub fn byte(&self, a: u32) -> Option<u8>
        ensures { result ≡ byte_at self.now a }
    {
        byte_of(self.file, &self.found, a)
    }

    /// The flags of the segment at an address: X is 1, W is 2, R is 4; 0 where no byte is loaded.
    pub fn flags(&self, a: u32) -> u32
        ensures { result ≡ flags_at self.now a }
    {
        flags_of(self.file, &self.found, a)
    }

    /// The byte at an address is loaded, and is executable or not writable.
    pub fn kept(&self, a: u32) -> bool
        ensures { result ≡ kept_at self.now a }
    {
        kept_of(self.file, &self.found, a)
    }

    /// The first loaded addresses of one segment from an address on, up to the segment's last, with the bytes that the file has for them; none where no address
    /// from there on is loaded. Each call takes one search, however many addresses the part has.
    pub fn part_from(&self, a: u32) -> Option<Part<'a>>
        ensures { MatchOption result ((x : ℕ) → a ≤ x → loaded self.now x ≡ None) (IsFirstPart self.now a) }
    {
        first_part(self.file, &self.found, a)
    }

    /// The maximal runs of kept addresses, rising: the first and the last address of each.
    pub fn kept_runs(&self) -> &[(u32, u32)]
        ensures { IsKeptRuns self.now result.now }
    {
        &self.runs
    }

    /// The machine: 40 is ARM, 243 is RISC-V.
    pub fn machine(&self) -> u16
        ensures { result ≡ field self.now 2 18 }
    {
        half(self.file, 18)
    }

    /// The machine is RISC-V.
    pub fn is_risc_v(&self) -> bool
        ensures { result ≡ is_rv self.now }
    {
        self.machine() == RISC_V
    }

    /// The byte order of the file's numbers is big.
    pub fn big(&self) -> bool
        ensures { result ≡ is_big self.now }
    {
        self.file[5] == 2
    }

    /// The byte order of the file's machine is big, whatever its profile: that of RISC-V is little, that of ARM is the order of the file's numbers.
    pub fn is_big_machine(&self) -> bool
        ensures { memory.endian result ≡ order_of self.now }
    {
        if self.is_risc_v() {
            return false;
        }
        self.big()
    }

    /// The address of the function of this name: a symbol of STT_FUNC that is defined in a section and has a value at which a row can stand (System V ABI,
    /// object files: symbol table). That is a multiple of 4, or of 2 in a RISC-V file with compressed instructions, which `rvc` says that it has; it changes
    /// nothing of other files.
    ///
    /// # Errors
    ///
    /// `NoFunction` where there is none, and `Ambiguous` where there are several addresses.
    pub fn function(&self, name: &str, rvc: bool) -> Result<u32, SymFault>
        ensures { MatchResult result (Finds (is_rv self.now && rvc) self.now name.now) (IsMissed (is_rv self.now && rvc) self.now name.now) }
    {
        self.function_named(name.as_bytes(), self.is_risc_v() && rvc)
    }

    /// The same for a name that is given as bytes, with rows of 2 bytes or without them.
    ///
    /// # Errors
    ///
    /// As those of [`Image::function`].
    pub fn function_named(&self, name: &[u8], narrow: bool) -> Result<u32, SymFault>
        ensures { MatchResult result (Finds narrow self.now name.now) (IsMissed narrow self.now name.now) }
    {
        find_function(self.file, name, narrow)
    }
}
