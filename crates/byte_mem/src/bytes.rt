//! A memory that keeps the bytes that are not 0.
ghost use Rattle.std.specs.Prelude.{◌≡◌, ℕ, ◌≤◌, ◌<◌, ◌+◌, ◌*◌, ◌^◌, true, false, [], length, get_or, OnOk, OnErr, IfOk};
ghost use Rattle.word_spec.specs.Memory as memory;
ghost use Rattle.word_spec.specs.Memory.{byte_in};
ghost use Rattle.word_spec.specs.Words.{add};
ghost use Rattle.byte_mem.specs.Gaps.{entries_of, HasRoom, IsStored};
ghost use Rattle.byte_mem.specs.Kept.{Contents, IsKept, IsRising};
ghost use Rattle.byte_mem.specs.Laws.{OneList};
ghost use Rattle.byte_mem.specs.Puts.{IsAt, IsMemory, IsPut, PutsTo};
ghost use Rattle.byte_mem.specs.Views.{endian_of};

use crate::Endian;
use crate::gapped::{Gapped, copied, count, entry, insert, listed, make_room, remove, replace};
use bv_word::Word;
use std::alloc::{AllocError, Global};
use std::marker::Model;

/// A byte at each address of 32 bits. Bytes that were never stored are 0. A store moves the gap from the place of the one before, so that stores that go on
/// upwards or downwards move few entries; one that changes a byte that is not 0 into another moves none.
#[derive(Drop)]
pub struct Bytes32 {
    entries: Gapped,
    /// How many more entries fit in.
    room: usize,
}

impl Model for Bytes32 {
    ghost Value = { Contents };

    ghost view = { λ s. record { entries = entries_of s.entries; spare = s.room } };

    ghost invariant = { λ s. IsStored s.entries s.room };
}

/// The place of the first entry whose address is not below this one.
fn place(g: &Gapped, address: u32) -> usize
    requires room { HasRoom g.now 0 }
    requires rising { IsRising (entries_of g.now) }
    ensures within { result ≤ length (entries_of g.now) }
    ensures below { (i : ℕ) (d : ℕ × ℕ) → i < result → (get_or (entries_of g.now) i d).0 < address }
    ensures from { (i : ℕ) (d : ℕ × ℕ) → result ≤ i → i < length (entries_of g.now) → address ≤ (get_or (entries_of g.now) i d).0 }
{
    let mut low = 0usize;
    let mut high = count(g);
    while low < high {
        let middle = low + (high - low) / 2;
        let at = entry(g, middle).0;
        if at < address {
            low = middle + 1;
        } else {
            high = middle;
        }
    }
    low
}

/// Whether the entry of an address stands at a place.
fn is_at(g: &Gapped, i: usize, address: u32) -> bool
    requires { HasRoom g.now 0 }
    ensures at { result ≡ true → IsAt (entries_of g.now) i address }
    ensures away { result ≡ false → ¬ IsAt (entries_of g.now) i address }
{
    if i >= count(g) {
        return false;
    }
    entry(g, i).0 == address
}

/// The byte that the entries have at an address.
fn byte(g: &Gapped, address: u32) -> u8
    requires room { HasRoom g.now 0 }
    requires rising { IsRising (entries_of g.now) }
    ensures { result ≡ byte_in (entries_of g.now) address }
{
    let i = place(g, address);
    if !is_at(g, i, address) {
        return 0;
    }
    entry(g, i).1
}

/// Writes a byte.
fn put(g: &mut Gapped, address: u32, byte: u8)
    requires memory { IsMemory (entries_of g.old) }
    requires room { HasRoom g.old 1 }
    ensures puts { IsPut (entries_of g.old) address byte (entries_of g.new) }
    ensures memory { IsMemory (entries_of g.new) }
    ensures room { (n : ℕ) → HasRoom g.old (n + 1) → HasRoom g.new n }
{
    let i = place(g, address);
    if is_at(g, i, address) {
        if byte == 0 {
            remove(g, i);
            return;
        }
        replace(g, i, (address, byte));
        return;
    }
    if byte == 0 {
        return;
    }
    insert(g, i, (address, byte));
}

/// Writes bytes from an address on. Their addresses wrap.
fn put_bytes(g: &mut Gapped, first: u32, bytes: &[u8])
    requires memory { IsMemory (entries_of g.old) }
    requires room { HasRoom g.old (length bytes.now) }
    requires few { length bytes.now ≤ 2 ^ 32 }
    ensures puts { PutsTo (entries_of g.old) first bytes.now (length bytes.now) (entries_of g.new) }
    ensures memory { IsMemory (entries_of g.new) }
    ensures room { (n : ℕ) → HasRoom g.old (n + length bytes.now) → HasRoom g.new n }
{
    for i in 0..bytes.len() {
        put(g, first.wrapping_add(i as u32), bytes[i]);
    }
}

/// Writes the `n` bytes of a number at an address.
fn put_number(g: &mut Gapped, first: u32, n: u8, endian: Endian, number: u64)
    requires memory { IsMemory (entries_of g.old) }
    requires room { HasRoom g.old n }
    requires few { n ≤ 8 }
    ensures stores { memory.memory_of (entries_of g.new) ≡ memory.store (endian_of endian) n (memory.memory_of (entries_of g.old)) first number }
    ensures memory { IsMemory (entries_of g.new) }
    ensures room { (m : ℕ) → HasRoom g.old (m + n) → HasRoom g.new m }
{
    match endian {
        Endian::Little => put_bytes(g, first, &number.to_le_bytes()[..n as usize]),
        Endian::Big => put_bytes(g, first, &number.to_be_bytes()[8 - n as usize..]),
    }
}

/// The byte that many addresses behind one. Addresses wrap.
fn byte_behind(g: &Gapped, first: u32, i: u8) -> u8
    requires room { HasRoom g.now 0 }
    requires rising { IsRising (entries_of g.now) }
    ensures { result ≡ memory.memory_of (entries_of g.now) (add 32 first i) }
{
    byte(g, first.wrapping_add(i as u32))
}

/// The number of `n` bytes from an address on, the first the lowest.
#[tactic(auto, using(crate::proofs::Numbers::next_power, crate::proofs::Numbers::low_power))]
fn lowest_first(g: &Gapped, first: u32, n: u8) -> u64
    requires room { HasRoom g.now 0 }
    requires rising { IsRising (entries_of g.now) }
    requires few { n ≤ 8 }
    ensures number { result ≡ memory.little n (λ i. memory.memory_of (entries_of g.now) (add 32 first i)) }
    ensures below { result < 256 ^ n }
{
    let mut number = 0u64;
    for i in (0..n).rev() {
        number = number * 256 + byte_behind(g, first, i) as u64;
    }
    number
}

/// The number of `n` bytes from an address on, the first the highest.
#[tactic(auto, using(crate::proofs::Numbers::next_power, crate::proofs::Numbers::low_power))]
fn highest_first(g: &Gapped, first: u32, n: u8) -> u64
    requires room { HasRoom g.now 0 }
    requires rising { IsRising (entries_of g.now) }
    requires few { n ≤ 8 }
    ensures number { result ≡ memory.big n (λ i. memory.memory_of (entries_of g.now) (add 32 first i)) }
    ensures below { result < 256 ^ n }
{
    let mut number = 0u64;
    for i in 0..n {
        number = number * 256 + byte_behind(g, first, i) as u64;
    }
    number
}

/// The number of `n` bytes at an address.
fn get_number(g: &Gapped, first: u32, n: u8, endian: Endian) -> u64
    requires room { HasRoom g.now 0 }
    requires rising { IsRising (entries_of g.now) }
    requires few { n ≤ 8 }
    ensures number { result ≡ memory.load (endian_of endian) n (memory.memory_of (entries_of g.now)) first }
    ensures below { result < 256 ^ n }
{
    match endian {
        Endian::Little => lowest_first(g, first, n),
        Endian::Big => highest_first(g, first, n),
    }
}

impl Bytes32 {
    /// A memory of zeros. It takes no memory of the machine that runs this.
    pub fn new(alloc: Global) -> Bytes32
        ensures { result.entries ≡ [] }
    {
        Bytes32 {
            entries: Gapped {
                below: Vec::new(alloc),
                above: Vec::new(alloc),
            },
            room: 0,
        }
    }

    /// The number of `n` bytes at an address, 1 to 8 of them; addresses wrap.
    #[tactic(auto, using(crate::proofs::Numbers::power))]
    pub fn load(&self, a: u32, n: u8, endian: Endian) -> Word
        requires some { 1 ≤ n }
        requires few { n ≤ 8 }
        ensures width { result.width ≡ 8 * n }
        ensures bits { result.bits ≡ memory.load (endian_of endian) n (memory.memory_of self.now.entries) a }
    {
        Word::new(8 * n, get_number(&self.entries, a, n, endian))
    }

    /// Stores the `n` bytes of a word at an address, 1 to 8 of them; addresses wrap. The error is want of memory, and nothing has changed.
    pub fn store(&mut self, a: u32, n: u8, endian: Endian, v: Word) -> Result<(), AllocError>
        requires some { 1 ≤ n }
        requires few { n ≤ 8 }
        requires width { v.width ≡ 8 * n }
        ensures ok { OnOk result (memory.memory_of self.new.entries ≡ memory.store (endian_of endian) n (memory.memory_of self.old.entries) a v.bits) }
        ensures spare { OnOk result (self.old.spare ≤ self.new.spare + n) }
        ensures err { OnErr result (self.new ≡ self.old) }
    {
        self.reserve(n as usize)?;
        self.store_reserved(a, n, endian, v);
        Ok(())
    }

    /// Makes room for `n` more bytes. The error is want of memory, and nothing has changed.
    pub fn reserve(&mut self, n: usize) -> Result<(), AllocError>
        ensures entries { OnOk result (self.new.entries ≡ self.old.entries) }
        ensures room { OnOk result (n ≤ self.new.spare) }
        ensures spare { OnOk result (self.old.spare ≤ self.new.spare) }
        ensures err { OnErr result (self.new ≡ self.old) }
    {
        if n <= self.room {
            return Ok(());
        }
        make_room(&mut self.entries, n)?;
        self.room = n;
        Ok(())
    }

    /// `store` where there is room for the bytes: it takes no memory and cannot fail.
    pub fn store_reserved(&mut self, a: u32, n: u8, endian: Endian, v: Word)
        requires some { 1 ≤ n }
        requires few { n ≤ 8 }
        requires width { v.width ≡ 8 * n }
        requires room { n ≤ self.old.spare }
        ensures memory { memory.memory_of self.new.entries ≡ memory.store (endian_of endian) n (memory.memory_of self.old.entries) a v.bits }
        ensures spare { self.old.spare ≤ self.new.spare + n }
    {
        put_number(&mut self.entries, a, n, endian, v.bits);
        self.room -= n as usize;
    }

    /// The bytes that are not 0 with their addresses, which rise. Equal memories have equal entries. The error is want of memory.
    pub fn entries(&self, alloc: Global) -> Result<Vec<(u32, u8)>, AllocError>
        ensures entries { IfOk result (λ v. v.items ≡ self.now.entries) }
        ensures kept { IsKept self.now.entries }
    {
        let entries = listed(alloc, &self.entries)?;
        Ok(entries)
    }

    /// Each byte is below 256. The call has no other effect.
    pub fn bytes_fit(&self)
        ensures { (a : ℕ) → memory.memory_of self.now.entries a < 256 }
    {
        let _ = &self.entries;
    }

    /// A memory with the same bytes. The error is want of memory.
    pub fn copy(&self, alloc: Global) -> Result<Bytes32, AllocError>
        ensures { IfOk result (λ copy. copy.entries ≡ self.now.entries) }
    {
        let entries = copied(alloc, &self.entries)?;
        Ok(Bytes32 { entries, room: 0 })
    }
}

/// Kept lists with equal memories are equal.
pub fn one_list()
    ensures { OneList }
{}
