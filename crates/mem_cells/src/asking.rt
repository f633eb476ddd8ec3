//! Which bytes of the file the base reads have.

ghost use Rattle.std.specs.Prelude.{◌≡◌, ℕ, ◌+◌, ◌*◌, ◌<◌, ◌++◌, true, false, [], length, take, IfOk, OnOk};
ghost use Rattle.term_spec.specs.Terms.{TermReading, term_word};
ghost use Rattle.mem_cells.specs.Building.{read_places, IsBuilt, Grown, IsWord};
ghost use Rattle.mem_cells.specs.Parts.{lists_of, one_if, KeepsParts};
ghost use Rattle.mem_cells.specs.Asked.{asked_of_parts, file_byte_at, is_of_part, parts_asked, AreAsked, AskedOf, AskedTo};

use crate::building::Build;
use crate::cells::AskedByte;
use crate::file_bytes::FileByte;
use bil_ast::BinaryOp;
use std::alloc::{AllocError, Global};
use term_dag::{Dag, Node, Term};

/// Whether a term is the constant 0.
fn is_zero(dag: &Dag, term: Term) -> bool
    requires { term.0 < length dag.now }
    ensures { result ≡ true → (x : TermReading) → term_word x dag.now term.0 ≡ 0 }
{
    match dag.constant(term) {
        Some(value) => value == 0,
        None => false,
    }
}

/// Whether a byte is asked of the memory of a part: of the entry's, of the head's if it is kept, and of what is given never.
fn is_of_part(byte: FileByte, part: u32) -> bool
    ensures { result ≡ is_of_part byte part }
{
    match part {
        0 => true,
        1 => byte.head,
        _ => false,
    }
}

/// Whether a byte is asked of one of some parts.
fn is_asked_of(parts: &[u32], byte: FileByte) -> bool
    ensures { result ≡ false → parts_asked parts.now byte ≡ [] }
{
    for place in 0..parts.len() {
        let part = parts[place];
        if is_of_part(byte, part) {
            return true;
        }
    }
    false
}

/// One more byte, if it is asked.
fn and_asked(asked: &mut Vec<AskedByte>, is_asked: bool, byte: AskedByte) -> Result<(), AllocError>
    ensures { OnOk result (asked.new.items ≡ asked.old.items ++ one_if is_asked byte) }
{
    if is_asked {
        asked.push(byte)?;
        return Ok(());
    }
    Ok(())
}

/// Says for each part of which a byte is asked that a read has it where a bit is 1.
fn ask_parts(
    asked: &mut Vec<AskedByte>,
    parts: &[u32],
    byte: FileByte,
    condition: Term,
    read: u32,
) -> Result<(), AllocError>
    ensures { OnOk result (asked.new.items ≡ asked.old.items ++ asked_of_parts (parts_asked parts.now byte) condition read byte.byte) }
{
    for place in 0..parts.len() {
        let part = parts[place];
        let is_asked = is_of_part(byte, part);
        let one = AskedByte {
            condition,
            part,
            read,
            byte: byte.byte,
        };
        and_asked(asked, is_asked, one)?;
    }
    Ok(())
}

/// Says for each part that is read at an address that the read has a byte of the file where it is at its address, if it may be and the byte is asked of the
/// part.
fn ask(
    build: &mut Build,
    asked: &mut Vec<AskedByte>,
    parts: &[Vec<u32>],
    file: &[FileByte],
    place: usize,
    address: Term,
    read: u32,
) -> Result<(), AllocError>
    requires built { IsBuilt build.old }
    requires place { place < length file.now }
    requires address { IsWord build.old.dag 32 address.0 (λ x. (file_byte_at file.now place).at) }
    requires read { read < length (read_places build.old) }
    requires parts { length parts.now ≡ length (read_places build.old) }
    requires asked { AreAsked build.old (lists_of parts.now) file.now asked.old.items
        (AskedTo (length (read_places build.old)) (take place file.now) (file_byte_at file.now place) read) }
    ensures grown { OnOk result (Grown build.old build.new 32 0) }
    ensures kept { OnOk result (KeepsParts build.old build.new) }
    ensures asked { OnOk result (AreAsked build.new (lists_of parts.now) file.now asked.new.items
        (AskedTo (length (read_places build.new)) (take place file.now) (file_byte_at file.now place) (read + 1))) }
{
    if !is_asked_of(&parts[read as usize], file[place]) {
        return Ok(());
    }
    let left = build.addresses[read as usize];
    let condition = build.make(Node::Binary {
        op: BinaryOp::Equal,
        width: 32,
        left,
        right: address,
    })?;
    if is_zero(&build.dag, condition) {
        return Ok(());
    }
    ask_parts(asked, &parts[read as usize], file[place], condition, read)?;
    Ok(())
}

/// Says it of each address.
fn ask_reads(
    build: &mut Build,
    asked: &mut Vec<AskedByte>,
    parts: &[Vec<u32>],
    file: &[FileByte],
    place: usize,
    count: u32,
) -> Result<(), AllocError>
    requires built { IsBuilt build.old }
    requires place { place < length file.now }
    requires count { count ≡ length (read_places build.old) }
    requires parts { length parts.now ≡ length (read_places build.old) }
    requires asked { AreAsked build.old (lists_of parts.now) file.now asked.old.items (AskedOf (length (read_places build.old)) (take place file.now)) }
    ensures grown { OnOk result (Grown build.old build.new (32 * count) 0) }
    ensures kept { OnOk result (KeepsParts build.old build.new) }
    ensures asked { OnOk result (AreAsked build.new (lists_of parts.now) file.now asked.new.items (AskedOf (length (read_places build.new)) (take (place + 1) file.now))) }
{
    let address = build.make(Node::Constant {
        width: 32,
        value: file[place].at as u64,
    })?;
    for read in 0..count {
        ask(build, asked, parts, file, place, address, read)?;
    }
    Ok(())
}

/// Which of some bytes of the file the reads have, by the parts that are read at each address. More addresses than 32 bits number are want of memory.
pub fn ask_bytes(
    build: &mut Build,
    alloc: Global,
    parts: &[Vec<u32>],
    file: &[FileByte],
) -> Result<Vec<AskedByte>, AllocError>
    requires built { IsBuilt build.old }
    requires parts { length parts.now ≡ length (read_places build.old) }
    ensures grown { OnOk result (Grown build.old build.new (32 * (length (read_places build.old) * length file.now)) 0) }
    ensures kept { OnOk result (KeepsParts build.old build.new) }
    ensures asked { IfOk result (λ v. AreAsked build.new (lists_of parts.now) file.now v.items (AskedOf (length (read_places build.new)) file.now)) }
{
    let count = build.addresses.len();
    if count > u32::MAX as usize {
        return Err(AllocError);
    }
    let mut asked = Vec::new(alloc);
    for place in 0..file.len() {
        ask_reads(build, &mut asked, parts, file, place, count as u32)?;
    }
    Ok(asked)
}
