//! The registers of a list, one after the other.
ghost use Rattle.std.specs.Prelude.{◌≡◌, ◌≤◌, ◌==◌, length, None, IfOk, OnOk, if◌then◌else◌, Some};
ghost use Rattle.machine_spec.specs.Arm.{listed_from};
ghost use Rattle.machine_spec.specs.Bil as bil;
ghost use Rattle.byte_mem.specs.Views.{endian_of};
ghost use Rattle.arm_lift_alu.specs.Before.{before};
ghost use Rattle.arm_lift_blocks.specs.Lifted as lifts;

use crate::words::{loaded, stored_register, variable};
use arm_decode::{Register, RegisterList};
use arm_lift_alu::conditional::add;
use bil_ast::{Stmt, Var};
use byte_mem::Endian;
use std::alloc::{AllocError, Global};

/// How many registers of a list are below a number.
pub(crate) fn count(registers: RegisterList, end: u8) -> u32
    requires { end ≤ 16 }
    ensures count { result ≡ length (listed_from registers.bits 0 end) }
    ensures few { result ≤ end }
{
    let mut count = 0;
    for register in 0..end {
        if registers.has(register) {
            count += 1;
        }
    }
    count
}

/// A distance, where it is the register's, and else what was found before.
fn found_at(is_it: bool, distance: u32, found: Option<u32>) -> Option<u32>
    ensures { result ≡ (if is_it then Some distance else found) }
{
    if is_it { Some(distance) } else { found }
}

/// At which distance the word of a register is, if it is one of a list's below a number; the first word is at a distance that is given.
pub(crate) fn place_of(
    register: Register,
    registers: RegisterList,
    end: u8,
    first: u32,
) -> Option<u32>
    requires { end ≤ 16 }
    ensures { result ≡ lifts.place_of register.number first (listed_from registers.bits 0 end) None }
{
    let mut found = None;
    let mut distance = first;
    for number in 0..end {
        if registers.has(number) {
            found = found_at(number == register.number(), distance, found);
            distance = distance.wrapping_add(4);
        }
    }
    found
}

/// The load of one register, of r15 a jump. The base comes later.
fn load_one(
    alloc: Global,
    list: &mut Vec<Stmt>,
    register: u8,
    base: Register,
    distance: u32,
    order: Endian,
) -> Result<(), AllocError>
    ensures { OnOk result ((rest : bil.Statements) → before list.new.items rest
        ≡ before list.old.items (lifts.load_one (register == base.number) (register == 15) (endian_of order) base.number distance register rest)) }
{
    if register == base.number() {
        return Ok(());
    }
    let value = loaded(alloc, base, distance, order)?;
    if register == 15 {
        return add(list, Stmt::Jump(value));
    }
    add(list, Stmt::Assign(variable(register), value))
}

/// The loads of a list's registers below a number but the base, the lowest from the lowest address.
pub(crate) fn loads(
    alloc: Global,
    registers: RegisterList,
    end: u8,
    base: Register,
    first: u32,
    order: Endian,
) -> Result<Vec<Stmt>, AllocError>
    requires { end ≤ 16 }
    ensures { IfOk result (λ list. (rest : bil.Statements) → before list.items rest
        ≡ lifts.loads (endian_of order) base.number first (listed_from registers.bits 0 end) rest) }
{
    let mut list = Vec::new(alloc);
    let mut distance = first;
    for register in 0..end {
        if registers.has(register) {
            load_one(alloc, &mut list, register, base, distance, order)?;
            distance = distance.wrapping_add(4);
        }
    }
    Ok(list)
}

/// The store of one register.
fn store_one(
    alloc: Global,
    list: &mut Vec<Stmt>,
    register: u8,
    base: Register,
    distance: u32,
    order: Endian,
    at: u32,
) -> Result<(), AllocError>
    ensures { OnOk result ((rest : bil.Statements) → before list.new.items rest
        ≡ before list.old.items (bil.Assign bil.Mem
        (lifts.stored (endian_of order) base.number distance (lifts.stored_by (register == 15) register at)) rest)) }
{
    let value = stored_register(alloc, base, distance, order, register, at)?;
    add(list, Stmt::Assign(Var::Memory, value))
}

/// The stores of a list's registers below a number, the lowest to the lowest address.
pub(crate) fn stores(
    alloc: Global,
    registers: RegisterList,
    end: u8,
    base: Register,
    first: u32,
    order: Endian,
    at: u32,
) -> Result<Vec<Stmt>, AllocError>
    requires { end ≤ 16 }
    ensures { IfOk result (λ list. (rest : bil.Statements) → before list.items rest
        ≡ lifts.stores (endian_of order) base.number at first (listed_from registers.bits 0 end) rest) }
{
    let mut list = Vec::new(alloc);
    let mut distance = first;
    for register in 0..end {
        if registers.has(register) {
            store_one(alloc, &mut list, register, base, distance, order, at)?;
            distance = distance.wrapping_add(4);
        }
    }
    Ok(list)
}
