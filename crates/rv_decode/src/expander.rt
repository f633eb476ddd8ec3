//! Expansions of halfwords (RISC-V Unprivileged ISA 20191213, chapter 16): by their low two bits and their bits 15 to 13, as the manual's table has them.
ghost use Rattle.std.specs.Prelude.{◌≡◌, ◌<◌};
ghost use Rattle.machine_spec.specs.RvShort as shorts;
ghost use Rattle.machine_spec.proofs.ShortParts.{part};

use crate::fields::field;
use crate::half_fields::{
    back, full, imm_4spn, imm_6, imm_16sp, imm_b, imm_j, imm_lui, imm_lwsp, imm_swsp, imm_w, low,
    middle,
};
use crate::word_formats::{word_b, word_i, word_j, word_r, word_s, word_u};

/// Quadrant 0.
#[tactic(auto, using(crate::proofs::Quadrants::quadrant_0))]
fn first(h: u32, funct: u32) -> Option<u32>
    ensures { result ≡ part 0 funct h }
{
    if funct == 0 {
        let number = imm_4spn(h);
        if number == 0 {
            return None;
        }
        return Some(word_i(0b0010011, 0, low(h), 2, number));
    }
    if funct == 2 {
        return Some(word_i(0b0000011, 2, low(h), middle(h), imm_w(h)));
    }
    if funct == 6 {
        return Some(word_s(0b0100011, 2, middle(h), low(h), imm_w(h)));
    }
    None
}

/// C.ADDI16SP and C.LUI.
#[tactic(auto, using(machine_spec::proofs::ShortParts::part_1_3))]
fn upper(h: u32) -> Option<u32>
    ensures { result ≡ part 1 3 h }
{
    let register = full(h);
    if register == 2 {
        let number = imm_16sp(h);
        if number == 0 {
            return None;
        }
        return Some(word_i(0b0010011, 0, 2, 2, number));
    }
    let number = imm_lui(h);
    if number == 0 {
        return None;
    }
    Some(word_u(0b0110111, register, number))
}

/// The computations of quadrant 1.
#[tactic(auto, using(machine_spec::proofs::ShortParts::part_1_4))]
fn computing(h: u32) -> Option<u32>
    ensures { result ≡ part 1 4 h }
{
    let register = middle(h);
    let kind = field(h, 12, 10);
    if kind == 0 {
        return Some(word_r(0b0010011, 5, 0, register, register, back(h)));
    }
    if kind == 1 {
        return Some(word_r(0b0010011, 5, 32, register, register, back(h)));
    }
    if field(h, 11, 10) == 2 {
        return Some(word_i(0b0010011, 7, register, register, imm_6(h)));
    }
    if kind != 3 {
        return None;
    }
    match field(h, 6, 5) {
        0 => Some(word_r(0b0110011, 0, 32, register, register, low(h))),
        1 => Some(word_r(0b0110011, 4, 0, register, register, low(h))),
        2 => Some(word_r(0b0110011, 6, 0, register, register, low(h))),
        3 => Some(word_r(0b0110011, 7, 0, register, register, low(h))),
        _ => None,
    }
}

/// Quadrant 1.
#[tactic(auto, using(crate::proofs::Quadrants::quadrant_1))]
fn second(h: u32, funct: u32) -> Option<u32>
    requires { funct < 8 }
    ensures { result ≡ part 1 funct h }
{
    match funct {
        0 => Some(word_i(0b0010011, 0, full(h), full(h), imm_6(h))),
        1 => Some(word_j(0b1101111, 1, imm_j(h))),
        2 => Some(word_i(0b0010011, 0, full(h), 0, imm_6(h))),
        3 => upper(h),
        4 => computing(h),
        5 => Some(word_j(0b1101111, 0, imm_j(h))),
        6 => Some(word_b(0b1100011, 0, middle(h), 0, imm_b(h))),
        7 => Some(word_b(0b1100011, 1, middle(h), 0, imm_b(h))),
        _ => unreachable!(),
    }
}

/// C.JR, C.MV, C.EBREAK, C.JALR and C.ADD.
#[tactic(auto, using(machine_spec::proofs::ShortParts::part_2_4))]
fn moving(h: u32) -> Option<u32>
    ensures { result ≡ part 2 4 h }
{
    let a = full(h);
    let b = back(h);
    if field(h, 12, 12) == 0 {
        if b != 0 {
            return Some(word_r(0b0110011, 0, 0, a, 0, b));
        }
        if a == 0 {
            return None;
        }
        return Some(word_i(0b1100111, 0, 0, a, 0));
    }
    if b != 0 {
        return Some(word_r(0b0110011, 0, 0, a, a, b));
    }
    if a == 0 {
        return Some(0x10_0073);
    }
    Some(word_i(0b1100111, 0, 1, a, 0))
}

/// Quadrant 2.
#[tactic(auto, using(crate::proofs::Quadrants::quadrant_2))]
fn third(h: u32, funct: u32) -> Option<u32>
    ensures { result ≡ part 2 funct h }
{
    if funct == 0 {
        if field(h, 12, 12) != 0 {
            return None;
        }
        return Some(word_r(0b0010011, 1, 0, full(h), full(h), back(h)));
    }
    if funct == 2 {
        let register = full(h);
        if register == 0 {
            return None;
        }
        return Some(word_i(0b0000011, 2, register, 2, imm_lwsp(h)));
    }
    if funct == 4 {
        return moving(h);
    }
    if funct == 6 {
        return Some(word_s(0b0100011, 2, 2, back(h), imm_swsp(h)));
    }
    None
}

/// The expansion of a halfword of 2 bytes, the word that does the same but for its length; none where the table of RV32C has no line for the halfword.
pub fn expansion(half: u16) -> Option<u32>
    ensures { result ≡ shorts.expansion half }
{
    expanded(u32::from(half))
}

#[tactic(auto, using(machine_spec::proofs::ShortParts::part_is, machine_spec::proofs::ShortParts::is_none_3))]
fn expanded(h: u32) -> Option<u32>
    ensures { result ≡ shorts.expansion h }
{
    let funct = field(h, 15, 13);
    match field(h, 1, 0) {
        0 => first(h, funct),
        1 => second(h, funct),
        2 => third(h, funct),
        3 => None,
        _ => unreachable!(),
    }
}
