//! The variables that a list reads and assigns.

ghost use Rattle.std.specs.Prelude.{◌≡◌, ◌==◌, ◌&&◌, true, Some};
ghost use Rattle.machine_spec.specs.Bil as bil;
ghost use Rattle.machine_spec.specs.BilCounts.{width};
ghost use Rattle.machine_spec.specs.BilMeaning as means;
ghost use Rattle.bil_ast.specs.Views.{variable_of};
ghost use Rattle.bil_eval.specs.Checked.{IsWord};
ghost use Rattle.bil_eval.specs.Views.{env_of, held, values};

use bil_ast::{Local, Var};
use bv_word::Word;
use byte_mem::Bytes32;

/// A local's word: the local has the word's width.
#[derive(Clone, Copy)]
pub struct LocalWord {
    /// The local's number.
    pub number: u32,
    /// Its value.
    pub value: Word,
}

/// The variables of a machine, and the choice that the step at hand takes.
#[derive(Drop)]
pub struct Machine {
    /// The registers, by number.
    pub registers: [u32; 32],
    /// Whether the flags are set: N 3, Z 2, C 1, V 0.
    pub flags: [bool; 4],
    /// The memory.
    pub memory: Bytes32,
    /// The choice, whose low bits unknowns are.
    pub choice: u8,
}

/// Whether a word is the local's.
fn is_of(word: LocalWord, local: Local) -> bool
    ensures { result ≡ (local.number == word.number) && (local.width.bits == word.value.width) }
{
    local.number == word.number && local.width.bits == word.value.width
}

/// The word of a local, the last one.
pub fn read_local(locals: &[LocalWord], local: Local) -> Word
    requires { held locals.now (bil.Local local.number local.width.bits) ≡ true }
    ensures value { values locals.now local.number local.width.bits ≡ means.Word result.width result.bits }
    ensures width { result.width ≡ local.width.bits }
{
    let mut i = locals.len();
    while i > 0 {
        i -= 1;
        let last = locals[i];
        if is_of(last, local) {
            return last.value;
        }
    }
    unreachable!()
}

/// The word of a variable other than the memory.
pub fn read_word(variable: Var, machine: &Machine, locals: &[LocalWord]) -> Word
    requires { IsWord (bil.Var (variable_of variable)) (held locals.now) }
    ensures value { means.get (variable_of variable) (env_of machine.now locals.now) ≡ means.Word result.width result.bits }
    ensures width { result.width ≡ width (bil.Var (variable_of variable)) }
{
    match variable {
        Var::Register(_, number) => Word::new(32, machine.registers[number as usize] as u64),
        Var::Flag(number) => Word::new(1, machine.flags[number as usize] as u64),
        Var::Local(local) => read_local(locals, local),
        Var::Memory => unreachable!(),
    }
}

/// What a list reads and assigns: a machine's variables, and local words.
#[derive(Drop)]
pub struct Env {
    /// The machine's variables.
    pub machine: Machine,
    /// The locals that have a word. Of two words of one local the last counts.
    pub locals: Vec<LocalWord>,
}

/// Gives a local that has a word another one.
fn write_local(locals: &mut [LocalWord], local: Local, value: Word)
    requires known { held locals.old (bil.Local local.number local.width.bits) ≡ true }
    requires width { value.width ≡ local.width.bits }
    ensures values { values locals.new ≡ means.put_local local.number local.width.bits value.bits (values locals.old) }
    ensures held { held locals.new ≡ held locals.old }
{
    let mut i = locals.len();
    while i > 0 {
        i -= 1;
        if is_of(locals[i], local) {
            locals[i] = LocalWord {
                number: local.number,
                value,
            };
            return;
        }
    }
    unreachable!()
}

/// Gives a variable other than the memory a word of its width.
pub fn assign_word(variable: Var, value: Word, env: &mut Env)
    requires known { held env.old.locals.items (variable_of variable) ≡ true }
    requires width { bil.type_of (variable_of variable) ≡ bil.Bits value.width }
    ensures assigned { means.assign (variable_of variable) (means.Word value.width value.bits) (env_of env.old.machine env.old.locals.items)
        ≡ Some (env_of env.new.machine env.new.locals.items) }
    ensures held { held env.new.locals.items ≡ held env.old.locals.items }
    ensures choice { env.new.machine.choice ≡ env.old.machine.choice }
{
    match variable {
        Var::Register(_, number) => env.machine.registers[number as usize] = value.bits as u32,
        Var::Flag(number) => env.machine.flags[number as usize] = value.bits == 1,
        Var::Local(local) => write_local(&mut env.locals, local, value),
        Var::Memory => unreachable!(),
    }
}
