//! Statements.

ghost use Rattle.std.specs.Prelude.{◌≡◌, ◌-◌, ◌^◌, min, IfOk};
ghost use Rattle.machine_spec.specs.Bil as bil;
ghost use Rattle.bil_ast.specs.Views.{expression, statement, statements};

use crate::{Exp, Var};
use std::alloc::{AllocError, Global};

/// A statement.
#[derive(Drop)]
pub enum Stmt {
    /// The variable takes the value.
    Assign(Var, Exp),
    /// The address to go on at. Statements after it still run, and the last jump made is the list's.
    Jump(Exp),
    /// The end of the list, by the exception of a number.
    Raise(u32),
    /// A remark, which does nothing.
    Special(String),
    /// The body, as long as the condition is 1.
    While {
        condition: Exp,
        body: Vec<Stmt>,
    },
    /// One of two lists, by a condition of 1 bit.
    If {
        condition: Exp,
        when_true: Vec<Stmt>,
        when_false: Vec<Stmt>,
    },
}

impl Stmt {
    /// The body, as long as the condition is 1.
    pub fn repeat(condition: Exp, body: Vec<Stmt>) -> Stmt
        ensures { (rest : bil.Statements) → statement result rest ≡ bil.While (expression condition) (statements body.items) rest }
    {
        Stmt::While { condition, body }
    }

    /// One of two lists, by a condition of 1 bit.
    pub fn choose(condition: Exp, when_true: Vec<Stmt>, when_false: Vec<Stmt>) -> Stmt
        ensures { (rest : bil.Statements) → statement result rest
            ≡ bil.If (expression condition) (statements when_true.items) (statements when_false.items) rest }
    {
        Stmt::If {
            condition,
            when_true,
            when_false,
        }
    }

    /// How many nodes the statement has, itself, its expressions' and its blocks' among them; 2^64 - 1 where it has more. It takes no memory.
    #[cycle(size)]
    pub fn size(&self) -> u64
        ensures { result ≡ min (bil.list_size (statement self.now bil.Empty)) (2 ^ 64 - 1) }
    {
        match self {
            Stmt::Assign(_, value) => value.size().saturating_add(1),
            Stmt::Jump(target) => target.size().saturating_add(1),
            Stmt::Raise(_) | Stmt::Special(_) => 1,
            Stmt::While { condition, body } => condition
                .size()
                .saturating_add(1)
                .saturating_add(Stmt::list_size(body)),
            Stmt::If {
                condition,
                when_true,
                when_false,
            } => {
                let blocks = Stmt::list_size(when_true).saturating_add(Stmt::list_size(when_false));
                condition.size().saturating_add(1).saturating_add(blocks)
            }
        }
    }

    /// How many nodes a list has; 2^64 - 1 where it has more. It takes no memory.
    #[cycle(size)]
    pub fn list_size(list: &[Stmt]) -> u64
        ensures { result ≡ min (bil.list_size (statements list.now)) (2 ^ 64 - 1) }
    {
        let mut total = 0u64;
        for stmt in list {
            total = total.saturating_add(stmt.size());
        }
        total
    }

    /// An equal statement, in memory of its own.
    #[cycle(copy)]
    pub fn copy(&self, alloc: Global) -> Result<Stmt, AllocError>
        ensures { IfOk result (λ s. (rest : bil.Statements) → statement s rest ≡ statement self.now rest) }
    {
        match self {
            Stmt::Assign(x, value) => Ok(Stmt::Assign(*x, value.copy(alloc)?)),
            Stmt::Jump(target) => Ok(Stmt::Jump(target.copy(alloc)?)),
            Stmt::Raise(n) => Ok(Stmt::Raise(*n)),
            Stmt::Special(text) => Ok(Stmt::Special(text.clone()?)),
            Stmt::While { condition, body } => Ok(Stmt::repeat(
                condition.copy(alloc)?,
                Stmt::copy_list(body, alloc)?,
            )),
            Stmt::If {
                condition,
                when_true,
                when_false,
            } => {
                Ok(Stmt::choose(
                    condition.copy(alloc)?,
                    Stmt::copy_list(when_true, alloc)?,
                    Stmt::copy_list(when_false, alloc)?,
                ))
            }
        }
    }

    /// An equal list, in memory of its own.
    #[cycle(copy)]
    pub fn copy_list(list: &[Stmt], alloc: Global) -> Result<Vec<Stmt>, AllocError>
        ensures { IfOk result (λ copies. statements copies.items ≡ statements list.now) }
    {
        let mut copies = Vec::new(alloc);
        for stmt in list {
            copies.push(stmt.copy(alloc)?)?;
        }
        Ok(copies)
    }
}
