//! The flags that contracts read.
ghost use Rattle.std.specs.Prelude.{◌≡◌, ◌||◌, ℕ, List, Some, map, not, nat_eq};
ghost use Rattle.std.specs.List.{list_any};
ghost use Rattle.bilv_spec.specs.LiveFlags.{names_flag};
ghost use Rattle.frame_spec.specs.Frames.{contract_at};
ghost use Rattle.frame_spec.specs.FrameUnrolling.{contract_reads, exit_reads, names_any, names_old};
ghost use Rattle.graph_nodes.specs.Graphs.{IsFlagSet};
ghost use Rattle.notes_value.specs.FrameViews.{contract_of, writes_of};
ghost use Rattle.notes_value.specs.NoteViews.{note_line_of};
ghost use Rattle.notes_value.specs.Views.{expr_of};

use flow_graph::named_flags;
use notes_value::{Contract, Expr, NoteLine, Writes};

/// The flags that an expression names within `old`.
fn old_flags(expr: &Expr) -> u8
    ensures { IsFlagSet result (λ f. names_old f (expr_of expr.now)) }
{
    match expr {
        Expr::Number(_) | Expr::Register(_) | Expr::Pc | Expr::Bound | Expr::Flag(_) => 0,
        Expr::Old(a) => named_flags(a) | old_flags(a),
        Expr::Memory(_, a) | Expr::Not(a) => old_flags(a),
        Expr::All(_, _, a) => old_flags(a),
        Expr::Binary(_, a, b) => old_flags(a) | old_flags(b),
    }
}

/// The flags that lines name outside `old`.
fn named_now(lines: &[NoteLine]) -> u8
    ensures { IsFlagSet result (λ f. list_any (λ l. names_flag f l.says) (map note_line_of lines.now)) }
{
    let mut set = 0;
    for line in lines {
        set |= named_flags(&line.says);
    }
    set
}

/// The flags that lines name within `old`.
fn named_old(lines: &[NoteLine]) -> u8
    ensures { IsFlagSet result (λ f. list_any (λ l. names_old f l.says) (map note_line_of lines.now)) }
{
    let mut set = 0;
    for line in lines {
        set |= old_flags(&line.says);
    }
    set
}

/// The flags that the addresses of bytes that may be written name.
fn addressed(writes: &[Writes]) -> u8
    ensures { IsFlagSet result (λ f. list_any (λ w. names_any f w.says) (map writes_of writes.now)) }
{
    let mut set = 0;
    for line in writes {
        set |= named_flags(&line.says) | old_flags(&line.says);
    }
    set
}

/// The flags that a contract may not change.
fn kept(contract: &Contract) -> u8
    ensures { IsFlagSet result (λ f. not (list_any (nat_eq f) (contract_of contract.now).flags)) }
{
    15 - contract.flags % 16
}

/// The flags that a step over a contract reads.
fn reads(contract: &Contract) -> u8
    ensures { IsFlagSet result (λ f. contract_reads f (Some (contract_of contract.now))) }
{
    let needed = named_now(&contract.needs) | named_old(&contract.needs);
    kept(contract) | needed | addressed(&contract.writes) | named_old(&contract.gives)
}

/// The flags that a contract step reads at an address.
pub fn read_at(contracts: &[Contract], at: u32) -> u8
    ensures { IsFlagSet result (λ f. contract_reads f (contract_at (map contract_of contracts.now) at)) }
{
    for contract in contracts {
        if contract.at == at {
            return reads(contract);
        }
    }
    0
}

/// The flags that the exits of contracts' frames read.
pub fn read_at_exits(contracts: &[Contract]) -> u8
    ensures { IsFlagSet result (λ f. exit_reads f (map contract_of contracts.now)) }
{
    let mut set = 0;
    for contract in contracts {
        set |= kept(contract) | named_now(&contract.gives);
    }
    set
}
