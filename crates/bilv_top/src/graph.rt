//! The answer that prints a flow graph.
ghost use Rattle.std.specs.Prelude.{◌≡◌, [], IfOk};
ghost use Rattle.bilv_spec.specs.GraphText.{IsGraphText};
ghost use Rattle.answer_spec.specs.Outcomes.{IsGraphed, IsGraphedWhole};
ghost use Rattle.program_value.specs.Programs.{program_of};
ghost use Rattle.bilv_top.specs.Answers.{answer_of};
ghost use Rattle.bilv_top.specs.Frames.{whole_with};

use crate::answer::{Answer, Evidence};
use crate::framed::Framed;
use contract_graph::print_whole_graph;
use exit_status::DONE;
use flag_live::trim;
use flow_graph::descend;
use graph_text::print_graph;
use machine_law::Machine;
use notes_value::Contract;
use program_value::Program;
use std::alloc::{AllocError, Global};

/// The contracts of notes that have none.
fn no_contracts<'a>() -> &'a [Contract]
    ensures { result.now ≡ [] }
{
    &[]
}

/// The text of the flow graph of a program of a machine, with the flags whose assignment is live. The error is want of memory.
fn live_text<M: Machine>(alloc: Global, program: &Program<M>) -> Result<Vec<u8>, AllocError>
    ensures { IfOk result (λ v. IsGraphText (program_of program.now) v.items) }
{
    let whole = descend::<M>(alloc, program)?;
    let live = trim(alloc, &whole, no_contracts(), 0)?;
    let text = print_graph(alloc, &live)?;
    Ok(text)
}

/// The answer that prints the flow graph of a program of a machine. The error is out of memory.
fn graph_by<M: Machine>(alloc: Global, program: &Program<M>) -> Result<Answer, AllocError>
    ensures { IfOk result (λ a. IsGraphed (program_of program.now) (answer_of a)) }
{
    let text = live_text::<M>(alloc, program)?;
    Ok(Answer {
        status: DONE,
        text,
        evidence: Evidence::None,
    })
}

/// The answer that prints the flow graph of a function of a machine whose notes may have contracts. The error is out of memory.
pub fn graph_frames_by<M: Machine>(
    alloc: Global,
    program: &Program<M>,
    framed: &Framed,
) -> Result<Answer, AllocError>
    ensures { IfOk result (λ a. IsGraphedWhole (whole_with (program_of program.now) framed.now) (answer_of a)) }
{
    if framed.contracts.is_empty() {
        return graph_by::<M>(alloc, program);
    }
    let contracts = framed.contracts.as_slice();
    let text = print_whole_graph::<M>(alloc, program, contracts)?;
    Ok(Answer {
        status: DONE,
        text,
        evidence: Evidence::None,
    })
}
