//! What shows that an answer is right, by its kind: proofs and starts are not compared.
use crate::draft::parted;
use crate::fault::LineFault;
use bilv_top::Evidence;
use pair_form::PairKind;
use question_form::{Asked, Kind};

/// A kind of evidence, with the question, the rank or the count that it is about.
#[derive(Clone, Copy, PartialEq)]
pub enum EvidenceDue {
    None,
    Refutations,
    EntryRefuted,
    RunOf,
    SpentOn(Kind),
    Inductive,
    FromHead,
    Frames(usize),
    WithCalls(usize),
    SpentOnFrame(Asked),
    Two,
    Both,
    SpentOnPair(PairKind),
    Count(u128),
}

impl EvidenceDue {
    /// The kind that words name.
    pub fn named(words: &str) -> Result<EvidenceDue, LineFault> {
        match words {
            "none" => Ok(EvidenceDue::None),
            "refutations" => Ok(EvidenceDue::Refutations),
            "entry refuted" => Ok(EvidenceDue::EntryRefuted),
            "run" => Ok(EvidenceDue::RunOf),
            "spent entry" => Ok(EvidenceDue::SpentOn(Kind::Entry)),
            "spent fail" => Ok(EvidenceDue::SpentOn(Kind::Fail)),
            "spent turn" => Ok(EvidenceDue::SpentOn(Kind::Turn)),
            "inductive" => Ok(EvidenceDue::Inductive),
            "head" => Ok(EvidenceDue::FromHead),
            "spent frame entry" => Ok(EvidenceDue::SpentOnFrame(Asked::Entry)),
            "spent frame fail" => Ok(EvidenceDue::SpentOnFrame(Asked::Fail)),
            "spent frame step" => Ok(EvidenceDue::SpentOnFrame(Asked::Step)),
            "spent frame turn" => Ok(EvidenceDue::SpentOnFrame(Asked::Turn)),
            "two" => Ok(EvidenceDue::Two),
            "both" => Ok(EvidenceDue::Both),
            "spent pair" => Ok(EvidenceDue::SpentOnPair(PairKind::Pair)),
            "spent difference" => Ok(EvidenceDue::SpentOnPair(PairKind::Difference)),
            _ => counted(words),
        }
    }

    /// The kind of an answer's evidence.
    pub fn of(evidence: &Evidence) -> EvidenceDue {
        match evidence {
            Evidence::None => EvidenceDue::None,
            Evidence::Refutations { .. } => EvidenceDue::Refutations,
            Evidence::EntryRefuted(_) => EvidenceDue::EntryRefuted,
            Evidence::RunOf(_) => EvidenceDue::RunOf,
            Evidence::SpentOn { question, .. } => EvidenceDue::SpentOn(*question),
            Evidence::Inductive { .. } => EvidenceDue::Inductive,
            Evidence::FromHead { .. } => EvidenceDue::FromHead,
            Evidence::Frames(passed) => EvidenceDue::Frames(passed.len()),
            Evidence::WithCalls { rank, .. } => EvidenceDue::WithCalls(*rank),
            Evidence::SpentOnFrame { question, .. } => EvidenceDue::SpentOnFrame(*question),
            Evidence::Two { .. } => EvidenceDue::Two,
            Evidence::Both { .. } => EvidenceDue::Both,
            Evidence::SpentOnPair { question, .. } => EvidenceDue::SpentOnPair(*question),
            Evidence::Count(count) => EvidenceDue::Count(*count),
        }
    }
}

fn counted(words: &str) -> Result<EvidenceDue, LineFault> {
    match parted(words) {
        ("count", number) => Ok(EvidenceDue::Count(u128::from(number.parse::<u64>()?))),
        ("frames", number) => Ok(EvidenceDue::Frames(number.parse::<usize>()?)),
        ("calls", rank) => Ok(EvidenceDue::WithCalls(rank.parse::<usize>()?)),
        _ => Err(LineFault::Word),
    }
}
