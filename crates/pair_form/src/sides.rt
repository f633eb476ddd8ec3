//! One of the two functions of a question.
use mem_cells::Celled;
use question_form::Question;
use term_dag::Term;

/// A function of a question as terms: the bit that says whether it is true of the function, and the words of the links at the entry and, for a difference, at the
/// exit, in the order of the links.
#[derive(Drop)]
pub struct SideQuestion<'a> {
    pub question: Question<'a>,
    pub entries: Vec<Term>,
    pub exits: Vec<Term>,
}

/// A function of a question without memory: its cells, and the words of the links over them.
#[derive(Drop)]
pub struct SideCells<'a> {
    pub celled: Celled<'a>,
    pub entries: Vec<Term>,
    pub exits: Vec<Term>,
}
