//! Cells: the form in which a question has no memory.
use question_form::Question;
use term_dag::{Dag, Term};

/// A base read: of a part's memory, at the address of a number.
#[derive(Clone, Copy)]
pub struct BaseRead {
    pub part: u32,
    pub address: u32,
}

/// The numbers of two addresses that a part is read at, and the bit that says that they are equal. One bit serves all parts.
#[derive(Clone, Copy)]
pub struct Agreement {
    pub condition: Term,
    pub part: u32,
    pub read: u32,
    pub other: u32,
}

/// A base read of a part, by the number of its address, a byte of the file, and the bit that says that the read is at the byte's address.
#[derive(Clone, Copy)]
pub struct AskedByte {
    pub condition: Term,
    pub part: u32,
    pub read: u32,
    pub byte: u8,
}

/// A question without memory: nodes over words alone, in which a base read of a part is the byte of the part's memory at the address of a number.
#[derive(Drop)]
pub struct Celled<'a> {
    pub question: &'a Question<'a>,
    pub dag: Dag,
    /// The addresses, by their numbers.
    pub addresses: Vec<Term>,
    /// The base reads, each once, by rising numbers of addresses, and of one address by rising parts.
    pub reads: Vec<BaseRead>,
    /// Which reads have to agree.
    pub agrees: Vec<Agreement>,
    /// Which reads have to be bytes of the file.
    pub asked: Vec<AskedByte>,
    /// The bit that says whether the question is true.
    pub root: Term,
}

/// Cells, and places in them of some words of the question.
#[derive(Drop)]
pub struct CelledWords<'a> {
    pub celled: Celled<'a>,
    /// The place of each word, in the order in which they were asked for.
    pub words: Vec<Term>,
}
