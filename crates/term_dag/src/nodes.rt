//! Terms, and the nodes that they are places of.

ghost use Rattle.std.specs.Prelude.{◌≡◌, ◌<◌, ◌≤◌, length, map, take};
ghost use Rattle.std.specs.List.{AllByRecursion};
ghost use Rattle.term_dag.specs.Nodes.{node_of, term_at};
ghost use Rattle.term_dag.specs.Made.{moved, operands};

use bil_ast::BinaryOp;

/// The place of a node in a `Dag`.
#[derive(Clone, Copy, PartialEq, Eq, Hash)]
pub struct Term(pub u32);

/// A node: an input, a constant, or an operator on terms. Widths are in bits, 1 to 64; loads and stores are of 1 to 8 bytes. Inputs are named by parts: a part
/// is a state that is given, with registers, flags and a memory of its own. Part 0 is what a program has at entry.
#[derive(Clone, Copy, PartialEq, Eq, Hash)]
pub enum Node {
    /// A register of a part, of 32 bits.
    Register {
        part: u32,
        number: u8,
    },
    /// A flag of a part, of 1 bit.
    Flag {
        part: u32,
        number: u8,
    },
    /// The choice of the point at a place, of 2 bits.
    Choice(u32),
    /// A byte of the memory of a part, by the number of its read.
    Base {
        part: u32,
        read: u32,
    },
    /// The memory of a part.
    Memory(u32),
    /// A constant.
    Constant {
        width: u8,
        value: u64,
    },
    /// An operator on two words of the width.
    Binary {
        op: BinaryOp,
        width: u8,
        left: Term,
        right: Term,
    },
    /// Each bit of a word of the width turned.
    Not {
        width: u8,
        term: Term,
    },
    /// One of two words of the width, by a condition of 1 bit.
    Select {
        width: u8,
        condition: Term,
        when_true: Term,
        when_false: Term,
    },
    /// The bits of a word from `hi` down to `lo`.
    Extract {
        hi: u8,
        lo: u8,
        term: Term,
    },
    /// A word of `high` bits above one of `low` bits.
    Concat {
        high: u8,
        low: u8,
        upper: Term,
        lower: Term,
    },
    /// A word in more bits, with its sign or zeros above.
    Extend {
        signed: bool,
        from: u8,
        to: u8,
        term: Term,
    },
    /// The bytes at an address of a memory; addresses wrap.
    Load {
        bytes: u8,
        big: bool,
        memory: Term,
        address: Term,
    },
    /// A memory with the bytes of a word written at an address.
    Store {
        bytes: u8,
        big: bool,
        memory: Term,
        address: Term,
        value: Term,
    },
    /// One of two memories, by a condition of 1 bit.
    Join {
        condition: Term,
        when_true: Term,
        when_false: Term,
    },
    /// A memory with the bytes that the memory of a part has at so many addresses from one on, at least 1; addresses wrap.
    Take {
        bytes: u32,
        memory: Term,
        address: Term,
        part: u32,
    },
}

/// The term at the place of another.
fn at(terms: &[Term], term: Term) -> Term
    requires { term.0 < length terms.now }
    ensures { result.0 ≡ term_at terms.now term.0 }
{
    terms[term.0 as usize]
}

impl Node {
    /// The terms that the node is over, in their order, and how many they are; those after them are none.
    pub fn operands(self) -> ([Term; 3], usize)
        ensures few { result.1 ≤ 3 }
        ensures are { map (λ t. t.0) (take result.1 result.0) ≡ operands (node_of self) }
    {
        let none = Term(0);
        match self {
            Node::Not { term: a, .. }
            | Node::Extract { term: a, .. }
            | Node::Extend { term: a, .. } => ([a, none, none], 1),
            Node::Binary {
                left: a,
                right: b,
                ..
            }
            | Node::Concat {
                upper: a,
                lower: b,
                ..
            }
            | Node::Load {
                memory: a,
                address: b,
                ..
            }
            | Node::Take {
                memory: a,
                address: b,
                ..
            } => ([a, b, none], 2),
            Node::Select {
                condition: a,
                when_true: b,
                when_false: c,
                ..
            }
            | Node::Store {
                memory: a,
                address: b,
                value: c,
                ..
            }
            | Node::Join {
                condition: a,
                when_true: b,
                when_false: c,
            } => ([a, b, c], 3),
            Node::Register { .. }
            | Node::Flag { .. }
            | Node::Choice(_)
            | Node::Base { .. }
            | Node::Memory(_)
            | Node::Constant { .. } => ([none, none, none], 0),
        }
    }

    /// The node over the terms that stand at the places of those that it is over.
    pub fn moved(self, terms: &[Term]) -> Node
        requires { AllByRecursion (λ a. a < length terms.now) (operands (node_of self)) }
        ensures { node_of result ≡ moved (term_at terms.now) (node_of self) }
    {
        let mut node = self;
        match &mut node {
            Node::Not { term, .. } => *term = at(terms, *term),
            Node::Extract { term, .. } => *term = at(terms, *term),
            Node::Extend { term, .. } => *term = at(terms, *term),
            Node::Binary { left, right, .. } => {
                *left = at(terms, *left);
                *right = at(terms, *right);
            }
            Node::Concat { upper, lower, .. } => {
                *upper = at(terms, *upper);
                *lower = at(terms, *lower);
            }
            Node::Load {
                memory,
                address,
                ..
            } => {
                *memory = at(terms, *memory);
                *address = at(terms, *address);
            }
            Node::Take {
                memory,
                address,
                ..
            } => {
                *memory = at(terms, *memory);
                *address = at(terms, *address);
            }
            Node::Select {
                condition,
                when_true,
                when_false,
                ..
            } => {
                *condition = at(terms, *condition);
                *when_true = at(terms, *when_true);
                *when_false = at(terms, *when_false);
            }
            Node::Store {
                memory,
                address,
                value,
                ..
            } => {
                *memory = at(terms, *memory);
                *address = at(terms, *address);
                *value = at(terms, *value);
            }
            Node::Join {
                condition,
                when_true,
                when_false,
            } => {
                *condition = at(terms, *condition);
                *when_true = at(terms, *when_true);
                *when_false = at(terms, *when_false);
            }
            _ => {}
        }
        node
    }
}
