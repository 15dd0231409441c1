//! Expressions of the core language. Names are slots of the call's frame.

ghost use Rattle.std.specs.Prelude.{◌≡◌, IfOk};
ghost use Rattle.lp_core.specs.Tree.{Plain, Apply, If, Match, Loop, Call, Block, trees_of};

use crate::value::{StateType, Tag};
use lp_repr::Text;
use std::alloc::{AllocError, Global};
use std::marker::Model;

/// What needs no value first.
#[derive(Clone, Copy)]
pub enum Leaf {
    /// `()`, `None` and what else has no parts.
    Empty(Tag),
    Bool(bool),
    Index(usize),
    /// A number of a state type.
    State(StateType, i32),
    /// A text of the program, by its number.
    Text(usize),
    DefaultLocation,
    /// Reads a slot, by its number from 0, which keeps its value.
    Read(usize),
    /// Reads a slot for the last time.
    Take(usize),
    /// The next item of the token source, if there is one.
    NextItem,
    /// A new list of states that holds the start state.
    NewStates,
    /// What has no meaning.
    Stuck,
}

/// What is done with one value.
#[derive(Clone, Copy)]
pub enum Op {
    /// Writes the value to a slot, by its number from 0.
    Write(usize),
    /// A part of a value.
    Part(usize),
    /// Writes the parts of a value of as many parts to slots, from the first one on.
    Parts(usize, usize),
    /// A value with this one part.
    Wrap(Tag),
    /// `as usize`.
    AsIndex,
    /// `x + 1`, `x - 1` and `-x`.
    Successor,
    Predecessor,
    Negate,
    /// `x == 0` and `x > 0`.
    IsZero,
    IsPositive,
    /// The entry of a table, by the table's number.
    Entry(usize),
    /// `len`, `pop` and `last` of a list in a cell.
    Length,
    Pop,
    Last,
    /// `pop` of a list of states, whose value isn't used.
    Shorten,
    /// `to_vec`: a new cell with the same states.
    CopyStates,
    /// The last of a list of states.
    Top(StateType),
    /// `&mut Some(x)`: a new cell.
    NewCell,
    /// `take().unwrap()`, `as_ref().unwrap()` and `is_none()` of a cell.
    TakeOut,
    ReadIn,
    IsEmpty,
    /// Ends the call with the value.
    Return,
    /// `ParseError::User` and `ParseError::ExtraToken`.
    UserError,
    ExtraToken,
    /// What the hole of this number of a token captured.
    Payload(usize),
    /// `assert!`.
    Assert,
}

/// What is done with several values.
#[derive(Clone, Copy)]
pub enum Join {
    /// A value with these parts.
    Make(Tag),
    /// Of two `usize`.
    Add,
    Multiply,
    Subtract,
    /// `x >= y`.
    AtLeast,
    /// A state of a list, by its index.
    StateAt(StateType),
    /// `push` of a list in a cell, and `truncate` of a list of states.
    Push,
    Truncate,
    /// `extend` of a list by an option.
    Extend,
    /// The list of what the options hold.
    Collect,
    /// The tuple of captured payloads.
    Payloads,
    /// A call of user code: of the text of this number, after so many parameters.
    Event {
        code: usize,
        fallible: bool,
        params: usize,
    },
    /// `ParseError::UnrecognizedToken` and `ParseError::UnrecognizedEof`.
    UnrecognizedToken,
    UnrecognizedEof,
}

/// What is called.
#[derive(Clone, Copy)]
pub enum Target {
    /// A function, by its number.
    Function(usize),
    /// What is done with the values of the arguments.
    Join(Join),
}

/// Which part of a value is tested.
#[derive(Clone, Copy)]
pub enum Place {
    /// The value itself.
    Here,
    /// The first part.
    Inside,
    /// The token of a triple that is the first part.
    TokenInside,
}

/// What is tested.
#[derive(Clone, Copy)]
pub enum Test {
    /// That a number is between these, both included.
    Between(i64, i64),
    /// That a value has this tag.
    Is(Tag),
    /// That a token has the form that this text of the program is.
    Form(usize),
}

/// One test of a match, and the number of its body.
#[derive(Clone, Copy)]
pub struct Case {
    pub place: Place,
    pub test: Test,
    /// The number of the body, counted from 0.
    pub body: usize,
}

/// An expression's form.
#[derive(Drop)]
#[cycle(ast)]
pub enum Node {
    Plain(Leaf),
    /// What is done with the value of an expression.
    Apply(Op, Box<Expr>),
    /// The test, then what is done where it holds and where it doesn't.
    If(Box<Expr>, Box<Expr>, Box<Expr>),
    /// Writes the value to a slot, and goes on with the body of the first case that fits, else with
    /// the last body.
    Match(Box<Expr>, usize, Vec<Case>, Vec<Expr>),
    /// Goes on turn by turn, until a return.
    Loop(Box<Expr>),
    /// The arguments are evaluated in order.
    Call(Target, Vec<Expr>),
    /// One after another; the value is that of the last.
    Block(Vec<Expr>),
}

/// An expression.
#[derive(Drop)]
#[cycle(ast)]
pub struct Expr {
    pub node: Node,
}

impl Model for Expr {
    ghost use Rattle.lp_core.specs.Tree.{Tree};

    ghost Value = { Tree };

    ghost use Rattle.std.specs.Prelude.{List};
    ghost use Rattle.std.specs.Coded.{codes, code_by};
    ghost use Rattle.lp_core.specs.contracts.expr.Leaf as leaf;
    ghost use Rattle.lp_core.specs.contracts.expr.Op as op;
    ghost use Rattle.lp_core.specs.contracts.expr.Target as target;
    ghost use Rattle.lp_core.specs.contracts.expr.Case as case_row;
    ghost use Rattle.lp_core.specs.TreeCode.{Token, tokens, tree_from, from_tokens};

    ghost coded = { code_by (List Token) (Prim.hlevel (codes, leaf.the_row.coded, op.the_row.coded, target.the_row.coded, case_row.the_row.coded)) tokens tree_from from_tokens };

    ghost use Rattle.lp_core.specs.NodeView.{tree_of};
    ghost use Rattle.lp_core.specs.Tree.{size_of};

    ghost view = { λ e. tree_of e.node };

    ghost size = { size_of };

    ghost use Rattle.lp_core.specs.TreeFalls.{parts_smaller};

    ghost size_decreases = { λ a _. parts_smaller a.node };
}

impl Expr {
    /// What needs no value first.
    pub fn plain(leaf: Leaf) -> Expr
        ensures { result ≡ Plain leaf }
    {
        Expr {
            node: Node::Plain(leaf),
        }
    }

    /// Reads a slot, by its number from 0, which keeps its value.
    pub fn read(slot: usize) -> Expr
        ensures { result ≡ Plain (Leaf.Read slot) }
    {
        Expr::plain(Leaf::Read(slot))
    }

    /// Reads a slot for the last time: it has no value afterwards.
    pub fn take(slot: usize) -> Expr
        ensures { result ≡ Plain (Leaf.Take slot) }
    {
        Expr::plain(Leaf::Take(slot))
    }

    /// A number of type `usize`.
    pub fn index(n: usize) -> Expr
        ensures { result ≡ Plain (Leaf.Index n) }
    {
        Expr::plain(Leaf::Index(n))
    }

    /// What has no meaning.
    pub fn stuck() -> Expr
        ensures { result ≡ Plain Leaf.Stuck }
    {
        Expr::plain(Leaf::Stuck)
    }

    /// What is done with the value of `e`. Fails where memory runs out.
    pub fn apply(alloc: Global, op: Op, e: Expr) -> Result<Expr, AllocError>
        ensures { IfOk result (λ r. r ≡ Apply op e) }
    {
        Ok(Expr {
            node: Node::Apply(op, Box::new(alloc, e)?),
        })
    }

    /// `let` and assignment.
    pub fn write(alloc: Global, slot: usize, e: Expr) -> Result<Expr, AllocError>
        ensures { IfOk result (λ r. r ≡ Apply (Op.Write slot) e) }
    {
        Expr::apply(alloc, Op::Write(slot), e)
    }

    /// `if`: `yes` where the test is true, `no` where it is false. Fails where memory runs out.
    pub fn choose(alloc: Global, test: Expr, yes: Expr, no: Expr) -> Result<Expr, AllocError>
        ensures { IfOk result (λ r. r ≡ If test yes no) }
    {
        Ok(Expr {
            node: Node::If(
                Box::new(alloc, test)?,
                Box::new(alloc, yes)?,
                Box::new(alloc, no)?,
            ),
        })
    }

    /// A match, whose value stands in the slot; the last body is for what fits no case.
    pub fn select(
        alloc: Global,
        value: Expr,
        slot: usize,
        cases: Vec<Case>,
        bodies: Vec<Expr>,
    ) -> Result<Expr, AllocError>
        ensures { IfOk result (λ r. r ≡ Match value slot cases.items (trees_of bodies.items)) }
    {
        Ok(Expr {
            node: Node::Match(Box::new(alloc, value)?, slot, cases, bodies),
        })
    }

    /// `loop`: goes on turn by turn, until a return. Fails where memory runs out.
    pub fn repeat(alloc: Global, turn: Expr) -> Result<Expr, AllocError>
        ensures { IfOk result (λ r. r ≡ Loop turn) }
    {
        Ok(Expr {
            node: Node::Loop(Box::new(alloc, turn)?),
        })
    }

    /// A call of a function, by its number from 0; the arguments are evaluated in order.
    pub fn call(function: usize, args: Vec<Expr>) -> Expr
        ensures { result ≡ Call (Target.Function function) (trees_of args.items) }
    {
        Expr {
            node: Node::Call(Target::Function(function), args),
        }
    }

    /// What is done with the values of the arguments, which are evaluated in order.
    pub fn join(join: Join, args: Vec<Expr>) -> Expr
        ensures { result ≡ Call (Target.Join join) (trees_of args.items) }
    {
        Expr {
            node: Node::Call(Target::Join(join), args),
        }
    }

    /// One expression after another. The value is that of the last; an empty block has none.
    pub fn block(parts: Vec<Expr>) -> Expr
        ensures { result ≡ Block (trees_of parts.items) }
    {
        Expr {
            node: Node::Block(parts),
        }
    }
}

/// A printed function: its parameters stand in its first slots.
#[derive(Drop)]
pub struct Function {
    /// How many parameters it has.
    pub params: usize,
    /// How many slots it has besides.
    pub slots: usize,
    pub body: Expr,
}

/// A printed table of entries.
#[derive(Drop)]
pub struct Table {
    /// None where the printed type is no state type.
    pub entry_type: Option<StateType>,
    pub entries: Vec<i64>,
}

/// The functions, tables and texts of a program.
#[derive(Drop)]
pub struct Code {
    pub functions: Vec<Function>,
    pub tables: Vec<Table>,
    pub texts: Vec<Text>,
}
