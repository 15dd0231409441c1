//! The core language of printed programs: expressions without names or texts, their values, and an
//! evaluator that keeps its frames in a `Vec`.
#![tactic(auto)]

pub mod act;
pub mod cases;
pub mod cell;
pub mod copies;
pub mod events;
pub mod expr;
pub mod join;
pub mod laws;
pub mod machine;
pub mod numbers;
pub mod run;
pub mod slots;
pub mod value;
pub mod world;

pub use expr::{Case, Code, Expr, Function, Join, Leaf, Node, Op, Place, Table, Target, Test};
pub use run::{Ending, call};
pub use value::{Atom, StateType, Tag, Value};
pub use world::{Setting, World};
