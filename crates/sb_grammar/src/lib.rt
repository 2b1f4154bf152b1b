//! The grammar of statements: their trees, and the rules that say which tokens spell which tree.
//!
//! A rule says what it reads of some tokens and which tokens spell a value. The rules are made of a
//! few makers, whose laws are proved once: what is read is spelled, what is spelled is read, and a
//! refusal names the first token at which no spelling goes on.
#![tactic(auto)]

mod choice;
mod facts;
mod lexeme;
mod tree;
mod word;

pub use choice::{
    ActivationOption, ActivationOptions, Barred, Begun, ChangeWord, Changes, Context,
    DialogOptions, DialogWord, First, KindWord, Made, Place, PriorityOption, PriorityOptions,
    Progress, QueueOption, QueueOptions, RouteOption, RouteOptions,
};
pub use facts::{
    barred_words, barred_words_of_parts, batches_are_read_exactly, batches_are_spelled_apart,
    fixed_words_of_expressions, fixed_words_of_parts, fixed_words_of_statements,
    procedures_are_read_exactly, procedures_are_spelled_apart,
};
pub use lexeme::Lexeme;
pub use tree::{
    Assignment, Bracketed, BrokerInstance, Change, Column, Columns, Comparison, Condition,
    Declaration, DialogOption, Ending, Expr, Filter, GetGroup, Receive, RowColumn, Selected, Sign,
    Statement, Term, Waited,
};
pub use word::{Fixed, is};

#[cfg(test)]
mod tests;
