//! What the forms of the grammar are read with (ES3 sections 7 and 11 to 14): the tokens one after
//! another, what the next of them is, what stands around a statement, and the nodes of a tree.
//!
//! What the next token is and the tokens behind those that were taken (`Cursor`); the operators
//! with their levels (`binary_operator`, `unary_operator`, `assignment_operator`); declared names
//! and parameters, literals, jumps to labels and inserted semicolons (`declared`, `parameters`,
//! `literal_expression`, `continue_statement`, `ended`); and what stands around a statement
//! (`loop_context`, `labelled_context`, and so on): each follows its reading function of
//! `ja_grammar`.
#![tactic(auto)]

mod context;
mod cursor;
mod held;
mod jump;
mod leaf;
mod literal;
mod name;
mod operator;
mod semicolon;
mod target;
mod tree;

pub use context::{
    function_context, labelled_context, loop_context, program_context, switch_context,
};
pub use cursor::Cursor;
pub use held::Held;
pub use jump::{break_statement, continue_statement, empty_statement};
pub use leaf::{
    dotted, element_close, literal_expression, name_expression, operand_close, this_expression,
};
pub use literal::property_name;
pub use name::{declared, function_name, parameters};
pub use operator::{
    LEVELS, assignment_operator, begins_property, begins_suffix, binary_operator, ends_clause,
    ends_return, is_close_brace, is_close_bracket, is_label, is_prefix, postfix_of, prefix_update,
    unary_operator,
};
pub use semicolon::ended;
pub use target::label;
pub use tree::{
    assign, chained, conditional, created, do_of, for_in_of, for_of, if_of, labelled_of, operated,
    sequence, taken, unary, update, while_of,
};
