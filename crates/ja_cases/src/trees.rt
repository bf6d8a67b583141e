//! The trees of texts, and what is made of them.

use crate::graphs::put_graphs;
use crate::listings::put_listing;
use crate::names::{put_all_hoisted, put_parts};
use crate::out::Out;
use ja_base::Place;
use ja_grammar::ParseFault;
use ja_parse::parse;
use ja_syntax::{Expression, Statement, Tree};
use std::fmt::Write;

/// What an expression is, in a word.
fn form_of(expression: &Expression) -> &'static str {
    match expression {
        Expression::Name(_) => "name",
        Expression::Literal { .. } => "literal",
        Expression::Chain { .. } => "chain",
        Expression::Update { .. } => "update",
        _ => "other",
    }
}

/// What a statement is, in a word.
fn kind_of(statement: &Statement) -> &'static str {
    match statement {
        Statement::Variables { .. } => "var",
        Statement::Expression { value, .. } => form_of(value),
        Statement::Return { value: None, .. } => "return",
        Statement::Function(_) => "function",
        _ => "other",
    }
}

/// What statements are.
fn put_kinds(out: &mut Out, statements: &[Statement]) {
    for statement in statements {
        out.put(kind_of(statement));
        out.put(" ");
    }
}

/// What statements are, and those in functions.
fn put_statements(out: &mut Out, statements: &[Statement]) {
    put_kinds(out, statements);
    for statement in statements {
        if let Statement::Function(function) = statement {
            out.put("{ ");
            put_kinds(out, function.body.as_slice());
            out.put("}");
        }
    }
}

/// A place.
pub fn put_place(out: &mut Out, place: Place) {
    out.put_before(u64::from(place.line), ":");
    out.put_number(u64::from(place.column));
}

/// Why a text has no tree.
pub fn put_fault(out: &mut Out, fault: ParseFault) {
    match fault {
        ParseFault::Syntax { place } => {
            out.put("syntax ");
            put_place(out, place);
        }
        ParseFault::Scope { kind, place } => {
            let _ = write!(out.text, "scope {kind:?} ");
            put_place(out, place);
        }
        ParseFault::Depth { place } => {
            out.put("depth ");
            put_place(out, place);
        }
        ParseFault::Memory => out.put("memory"),
    }
}

/// What is told of a tree, by its kind.
fn put_tree(out: &mut Out, kind: &str, number: usize, tree: &Tree) {
    let statements = tree.statements.as_slice();
    match kind {
        "tree" => put_statements(out, statements),
        "hoisted" => put_all_hoisted(out, statements),
        "names" => put_parts(out, statements),
        "listing" => put_listing(out, statements),
        _ => put_graphs(out, kind, number, tree),
    }
}

/// What is told of the tree of a text, or why it has none.
fn answer(out: &mut Out, kind: &str, number: usize, text: &str) {
    if text.len() > 16_777_216 {
        return;
    }
    match parse(out.alloc, text) {
        Ok(tree) => put_tree(out, kind, number, &tree),
        Err(fault) => put_fault(out, fault),
    }
}

/// Answers a row about a tree; some kinds have a number and a space before the text.
pub fn of_text(out: &mut Out, kind: &str, row: &str) {
    match kind {
        "operation" => of_number(out, kind, row),
        "next" => of_number(out, kind, row),
        "columns" => of_number(out, kind, row),
        _ => answer(out, kind, 0, row),
    }
}

/// Answers a row with a number.
fn of_number(out: &mut Out, kind: &str, row: &str) {
    if let Some((number, text)) = row.split_once(' ') {
        if let Ok(number) = number.parse::<usize>() {
            answer(out, kind, number, text);
        }
    }
}
