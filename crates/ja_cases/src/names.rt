use crate::out::Out;
use ja_lower_names::{functions_in, names_in};
use ja_prim::Text16;
use ja_syntax::{FunctionTree, Hoisted, Statement, hoist, mentions_arguments};

/// Texts, each behind a space.
pub fn put_texts(out: &mut Out, texts: &[Text16]) {
    for text in texts {
        out.put(" ");
        out.put_units(text.units());
    }
}

/// What is hoisted.
fn put_each(out: &mut Out, hoisted: &Hoisted) {
    out.put("parameters");
    put_texts(out, hoisted.parameters.as_slice());
    out.put("; functions");
    for index in hoisted.functions.as_slice() {
        out.put_behind(" ", *index as u64);
    }
    out.put("; variables");
    put_texts(out, hoisted.variables.as_slice());
}

/// What a function hoists.
fn put_hoisted(out: &mut Out, function: &FunctionTree) {
    if let Ok(hoisted) = hoist(out.alloc, function) {
        put_each(out, &hoisted);
    }
    if mentions_arguments(function) {
        out.put("; arguments");
    }
}

/// What the functions among statements hoist: names, functions by the numbers of their statements.
pub fn put_all_hoisted(out: &mut Out, statements: &[Statement]) {
    for statement in statements {
        if let Statement::Function(function) = statement {
            put_hoisted(out, function);
        }
    }
}

/// The functions of statements by the numbers of their parameters.
fn put_functions(out: &mut Out, statements: &[Statement]) {
    if let Ok(functions) = functions_in(out.alloc, statements) {
        for function in functions.as_slice() {
            out.put_before(function.parameters.as_slice().len() as u64, "; ");
        }
    }
}

/// The functions of statements by the numbers of their parameters, and their names.
pub fn put_parts(out: &mut Out, statements: &[Statement]) {
    put_functions(out, statements);
    if let Ok(names) = names_in(out.alloc, statements) {
        for name in names.as_slice() {
            out.put_units(name.text.units());
            out.put(" ");
        }
    }
}
