//! The functions of a text and its names, in the order of the text.

ghost use Rattle.std.specs.Prelude.{◌≡◌, ◌++◌, map, IfOk, OnOk};
ghost use Rattle.std.specs.List.{flat_map};
ghost use Rattle.ja_lower_names.specs.TextOrder as spec;
ghost use Rattle.ja_lower_names.specs.code.TextOrder as code;
ghost use Rattle.ja_lower_names.specs.code.TextParts.{named_of};

use crate::text_order_parts::{Named, Parts};
use ja_base::Memory;
use ja_prim::Primitive;
use ja_syntax::{
    Case, CatchOf, Declaration, Expression, ForFirst, ForTarget, FunctionTree, Initialiser, Name,
    Operation, Property, PropertyName, Statement, Suffix,
};
use sqlite_items::{Boxed, Items};
use std::alloc::Global;

/// A string is a name of the program; any other literal is none.
fn add_literal<'a>(parts: &mut Parts<'a>, value: &'a Primitive) -> Result<(), Memory>
    ensures { OnOk result (parts.new ≡ parts.old ++ spec.in_literal value.now) }
{
    match value {
        Primitive::Text(text) => parts.add_name(text),
        _ => Ok(()),
    }
}

/// The name of a property is a name of the program, but for a number.
fn add_property_name<'a>(parts: &mut Parts<'a>, name: &'a PropertyName) -> Result<(), Memory>
    ensures { OnOk result (parts.new ≡ parts.old ++ spec.in_property_name name.now) }
{
    match name {
        PropertyName::Word(text) => parts.add_name(text),
        PropertyName::Text(text) => parts.add_name(text),
        PropertyName::Number(_) => Ok(()),
    }
}

fn add_identifiers<'a>(parts: &mut Parts<'a>, names: &'a [Name]) -> Result<(), Memory>
    ensures { OnOk result (parts.new ≡ parts.old ++ flat_map spec.in_name names.now) }
{
    for name in names {
        parts.add_name(&name.text)?;
    }
    Ok(())
}

fn add_identifier<'a>(parts: &mut Parts<'a>, name: &'a Option<Name>) -> Result<(), Memory>
    ensures { OnOk result (parts.new ≡ parts.old ++ spec.if_any spec.in_name name.now) }
{
    match name {
        None => Ok(()),
        Some(name) => parts.add_name(&name.text),
    }
}

/// Adds the parts of an expression.
#[cycle(text)]
#[tactic(auto, using(crate::proofs::Rulesets::for_add_expression))]
fn add_expression<'a>(parts: &mut Parts<'a>, expression: &'a Expression) -> Result<(), Memory>
    ensures { OnOk result (parts.new ≡ parts.old ++ code.in_expression expression.now) }
{
    match expression {
        Expression::This { .. } => Ok(()),
        Expression::Name(name) => parts.add_variable(&name.text),
        Expression::Literal { value, .. } => add_literal(parts, value),
        Expression::Array { elements, .. } => add_elements(parts, elements.as_slice()),
        Expression::Object { properties, .. } => add_properties(parts, properties.as_slice()),
        Expression::Function(function) => add_function(parts, function.get()),
        Expression::Chain { head, suffixes } => {
            add_expression(parts, head.get())?;
            add_suffixes(parts, suffixes.as_slice())
        }
        Expression::New {
            callee,
            arguments,
            ..
        } => {
            add_expression(parts, callee.get())?;
            add_expressions(parts, arguments.as_slice())
        }
        Expression::Unary { operand, .. } => add_expression(parts, operand.get()),
        Expression::Update { operand, .. } => add_expression(parts, operand.get()),
        Expression::Binary {
            first,
            operations,
            ..
        } => {
            add_expression(parts, first.get())?;
            add_operations(parts, operations.as_slice())
        }
        Expression::Conditional {
            condition,
            then,
            otherwise,
            ..
        } => {
            add_expression(parts, condition.get())?;
            add_expression(parts, then.get())?;
            add_expression(parts, otherwise.get())
        }
        Expression::Assign { target, value, .. } => {
            add_expression(parts, target.get())?;
            add_expression(parts, value.get())
        }
        Expression::Sequence { first, others, .. } => {
            add_expression(parts, first.get())?;
            add_expressions(parts, others.as_slice())
        }
    }
}

#[cycle(text)]
fn add_expressions<'a>(parts: &mut Parts<'a>, expressions: &'a [Expression]) -> Result<(), Memory>
    ensures { OnOk result (parts.new ≡ parts.old ++ flat_map code.in_expression expressions.now) }
{
    for expression in expressions {
        add_expression(parts, expression)?;
    }
    Ok(())
}

#[cycle(text)]
fn add_optional<'a>(parts: &mut Parts<'a>, expression: &'a Option<Expression>) -> Result<(), Memory>
    ensures { OnOk result (parts.new ≡ parts.old ++ spec.if_any code.in_expression expression.now) }
{
    match expression {
        None => Ok(()),
        Some(expression) => add_expression(parts, expression),
    }
}

#[cycle(text)]
fn add_optional_boxed<'a>(
    parts: &mut Parts<'a>,
    expression: &'a Option<Boxed<Expression>>,
) -> Result<(), Memory>
    ensures { OnOk result (parts.new ≡ parts.old ++ spec.if_any code.in_expression expression.now) }
{
    match expression {
        None => Ok(()),
        Some(expression) => add_expression(parts, expression.get()),
    }
}

#[cycle(text)]
fn add_elements<'a>(parts: &mut Parts<'a>, elements: &'a [Option<Expression>]) -> Result<(), Memory>
    ensures { OnOk result (parts.new ≡ parts.old
        ++ flat_map (spec.if_any code.in_expression) elements.now) }
{
    for element in elements {
        add_optional(parts, element)?;
    }
    Ok(())
}

#[cycle(text)]
fn add_property<'a>(parts: &mut Parts<'a>, property: &'a Property<Expression>) -> Result<(), Memory>
    ensures { OnOk result (parts.new ≡ parts.old
        ++ spec.in_property code.in_expression property.now) }
{
    add_property_name(parts, &property.name)?;
    add_expression(parts, &property.value)
}

#[cycle(text)]
fn add_properties<'a>(
    parts: &mut Parts<'a>,
    properties: &'a [Property<Expression>],
) -> Result<(), Memory>
    ensures { OnOk result (parts.new ≡ parts.old
        ++ flat_map (spec.in_property code.in_expression) properties.now) }
{
    for property in properties {
        add_property(parts, property)?;
    }
    Ok(())
}

#[cycle(text)]
fn add_operations<'a>(
    parts: &mut Parts<'a>,
    operations: &'a [Operation<Expression>],
) -> Result<(), Memory>
    ensures { OnOk result (parts.new ≡ parts.old
        ++ flat_map (spec.in_operation code.in_expression) operations.now) }
{
    for operation in operations {
        add_expression(parts, &operation.right)?;
    }
    Ok(())
}

#[cycle(text)]
fn add_suffix<'a>(parts: &mut Parts<'a>, suffix: &'a Suffix<Expression>) -> Result<(), Memory>
    ensures { OnOk result (parts.new ≡ parts.old ++ spec.in_suffix code.in_expression suffix.now) }
{
    match suffix {
        Suffix::Member { name, .. } => parts.add_name(&name.text),
        Suffix::Index { key, .. } => add_expression(parts, key),
        Suffix::Call { arguments, .. } => add_expressions(parts, arguments.as_slice()),
    }
}

#[cycle(text)]
fn add_suffixes<'a>(parts: &mut Parts<'a>, suffixes: &'a [Suffix<Expression>]) -> Result<(), Memory>
    ensures { OnOk result (parts.new ≡ parts.old
        ++ flat_map (spec.in_suffix code.in_expression) suffixes.now) }
{
    for suffix in suffixes {
        add_suffix(parts, suffix)?;
    }
    Ok(())
}

/// Adds a function, and behind it its parts.
#[cycle(text)]
fn add_function<'a>(parts: &mut Parts<'a>, function: &'a FunctionTree) -> Result<(), Memory>
    ensures { OnOk result (parts.new ≡ parts.old ++ spec.function_parts function.now) }
{
    parts.add_function(function)?;
    add_identifier(parts, &function.name)?;
    add_identifiers(parts, function.parameters.as_slice())?;
    add_statements(parts, function.body.as_slice())
}

#[cycle(text)]
fn add_initialiser<'a>(
    parts: &mut Parts<'a>,
    initialiser: &'a Option<Initialiser<Expression>>,
) -> Result<(), Memory>
    ensures { OnOk result (parts.new ≡ parts.old
        ++ spec.if_any (spec.in_initialiser code.in_expression) initialiser.now) }
{
    match initialiser {
        None => Ok(()),
        Some(initialiser) => add_expression(parts, &initialiser.value),
    }
}

#[cycle(text)]
fn add_declaration<'a>(
    parts: &mut Parts<'a>,
    declaration: &'a Declaration<Expression>,
) -> Result<(), Memory>
    ensures { OnOk result (parts.new ≡ parts.old
        ++ spec.in_declaration code.in_expression declaration.now) }
{
    parts.add_name(&declaration.name.text)?;
    add_initialiser(parts, &declaration.initialiser)
}

#[cycle(text)]
fn add_declarations<'a>(
    parts: &mut Parts<'a>,
    declarations: &'a [Declaration<Expression>],
) -> Result<(), Memory>
    ensures { OnOk result (parts.new ≡ parts.old
        ++ flat_map (spec.in_declaration code.in_expression) declarations.now) }
{
    for declaration in declarations {
        add_declaration(parts, declaration)?;
    }
    Ok(())
}

#[cycle(text)]
fn add_first<'a>(parts: &mut Parts<'a>, first: &'a ForFirst<Expression>) -> Result<(), Memory>
    ensures { OnOk result (parts.new ≡ parts.old ++ spec.in_first code.in_expression first.now) }
{
    match first {
        ForFirst::Nothing => Ok(()),
        ForFirst::Expression(value) => add_expression(parts, value),
        ForFirst::Variables(declarations) => add_declarations(parts, declarations.as_slice()),
    }
}

#[cycle(text)]
fn add_target<'a>(parts: &mut Parts<'a>, target: &'a ForTarget<Expression>) -> Result<(), Memory>
    ensures { OnOk result (parts.new ≡ parts.old ++ spec.in_target code.in_expression target.now) }
{
    match target {
        ForTarget::Variable(declaration) => add_declaration(parts, declaration),
        ForTarget::Reference(value) => add_expression(parts, value),
    }
}

/// Adds the parts of a statement.
#[cycle(text)]
#[tactic(auto, using(crate::proofs::Rulesets::for_add_statement))]
fn add_statement<'a>(parts: &mut Parts<'a>, statement: &'a Statement) -> Result<(), Memory>
    ensures { OnOk result (parts.new ≡ parts.old ++ spec.in_statement statement.now) }
{
    match statement {
        Statement::Block { body, .. } => add_statements(parts, body.as_slice()),
        Statement::Variables { declarations, .. } => {
            add_declarations(parts, declarations.as_slice())
        }
        Statement::Empty { .. } => Ok(()),
        Statement::Expression { value, .. } => add_expression(parts, value),
        Statement::If {
            condition,
            then,
            otherwise,
            ..
        } => {
            add_expression(parts, condition)?;
            add_statement(parts, then.get())?;
            add_otherwise(parts, otherwise)
        }
        Statement::Do {
            body,
            condition,
            ..
        } => {
            add_statement(parts, body.get())?;
            add_expression(parts, condition)
        }
        Statement::While {
            condition,
            body,
            ..
        } => {
            add_expression(parts, condition)?;
            add_statement(parts, body.get())
        }
        Statement::For {
            first,
            condition,
            update,
            body,
            ..
        } => {
            add_first(parts, first)?;
            add_optional_boxed(parts, condition)?;
            add_optional_boxed(parts, update)?;
            add_statement(parts, body.get())
        }
        Statement::ForIn {
            target,
            object,
            body,
            ..
        } => {
            add_target(parts, target)?;
            add_expression(parts, object.get())?;
            add_statement(parts, body.get())
        }
        Statement::Continue { .. } => Ok(()),
        Statement::Break { .. } => Ok(()),
        Statement::Return { value, .. } => add_optional(parts, value),
        Statement::Labelled { body, .. } => add_statement(parts, body.get()),
        Statement::Switch { value, cases, .. } => {
            add_expression(parts, value)?;
            add_cases(parts, cases.as_slice())
        }
        Statement::Throw { value, .. } => add_expression(parts, value),
        Statement::Try {
            block,
            catch,
            finally,
            ..
        } => {
            add_statements(parts, block.as_slice())?;
            add_catch(parts, catch)?;
            add_finally(parts, finally)
        }
        Statement::Function(function) => add_function(parts, function),
    }
}

#[cycle(text)]
fn add_otherwise<'a>(
    parts: &mut Parts<'a>,
    otherwise: &'a Option<Boxed<Statement>>,
) -> Result<(), Memory>
    ensures { OnOk result (parts.new ≡ parts.old ++ spec.if_any spec.in_statement otherwise.now) }
{
    match otherwise {
        None => Ok(()),
        Some(otherwise) => add_statement(parts, otherwise.get()),
    }
}

#[cycle(text)]
fn add_catch<'a>(parts: &mut Parts<'a>, catch: &'a Option<CatchOf<Statement>>) -> Result<(), Memory>
    ensures { OnOk result (parts.new ≡ parts.old
        ++ spec.if_any (spec.in_catch spec.in_statement) catch.now) }
{
    match catch {
        None => Ok(()),
        Some(catch) => {
            parts.add_name(&catch.parameter.text)?;
            add_statements(parts, catch.body.as_slice())
        }
    }
}

#[cycle(text)]
fn add_finally<'a>(
    parts: &mut Parts<'a>,
    finally: &'a Option<Items<Statement>>,
) -> Result<(), Memory>
    ensures { OnOk result (parts.new ≡ parts.old
        ++ spec.if_any (flat_map spec.in_statement) finally.now) }
{
    match finally {
        None => Ok(()),
        Some(body) => add_statements(parts, body.as_slice()),
    }
}

#[cycle(text)]
fn add_statements<'a>(parts: &mut Parts<'a>, statements: &'a [Statement]) -> Result<(), Memory>
    ensures { OnOk result (parts.new ≡ parts.old ++ flat_map spec.in_statement statements.now) }
{
    for statement in statements {
        add_statement(parts, statement)?;
    }
    Ok(())
}

#[cycle(text)]
#[tactic(auto, using(crate::proofs::TextOrderLemmas::of_case))]
fn add_case<'a>(parts: &mut Parts<'a>, case: &'a Case) -> Result<(), Memory>
    ensures { OnOk result (parts.new ≡ parts.old ++ code.in_case case.now) }
{
    add_optional(parts, &case.test)?;
    add_statements(parts, case.body.as_slice())
}

#[cycle(text)]
fn add_cases<'a>(parts: &mut Parts<'a>, cases: &'a [Case]) -> Result<(), Memory>
    ensures { OnOk result (parts.new ≡ parts.old ++ flat_map code.in_case cases.now) }
{
    for case in cases {
        add_case(parts, case)?;
    }
    Ok(())
}

/// The functions of a text: a function stands before those in it, and else each stands where its
/// word `function` does. `Err` comes where memory is refused, and only then.
#[tactic(auto, unfolding(crate::specs::TextOrder::functions_in))]
pub fn functions_in<'a>(
    alloc: Global,
    statements: &'a [Statement],
) -> Result<Vec<&'a FunctionTree>, Memory>
    ensures { IfOk result (λ fs. map (λ f. f.now) fs.items ≡ spec.functions_in statements.now) }
{
    let mut parts = Parts::new(alloc);
    add_statements(&mut parts, statements)?;
    parts.functions(alloc)
}

/// The names of a text, in its order, each as often as it stands there: identifiers but labels,
/// strings, and the names of properties; with each whether it is a variable there. `Err` comes
/// where memory is refused, and only then.
#[tactic(auto, unfolding(crate::specs::TextOrder::names_in))]
pub fn names_in<'a>(alloc: Global, statements: &'a [Statement]) -> Result<Vec<Named<'a>>, Memory>
    ensures { IfOk result (λ names. map named_of names.items ≡ spec.names_in statements.now) }
{
    let mut parts = Parts::new(alloc);
    add_statements(&mut parts, statements)?;
    parts.names(alloc)
}
