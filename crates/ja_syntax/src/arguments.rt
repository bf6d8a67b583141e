//! Whether a function looks the name `arguments` up (ES3 10.1.8).

ghost use Rattle.std.specs.Prelude.{◌≡◌, ◌||◌};
ghost use Rattle.std.specs.List.{list_any};
ghost use Rattle.ja_syntax.specs.Arguments as spec;
ghost use Rattle.ja_syntax.specs.code.Arguments as code;
ghost use Rattle.ja_syntax.specs.code.Mentions as mentions;

use crate::symbols::names_arguments;
use crate::tree::{
    Case, Declaration, Expression, ForFirst, ForTarget, FunctionTree, Operation, Property,
    Statement, Suffix,
};
use sqlite_items::Boxed;

/// Whether an expression mentions `arguments`.
#[cycle(expressions)]
#[tactic(auto, using(crate::proofs::Rulesets::for_in_expression))]
fn in_expression(expression: &Expression) -> bool
    ensures { result ≡ code.in_expression expression.now }
{
    match expression {
        Expression::This { .. } => false,
        Expression::Name(name) => names_arguments(name.text.units()),
        Expression::Literal { .. } => false,
        Expression::Array { elements, .. } => in_elements(elements.as_slice()),
        Expression::Object { properties, .. } => in_properties(properties.as_slice()),
        Expression::Function(_) => false,
        Expression::Chain { head, suffixes } => {
            in_expression(head.get()) || in_suffixes(suffixes.as_slice())
        }
        Expression::New {
            callee,
            arguments,
            ..
        } => in_expression(callee.get()) || in_expressions(arguments.as_slice()),
        Expression::Unary { operand, .. } => in_expression(operand.get()),
        Expression::Update { operand, .. } => in_expression(operand.get()),
        Expression::Binary {
            first,
            operations,
            ..
        } => in_expression(first.get()) || in_operations(operations.as_slice()),
        Expression::Conditional {
            condition,
            then,
            otherwise,
            ..
        } => {
            in_expression(condition.get())
                || in_expression(then.get())
                || in_expression(otherwise.get())
        }
        Expression::Assign { target, value, .. } => {
            in_expression(target.get()) || in_expression(value.get())
        }
        Expression::Sequence { first, others, .. } => {
            in_expression(first.get()) || in_expressions(others.as_slice())
        }
    }
}

#[cycle(expressions)]
fn in_expressions(expressions: &[Expression]) -> bool
    ensures { result ≡ list_any code.in_expression expressions.now }
{
    for expression in expressions {
        if in_expression(expression) {
            return true;
        }
    }
    false
}

#[cycle(expressions)]
fn in_elements(elements: &[Option<Expression>]) -> bool
    ensures { result ≡ list_any mentions.optional_mentions elements.now }
{
    for element in elements {
        if let Some(expression) = element {
            if in_expression(expression) {
                return true;
            }
        }
    }
    false
}

#[cycle(expressions)]
fn in_properties(properties: &[Property<Expression>]) -> bool
    ensures { result ≡ list_any (λ p. code.in_expression p.value) properties.now }
{
    for property in properties {
        if in_expression(&property.value) {
            return true;
        }
    }
    false
}

#[cycle(expressions)]
fn in_operations(operations: &[Operation<Expression>]) -> bool
    ensures { result ≡ list_any (λ o. code.in_expression o.right) operations.now }
{
    for operation in operations {
        if in_expression(&operation.right) {
            return true;
        }
    }
    false
}

#[cycle(expressions)]
fn in_suffixes(suffixes: &[Suffix<Expression>]) -> bool
    ensures { result ≡ list_any mentions.suffix_mentions suffixes.now }
{
    for suffix in suffixes {
        let found = match suffix {
            Suffix::Member { .. } => false,
            Suffix::Index { key, .. } => in_expression(key),
            Suffix::Call { arguments, .. } => in_expressions(arguments.as_slice()),
        };
        if found {
            return true;
        }
    }
    false
}

fn in_optional(expression: &Option<Expression>) -> bool
    ensures { result ≡ mentions.optional_mentions expression.now }
{
    match expression {
        None => false,
        Some(expression) => in_expression(expression),
    }
}

fn in_optional_boxed(expression: &Option<Boxed<Expression>>) -> bool
    ensures { result ≡ mentions.optional_mentions expression.now }
{
    match expression {
        None => false,
        Some(expression) => in_expression(expression.get()),
    }
}

fn in_declaration(declaration: &Declaration<Expression>) -> bool
    ensures { result ≡ mentions.declaration_mentions declaration.now }
{
    match &declaration.initialiser {
        None => false,
        Some(initialiser) => in_expression(&initialiser.value),
    }
}

fn in_declarations(declarations: &[Declaration<Expression>]) -> bool
    ensures { result ≡ list_any mentions.declaration_mentions declarations.now }
{
    for declaration in declarations {
        if in_declaration(declaration) {
            return true;
        }
    }
    false
}

fn in_first(first: &ForFirst<Expression>) -> bool
    ensures { result ≡ mentions.first_mentions first.now }
{
    match first {
        ForFirst::Nothing => false,
        ForFirst::Expression(value) => in_expression(value),
        ForFirst::Variables(declarations) => in_declarations(declarations.as_slice()),
    }
}

fn in_target(target: &ForTarget<Expression>) -> bool
    ensures { result ≡ mentions.target_mentions target.now }
{
    match target {
        ForTarget::Variable(declaration) => in_declaration(declaration),
        ForTarget::Reference(value) => in_expression(value),
    }
}

/// Whether a statement mentions `arguments`.
#[cycle(statements)]
#[tactic(auto, using(crate::proofs::Rulesets::for_in_statement))]
fn in_statement(statement: &Statement) -> bool
    ensures { result ≡ spec.in_statement statement.now }
{
    match statement {
        Statement::Block { body, .. } => in_statements(body.as_slice()),
        Statement::Variables { declarations, .. } => in_declarations(declarations.as_slice()),
        Statement::Empty { .. } => false,
        Statement::Expression { value, .. } => in_expression(value),
        Statement::If {
            condition,
            then,
            otherwise,
            ..
        } => {
            let in_otherwise = match otherwise {
                None => false,
                Some(otherwise) => in_statement(otherwise.get()),
            };
            in_otherwise || in_expression(condition) || in_statement(then.get())
        }
        Statement::Do {
            body,
            condition,
            ..
        } => in_statement(body.get()) || in_expression(condition),
        Statement::While {
            condition,
            body,
            ..
        } => in_expression(condition) || in_statement(body.get()),
        Statement::For {
            first,
            condition,
            update,
            body,
            ..
        } => {
            if in_first(first) {
                return true;
            }
            if in_optional_boxed(condition) {
                return true;
            }
            if in_optional_boxed(update) {
                return true;
            }
            in_statement(body.get())
        }
        Statement::ForIn {
            target,
            object,
            body,
            ..
        } => in_target(target) || in_expression(object.get()) || in_statement(body.get()),
        Statement::Continue { .. } => false,
        Statement::Break { .. } => false,
        Statement::Return { value, .. } => in_optional(value),
        Statement::Labelled { body, .. } => in_statement(body.get()),
        Statement::Switch { value, cases, .. } => in_expression(value)
            || in_cases(cases.as_slice()),
        Statement::Throw { value, .. } => in_expression(value),
        Statement::Try {
            block,
            catch,
            finally,
            ..
        } => {
            in_statements(block.as_slice())
                || match (catch, finally) {
                    (None, None) => false,
                    (Some(catch), None) => in_statements(catch.body.as_slice()),
                    (None, Some(body)) => in_statements(body.as_slice()),
                    (Some(catch), Some(body)) => {
                        in_statements(catch.body.as_slice()) || in_statements(body.as_slice())
                    }
                }
        }
        Statement::Function(_) => false,
    }
}

#[cycle(statements)]
fn in_statements(statements: &[Statement]) -> bool
    ensures { result ≡ list_any spec.in_statement statements.now }
{
    for statement in statements {
        if in_statement(statement) {
            return true;
        }
    }
    false
}

#[cycle(statements)]
fn in_cases(cases: &[Case]) -> bool
    ensures { result ≡ list_any code.in_case cases.now }
{
    for case in cases {
        if in_case(case) {
            return true;
        }
    }
    false
}

#[cycle(statements)]
#[tactic(auto, using(crate::proofs::ArgumentsInStatements::in_case_is))]
fn in_case(case: &Case) -> bool
    ensures { result ≡ code.in_case case.now }
{
    in_optional(&case.test) || in_statements(case.body.as_slice())
}

/// Whether the body of a function looks the name `arguments` up, functions inside it left out.
/// It takes no memory.
#[tactic(auto, unfolding(crate::specs::Arguments::mentions_arguments))]
pub fn mentions_arguments(function: &FunctionTree) -> bool
    ensures { result ≡ spec.mentions_arguments function.now.body }
{
    in_statements(function.body.as_slice())
}
