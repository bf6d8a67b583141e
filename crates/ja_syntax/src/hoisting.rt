//! What a function or the program declares before its statements run (ES3 10.1.3).

ghost use Rattle.std.specs.Prelude.{◌≡◌, IfOk, OnOk};
ghost use Rattle.std.specs.List.{flat_map, fold};
ghost use Rattle.ja_syntax.specs.code.Hoisted.{with_name};
ghost use Rattle.ja_syntax.specs.Hoisted as spec;
ghost use Rattle.ja_syntax.specs.code.Hoisted as code;

use crate::names::Names;
use crate::tree::{
    Case, Declaration, Expression, ForFirst, ForTarget, FunctionTree, Name, Statement,
};
use ja_base::{Memory, Seq};
use ja_prim::Text16;
use std::alloc::Global;

/// What a function declares before its statements run, in the order of 10.1.3.
#[derive(Drop)]
pub struct Hoisted {
    /// The names of the parameters, in order. A name may stand in it twice.
    pub parameters: Seq<Text16>,
    /// The function declarations, in the order of the text, each by its index in the statements of
    /// the body. They stand in no other statement.
    pub functions: Seq<usize>,
    /// The names of all `var` in the body but in functions inside it, each once, in the order in
    /// which the text has them first.
    pub variables: Seq<Text16>,
}

/// Adds the names of a `var` (12.2).
fn add_declared<'a>(
    names: &mut Names<'a>,
    declarations: &'a [Declaration<Expression>],
) -> Result<(), Memory>
    ensures { OnOk result (names.new ≡ fold with_name names.old
        (spec.declared_names declarations.now)) }
{
    for declaration in declarations {
        names.add(&declaration.name.text)?;
    }
    Ok(())
}

/// Adds the names of the head of a `for` (12.6.3).
fn add_first<'a>(names: &mut Names<'a>, first: &'a ForFirst<Expression>) -> Result<(), Memory>
    ensures { OnOk result (names.new ≡ fold with_name names.old (spec.first_names first.now)) }
{
    match first {
        ForFirst::Nothing => Ok(()),
        ForFirst::Expression(_) => Ok(()),
        ForFirst::Variables(declarations) => add_declared(names, declarations.as_slice()),
    }
}

/// Adds the name of the head of a `for`-`in` (12.6.4).
fn add_target<'a>(names: &mut Names<'a>, target: &'a ForTarget<Expression>) -> Result<(), Memory>
    ensures { OnOk result (names.new ≡ fold with_name names.old (spec.target_names target.now)) }
{
    match target {
        ForTarget::Variable(declaration) => names.add(&declaration.name.text),
        ForTarget::Reference(_) => Ok(()),
    }
}

/// Adds the names that a statement declares by `var`.
#[cycle(variables)]
#[tactic(auto, using(crate::proofs::Rulesets::for_add_statement))]
fn add_statement<'a>(names: &mut Names<'a>, statement: &'a Statement) -> Result<(), Memory>
    ensures { OnOk result (names.new ≡ fold with_name names.old (spec.variables_of statement.now)) }
{
    match statement {
        Statement::Block { body, .. } => add_statements(names, body.as_slice()),
        Statement::Variables { declarations, .. } => add_declared(names, declarations.as_slice()),
        Statement::Empty { .. } => Ok(()),
        Statement::Expression { .. } => Ok(()),
        Statement::If {
            then,
            otherwise,
            ..
        } => match otherwise {
            None => add_statement(names, then.get()),
            Some(otherwise) => {
                add_statement(names, then.get())?;
                add_statement(names, otherwise.get())
            }
        },
        Statement::Do { body, .. } => add_statement(names, body.get()),
        Statement::While { body, .. } => add_statement(names, body.get()),
        Statement::For { first, body, .. } => {
            add_first(names, first)?;
            add_statement(names, body.get())
        }
        Statement::ForIn { target, body, .. } => {
            add_target(names, target)?;
            add_statement(names, body.get())
        }
        Statement::Continue { .. } => Ok(()),
        Statement::Break { .. } => Ok(()),
        Statement::Return { .. } => Ok(()),
        Statement::Labelled { body, .. } => add_statement(names, body.get()),
        Statement::Switch { cases, .. } => add_cases(names, cases.as_slice()),
        Statement::Throw { .. } => Ok(()),
        Statement::Try {
            block,
            catch,
            finally,
            ..
        } => {
            add_statements(names, block.as_slice())?;
            match (catch, finally) {
                (None, None) => Ok(()),
                (Some(catch), None) => add_statements(names, catch.body.as_slice()),
                (None, Some(body)) => add_statements(names, body.as_slice()),
                (Some(catch), Some(body)) => {
                    add_statements(names, catch.body.as_slice())?;
                    add_statements(names, body.as_slice())
                }
            }
        }
        Statement::Function(_) => Ok(()),
    }
}

#[cycle(variables)]
fn add_statements<'a>(names: &mut Names<'a>, statements: &'a [Statement]) -> Result<(), Memory>
    ensures { OnOk result (names.new ≡ fold with_name names.old
        (flat_map spec.variables_of statements.now)) }
{
    for statement in statements {
        add_statement(names, statement)?;
    }
    Ok(())
}

#[cycle(variables)]
fn add_cases<'a>(names: &mut Names<'a>, cases: &'a [Case]) -> Result<(), Memory>
    ensures { OnOk result (names.new ≡ fold with_name names.old
        (flat_map code.case_variables cases.now)) }
{
    for case in cases {
        add_case(names, case)?;
    }
    Ok(())
}

#[cycle(variables)]
#[tactic(auto, using(crate::proofs::HoistedLemmas::of_case))]
fn add_case<'a>(names: &mut Names<'a>, case: &'a Case) -> Result<(), Memory>
    ensures { OnOk result (names.new ≡ fold with_name names.old (code.case_variables case.now)) }
{
    add_statements(names, case.body.as_slice())
}

/// The variables of a body or of the program: the names of all `var` in the statements but in
/// functions inside them, each once, in the order in which the text has them first.
#[tactic(auto, using(crate::proofs::NamesLemmas::hoisted_once))]
pub fn hoisted_variables(alloc: Global, statements: &[Statement]) -> Result<Seq<Text16>, Memory>
    ensures { IfOk result (λ names. names ≡ spec.hoisted_variables statements.now) }
{
    let mut names = Names::new(alloc);
    add_statements(&mut names, statements)?;
    names.texts(alloc)
}

/// Whether a statement is a function declaration (13).
#[tactic(auto, unfolding(crate::specs::code::Hoisted::is_function))]
pub fn is_function(statement: &Statement) -> bool
    ensures { result ≡ code.is_function statement.now }
{
    matches!(statement, Statement::Function(_))
}

/// The function declarations of a body or of the program, by their indices in the statements, in
/// order.
#[tactic(auto, unfolding(crate::specs::code::Hoisted::hoisted_functions))]
pub fn hoisted_functions(alloc: Global, statements: &[Statement]) -> Result<Seq<usize>, Memory>
    ensures { IfOk result (λ functions. functions ≡ code.hoisted_functions statements.now) }
{
    let mut functions = Vec::new(alloc);
    for (index, statement) in statements.iter().enumerate() {
        if is_function(statement) {
            functions.push(index)?;
        }
    }
    Ok(Seq::from_vec(functions))
}

fn parameter_names(alloc: Global, parameters: &[Name]) -> Result<Seq<Text16>, Memory>
    ensures { IfOk result (λ names. names ≡ code.parameter_names parameters.now) }
{
    let mut names = Vec::new(alloc);
    for parameter in parameters {
        names.push(parameter.text.copy()?)?;
    }
    Ok(Seq::from_vec(names))
}

/// What a function declares before its statements run (10.1.3). `Err` comes where memory is
/// refused, and only then.
pub fn hoist(alloc: Global, function: &FunctionTree) -> Result<Hoisted, Memory>
    ensures parameters { IfOk result (λ h. h.parameters
        ≡ code.parameter_names function.now.parameters) }
    ensures functions { IfOk result (λ h. h.functions ≡ code.hoisted_functions function.now.body) }
    ensures variables { IfOk result (λ h. h.variables ≡ spec.hoisted_variables function.now.body) }
{
    let parameters = parameter_names(alloc, function.parameters.as_slice())?;
    let functions = hoisted_functions(alloc, function.body.as_slice())?;
    let variables = hoisted_variables(alloc, function.body.as_slice())?;
    Ok(Hoisted {
        parameters,
        functions,
        variables,
    })
}
