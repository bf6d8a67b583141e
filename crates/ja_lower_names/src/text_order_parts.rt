//! Parts of a text in a row.

ghost use Rattle.std.specs.Prelude.{◌≡◌, ◌++◌, ◌∷◌, [], map, IfOk, OnOk};
ghost use Rattle.std.specs.List.{flat_map};
ghost use Rattle.ja_lower_names.specs.TextOrder as spec;
ghost use Rattle.ja_lower_names.specs.code.TextParts.{named_of};

use ja_base::Memory;
use ja_prim::Text16;
use ja_syntax::FunctionTree;
use std::alloc::Global;
use std::marker::Model;

/// A name where it stands in a text, and whether it is an expression there, that is, a variable.
#[derive(Clone, Copy)]
pub struct Named<'a> {
    pub text: &'a Text16,
    pub variable: bool,
}

/// A function of a text, or a name.
#[derive(Drop)]
enum Part<'a> {
    Function(&'a FunctionTree),
    Name(Named<'a>),
}

/// Parts of a text, in their order. Contracts see their list.
#[derive(Drop)]
pub(crate) struct Parts<'a> {
    row: Vec<Part<'a>>,
}

impl<'a> Model for Parts<'a> {
    ghost use Rattle.std.specs.Prelude.{map};
    ghost use Rattle.std.specs.Coded.{codes};
    ghost use Rattle.ja_syntax.specs.contracts.tree.Statement as statement;
    ghost use Rattle.ja_lower_names.specs.TextOrder as spec;

    ghost Value = { spec.Parts };

    ghost coded = { Prim.hlevel (codes, statement.the_row.coded) };

    ghost use Rattle.ja_lower_names.specs.code.TextParts.{part_of};

    ghost view = { λ p. map part_of p.row.items };
}

impl<'a> Parts<'a> {
    /// No parts.
    pub(crate) fn new(alloc: Global) -> Self
        ensures { result ≡ [] }
    {
        Parts {
            row: Vec::new(alloc),
        }
    }

    /// Adds a function.
    pub(crate) fn add_function(&mut self, function: &'a FunctionTree) -> Result<(), Memory>
        ensures { OnOk result (self.new ≡ self.old ++ spec.a_function function.now ∷ []) }
    {
        self.row.push(Part::Function(function))?;
        Ok(())
    }

    /// Adds a name that is no variable.
    pub(crate) fn add_name(&mut self, text: &'a Text16) -> Result<(), Memory>
        ensures { OnOk result (self.new ≡ self.old ++ spec.one_name text.now) }
    {
        self.row.push(Part::Name(Named {
            text,
            variable: false,
        }))?;
        Ok(())
    }

    /// Adds the name of a variable.
    pub(crate) fn add_variable(&mut self, text: &'a Text16) -> Result<(), Memory>
        ensures { OnOk result (self.new ≡ self.old ++ spec.one_variable text.now) }
    {
        self.row.push(Part::Name(Named {
            text,
            variable: true,
        }))?;
        Ok(())
    }

    /// The functions among them.
    pub(crate) fn functions(&self, alloc: Global) -> Result<Vec<&'a FunctionTree>, Memory>
        ensures { IfOk result (λ fs. map (λ f. f.now) fs.items ≡ flat_map spec.if_function self.now) }
    {
        let mut functions = Vec::new(alloc);
        for part in &self.row {
            if let Part::Function(function) = part {
                functions.push(*function)?;
            }
        }
        Ok(functions)
    }

    /// The names among them.
    pub(crate) fn names(&self, alloc: Global) -> Result<Vec<Named<'a>>, Memory>
        ensures { IfOk result (λ names. map named_of names.items ≡ flat_map spec.if_name self.now) }
    {
        let mut names = Vec::new(alloc);
        for part in &self.row {
            if let Part::Name(named) = part {
                names.push(*named)?;
            }
        }
        Ok(names)
    }
}
