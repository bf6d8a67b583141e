//! Whether a program is well formed.

ghost use Rattle.std.specs.Prelude.{◌↔◌, ◌<◌, IsTrue};
ghost use Rattle.ja_graph.specs.code.Parts as spec;
ghost use Rattle.ja_graph.specs.WellFormed.{IsWellFormed};

use crate::Program;
use crate::well_formed_functions::{are_functions_well_formed, have_few_nodes};
use crate::well_formed_names::{are_distinct, begin_with_builtin_names};
use crate::well_formed_opening::{are_objects_well_formed, have_objects};
use crate::well_formed_sites::{are_builtins, are_sites_numbered, are_unowned, name_functions};

/// The most sites that a program may have.
const MOST_SITES: usize = 393_216;

/// The most names that a program may have.
const MOST_NAMES: usize = 1_048_576;

/// Whether the functions of a program are those that it needs, each well formed.
fn has_functions(program: &Program) -> bool
    ensures { IsTrue result ↔ spec.HasFunctions program.now }
{
    let functions = program.functions.len();
    program.text_functions > 0
        && program.text_functions as usize <= functions
        && (program.value_first.0 as usize) < functions
        && (program.text_first.0 as usize) < functions
        && have_few_nodes(program.functions.as_slice())
        && are_functions_well_formed(program)
}

/// Whether the sites of a program are numbered and told, name functions of the program, and aren't
/// too many.
fn has_sites(program: &Program) -> bool
    ensures { IsTrue result ↔ spec.HasSites program.now }
{
    program.sites.len() <= MOST_SITES
        && are_builtins(program)
        && are_unowned(program)
        && name_functions(program, program.sites.as_slice())
        && are_sites_numbered(program)
}

/// Whether the opening heap of a program is well formed.
fn has_opening(program: &Program) -> bool
    ensures { IsTrue result ↔ spec.HasOpening program.now }
{
    are_objects_well_formed(program) && have_objects(program)
}

/// Whether the names of a program are those that it needs, each once, and not too many.
fn has_names(program: &Program) -> bool
    ensures { IsTrue result ↔ spec.HasNames program.now }
{
    let names = program.names.as_slice();
    names.len() <= MOST_NAMES && begin_with_builtin_names(names) && are_distinct(names)
}

/// Whether a program is well formed. It takes no memory. The time grows with the square of how many
/// names there are, of how many objects the opening heap has, and of how many properties one of
/// them has, and else with the size of the program.
pub fn well_formed(program: &Program) -> bool
    ensures { IsTrue result ↔ IsWellFormed program.now }
{
    has_functions(program) && has_sites(program) && has_opening(program) && has_names(program)
}
