//! What the program says of the site of a label.

ghost use Rattle.std.specs.Prelude.{◌≡◌};
ghost use Rattle.ja_machine.specs.Machine.{class_of_site};
ghost use Rattle.ja_abstract.specs.Writes.{is_array_label};

use ja_base::Label;
use ja_graph::{Class, Program};

/// The class of the objects of a label.
pub fn class_at(program: &Program, label: Label) -> Class
    ensures { result ≡ class_of_site program.now label.site.0 }
{
    match program.sites.as_slice().get(label.site.0 as usize) {
        Some(site) => site.class,
        None => Class::Object,
    }
}

/// Whether the objects of a label are arrays.
pub fn is_array(program: &Program, label: Label) -> bool
    ensures { result ≡ is_array_label program.now label }
{
    matches!(class_at(program, label), Class::Array)
}
