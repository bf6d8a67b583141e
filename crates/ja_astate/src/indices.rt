//! The array indices that keys are (ES3 15.4).

ghost use Rattle.std.specs.Prelude.{◌≡◌, IsTrue};
ghost use Rattle.ja_abstract.specs.Keys as spec;
ghost use Rattle.ja_abstract.specs.AbstractState.{is_key};

use ja_abstract::Key;
use ja_graph::Program;
use ja_prim::array_index;

/// The index of a key, if it is that of a name that is an index's text.
pub fn index_of_key(program: &Program, key: Key) -> Option<u32>
    requires { IsTrue (is_key program.now key) }
    ensures { result ≡ spec.index_of_key program.now key }
{
    match key {
        Key::Name(name) => array_index(program.name(name)),
        _ => None,
    }
}

/// Whether a key is that of some index.
pub fn is_index_key(program: &Program, key: Key) -> bool
    requires { IsTrue (is_key program.now key) }
    ensures { result ≡ spec.is_index_key program.now key }
{
    match key {
        Key::OtherIndex => true,
        _ => index_of_key(program, key).is_some(),
    }
}
