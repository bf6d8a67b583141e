//! Where writes are strong: at the one object of a new label, and at just one name (Balakrishnan
//! and Reps, SAS 2006).

ghost use Rattle.std.specs.Prelude.{◌≡◌};
ghost use Rattle.ja_abstract.specs.Writes.{new_alone, one_name};
ghost use Rattle.ja_transfer.specs.code.Members.{strong_spot};

use ja_abstract::Key;
use ja_base::Label;

/// The one label of a list, where that is a new one: it has one object.
pub(crate) fn new_alone(labels: &[Label]) -> Option<Label>
    ensures { result ≡ new_alone labels.now }
{
    match labels {
        [label] if !label.old => Some(*label),
        _ => None,
    }
}

/// The one key of a list, where that is a name.
fn one_name(keys: &[Key]) -> Option<Key>
    ensures { result ≡ one_name keys.now }
{
    match keys {
        [Key::Name(name)] => Some(Key::Name(*name)),
        _ => None,
    }
}

/// The one label and the one name of lists, where writes at these are strong.
pub(crate) fn strong_spot(labels: &[Label], keys: &[Key]) -> Option<(Label, Key)>
    ensures { result ≡ strong_spot labels.now keys.now }
{
    let label = new_alone(labels)?;
    let key = one_name(keys)?;
    Some((label, key))
}
