use ja_abstract::Key;
use ja_value::AProp;

/// The properties of an object that is to be made, by key: those that are listed, the first of
/// equal keys, and absent at all others.
#[derive(Drop)]
pub struct Made {
    pub listed: Vec<(Key, AProp)>,
}
