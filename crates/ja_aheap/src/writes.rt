use ja_abstract::Key;
use ja_value::AProp;

/// A property that is set at a key, or that is only joined to what is there.
#[derive(Drop)]
pub struct Write {
    pub key: Key,
    pub property: AProp,
    pub joins: bool,
}

/// Writes, the last of them first.
#[derive(Drop)]
pub struct Writes {
    pub list: Vec<Write>,
}
