use ja_base::Seq;
use ja_prim::Primitive;

/// A call that a device answered: the arguments, and its answer.
#[derive(Drop)]
pub struct Heard {
    pub args: Seq<Primitive>,
    pub answer: Primitive,
}
