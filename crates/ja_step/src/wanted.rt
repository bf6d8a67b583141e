ghost use Rattle.std.specs.Prelude.{◌≡◌};
ghost use Rattle.std.specs.Option.{option_map};
ghost use Rattle.ja_graph.specs.Program.{node_at};
ghost use Rattle.ja_machine.specs.Machine.{wants, pick_wants, device_wants};
ghost use Rattle.ja_machine.specs.Values.{is_object};
ghost use Rattle.ja_step.specs.code.Given.{uncounted};
ghost use Rattle.ja_step.specs.code.Steps.{held, frame_of, conf_of};

use crate::{Conf, Frame};
use ja_base::Reg;
use ja_graph::{Node, NodeInfo, Program};
use ja_machine::{Value, Wants};

/// The node at which a frame stands, if the program has it.
pub(crate) fn node_of<'a>(program: &'a Program, frame: &Frame) -> Option<&'a NodeInfo>
    ensures { option_map (λ info. info.now) result
        ≡ node_at program.now frame.now.function frame.now.node }
{
    match program.functions.as_slice().get(frame.function.0 as usize) {
        Some(function) => function.nodes.as_slice().get(frame.node.0 as usize),
        None => None,
    }
}

/// Whether a value is an object, which no device takes.
fn is_object(value: &Value) -> bool
    ensures { result ≡ is_object value.now }
{
    match value {
        Value::Object(_) => true,
        Value::Primitive(_) => false,
    }
}

impl Frame {
    /// What a device's node wants: the device takes no objects.
    fn device_wants(&self, which: u32) -> Wants
        ensures { result ≡ device_wants (frame_of self.now) which }
    {
        for value in &self.arguments {
            if is_object(value) {
                return Wants::Tick;
            }
        }
        Wants::Device { which }
    }
}

impl Conf {
    /// What a node wants that takes a name: a place among those that are shown, if there are some.
    fn pick_wants(&self, list: Reg, object: Reg) -> Wants
        ensures { result ≡ pick_wants self.now.heap (frame_of self.now.frame) list
            (held self.now object) }
    {
        match self.frame.register(object) {
            Some(Value::Object(a)) => match self.shown_count(list, *a) {
                0 => Wants::Tick,
                count => Wants::Pick { count },
            },
            _ => Wants::Tick,
        }
    }
}

impl Conf {
    /// The same, where names aren't counted: the place of the first of those that are shown, if
    /// there are some.
    fn first_pick(&self, list: Reg, object: Reg) -> Wants
        ensures { result ≡ uncounted (pick_wants self.now.heap (frame_of self.now.frame) list
            (held self.now object)) }
    {
        match self.frame.register(object) {
            Some(Value::Object(a)) => match self.shown_at(list, *a, 0) {
                Some(_) => Wants::Pick { count: 1 },
                None => Wants::Tick,
            },
            _ => Wants::Tick,
        }
    }
}

/// What a state wants of the outside before its next step: leave to go on, an answer of a device,
/// or a place below a number. A state that stands at no node wants leave to go on.
pub fn wants(program: &Program, conf: &Conf) -> Wants
    ensures { result ≡ wants program.now (conf_of conf.now) }
{
    match node_of(program, &conf.frame) {
        Some(info) => match &info.node {
            Node::Pick { list, object, .. } => conf.pick_wants(*list, *object),
            Node::Device { which, .. } => conf.frame.device_wants(*which),
            _ => Wants::Tick,
        },
        None => Wants::Tick,
    }
}

/// What a state wants, where names aren't counted: a place is that of the first one.
pub fn first_wanted(program: &Program, conf: &Conf) -> Wants
    ensures { result ≡ uncounted (wants program.now (conf_of conf.now)) }
{
    match node_of(program, &conf.frame) {
        Some(info) => match &info.node {
            Node::Pick { list, object, .. } => conf.first_pick(*list, *object),
            Node::Device { which, .. } => conf.frame.device_wants(*which),
            _ => Wants::Tick,
        },
        None => Wants::Tick,
    }
}
