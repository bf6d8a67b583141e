//! Contexts, with what is listed of them.

ghost use Rattle.std.specs.Prelude.{◌≡◌};
ghost use Rattle.ja_cert.specs.Wrong.{is_less};
ghost use Rattle.ja_cert_read.specs.code.Orders.{comes_behind, context_at_rank, context_rank};

use crate::points::PointAt;
use ja_base::Context;
use ja_cert_json::Json;
use ja_cert_parts::{
    EntryAt, Fault, InFunction, InProgram, Member, four_members, here_unless, read_function,
    read_label, read_list, under,
};
use ja_value::label_number;
use std::cmp::Ordering;

/// A context, with its values at entry and its nodes that have a state.
#[derive(Drop)]
pub(crate) struct ContextAt {
    pub context: Context,
    pub entries: Vec<EntryAt>,
    pub points: Vec<PointAt>,
}

/// Its members.
const CONTEXT_KEYS: [&str; 4] = ["entries", "function", "points", "receiver"];

/// Whether numbers come before others, compared one after another.
pub(crate) fn is_less(numbers: &[u64], others: &[u64]) -> bool
    ensures { result ≡ is_less numbers.now others.now }
{
    numbers.cmp(others) == Ordering::Less
}

/// Whether a context comes behind those before it.
fn is_behind(before: &[ContextAt], context: Context) -> bool
    ensures { result ≡ comes_behind context_at_rank before.now (context_rank context) }
{
    match before.last() {
        Some(last) => is_less(&context_numbers(last.context), &context_numbers(context)),
        None => true,
    }
}

/// The numbers by which contexts are in order.
pub(crate) fn context_numbers(context: Context) -> [u64; 2]
    ensures { result ≡ context_rank context }
{
    [
        u64::from(context.function.0),
        label_number(context.receiver),
    ]
}

impl<'a> Member<InProgram<'a>> for ContextAt {
    ghost use Rattle.ja_graph.specs.WellFormed.{IsWellFormed};
    ghost use Rattle.ja_cert.specs.Wrong.{context_wrong};
    ghost use Rattle.ja_cert_read.specs.code.Contexts.{listed_data, HasOwnParts};

    ghost can = { λ rule. IsWellFormed rule.program.now };

    ghost wrong = { λ rule. context_wrong rule.program.now };

    ghost data = { λ rule. listed_data rule.program.now };

    ghost holds = { λ rule. HasOwnParts rule.program.now };

    fn read(rule: &InProgram<'a>, before: &[ContextAt], value: &Json) -> Result<ContextAt, Fault> {
        let alloc = rule.alloc;
        let program = rule.program;
        let own = four_members(alloc, &CONTEXT_KEYS, value)?;
        let function = under(read_function(alloc, program, own.second), "function")?;
        let receiver = under(read_label(alloc, program, own.fourth), "receiver")?;
        let context = Context { function, receiver };
        here_unless(alloc, is_behind(before, context))?;
        let entries = under(read_list(alloc, rule, own.first), "entries")?;
        let within = InFunction {
            alloc,
            program,
            function,
        };
        let points = under(read_list(alloc, &within, own.third), "points")?;
        Ok(ContextAt {
            context,
            entries,
            points,
        })
    }
}
