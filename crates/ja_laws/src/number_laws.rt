//! What the numbers of registers and labels stand for. The functions do nothing; their contracts
//! are the laws.

ghost use Rattle.std.specs.Prelude.{◌≡◌, ◌↔◌, ◌<◌, ◌+◌, ◌*◌, ℕ, pos, IsTrue, Some, length};
ghost use Rattle.std.specs.List.{slice_get};
ghost use Rattle.ja_base.specs.declared.ids.Label.{Label};
ghost use Rattle.ja_prim.specs.declared.primitive.Num.TheVariants.{Whole};
ghost use Rattle.ja_prim.specs.declared.primitive.Primitive.TheVariants.{Number};
ghost use Rattle.ja_graph.specs.declared.program.Program.{Program};
ghost use Rattle.ja_graph.specs.declared.registers.TheConstants as registers;
ghost use Rattle.ja_graph.specs.Program.{global};
ghost use Rattle.ja_abstract.specs.declared.abstraction.Key.{Key};
ghost use Rattle.ja_abstract.specs.AbstractValue.{of_label, of_primitive, same_label};
ghost use Rattle.ja_abstract.specs.AbstractValue.{undefined_value};
ghost use Rattle.ja_abstract.specs.AbstractState.{label_number, labels_of};
ghost use Rattle.ja_abstract.specs.AbstractState.{new, same_key};
ghost use Rattle.ja_abstract.specs.Made.{callee_register, count_register};
ghost use Rattle.ja_abstract.specs.Made.{parameter_register, rest_register};
ghost use Rattle.ja_rows.specs.Table.{opening_state};

/// The registers that the definitions number are those that `ja_graph` names; and where a program
/// begins, `this` and the scope chain are the global object, and there are no arguments.
pub fn registers_are_named()
    ensures callee { callee_register ≡ registers.CALLEE_REGISTER.0 }
    ensures count { count_register ≡ registers.COUNT.0 }
    ensures parameters { (i : ℕ) → parameter_register i ≡ registers.REST.0 + i }
    ensures rest { (parameters : ℕ) → rest_register parameters ≡ registers.REST.0 + parameters }
    ensures thrown_first { (p : Program) → (opening_state p).register registers.THROWN.0
        ≡ undefined_value }
    ensures this_first { (p : Program) → (opening_state p).register registers.THIS.0
        ≡ of_label (new global) }
    ensures scope_first { (p : Program) → (opening_state p).register registers.SCOPE.0
        ≡ of_label (new global) }
    ensures callee_first { (p : Program) → (opening_state p).register registers.CALLEE_REGISTER.0
        ≡ undefined_value }
    ensures count_first { (p : Program) → (opening_state p).register registers.COUNT.0
        ≡ of_primitive (Number (Whole (pos 0))) }
    ensures rest_first { (p : Program) (i : ℕ)
        → (opening_state p).register (registers.REST.0 + i) ≡ undefined_value }
{}

/// The labels of a program are two of each site, the new one and the old one, and a label stands in
/// its list at its number.
pub fn labels_are_in_order()
    ensures all { (p : Program) → length (labels_of p) ≡ 2 * length p.sites }
    ensures each { (p : Program) (l : Label) → l.site.0 < length p.sites
        → slice_get (labels_of p) (label_number l) ≡ Some l }
{}

/// The tests of labels and of keys find equal ones.
pub fn labels_and_keys_are_told_apart()
    ensures labels { (l m : Label) → IsTrue (same_label l m) ↔ (l ≡ m) }
    ensures keys { (j k : Key) → IsTrue (same_key j k) ↔ (j ≡ k) }
{}
