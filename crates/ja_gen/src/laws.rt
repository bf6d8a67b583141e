//! What the definition of a generated program comes to. The function does nothing; its contract is
//! the law.

ghost use Rattle.std.specs.Prelude.{◌≡◌, ◌++◌, codes};
ghost use Rattle.ja_gen.specs.Generated.{generated_text};

/// The first program, written out.
pub fn the_first_is_written_out()
    ensures { generated_text 1 ≡ codes "function id(x) { return x; }\n"
        ++ codes "function C1(a) { this.p = a; }\n"
        ++ codes "C1.prototype.m = function () { return this.p; };\n"
        ++ codes "var o1 = new C1(1);\n"
        ++ codes "var r1 = id(o1.m());\n" }
{}
