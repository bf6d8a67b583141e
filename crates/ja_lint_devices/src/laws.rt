//! What the definition of declared devices comes to. The functions do nothing; their contracts are
//! the laws.

ghost use Rattle.std.specs.Prelude.{◌≡◌, ◌≢◌, ◌∷◌, ◌++◌, [], List, ℕ, map, true};
ghost use lib.Chars.{codes};
ghost use Rattle.ja_prim.specs.declared.signature.TheConstants.Kinds.{NONE, UNDEFINED};
ghost use Rattle.ja_device.specs.Devices.{AllSeen};
ghost use Rattle.ja_lint_devices.specs.Devices.{AreDeclared, IsRefused, signature_in, unheard};
ghost use Rattle.ja_lint_devices.specs.Devices.{usual_devices, usual_values};
ghost use Rattle.ja_lint_devices.specs.Texts.{refused_text};
ghost use Rattle.ja_lint_devices.specs.declared.refused.KindsFault.TheVariants as fault;
ghost use Rattle.ja_lint_devices.specs.declared.refused.Refused.{Refused};
ghost use Rattle.ja_lint_devices.specs.declared.refused.Refused.TheVariants as refused;

/// Where values declare devices, want of memory alone refuses them.
pub fn declared_or_refused()
    ensures { (values : List (List ℕ)) (all : AllSeen) (why : Refused) → AreDeclared values all
        → IsRefused values why → why ≡ refused.Memory }
{}

/// But for want of memory, values are refused for one reason at most.
pub fn refused_once()
    ensures { (values : List (List ℕ)) (a b : Refused) → IsRefused values a → IsRefused values b
        → a ≢ refused.Memory → b ≢ refused.Memory → a ≡ b }
{}

/// `alert` is a device of undefined alone, `prompt=null|string` and `prompt=string|null` are one of
/// null and texts. Together the first two are devices of a program, and so are the usual ones.
pub fn examples_of_values()
    ensures alone { signature_in (codes "alert")
        ≡ record { name = codes "alert"; kinds = UNDEFINED } }
    ensures two { signature_in (codes "prompt=null|string")
        ≡ record { name = codes "prompt"; kinds = record NONE { null = true; text = true } } }
    ensures turned { signature_in (codes "prompt=string|null")
        ≡ record { name = codes "prompt"; kinds = record NONE { null = true; text = true } } }
    ensures both { AreDeclared (codes "alert" ∷ codes "prompt=null|string" ∷ []) (record {
      devices = unheard (record { name = codes "alert"; kinds = UNDEFINED })
          ∷ unheard (record {
            name = codes "prompt";
            kinds = record NONE { null = true; text = true };
          }) ∷ [];
      failed = 0;
    }) }
    ensures usual { AreDeclared usual_values (record {
      devices = map unheard usual_devices;
      failed = 0;
    }) }
{}

/// `a=` and `a=string|` lack a kind, `a=strin` has an unknown one, `a=string|string` has one twice.
/// `=string` and `1a` have no name of a device, and `a` and `a=null` together have one name. Behind
/// `a`, the fault of `b=x` is that of the second value, and behind `1a` it comes first.
pub fn examples_of_faults()
    ensures no_kind { IsRefused (codes "a=" ∷ []) (refused.Kinds 0 (codes "a") fault.NoKind) }
    ensures no_kind_behind { IsRefused (codes "a=string|" ∷ [])
        (refused.Kinds 0 (codes "a") fault.NoKind) }
    ensures unknown { IsRefused (codes "a=strin" ∷ [])
        (refused.Kinds 0 (codes "a") (fault.Unknown (codes "strin"))) }
    ensures repeated { IsRefused (codes "a=string|string" ∷ [])
        (refused.Kinds 0 (codes "a") (fault.Repeated (codes "string"))) }
    ensures no_name { IsRefused (codes "=string" ∷ []) (refused.BadName 0 []) }
    ensures digit { IsRefused (codes "1a" ∷ []) (refused.BadName 0 (codes "1a")) }
    ensures twice { IsRefused (codes "a" ∷ codes "a=null" ∷ [])
        (refused.Twice 0 1 (codes "a")) }
    ensures second { IsRefused (codes "a" ∷ codes "b=x" ∷ [])
        (refused.Kinds 1 (codes "b") (fault.Unknown (codes "x"))) }
    ensures kinds_first { IsRefused (codes "1a" ∷ codes "b=x" ∷ [])
        (refused.Kinds 1 (codes "b") (fault.Unknown (codes "x"))) }
{}

/// How faults are told. A line feed in a name is shown as `\u000a`.
pub fn examples_of_texts()
    ensures no_kind { refused_text (refused.Kinds 0 (codes "a") fault.NoKind)
        ≡ codes "no kind of value is given of the device 'a'" }
    ensures unknown { refused_text
        (refused.Kinds 0 (codes "prompt") (fault.Unknown (codes "strin")))
        ≡ codes "'strin' is no kind of value of the device 'prompt'" }
    ensures repeated { refused_text
        (refused.Kinds 0 (codes "a") (fault.Repeated (codes "string")))
        ≡ codes "'string' is given twice as a kind of value of the device 'a'" }
    ensures many { refused_text refused.TooMany ≡ codes "more than 64 devices" }
    ensures control { refused_text (refused.BadName 0 (97 ∷ 10 ∷ []))
        ≡ codes "'a\\u000a' is no name of a device: "
        ++ codes "one is an ASCII identifier of 1 to 64 characters" }
    ensures twice { refused_text (refused.Twice 0 1 (codes "prompt"))
        ≡ codes "the device 'prompt' is given twice" }
{}
