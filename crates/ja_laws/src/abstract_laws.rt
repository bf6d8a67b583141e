//! What the definitions say, in other words. The functions do nothing; their contracts are the
//! laws.

ghost use Rattle.std.specs.Prelude.{◌≡◌, ◌≢◌, ◌↔◌, ℕ, true, false, IsTrue, List, [], ◌∷◌, Some, None};
ghost use Rattle.ja_base.specs.declared.ids.Label.{Label};
ghost use Rattle.ja_base.specs.declared.ids.Site.{Site};
ghost use Rattle.ja_prim.specs.declared.primitive.Primitive.TheVariants as primitive;
ghost use Rattle.ja_graph.specs.declared.program.Program.{Program};
ghost use Rattle.ja_graph.specs.WellFormed.{IsWellFormed};
ghost use Rattle.ja_abstract.specs.declared.abstraction.Key.{Key};
ghost use Rattle.ja_abstract.specs.declared.abstraction.Mask.{Mask};
ghost use Rattle.ja_abstract.specs.declared.abstraction.TextPart.TheVariants as text_part;
ghost use Rattle.ja_abstract.specs.AbstractState.{AbstractState, new, is_key, join_states};
ghost use Rattle.ja_abstract.specs.AbstractState.{exactly_none, exactly_some};
ghost use Rattle.ja_abstract.specs.AbstractValue.{AbstractProperty, AbstractValue, Labels};
ghost use Rattle.ja_abstract.specs.AbstractValue.{absent_property, join, join_properties};
ghost use Rattle.ja_abstract.specs.AbstractValue.{of_primitive};
ghost use Rattle.ja_abstract.specs.Composed.{composed, composed_mask};
ghost use Rattle.ja_abstract.specs.Keys.{is_among_keys, is_text_key, keys_of_value, text_key};
ghost use Rattle.ja_laws.specs.AbstractLaws.{ChangesNothing, HasNone, IsLeastProperty, IsLeastState};
ghost use Rattle.ja_laws.specs.AbstractLaws.{IsLeastValue, IsLeastWalk, IsMade, IsOfOneObject};
ghost use Rattle.ja_laws.specs.AbstractLaws.{IsPlainPut, IsSameAtKeys, IsTarget, IsThere, Keep};
ghost use Rattle.ja_laws.specs.AbstractLaws.{PutInto, Replaces};
ghost use Rattle.ja_abstract.specs.Made.{Own, own_of, with_object};
ghost use Rattle.ja_abstract.specs.Primitives.{of_text_part};
ghost use Rattle.ja_abstract.specs.Reading.{View, get, one_label};
ghost use Rattle.ja_abstract.specs.Resolved.{Entries, known_part, reached, renamed, resolved};
ghost use Rattle.ja_abstract.specs.Order.{LeqProperty};
ghost use Rattle.ja_abstract.specs.Writes.{defined, one_target, put_states, sets_at, strong_at};
ghost use Rattle.ja_abstract.specs.Writes.{strong_update};

/// A join is the least value, property and state that is above both.
pub fn joins_are_least()
    ensures values { (a b : AbstractValue) → IsLeastValue a b (join a b) }
    ensures properties { (a b : AbstractProperty) → IsLeastProperty a b (join_properties a b) }
    ensures states { (a b : AbstractState) → IsLeastState a b (join_states a b) }
{}

/// States are joined in any order, and once or twice.
pub fn joins_have_no_order()
    ensures turned { (a b : AbstractState) → join_states a b ≡ join_states b a }
    ensures grouped { (a b c : AbstractState)
        → join_states (join_states a b) c ≡ join_states a (join_states b c) }
    ensures twice { (a : AbstractState) → join_states a a ≡ a }
{}

/// A write is strong where its target is one object and its key one name. It replaces the property
/// at that label and key, so that a reading behind it is what was written, and leaves all else; so
/// does a strong put to what is no array, where it isn't refused.
pub fn strong_writes_replace()
    ensures one_object { (w : View) (target : Labels) (keys : List Key) (l : Label) (k : Key)
        → strong_at w target keys ≡ Some (l, k) → IsOfOneObject w target keys l k }
    ensures replaces { (a : AbstractState) (l : Label) (k : Key) (q : AbstractProperty)
        → Replaces a (strong_update a l (sets_at k q ∷ [])) l k q }
    ensures read { (a : AbstractState) (entries : Entries) (l : Label) (k : Key)
        (q : AbstractProperty) → q.value.flags.entry ≡ false
        → resolved (strong_update a l (sets_at k q ∷ [])) entries l k ≡ q }
    ensures puts { (w : View) (target : Labels) (keys : List Key) (v : AbstractValue) (l : Label)
        (k : Key) → strong_at w target keys ≡ Some (l, k) → IsPlainPut w l k
        → PutInto w l k v (put_states w target keys v) }
{}

/// A put that isn't strong keeps each part that was there, and so does a definition whose target
/// isn't one object.
pub fn weak_writes_keep()
    ensures puts { (w : View) (target : Labels) (keys : List Key) (v : AbstractValue)
        → strong_at w target keys ≡ None → Keep w.state (put_states w target keys v) }
    ensures definitions { (w : View) (target : Labels) (k : Key) (q : AbstractProperty)
        → one_target w target ≡ None → Keep w.state (defined w target k q ∷ []) }
{}

/// `[[Get]]` of one object at one key, where the property is known and surely there, is that
/// property: no prototype is asked.
pub fn known_reads()
    ensures { (w : View) (l : Label) (k : Key) → IsTarget w (one_label l) l
        → IsThere w (w.state.property l k)
        → get w (one_label l) (k ∷ []) ≡ w.state.property l k }
{}

/// A walk, as along prototypes or scopes, reaches the least set of labels that has those that it
/// starts with and, with each label of its list, those to which its step leads: as many rounds as
/// the list has labels are enough.
pub fn walks_are_least()
    ensures { (next : Label → Labels) (labels : List Label) (start : Labels)
        → IsLeastWalk next labels start (reached next labels start) }
{}

/// When an object is made at a site, no register and no other object's property has the new label
/// any more, and at the keys of the program the object has its own properties and no other.
pub fn objects_are_made()
    ensures others { (p : Program) (a : AbstractState) (s : Site) (own : AbstractState → Own)
        → IsMade s a (with_object p a s own) }
    ensures empty { (p : Program) (a : AbstractState) (s : Site)
        (list : List (Key × AbstractProperty)) (k : Key) → IsTrue (is_key p k) → HasNone list k
        → (with_object p a s (λ b. own_of list)).property (new s) k ≡ absent_property }
{}

/// What two moments say together: nothing may be made at a site exactly where nothing may be made
/// in both, and something where the second makes it, or the first does and the second may not. What
/// the second knows of a property stays known. A second moment that changes nothing leaves the
/// state of the first, and one that makes an object leaves no register with its site's new label.
pub fn moments_add_up()
    ensures none { (first second : Mask) → (composed_mask first second).none ≡ true
        ↔ (first.none ≡ true) × (second.none ≡ true) }
    ensures made { (first second : Mask) → second.some ≡ true
        → (composed_mask first second).some ≡ true }
    ensures made_before { (first second : Mask) → second.some ≡ false
        → (composed_mask first second).some ≡ true ↔ (first.some ≡ true) × (second.none ≡ true) }
    ensures known { (p : Program) (a b : AbstractState) (l : Label) (k : Key) → IsTrue (is_key p k)
        → LeqProperty (known_part (b.property l k)) ((composed p a b).property l k) }
    ensures unchanged { (p : Program) (a b : AbstractState) → ChangesNothing b
        → IsSameAtKeys p (composed p a b) a }
    ensures renames { (p : Program) (a b : AbstractState) (s : Site) (r : ℕ)
        → b.mask s.0 ≡ exactly_some → ((composed p a b).register r).label (new s) ≡ false }
{}

/// Where nothing was made, nothing is renamed.
pub fn nothing_is_renamed()
    ensures { (q : AbstractProperty) → renamed (λ t. exactly_none) q ≡ q }
{}

/// The key of one text is its one key, and all texts have all keys but those of slots.
pub fn texts_have_keys()
    ensures one { (p : Program) (t : List ℕ) (k : Key) → IsWellFormed p → IsTrue (is_key p k)
        → IsTrue (is_among_keys (keys_of_value p (of_primitive (primitive.Text t))) k)
        ↔ (k ≡ text_key p t) }
    ensures all { (p : Program) (k : Key) → IsTrue (is_key p k) → IsTrue (is_text_key k)
        → IsTrue (is_among_keys (keys_of_value p (of_text_part text_part.Text)) k) }
{}
