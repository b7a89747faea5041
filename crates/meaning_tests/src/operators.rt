// Operators, accesses and functions: their values, and what they do not look at.
ghost use Rattle.std.specs.Prelude.{◌≡◌, [], ◌∷◌, pos, negsuc, codes, true, false, Some, None};
ghost use Rattle.arm_value.specs.Json.{null, bool, int, text, array, object, row, pairs};
ghost use Rattle.bicep_tree.specs.declared.leaf.Operator.TheVariants as op;
ghost use Rattle.bicep_resolved.specs.Source.{binary, conditional, interpolated, piece, no_piece};
ghost use Rattle.meaning_tests.specs.Words as w;
ghost use Rattle.meaning_tests.specs.Sample.{shown, looks, key_of_r};

/// Numbers are exact within 64 bits, and quotients are cut toward zero.
pub fn numbers()
    ensures sum { shown (binary op.Add (w.number (pos 2)) (w.number (pos 3))) ≡ Some (int (pos 5)) }
    ensures beyond { shown (binary op.Add (w.number (pos 9223372036854775807)) (w.number (pos 1))) ≡ None }
    ensures quotient { shown (binary op.Divide (w.minus (w.number (pos 7))) (w.number (pos 2)))
        ≡ Some (int (negsuc 2)) }
    ensures rest { shown (binary op.Remainder (w.minus (w.number (pos 7))) (w.number (pos 2)))
        ≡ Some (int (negsuc 0)) }
    ensures by_zero { shown (binary op.Remainder (w.number (pos 1)) (w.number (pos 0))) ≡ None }
    ensures of_text { shown (binary op.Add (w.said (codes "a")) (w.said (codes "b"))) ≡ None }
{}

/// Texts are compared by their bytes, `==` compares trees, and `=~` texts alone, after ASCII case folding.
pub fn comparisons()
    ensures texts { shown (binary op.Less (w.said (codes "Z")) (w.said (codes "a"))) ≡ Some (bool true) }
    ensures kinds { shown (binary op.Less (w.number (pos 1)) (w.said (codes "a"))) ≡ None }
    ensures trees { shown (binary op.Equals (w.number (pos 1)) (w.said (codes "1"))) ≡ Some (bool false) }
    ensures letters { shown (binary op.NotEquals (w.said (codes "a")) (w.said (codes "A"))) ≡ Some (bool true) }
    ensures folded { shown (binary op.EqualsInsensitive (w.said (codes "a")) (w.said (codes "A")))
        ≡ Some (bool true) }
    ensures numbers { shown (binary op.EqualsInsensitive (w.number (pos 1)) (w.number (pos 1))) ≡ None }
{}

/// `&&`, `||`, `??`, a conditional and `coalesce` look only as far as needed. Variable 3 reads a state.
pub fn only_as_far_as_needed()
    ensures and_ { looks (binary op.And w.no (w.variable 3)) ≡ [] }
    ensures and_not { shown (binary op.And w.yes (w.number (pos 1))) ≡ None }
    ensures or_ { shown (binary op.Or w.yes (w.number (pos 1))) ≡ Some (bool true) }
    ensures otherwise { looks (binary op.Coalesce (w.number (pos 1)) (w.variable 3)) ≡ [] }
    ensures otherwise_null { shown (binary op.Coalesce w.nothing (w.variable 3)) ≡ Some (int (pos 7)) }
    ensures choice { looks (conditional w.yes (w.number (pos 1)) (w.variable 3)) ≡ [] }
    ensures first { shown (w.call (codes "coalesce") (w.nothing ∷ w.number (pos 2) ∷ w.variable 3 ∷ []))
        ≡ Some (int (pos 2)) }
    ensures first_alone { looks (w.call (codes "coalesce") (w.nothing ∷ w.number (pos 2) ∷ w.variable 3 ∷ [])) ≡ [] }
    ensures sum_of_both { looks (binary op.Add w.nothing (w.variable 3)) ≡ key_of_r ∷ [] }
{}

/// `.n` and `[i]` have no value where a part is missing; `.?n` and `[?i]` are null there and at null, and have no value
/// at a number.
pub fn accesses()
    ensures member { shown (w.member (w.object ((codes "Ab", w.number (pos 1)) ∷ [])) (codes "aB"))
        ≡ Some (int (pos 1)) }
    ensures missing { shown (w.member (w.object []) (codes "a")) ≡ None }
    ensures safe { shown (w.safe_member (w.object []) (codes "a")) ≡ Some null }
    ensures of_null { shown (w.safe_at w.nothing (w.number (pos 0))) ≡ Some null }
    ensures of_number { shown (w.safe_member (w.number (pos 1)) (codes "a")) ≡ None }
    ensures item { shown (w.at (w.array (w.yes ∷ w.no ∷ [])) (w.number (pos 1))) ≡ Some (bool false) }
    ensures beyond { shown (w.at (w.array []) (w.number (pos 0))) ≡ None }
{}

/// A text with holes prints what is in them; an object has its members in the order of their names.
pub fn texts_and_objects()
    ensures printed { shown (interpolated 0 (codes "a") (piece (w.minus (w.number (pos 1))) (codes "b")
        (piece w.yes [] (piece w.nothing (codes "c") no_piece)))) ≡ Some (text (codes "a-1bTruec")) }
    ensures members { shown (w.object ((codes "b", w.yes) ∷ (codes "a", w.nothing) ∷ []))
        ≡ Some (object (pairs ((codes "a", null) ∷ (codes "b", bool true) ∷ []))) }
    ensures length { shown (w.call (codes "length") (w.said (codes "abc") ∷ [])) ≡ Some (int (pos 3)) }
    ensures group { shown (w.member (w.call (codes "resourcegroup") []) (codes "name")) ≡ Some (text (codes "g")) }
    ensures id { shown (w.call (codes "resourceid") (w.said (codes "A.B/c") ∷ w.said (codes "x") ∷ []))
        ≡ Some (text (codes "/subscriptions/s/resourceGroups/g/providers/A.B/c/x")) }
{}

/// A part that nests 101 deep has no value.
pub fn nesting()
    ensures deep { shown (w.call (codes "length") (w.nested 99 ∷ [])) ≡ Some (int (pos 1)) }
    ensures too_deep { shown (w.call (codes "length") (w.nested 100 ∷ [])) ≡ None }
{}
