//! JSON text is read as its value.
ghost use Rattle.std.specs.Prelude.{◌≡◌, ◌≤◌, ℕ, List, Ok};
ghost use Rattle.granit_base.specs.Classes.{is_printable};
ghost use Rattle.granit_error.specs.OptionsData.{OptionsData};
ghost use Rattle.granit_json_scalars.specs.Json.{Json, json_depth};
ghost use Rattle.granit_json_scalars.specs.JsonEvents.{json_events};
ghost use Rattle.granit_json.specs.JsonKinds.{json_kinds, unlent_kinds};
ghost use Rattle.granit_json_scalars.specs.JsonText.{JsonText, NamesFit};
ghost use Rattle.granit_lexemes.specs.Gap.{Each};
ghost use Rattle.granit_machine.specs.Machine.{run};

/// A JSON text (RFC 8259) is answered with the events of its value, each where its text stands: strings as
/// double-quoted scalars of the characters that they stand for, numbers and names as plain scalars of their own
/// characters, arrays and objects as flow collections, whatever the options. Of the text this holds as long as its
/// arrays and objects are no deeper than allowed, each of its characters is printable, and each name stands near enough
/// in front of its colon.
pub fn json_is_read()
    ensures { (o : OptionsData) (x : List ℕ) (t : Json) (d : JsonText x t) → Each is_printable x
        → json_depth t ≤ o.flow_nesting_limit → NamesFit o.simple_key_max_lookahead d
        → run o x ≡ Ok (json_events x d) }
{}

/// What the events of a text tell is its value alone: they are those of its parts in order, each array and object
/// between its start and its end, and of a member the name and then the value. White space and the way in which a
/// string is escaped change only where they stand.
pub fn json_tells_its_value()
    ensures { (x : List ℕ) (t : Json) (d : JsonText x t) → unlent_kinds (json_events x d) ≡ json_kinds t }
{}

/// A text of printable characters is one JSON value at most, and each part of it stands in one place.
pub fn a_text_is_one_value()
    ensures value { (x : List ℕ) (t u : Json) → JsonText x t → JsonText x u → Each is_printable x → t ≡ u }
    ensures events { (x : List ℕ) (t u : Json) (d : JsonText x t) (e : JsonText x u) → Each is_printable x
        → json_events x d ≡ json_events x e }
{}
