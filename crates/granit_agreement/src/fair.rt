//! Lists that the reader gives are fair to the parser.
ghost use Rattle.std.specs.Prelude.{◌≡◌, List, [], ◌∷◌, codes, true};
ghost use Rattle.granit_error.specs.OptionsData.{default_options};
ghost use Rattle.granit_event_machine.specs.EventMachine.{EventState};
ghost use Rattle.granit_language.specs.Scope.{Scope};
ghost use Rattle.granit_agreement.specs.FairTest.{fair_run};
ghost use Rattle.granit_agreement.specs.FairTexts.{all_fair};
ghost use Rattle.granit_views.specs.Running.{FairRun};
ghost use Rattle.granit_language.specs.Seen.{Flagged};

/// A test decides whether a list is fair, and these texts pass it: block and flow collections, properties, documents,
/// and texts that the parser refuses.
pub fn texts_are_fair()
    ensures decided { (fs : List Flagged) (s : Scope) (st : EventState) → fair_run fs s st ≡ true → FairRun fs s st }
    ensures texts { all_fair default_options (codes "" ∷ codes "a" ∷ codes "- a\n- b\n" ∷ codes "a: b\nc: d\n"
        ∷ codes "- - a\n  - b\n- c: d\n  e: f\n" ∷ codes "a:\n- b\n- c\nd:\n  - e\n" ∷ codes "? a\n: b\n? c\n"
        ∷ codes "- ? a\n  : - b\n- : c\n" ∷ codes "[a, [b], {c: d, e, ? f : g, ? h}, i: j, ? k : l, : m]\n"
        ∷ codes "{a: b, c: [d, e], f, : g}: h\n" ∷ codes "&a !!b c: &d e\n"
        ∷ codes "- &a\n- !b\n- &c !d [e]\n- &f\n  g: h\n- !i\n  - j\n" ∷ codes "&a\nb: c\n"
        ∷ codes "- &a b: c\n- [&d e: f, &g ]\n" ∷ codes "\"a\": 'b'\n" ∷ codes "a: |\n  b\nc: >-\n  d\n"
        ∷ codes "--- a\n...\n%YAML 1.2\n%TAG !e! x\n--- !e!b\n--- \n...\n" ∷ codes "# a\n- b # c\n# d\n- e\n"
        ∷ codes "*a : b\n" ∷ codes "&a b: *a\n" ∷ codes "- [a\n- b\n" ∷ codes "a: b: c\n" ∷ codes "- a\nb\n"
        ∷ codes "{a]\n" ∷ codes ", a\n" ∷ codes "- , a\n" ∷ codes "a\n- b\n" ∷ codes "[a b]: c\n" ∷ codes "a: [\n"
        ∷ codes "%A\na\n" ∷ codes "a:\n  b:\n    c: d\n  e:\n  - f\ng:\n" ∷ []) ≡ true }
{}
