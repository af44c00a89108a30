//! Worked rows: how many recoveries one behind another tell of a document.
ghost use Rattle.std.specs.Prelude.{◌≡◌, codes};
ghost use Rattle.granit_chains.specs.ChainRows.{left_of_text, recover_first, recoveries_told};
ghost use Rattle.granit_chains.specs.Chains.{RecoveryChain};
ghost use Rattle.granit_error.specs.OptionsData.{default_options};
ghost use Rattle.granit_restart.specs.Calls.{calls_start};

/// One for each document but the first, which is dropped before any is told of; behind an open bracket it is so from
/// mark to mark, and behind the last of them none is left.
pub fn recoveries_of_texts()
    ensures none { recoveries_told (codes "") ≡ 0 }
    ensures one { recoveries_told (codes "a\n") ≡ 0 }
    ensures two { recoveries_told (codes "a\n---\nb\n") ≡ 1 }
    ensures marks { recoveries_told (codes "---\n---\n---\n") ≡ 2 }
    ensures brackets { recoveries_told (codes "[\n---\n[\n---\n[\n") ≡ 2 }
    ensures behind { recoveries_told (codes "\"a\"\n\"b\"\n---\nc\n") ≡ 2 }
    ensures chain { RecoveryChain default_options 1 (calls_start (codes "a\n---\nb\n"))
        (recover_first (codes "a\n---\nb\n")).1 }
    ensures left { left_of_text (codes "a\n---\nb\n") ≡ 83 }
{}
