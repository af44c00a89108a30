//! Worked rows of the plain machine's reader, by computation. The faults are the original's.
ghost use Rattle.std.specs.Prelude.{◌≡◌, [], ◌∷◌, ◌++◌, codes};
ghost use Rattle.granit_machine.specs.Items.{reads, reads_under};
ghost use Rattle.granit_machine.specs.ExampleOptions.{no_directives, small_limits, strict_lines};

/// Document marks, directives and the marks before them.
pub fn documents()
    ensures empty { reads ([]) ≡ (codes "0 End 0:1:1-0:1:1\n") }
    ensures marks { reads (codes "---\n...\n") ≡ (codes "0 --- 0:1:1-3:1:4\n1 ... 4:2:1-7:2:4\n2 End 8:3:1-8:3:1\n") }
    ensures tail { reads (codes "... #c\n---")
        ≡ (codes "0 ... 0:1:1-3:1:4\ntail right \"c\" 4:1:5-6:1:7\n1 --- 7:2:1-10:2:4\n2 End 10:2:4-10:2:4\n") }
    ensures behind_end { reads (codes "... x") ≡ (codes "fault 13: at char 4 line 1 column 5\n") }
    ensures touching { reads (codes "...#") ≡ (codes "0 Scalar plain \"...#\" 0:1:1-4:1:5\n1 End 4:1:5-4:1:5\n") }
    ensures version { reads (codes "%YAML 1.2 #c\n---")
        ≡ (codes "0 Version 1.2 0:1:1-9:1:10\ntail right \"c\" 10:1:11-12:1:13\n1 --- 13:2:1-16:2:4\n"
        ++ codes "2 End 16:2:4-16:2:4\n") }
    ensures handle { reads (codes "%TAG !e! tag:x%21,\n---")
        ≡ (codes "0 TagDirective \"!e!\" \"tag:x!,\" 0:1:1-18:1:19\n1 --- 19:2:1-22:2:4\n2 End 22:2:4-22:2:4\n") }
    ensures own_prefix { reads (codes "%TAG ! !x\n")
        ≡ (codes "0 TagDirective \"!\" \"!x\" 0:1:1-9:1:10\n1 End 10:2:1-10:2:1\n") }
    ensures reserved { reads (codes "%FOO b cd #e\n---")
        ≡ (codes "0 Reserved \"FOO\" \"b\" \"cd\" 0:1:1-10:1:11\ntail right \"e\" 10:1:11-12:1:13\n"
        ++ codes "1 --- 13:2:1-16:2:4\n2 End 16:2:4-16:2:4\n") }
    ensures no_name { reads (codes "% a") ≡ (codes "fault 15: at char 1 line 1 column 2\n") }
    ensures wrong_name { reads ((codes "%a") ++ (0x1 ∷ [])) ≡ (codes "fault 16: at char 1 line 1 column 2\n") }
    ensures behind_version { reads (codes "%YAML 1.2 x") ≡ (codes "fault 19: at char 0 line 1 column 1\n") }
    ensures no_version { reads (codes "%YAML a") ≡ (codes "fault 20: at char 0 line 1 column 1\n") }
    ensures dot_missing { reads (codes "%YAML 1 2") ≡ (codes "fault 21: at char 0 line 1 column 1\n") }
    ensures nine_digits { reads (codes "%YAML 123456789.1")
        ≡ (codes "0 Version 123456789.1 0:1:1-17:1:18\n1 End 17:1:18-17:1:18\n") }
    ensures long_version { reads (codes "%YAML 1234567890.1") ≡ (codes "fault 22: at char 0 line 1 column 1\n") }
    ensures most_parameters { reads (codes "%F a a a a a a a a a a a a a a a a")
        ≡ (codes "0 Reserved \"F\" \"a\" \"a\" \"a\" \"a\" \"a\" \"a\" \"a\" \"a\" "
        ++ codes "\"a\" \"a\" \"a\" \"a\" \"a\" \"a\" \"a\" \"a\" 0:1:1-34:1:35\n"
        ++ codes "1 End 34:1:35-34:1:35\n") }
    ensures more_parameters { reads (codes "%F a a a a a a a a a a a a a a a a a")
        ≡ (codes "fault 18: at char 0 line 1 column 1\n") }
    ensures no_bang { reads (codes "%TAG a") ≡ (codes "fault 26: at char 0 line 1 column 1\n") }
    ensures one_bang { reads (codes "%TAG !a b") ≡ (codes "fault 27: at char 0 line 1 column 1\n") }
    ensures no_prefix { reads (codes "%TAG ! [") ≡ (codes "fault 28: at char 0 line 1 column 1\n") }
    ensures prefix_end { reads (codes "%TAG ! a\"") ≡ (codes "fault 29: at char 0 line 1 column 1\n") }
    ensures wrong_escape { reads (codes "%TAG ! a%4") ≡ (codes "fault 59: at char 0 line 1 column 1\n") }
    ensures mark_in_brackets { reads (codes "[\n---")
        ≡ (codes "0 [ 0:1:1-1:1:2\nfault 2: at char 0 line 1 column 1\n") }
    ensures prefix_marks { reads ((0xFEFF ∷ []) ++ ((0xFEFF ∷ []) ++ (codes "a")))
        ≡ (codes "0 Scalar plain \"a\" 2:1:1-3:1:2\n1 End 3:1:2-3:1:2\n") }
    ensures stray_mark { reads ((codes "a: ") ++ ((0xFEFF ∷ []) ++ ((codes "b\n- ") ++ (0xFEFF ∷ []))))
        ≡ (codes "0 Scalar plain \"a\" 0:1:1-1:1:2 key\n1 : 1:1:2-2:1:3 key\n"
        ++ codes "fault 77: at char 3 line 1 column 4\n") }
    ensures kept_prefix { reads ((codes "[a]\n%F b\n") ++ (0xFEFF ∷ []))
        ≡ (codes "0 [ 0:1:1-1:1:2\n1 Scalar plain \"a\" 1:1:2-2:1:3 flow\n2 ] 2:1:3-3:1:4 flow\n"
        ++ codes "3 Reserved \"F\" \"b\" 4:2:1-8:2:5\nfault 77: at char 9 line 3 column 1\n") }
{}

/// Flow signs and their keys.
pub fn flow_signs()
    ensures sequence { reads (codes "[a, \"b\":c]")
        ≡ (codes "0 [ 0:1:1-1:1:2\n1 Scalar plain \"a\" 1:1:2-2:1:3 flow\n2 , 2:1:3-3:1:4 flow\n"
        ++ codes "3 Scalar double \"b\" 4:1:5-7:1:8 flow key\n4 : 7:1:8-8:1:9 flow key\n"
        ++ codes "5 Scalar plain \"c\" 8:1:9-9:1:10 flow\n6 ] 9:1:10-10:1:11 flow\n7 End 10:1:11-10:1:11\n") }
    ensures mapping { reads (codes "{a: b, ? c : d}")
        ≡ (codes "0 { 0:1:1-1:1:2\n1 Scalar plain \"a\" 1:1:2-2:1:3 flow key\n2 : 2:1:3-3:1:4 flow key\n"
        ++ codes "3 Scalar plain \"b\" 4:1:5-5:1:6 flow\n4 , 5:1:6-6:1:7 flow\n5 ? 7:1:8-8:1:9 flow\n"
        ++ codes "6 Scalar plain \"c\" 9:1:10-10:1:11 flow\n7 : 11:1:12-12:1:13 flow\n"
        ++ codes "8 Scalar plain \"d\" 13:1:14-14:1:15 flow\n9 } 14:1:15-15:1:16 flow\n"
        ++ codes "10 End 15:1:16-15:1:16\n") }
    ensures adjacent { reads (codes "[\"a\":b, [c]:d, \"e\" :f]")
        ≡ (codes "0 [ 0:1:1-1:1:2\n1 Scalar double \"a\" 1:1:2-4:1:5 flow key\n2 : 4:1:5-5:1:6 flow key\n"
        ++ codes "3 Scalar plain \"b\" 5:1:6-6:1:7 flow\n4 , 6:1:7-7:1:8 flow\n5 [ 8:1:9-9:1:10 flow key\n"
        ++ codes "6 Scalar plain \"c\" 9:1:10-10:1:11 flow\n7 ] 10:1:11-11:1:12 flow\n"
        ++ codes "8 : 11:1:12-12:1:13 flow key\n9 Scalar plain \"d\" 12:1:13-13:1:14 flow\n"
        ++ codes "10 , 13:1:14-14:1:15 flow\n11 Scalar double \"e\" 15:1:16-18:1:19 flow key\n"
        ++ codes "12 : 19:1:20-20:1:21 flow key\n13 Scalar plain \"f\" 20:1:21-21:1:22 flow\n"
        ++ codes "14 ] 21:1:22-22:1:23 flow\n15 End 22:1:23-22:1:23\n") }
    ensures touching { reads (codes "{a:[b]}")
        ≡ (codes "0 { 0:1:1-1:1:2\n1 Scalar plain \"a\" 1:1:2-2:1:3 flow\nfault 8: at char 2 line 1 column 3\n") }
    ensures unclosed { reads (codes "[{") ≡ (codes
        "0 [ 0:1:1-1:1:2\n1 { 1:1:2-2:1:3 flow\nfault 2: at char 1 line 1 column 2\n") }
    ensures mismatched { reads (codes "[}") ≡ (codes "0 [ 0:1:1-1:1:2\nfault 3: at char 0 line 1 column 1\n") }
    ensures misplaced { reads (codes "]") ≡ (codes "fault 4: at char 0 line 1 column 1\n") }
    ensures dash { reads (codes "[- a]") ≡ (codes "0 [ 0:1:1-1:1:2\nfault 6: at char 1 line 1 column 2\n") }
    ensures plain_dash { reads (codes "[-,]") ≡ (codes "0 [ 0:1:1-1:1:2\nfault 7: at char 1 line 1 column 2\n") }
    ensures key_in_sequence { reads (codes "[a\n: b]")
        ≡ (codes "0 [ 0:1:1-1:1:2\n1 Scalar plain \"a\" 1:1:2-2:1:3 flow\nfault 9: at char 3 line 2 column 1\n") }
    ensures key_in_mapping { reads (codes "{a\n: b}")
        ≡ (codes "0 { 0:1:1-1:1:2\n1 Scalar plain \"a\" 1:1:2-2:1:3 flow key\n2 : 3:2:1-4:2:2 flow key\n"
        ++ codes "3 Scalar plain \"b\" 5:2:3-6:2:4 flow\n4 } 6:2:4-7:2:5 flow\n5 End 7:2:5-7:2:5\n") }
    ensures low_key { reads (codes "k: {a\n: b}")
        ≡ (codes "0 Scalar plain \"k\" 0:1:1-1:1:2 key\n1 : 1:1:2-2:1:3 key\n2 { 3:1:4-4:1:5\n"
        ++ codes "3 Scalar plain \"a\" 4:1:5-5:1:6 flow\nfault 9: at char 6 line 2 column 1\n") }
    ensures touching_comment { reads (codes "[ #c\n]#")
        ≡ (codes "0 [ 0:1:1-1:1:2\ntail right \"c\" 2:1:3-4:1:5\nfault 73: at char 6 line 2 column 2\n") }
    ensures comma_outside { reads (codes "a,\n, b")
        ≡ (codes "0 Scalar plain \"a, , b\" 0:1:1-6:2:4\n1 End 6:2:4-6:2:4\n") }
    ensures two_colons { reads (codes "[a : : b]")
        ≡ (codes "0 [ 0:1:1-1:1:2\n1 Scalar plain \"a\" 1:1:2-2:1:3 flow key\n2 : 3:1:4-4:1:5 flow key\n"
        ++ codes "3 : 5:1:6-6:1:7 flow\n4 Scalar plain \"b\" 7:1:8-8:1:9 flow\n5 ] 8:1:9-9:1:10 flow\n"
        ++ codes "6 End 9:1:10-9:1:10\n") }
    ensures tab_in_block { reads (codes "k: [\n\tb]")
        ≡ (codes "0 Scalar plain \"k\" 0:1:1-1:1:2 key\n1 : 1:1:2-2:1:3 key\n2 [ 3:1:4-4:1:5\n"
        ++ codes "fault 70: at char 6 line 2 column 2\n") }
    ensures tab_behind_plain { reads (codes "k: [a,\n\tb]")
        ≡ (codes "0 Scalar plain \"k\" 0:1:1-1:1:2 key\n1 : 1:1:2-2:1:3 key\n2 [ 3:1:4-4:1:5\n"
        ++ codes "3 Scalar plain \"a\" 4:1:5-5:1:6 flow\n4 , 5:1:6-6:1:7 flow\n"
        ++ codes "5 Scalar plain \"b\" 8:2:2-9:2:3 flow\n6 ] 9:2:3-10:2:4 flow\n7 End 10:2:4-10:2:4 ends\n") }
    ensures tab_behind_quoted { reads (codes "k: [\"a\",\n\tb]")
        ≡ (codes "0 Scalar plain \"k\" 0:1:1-1:1:2 key\n1 : 1:1:2-2:1:3 key\n2 [ 3:1:4-4:1:5\n"
        ++ codes "3 Scalar double \"a\" 4:1:5-7:1:8 flow\n4 , 7:1:8-8:1:9 flow\n"
        ++ codes "fault 70: at char 10 line 2 column 2\n") }
    ensures tab_in_quoted { reads (codes "k: [a, \"b\n\tc\"]")
        ≡ (codes "0 Scalar plain \"k\" 0:1:1-1:1:2 key\n1 : 1:1:2-2:1:3 key\n2 [ 3:1:4-4:1:5\n"
        ++ codes "3 Scalar plain \"a\" 4:1:5-5:1:6 flow\n4 , 5:1:6-6:1:7 flow\n"
        ++ codes "fault 41: at char 10 line 2 column 1\n") }
    ensures tab_behind_value { reads (codes "k: \"a\"\n\tb")
        ≡ (codes "0 Scalar plain \"k\" 0:1:1-1:1:2 key\n1 : 1:1:2-2:1:3 key\n"
        ++ codes "fault 70: at char 8 line 2 column 2\n") }
    ensures closed_key { reads (codes "k: {[a]\n\"b\"\n : c}")
        ≡ (codes "0 Scalar plain \"k\" 0:1:1-1:1:2 key\n1 : 1:1:2-2:1:3 key\n2 { 3:1:4-4:1:5\n"
        ++ codes "3 [ 4:1:5-5:1:6 flow key\n4 Scalar plain \"a\" 5:1:6-6:1:7 flow\n5 ] 6:1:7-7:1:8 flow\n"
        ++ codes "6 Scalar double \"b\" 8:2:1-11:2:4 flow\n7 : 13:3:2-14:3:3 flow key\n"
        ++ codes "8 Scalar plain \"c\" 15:3:4-16:3:5 flow\n9 } 16:3:5-17:3:6 flow\n10 End 17:3:6-17:3:6 ends\n") }
    ensures plain_key { reads (codes "k: {a #\n\"b\"\n : c}")
        ≡ (codes "0 Scalar plain \"k\" 0:1:1-1:1:2 key\n1 : 1:1:2-2:1:3 key\n2 { 3:1:4-4:1:5\n"
        ++ codes "3 Scalar plain \"a\" 4:1:5-5:1:6 flow key\ncomment right \"\" 6:1:7-7:1:8\n"
        ++ codes "4 Scalar double \"b\" 8:2:1-11:2:4 flow\n5 : 13:3:2-14:3:3 flow key\n"
        ++ codes "6 Scalar plain \"c\" 15:3:4-16:3:5 flow\n7 } 16:3:5-17:3:6 flow\n8 End 17:3:6-17:3:6 ends\n") }
{}

/// `-`, `?` and `:` outside flow.
pub fn indicators()
    ensures dashes { reads (codes "- - a\n  - b\n-\n")
        ≡ (codes "0 - 0:1:1-1:1:2 to 2:1:3\n1 - 2:1:3-3:1:4 to 4:1:5\n2 Scalar plain \"a\" 4:1:5-5:1:6\n"
        ++ codes "3 - 8:2:3-9:2:4 to 10:2:5\n4 Scalar plain \"b\" 10:2:5-11:2:6\n5 - 12:3:1-13:3:2 ends\n"
        ++ codes "6 End 14:4:1-14:4:1 ends\n") }
    ensures pairs { reads (codes "a: b\nc:\n  d: e\n")
        ≡ (codes "0 Scalar plain \"a\" 0:1:1-1:1:2 key\n1 : 1:1:2-2:1:3 key\n"
        ++ codes "2 Scalar plain \"b\" 3:1:4-4:1:5\n3 Scalar plain \"c\" 5:2:1-6:2:2 key\n"
        ++ codes "4 : 6:2:2-7:2:3 key\n5 Scalar plain \"d\" 10:3:3-11:3:4 key\n6 : 11:3:4-12:3:5 key\n"
        ++ codes "7 Scalar plain \"e\" 13:3:6-14:3:7\n8 End 15:4:1-15:4:1 ends\n") }
    ensures question { reads (codes "? a\n: b")
        ≡ (codes "0 ? 0:1:1-1:1:2\n1 Scalar plain \"a\" 2:1:3-3:1:4\n2 : 4:2:1-5:2:2\n"
        ++ codes "3 Scalar plain \"b\" 6:2:3-7:2:4\n4 End 7:2:4-7:2:4 ends\n") }
    ensures question_comment { reads (codes "?\n #c\n a")
        ≡ (codes "0 ? 0:1:1-1:1:2\ntail free \"c\" 3:2:2-5:2:4\n1 Scalar plain \"a\" 7:3:2-8:3:3\n"
        ++ codes "2 End 8:3:3-8:3:3 ends\n") }
    ensures bare_colon { reads (codes ": a") ≡ (codes
        "0 : 0:1:1-1:1:2\n1 Scalar plain \"a\" 2:1:3-3:1:4\n2 End 3:1:4-3:1:4 ends\n") }
    ensures dash_behind_key { reads (codes "a: - b")
        ≡ (codes "0 Scalar plain \"a\" 0:1:1-1:1:2 key\n1 : 1:1:2-2:1:3 key\n"
        ++ codes "fault 65: at char 3 line 1 column 4\n") }
    ensures question_behind_key { reads (codes "a: ? b")
        ≡ (codes "0 Scalar plain \"a\" 0:1:1-1:1:2 key\n1 : 1:1:2-2:1:3 key\n"
        ++ codes "fault 66: at char 3 line 1 column 4\n") }
    ensures second_colon { reads (codes "a: b: c")
        ≡ (codes "0 Scalar plain \"a\" 0:1:1-1:1:2 key\n1 : 1:1:2-2:1:3 key\n"
        ++ codes "2 Scalar plain \"b\" 3:1:4-4:1:5\nfault 67: at char 4 line 1 column 5\n") }
    ensures tab_before_dash { reads (codes "-\t- a") ≡ (codes "fault 68: at char 2 line 1 column 3\n") }
    ensures nul_behind_question { reads ((codes "?") ++ (0x0 ∷ [])) ≡ (codes "fault 69: at char 1 line 1 column 2\n") }
    ensures key_without_colon { reads (codes "a: b\nc\nd: e")
        ≡ (codes "0 Scalar plain \"a\" 0:1:1-1:1:2 key\n1 : 1:1:2-2:1:3 key\n"
        ++ codes "2 Scalar plain \"b\" 3:1:4-4:1:5\nfault 64: at char 5 line 2 column 1\n") }
    ensures required_comma { reads (codes "a: b\nc,")
        ≡ (codes "0 Scalar plain \"a\" 0:1:1-1:1:2 key\n1 : 1:1:2-2:1:3 key\n"
        ++ codes "2 Scalar plain \"b\" 3:1:4-4:1:5\n3 Scalar plain \"c,\" 5:2:1-7:2:3\n"
        ++ codes "fault 64: at char 5 line 2 column 1\n") }
    ensures tab_before_key { reads (codes "k:\n - a\n\t- b")
        ≡ (codes "0 Scalar plain \"k\" 0:1:1-1:1:2 key\n1 : 1:1:2-2:1:3 key\n2 - 4:2:2-5:2:3 to 6:2:4\n"
        ++ codes "fault 72: at char 6 line 2 column 4\n") }
    ensures tab_behind_question { reads (codes "?\n\t- a") ≡ (codes "fault 71: at char 2 line 2 column 1\n") }
    ensures tab_between { reads (codes "? \t- a") ≡ (codes "0 ? 0:1:1-1:1:2\nfault 65: at char 3 line 1 column 4\n") }
    ensures comment_cuts { reads (codes "a #c\nb")
        ≡ (codes "0 Scalar plain \"a\" 0:1:1-1:1:2\ncomment right \"c\" 2:1:3-4:1:5\n"
        ++ codes "fault 74: at char 2 line 1 column 3\n") }
    ensures comment_cuts_no_key { reads (codes "a #c\n: b")
        ≡ (codes "0 Scalar plain \"a\" 0:1:1-1:1:2\ncomment right \"c\" 2:1:3-4:1:5\n1 : 5:2:1-6:2:2\n"
        ++ codes "2 Scalar plain \"b\" 7:2:3-8:2:4\n3 End 8:2:4-8:2:4 ends\n") }
    ensures multi_line_key { reads (codes "\"a\n b\": c") ≡ (codes "fault 44: at char 6 line 2 column 4\n") }
    ensures dash_before_comma { reads (codes "- ,\n\ta")
        ≡ (codes "0 - 0:1:1-1:1:2 to 2:1:3\n1 , 2:1:3-3:1:4\nfault 70: at char 5 line 2 column 2\n") }
{}

/// Names and tags.
pub fn properties()
    ensures names { reads (codes "&a *b") ≡ (codes
        "0 Anchor \"a\" 0:1:1-2:1:3\n1 Alias \"b\" 3:1:4-5:1:6\n2 End 5:1:6-5:1:6\n") }
    ensures no_name { reads (codes "& a") ≡ (codes "fault 63: at char 0 line 1 column 1\n") }
    ensures tags { reads (codes "!a !e!b !!c ! !<d%41>")
        ≡ (codes "0 Tag \"!\" \"a\" 0:1:1-2:1:3\n1 Tag \"!e!\" \"b\" 3:1:4-7:1:8\n"
        ++ codes "2 Tag \"!!\" \"c\" 8:1:9-11:1:12\n3 Tag \"\" \"!\" 12:1:13-13:1:14\n"
        ++ codes "4 Tag \"\" \"dA\" 14:1:15-21:1:22\n5 End 21:1:22-21:1:22\n") }
    ensures in_flow { reads (codes "[!a,*b,&c]")
        ≡ (codes "0 [ 0:1:1-1:1:2\n1 Tag \"!\" \"a\" 1:1:2-3:1:4 flow\n2 , 3:1:4-4:1:5 flow\n"
        ++ codes "3 Alias \"b\" 4:1:5-6:1:7 flow\n4 , 6:1:7-7:1:8 flow\n5 Anchor \"c\" 7:1:8-9:1:10 flow\n"
        ++ codes "6 ] 9:1:10-10:1:11 flow\n7 End 10:1:11-10:1:11\n") }
    ensures no_suffix { reads (codes "!e! a") ≡ (codes "fault 56: at char 0 line 1 column 1\n") }
    ensures empty_uri { reads (codes "!<>") ≡ (codes "fault 56: at char 0 line 1 column 1\n") }
    ensures open_uri { reads (codes "!<a b") ≡ (codes "fault 57: at char 0 line 1 column 1\n") }
    ensures tag_end { reads (codes "!a\"") ≡ (codes "fault 58: at char 0 line 1 column 1\n") }
    ensures one_digit { reads (codes "!%4") ≡ (codes "fault 59: at char 0 line 1 column 1\n") }
    ensures leading_byte { reads (codes "!%ff") ≡ (codes "fault 60: at char 0 line 1 column 1\n") }
    ensures trailing_byte { reads (codes "!%c3%41") ≡ (codes "fault 61: at char 0 line 1 column 1\n") }
    ensures overlong { reads (codes "!%c0%80") ≡ (codes "fault 62: at char 0 line 1 column 1\n") }
    ensures two_bytes { reads (codes "!%c3%a9") ≡ (codes "0 Tag \"!\" \"\\u{e9}\" 0:1:1-7:1:8\n1 End 7:1:8-7:1:8\n") }
{}

/// Where indentation is strict.
pub fn strict_reading()
    ensures flow_column { reads_under strict_lines (codes "k: [\na]")
        ≡ (codes "0 Scalar plain \"k\" 0:1:1-1:1:2 key\n1 : 1:1:2-2:1:3 key\n2 [ 3:1:4-4:1:5\n"
        ++ codes "fault 10: at char 5 line 2 column 1\n") }
    ensures tab_in_flow { reads_under strict_lines (codes "k: [\n\ta]")
        ≡ (codes "0 Scalar plain \"k\" 0:1:1-1:1:2 key\n1 : 1:1:2-2:1:3 key\n2 [ 3:1:4-4:1:5\n"
        ++ codes "fault 70: at char 6 line 2 column 2\n") }
    ensures tab_behind_property { reads_under strict_lines (codes "? &a\n\tb")
        ≡ (codes "0 ? 0:1:1-1:1:2\n1 Anchor \"a\" 2:1:3-4:1:5\nfault 71: at char 5 line 2 column 1\n") }
    ensures quoted_column { reads_under strict_lines (codes "k: [\"a\nb\"]")
        ≡ (codes "0 Scalar plain \"k\" 0:1:1-1:1:2 key\n1 : 1:1:2-2:1:3 key\n2 [ 3:1:4-4:1:5\n"
        ++ codes "fault 10: at char 7 line 2 column 1\n") }
{}

/// Small limits.
pub fn small_reading()
    ensures brackets { reads_under small_limits (codes "[[")
        ≡ (codes "0 [ 0:1:1-1:1:2\nfault 5: at char 1 line 1 column 2\n") }
    ensures columns { reads_under small_limits (codes "- - - a")
        ≡ (codes "0 - 0:1:1-1:1:2 to 2:1:3\n1 - 2:1:3-3:1:4 to 4:1:5\nfault 5: at char 4 line 1 column 5\n") }
    ensures key_column { reads_under small_limits (codes "- - a: b")
        ≡ (codes "0 - 0:1:1-1:1:2 to 2:1:3\n1 - 2:1:3-3:1:4 to 4:1:5\n2 Scalar plain \"a\" 4:1:5-5:1:6\n"
        ++ codes "fault 5: at char 4 line 1 column 5\n") }
    ensures words { reads_under small_limits (codes "%FOO abcdefghij")
        ≡ (codes "fault 17: at char 0 line 1 column 1\n") }
    ensures parameters { reads_under small_limits (codes "%A b c") ≡ (codes "fault 18: at char 0 line 1 column 1\n") }
    ensures far_key { reads_under small_limits (codes "{\"abcd\":e}")
        ≡ (codes "0 { 0:1:1-1:1:2\n1 Scalar double \"abcd\" 1:1:2-7:1:8 flow\n2 : 7:1:8-8:1:9 flow\n"
        ++ codes "3 Scalar plain \"e\" 8:1:9-9:1:10 flow\n4 } 9:1:10-10:1:11 flow\n5 End 10:1:11-10:1:11\n") }
    ensures name { reads_under small_limits (codes "%ABCDEFGHIJ") ≡ (codes "fault 17: at char 1 line 1 column 2\n") }
{}

/// No directives.
pub fn refused_directives()
    ensures version { reads_under no_directives (codes "%YAML 1.2") ≡ (codes "fault 14: at char 0 line 1 column 1\n") }
    ensures mark { reads_under no_directives (codes "---") ≡ (codes "0 --- 0:1:1-3:1:4\n1 End 3:1:4-3:1:4\n") }
{}
