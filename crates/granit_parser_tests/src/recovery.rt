//! Recovery at a document boundary, what the original gives for the same calls: where it goes on, what it drops and
//! what it answers.
use crate::agree::agree;
use granit_error::options;
use granit_parser::Parser;
use granit_told::Call::{self, Next, Peek, Recover, UpToFault};
use granit_told::{NOTHING, Row, Rows, told_of};
use std::alloc::Global;

const YES: Row = ('t', 0, 0);

const NO: Row = ('f', 0, 0);

/// A text, the calls, and what they give.
#[derive(Clone, Copy)]
struct Case {
    text: &'static str,
    calls: [Call; 8],
    rows: [Row; 8],
}

/// What the calls give, where so many comments may be kept; 96 may by default.
fn told(alloc: Global, case: &Case, comments: usize) -> [Row; 8] {
    let options = options!(max_buffered_comment_events: comments);
    told_of(
        Parser::new_from_str_with_options(alloc, case.text, options),
        &Rows(case.calls),
    )
}

const BEHIND_A_FAULT: [Call; 8] = [UpToFault, Recover, Next, Next, Next, Next, Next, Next];

const THREE: &str = "a\n---\nb\n---\nc\n";

const CASES: &[Case] = &[
    Case {
        text: "a: [\n---\nb\n",
        calls: BEHIND_A_FAULT,
        rows: [
            ('!', 2, 3),
            YES,
            ('D', 5, 8),
            ('=', 9, 10),
            ('d', 10, 10),
            ('s', 11, 11),
            NOTHING,
            NOTHING,
        ],
    },
    Case {
        text: "- *nope\n- 2\n",
        calls: BEHIND_A_FAULT,
        rows: [
            ('!', 37, 2),
            NO,
            ('s', 12, 12),
            NOTHING,
            NOTHING,
            NOTHING,
            NOTHING,
            NOTHING,
        ],
    },
    // the comment on the line of a `...` goes, the next one stays
    Case {
        text: "a: [\n... # c\n# d\nb\n",
        calls: BEHIND_A_FAULT,
        rows: [
            ('!', 2, 3),
            YES,
            ('#', 13, 16),
            ('D', 17, 18),
            ('=', 17, 18),
            ('d', 18, 18),
            ('s', 19, 19),
            NOTHING,
        ],
    },
    // a document of which the directives are faulty goes whole
    Case {
        text: "%TAG ! !\n%TAG ! !\n--- a\n--- b\n",
        calls: BEHIND_A_FAULT,
        rows: [
            ('!', 25, 9),
            YES,
            ('D', 24, 27),
            ('=', 28, 29),
            ('d', 29, 29),
            ('s', 30, 30),
            NOTHING,
            NOTHING,
        ],
    },
    // comments that come before another document are kept, as many as may be
    Case {
        text: "a: [\n...\n# y\n# z\n",
        calls: BEHIND_A_FAULT,
        rows: [
            ('!', 2, 3),
            NO,
            ('#', 9, 12),
            ('#', 13, 16),
            ('s', 17, 17),
            NOTHING,
            NOTHING,
            NOTHING,
        ],
    },
    // what waits goes up to the end of its document
    Case {
        text: THREE,
        calls: [Next, Next, Recover, Next, Next, Next, Next, Next],
        rows: [
            ('S', 0, 0),
            ('D', 0, 1),
            YES,
            ('D', 2, 5),
            ('=', 6, 7),
            ('d', 7, 7),
            ('D', 8, 11),
            ('=', 12, 13),
        ],
    },
    // and so does an end that was only looked at
    Case {
        text: THREE,
        calls: [Next, Next, Next, Peek, Recover, Next, Next, Next],
        rows: [
            ('S', 0, 0),
            ('D', 0, 1),
            ('=', 0, 1),
            ('d', 1, 1),
            YES,
            ('D', 2, 5),
            ('=', 6, 7),
            ('d', 7, 7),
        ],
    },
    // directly behind the end of a document nothing goes
    Case {
        text: THREE,
        calls: [Next, Next, Next, Next, Recover, Next, Next, Next],
        rows: [
            ('S', 0, 0),
            ('D', 0, 1),
            ('=', 0, 1),
            ('d', 1, 1),
            YES,
            ('D', 2, 5),
            ('=', 6, 7),
            ('d', 7, 7),
        ],
    },
    // a start that was looked at counts as given
    Case {
        text: THREE,
        calls: [Next, Next, Next, Next, Peek, Recover, Next, Next],
        rows: [
            ('S', 0, 0),
            ('D', 0, 1),
            ('=', 0, 1),
            ('d', 1, 1),
            ('D', 2, 5),
            YES,
            ('D', 8, 11),
            ('=', 12, 13),
        ],
    },
    // where nothing was given, or nothing since recovery answered, the next document goes
    Case {
        text: THREE,
        calls: [Recover, Recover, Next, Next, Next, Next, Next, Next],
        rows: [
            YES,
            YES,
            ('D', 8, 11),
            ('=', 12, 13),
            ('d', 13, 13),
            ('s', 14, 14),
            NOTHING,
            NOTHING,
        ],
    },
    // a document that is faulty from its start on goes as well, whether its fault was looked at or not
    Case {
        text: "[x]\ny\n...\n&z q\n",
        calls: [Recover, Recover, Next, Next, Next, Next, Recover, Next],
        rows: [
            YES,
            YES,
            ('D', 10, 12),
            ('=', 13, 14),
            ('d', 14, 14),
            ('s', 15, 15),
            NO,
            NOTHING,
        ],
    },
    Case {
        text: "[x]\ny\n...\n&z q\n",
        calls: [Recover, Peek, Recover, Recover, Next, Next, Next, Next],
        rows: [
            YES,
            ('!', 11, 4),
            YES,
            NO,
            ('s', 15, 15),
            NOTHING,
            NOTHING,
            NOTHING,
        ],
    },
    Case {
        text: "[x] y",
        calls: [Recover, Recover, Recover, Next, Next, Next, Next, Next],
        rows: [YES, NO, NO, ('s', 5, 5), NOTHING, NOTHING, NOTHING, NOTHING],
    },
    // where no document is left, recovery says so
    Case {
        text: "a\n---\nb\n",
        calls: [Recover, Recover, Recover, Recover, Next, Next, Next, Next],
        rows: [YES, NO, NO, NO, ('s', 8, 8), NOTHING, NOTHING, NOTHING],
    },
    Case {
        text: "",
        calls: [Recover, Next, Recover, Next, Next, Next, Next, Next],
        rows: [
            NO,
            ('s', 0, 0),
            NO,
            NOTHING,
            NOTHING,
            NOTHING,
            NOTHING,
            NOTHING,
        ],
    },
];

/// The text with two comments where one may be kept.
const FEW_COMMENTS: Case = Case {
    text: "a: [\n...\n# y\n# z\n",
    calls: [UpToFault, Recover, Recover, Next, Recover, Next, Next, Next],
    rows: [
        ('!', 2, 3),
        ('!', 75, 13),
        ('!', 75, 13),
        NOTHING,
        ('!', 75, 13),
        NOTHING,
        NOTHING,
        NOTHING,
    ],
};

/// How many cases stand before the first one that gives other rows.
fn count_right(alloc: Global) -> usize {
    let mut count: usize = 0;
    for case in CASES {
        if told(alloc, case, 96) != case.rows {
            return count;
        }
        count = count.saturating_add(1);
    }
    count
}

#[test]
fn where_recovery_goes_on(rt: HostRuntime) {
    agree(&rt, count_right(rt.alloc()), 15);
}

#[test]
fn no_room_for_comments(rt: HostRuntime) {
    agree(&rt, told(rt.alloc(), &FEW_COMMENTS, 1), FEW_COMMENTS.rows);
}
