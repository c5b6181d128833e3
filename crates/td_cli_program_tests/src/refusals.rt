//! Words that are refused: clap's text, or `usage`, on the faults sink, status 2, and no connection.

use crate::messages::NAMES;
use crate::running::{Use, passes};
use std::alloc::Global;
use td_cdr::Memory;

/// Words that clap refuses, and what stands in the text that tells it.
struct Telling {
    words: &'static [&'static str],
    content: &'static str,
}

const TELLING: [Telling; 15] = [
    // what is wrong
    Telling {
        words: &[],
        content: "Usage: tradecli <COMMAND>",
    },
    Telling {
        words: &["link"],
        content: "Usage: tradecli link",
    },
    Telling {
        words: &["lists", "ref:,h,9,A/K"],
        content: "lists",
    },
    Telling {
        words: &["links", "ref:,h,9,A/K", "more"],
        content: "more",
    },
    Telling {
        words: &["links", "--hops", "2", "ref:,h,9,A/K"],
        content: "--hops",
    },
    // help, which has an example
    Telling {
        words: &["--help"],
        content: "Usage: tradecli <COMMAND>",
    },
    Telling {
        words: &["--help"],
        content: "Example: tradecli types ref:,localhost,2809,A/T\n",
    },
    Telling {
        words: &["query", "--help"],
        content: "Example: tradecli query ",
    },
    Telling {
        words: &["export", "--help"],
        content: "Example: tradecli export ",
    },
    Telling {
        words: &["withdraw", "--help"],
        content: "Example: tradecli withdraw ",
    },
    Telling {
        words: &["describe", "--help"],
        content: "Example: tradecli describe ",
    },
    Telling {
        words: &["link", "--help"],
        content: "Example: tradecli link ",
    },
    Telling {
        words: &["links", "--help"],
        content: "Example: tradecli links ",
    },
    Telling {
        words: &["types", "--help"],
        content: "Example: tradecli types ",
    },
    Telling {
        words: &["addtype", "--help"],
        content: "Example: tradecli addtype ",
    },
];

/// Words of which one isn't in its form.
const FORMLESS: [&[&str]; 20] = [
    // a reference outside its form
    &["links", "h:9"],
    &["links", "ref:,h,09,A/K"],
    &["links", "IOR:00000000000000010000000000000000"],
    &["links", "ref:,h,9,A\0K"],
    &["export", "ref:,h,9,A/R", "T", "p1"],
    &["link", "ref:,h,9,A/K", "n", "B/L", "always", "always"],
    // an option outside its form
    &["query", "--hops", "4294967296", "ref:,h,9,A/L", "T", "", ""],
    &["query", "--how-many", "07", "ref:,h,9,A/L", "T", "", ""],
    &["query", "--follow", "never", "ref:,h,9,A/L", "T", "", ""],
    &["query", "--id", "abc", "ref:,h,9,A/L", "T", "", ""],
    &[
        "link",
        "ref:,h,9,A/K",
        "n",
        "ref:,h,9,B/L",
        "always",
        "ever",
    ],
    // a property outside its form
    &["export", "ref:,h,9,A/R", "T", "ref:,h,9,p", "Cost"],
    &["export", "ref:,h,9,A/R", "T", "ref:,h,9,p", "Cost=5"],
    &["export", "ref:,h,9,A/R", "T", "ref:,h,9,p", "Cost=float:5"],
    &["export", "ref:,h,9,A/R", "T", "ref:,h,9,p", "Cost=seq:long"],
    &[
        "export",
        "ref:,h,9,A/R",
        "T",
        "ref:,h,9,p",
        "Cost=octet:256",
    ],
    // an item outside its form
    &["addtype", "ref:,h,9,A/T", "T", "", "Printer"],
    &["addtype", "ref:,h,9,A/T", "T", "", "prop=A:normal"],
    &["addtype", "ref:,h,9,A/T", "T", "", "prop=A:any:long"],
    &["addtype", "ref:,h,9,A/T", "T", "", "prop=A:normal:float"],
];

/// Whether the words are refused, and the text that tells it has this in it.
fn are_refused(
    alloc: Global,
    words: &'static [&'static str],
    content: &'static str,
) -> Result<bool, Memory> {
    passes(
        alloc,
        &Use {
            words,
            given: NAMES,
            wire_failing: &[],
            sink_failing: &[],
            status: 2,
            wrote: &[],
            printed: &[],
            content,
        },
    )
}

#[test]
fn clap_tells_what_is_wrong_and_helps(rt: HostRuntime) {
    let alloc = rt.alloc();
    for row in &TELLING {
        assert!(rt;
            are_refused(alloc, row.words, row.content) == Ok(true),
            "{}",
            row.content
        );
    }
}

#[test]
fn a_word_outside_its_form_is_usage(rt: HostRuntime) {
    let alloc = rt.alloc();
    for words in &FORMLESS {
        assert!(rt;
            are_refused(alloc, words, "usage\n") == Ok(true),
            "{words:?}"
        );
    }
}
