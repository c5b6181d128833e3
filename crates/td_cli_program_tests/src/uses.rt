//! Uses of the program: of each subcommand the one request that is written and the lines that are printed, and each
//! status but those for refused words and when out of memory.

use crate::messages::*;
use crate::running::{Use, passes};

/// The words of a use that withdraws an offer.
const WORDS: &[&str] = &["withdraw", "ref:,h,9,A/R", "7"];

/// The words of a query whose reply names an iterator.
const LASERS: &[&str] = &[
    "query",
    "ref:,h,9,North/L",
    "Laser",
    "Cost < 10",
    "min Cost",
];

/// Uses, of which the calls that fail are those of the wire and of the sink, and what each leaves.
const USES: [Use; 23] = [
    // a query prints offers limits and the count
    Use {
        words: &[
            "query",
            "--id",
            "aB0c",
            "--exact",
            "--how-many",
            "7",
            "--follow",
            "if_no_local",
            "--hops",
            "2",
            "ref:,h,9,A/L",
            "Printer",
            "Cost < 10",
            "",
            "Cost",
            "Room",
        ],
        given: FOUND,
        wire_failing: &[],
        sink_failing: &[],
        status: 0,
        wrote: &[QUERY],
        printed: &[
            b"offer ",
            FIRST,
            b"\n  Cost ulong 5\n  Room string R 1\n",
            b"offer ",
            SECOND,
            b"\nlimits hop_count return_card\ntotal 2\n",
        ],
        content: "",
    },
    // an iterator is drained before anything is printed
    Use {
        words: LASERS,
        given: LASER_REPLIES,
        wire_failing: &[],
        sink_failing: &[],
        status: 0,
        wrote: &[LASER_QUERY, LASER_NEXT, LASER_DESTROY],
        printed: &[LASER_LINES],
        content: "",
    },
    // a query without options asks for all properties of a hundred
    Use {
        words: &["query", "ref:,h,9,A/L", "Printer", "", ""],
        given: FOUND_NONE,
        wire_failing: &[],
        sink_failing: &[],
        status: 0,
        wrote: &[PLAIN_QUERY],
        printed: &[b"limits\ntotal 0\n"],
        content: "",
    },
    // an export prints the id
    Use {
        words: &[
            "export",
            "ref:,h,9,A/R",
            "Printer",
            "ref:IDL:P:1.0,h,9,p1",
            "Cost=ulong:5",
            "Note=string:a=b: c",
            "Tags=seq:string:x,y",
            "None=seq:long:",
        ],
        given: EXPORTED,
        wire_failing: &[],
        sink_failing: &[],
        status: 0,
        wrote: &[EXPORT],
        printed: &[b"id 7\n"],
        content: "",
    },
    // an offer is withdrawn
    Use {
        words: &["withdraw", "ref:,h,9,A/R", "7"],
        given: DONE,
        wire_failing: &[],
        sink_failing: &[],
        status: 0,
        wrote: &[WITHDRAW],
        printed: &[b"ok\n"],
        content: "",
    },
    // an offer is described
    Use {
        words: &["describe", "ref:,h,9,A/R", "7"],
        given: DESCRIBED,
        wire_failing: &[],
        sink_failing: &[],
        status: 0,
        wrote: &[DESCRIBE],
        printed: &[
            b"offer ",
            FIRST,
            b"\n  Cost short -5\n  On boolean TRUE\n  Grade char b\n",
            b"  Tags seq:string x,y\n  None seq:long \n  Rule other\n",
        ],
        content: "",
    },
    // a link is added
    Use {
        words: &[
            "link",
            "ref:,h,9,A/K",
            "south",
            "ref:IDL:L:1.0,g,8,B/L",
            "if_no_local",
            "always",
        ],
        given: DONE,
        wire_failing: &[],
        sink_failing: &[],
        status: 0,
        wrote: &[LINK],
        printed: &[b"ok\n"],
        content: "",
    },
    // links are listed
    Use {
        words: &["links", "ref:,h,9,A/K"],
        given: NAMES,
        wire_failing: &[],
        sink_failing: &[],
        status: 0,
        wrote: &[LINKS],
        printed: &[b"south\neast\n"],
        content: "",
    },
    // types are listed
    Use {
        words: &["types", "ref:,h,9,A/T"],
        given: NAMES,
        wire_failing: &[],
        sink_failing: &[],
        status: 0,
        wrote: &[TYPES],
        printed: &[b"south\neast\n"],
        content: "",
    },
    // a type is added
    Use {
        words: &[
            "addtype",
            "ref:,h,9,A/T",
            "Laser",
            "IDL:L:1.0",
            "super=Printer",
            "prop=Dpi:normal:ulong",
            "super=Device",
            "prop=Tags:mandatory_readonly:seq:string",
        ],
        given: INCARNATION,
        wire_failing: &[],
        sink_failing: &[],
        status: 0,
        wrote: &[ADD_TYPE],
        printed: &[b"ok\n"],
        content: "",
    },
    // an exception is printed
    Use {
        words: WORDS,
        given: USER,
        wire_failing: &[],
        sink_failing: &[],
        status: 4,
        wrote: &[WITHDRAW],
        printed: &[b"exception IDL:X:1.0\n"],
        content: "",
    },
    Use {
        words: WORDS,
        given: SYSTEM,
        wire_failing: &[],
        sink_failing: &[],
        status: 5,
        wrote: &[WITHDRAW],
        printed: &[b"exception IDL:Y:1.0\n"],
        content: "",
    },
    // an exception ends a query
    Use {
        words: &["query", "ref:,h,9,A/L", "Printer", "", ""],
        given: USER,
        wire_failing: &[],
        sink_failing: &[],
        status: 4,
        wrote: &[PLAIN_QUERY],
        printed: &[b"exception IDL:X:1.0\n"],
        content: "",
    },
    // a wire that fails prints nothing
    Use {
        words: WORDS,
        given: DONE,
        wire_failing: &[1],
        sink_failing: &[],
        status: 6,
        wrote: &[],
        printed: &[],
        content: "",
    },
    Use {
        words: WORDS,
        given: DONE,
        wire_failing: &[2],
        sink_failing: &[],
        status: 6,
        wrote: &[b""],
        printed: &[],
        content: "",
    },
    Use {
        words: WORDS,
        given: DONE,
        wire_failing: &[3],
        sink_failing: &[],
        status: 6,
        wrote: &[WITHDRAW],
        printed: &[],
        content: "",
    },
    Use {
        words: WORDS,
        given: CUT_DONE,
        wire_failing: &[],
        sink_failing: &[],
        status: 6,
        wrote: &[WITHDRAW],
        printed: &[],
        content: "",
    },
    // a query that fails at its iterator prints nothing
    Use {
        words: LASERS,
        given: LASER_REPLIES,
        wire_failing: &[4],
        sink_failing: &[],
        status: 6,
        wrote: &[LASER_QUERY],
        printed: &[],
        content: "",
    },
    Use {
        words: LASERS,
        given: LASER_REPLIES,
        wire_failing: &[5],
        sink_failing: &[],
        status: 6,
        wrote: &[LASER_QUERY, LASER_NEXT],
        printed: &[],
        content: "",
    },
    // a sink that fails prints no more
    Use {
        words: WORDS,
        given: DONE,
        wire_failing: &[],
        sink_failing: &[1],
        status: 7,
        wrote: &[WITHDRAW],
        printed: &[],
        content: "",
    },
    // what is no reply prints nothing
    Use {
        words: WORDS,
        given: FORWARD,
        wire_failing: &[],
        sink_failing: &[],
        status: 8,
        wrote: &[WITHDRAW],
        printed: &[],
        content: "",
    },
    Use {
        words: WORDS,
        given: WITHDRAW,
        wire_failing: &[],
        sink_failing: &[],
        status: 8,
        wrote: &[WITHDRAW],
        printed: &[],
        content: "",
    },
    Use {
        words: WORDS,
        given: b"HTTP/1.1 400",
        wire_failing: &[],
        sink_failing: &[],
        status: 8,
        wrote: &[WITHDRAW],
        printed: &[],
        content: "",
    },
];

#[test]
fn uses_print_write_and_end_so(rt: HostRuntime) {
    let alloc = rt.alloc();
    for used in &USES {
        assert!(rt;
            passes(alloc, used) == Ok(true),
            "{:?} {}",
            used.words,
            used.status
        );
    }
}
