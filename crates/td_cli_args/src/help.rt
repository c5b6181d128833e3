//! What the help of the program and of `query` says.

pub(crate) const PROGRAM: &str =
    "Asks a CORBA trader for offers, and tells it of offers, links and service types";

// (`{n}` stands for the end of a line in clap's texts)
pub(crate) const PROGRAM_END: &str = "Example: tradecli types ref:,localhost,2809,A/T{n}\
    tradecli COMMAND --help tells more of a command, with an example.";

pub(crate) const QUERY: &str = "Finds offers of a service type, in the order of a preference";

pub(crate) const QUERY_EXAMPLE: &str =
    "Example: tradecli query --hops 2 ref:,localhost,2809,A/L Printer 'Cost < 10' 'min Cost' Cost";

pub(crate) const HOW_MANY: &str = "How many offers the reply itself may have [default: 100]";

pub(crate) const HOPS: &str = "The most links to go along, one after the other";

pub(crate) const FOLLOW: &str = "When links are followed: local_only, if_no_local or always";

pub(crate) const IDENTIFIER: &str = "The query's identifier, in hexadecimal digits";

pub(crate) const EXACT: &str = "Leaves out the offers of the type's subtypes";

pub(crate) const LOOKUP: &str = "The trader's Lookup, as IOR:HEX or ref:ID,HOST,PORT,KEY";

pub(crate) const SERVICE_TYPE: &str = "The service type";

pub(crate) const CONSTRAINT: &str = "Which offers match; by an empty one all do";

pub(crate) const PREFERENCE: &str =
    "In which order they are printed; by an empty one in the trader's";

pub(crate) const NAMES: &str = "The properties that are printed; without one all are";
