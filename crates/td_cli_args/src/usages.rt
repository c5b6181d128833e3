//! The subcommands without options: their words, and what their help says.

/// A word of a subcommand: clap's name for it, and what the help says of it.
pub(crate) struct Word {
    pub(crate) id: &'static str,
    pub(crate) help: &'static str,
}

/// A subcommand with words that stand in their places.
pub(crate) struct Usage {
    pub(crate) name: &'static str,
    pub(crate) about: &'static str,
    pub(crate) example: &'static str,
    /// The words that have to stand there.
    pub(crate) places: &'static [Word],
    /// What may come behind them any number of times.
    pub(crate) more: Option<Word>,
}

// ---- words of several subcommands

const REGISTER: Word = Word {
    id: "ref",
    help: "The trader's Register, as IOR:HEX or ref:ID,HOST,PORT,KEY",
};

const LINK_OBJECT: Word = Word {
    id: "ref",
    help: "The trader's Link, as IOR:HEX or ref:ID,HOST,PORT,KEY",
};

const REPOSITORY: Word = Word {
    id: "ref",
    help: "The type repository, as IOR:HEX or ref:ID,HOST,PORT,KEY",
};

const OFFER: Word = Word {
    id: "id",
    help: "The offer's id",
};

// ---- each of them

const EXPORT: Usage = Usage {
    name: "export",
    about: "Makes an offer of an object, and prints its id",
    example: "Example: tradecli export ref:,localhost,2809,A/R Printer ref:IDL:Printer:1.0,host,9,p1 Cost=ulong:5",
    places: &[
        REGISTER,
        Word {
            id: "type",
            help: "The service type",
        },
        Word {
            id: "object",
            help: "The object that is offered, as IOR:HEX or ref:ID,HOST,PORT,KEY",
        },
    ],
    more: Some(Word {
        id: "property",
        help: "A property as NAME=VALUETYPE:VALUE",
    }),
};

const WITHDRAW: Usage = Usage {
    name: "withdraw",
    about: "Takes an offer back",
    example: "Example: tradecli withdraw ref:,localhost,2809,A/R 3",
    places: &[REGISTER, OFFER],
    more: None,
};

const DESCRIBE: Usage = Usage {
    name: "describe",
    about: "Prints an offer with its properties",
    example: "Example: tradecli describe ref:,localhost,2809,A/R 3",
    places: &[REGISTER, OFFER],
    more: None,
};

const LINK: Usage = Usage {
    name: "link",
    about: "Links another trader, to which queries are passed on",
    example: "Example: tradecli link ref:,localhost,2809,A/K south ref:,localhost,2810,B/L if_no_local always",
    places: &[
        LINK_OBJECT,
        Word {
            id: "name",
            help: "The name of the link",
        },
        Word {
            id: "target",
            help: "The other trader's Lookup, as IOR:HEX or ref:ID,HOST,PORT,KEY",
        },
        Word {
            id: "def",
            help: "When it is followed where a query doesn't say: local_only, if_no_local or always",
        },
        Word {
            id: "limit",
            help: "The most that a query can say: local_only, if_no_local or always",
        },
    ],
    more: None,
};

const LINKS: Usage = Usage {
    name: "links",
    about: "Prints the names of a trader's links, a line each",
    example: "Example: tradecli links ref:,localhost,2809,A/K",
    places: &[LINK_OBJECT],
    more: None,
};

const TYPES: Usage = Usage {
    name: "types",
    about: "Prints the names of all service types, a line each",
    example: "Example: tradecli types ref:,localhost,2809,A/T",
    places: &[REPOSITORY],
    more: None,
};

const ADDTYPE: Usage = Usage {
    name: "addtype",
    about: "Adds a service type",
    example: "Example: tradecli addtype ref:,localhost,2809,A/T Laser IDL:Printer:1.0 super=Printer prop=Dpi:normal:ulong",
    places: &[
        REPOSITORY,
        Word {
            id: "name",
            help: "The name of the type",
        },
        Word {
            id: "interface",
            help: "The repository id of its objects' interface; an empty one is none",
        },
    ],
    more: Some(Word {
        id: "item",
        help: "A supertype as super=NAME, or a property as prop=NAME:MODE:VALUETYPE",
    }),
};

/// All of them, in the order in which the help names them.
pub(crate) const USAGES: [Usage; 7] = [EXPORT, WITHDRAW, DESCRIBE, LINK, LINKS, TYPES, ADDTYPE];
