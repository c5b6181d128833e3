//! What the words ask for, as they stand there.

/// `query REF TYPE CONSTRAINT PREFERENCE [NAME]..`
#[derive(Drop)]
pub struct QueryWords<'a> {
    pub reference: &'a str,
    pub service: &'a str,
    pub constraint: &'a str,
    pub preference: &'a str,
    pub names: Vec<&'a str>,
    pub how_many: Option<&'a str>,
    pub hops: Option<&'a str>,
    pub follow: Option<&'a str>,
    pub id: Option<&'a str>,
    pub exact: bool,
}

/// `export REF TYPE OBJECT [NAME=VALUETYPE:VALUE]..`
#[derive(Drop)]
pub struct ExportWords<'a> {
    pub reference: &'a str,
    pub service: &'a str,
    pub object: &'a str,
    pub properties: Vec<&'a str>,
}

/// `link REF NAME TARGET DEF LIMIT`
#[derive(Drop)]
pub struct LinkWords<'a> {
    pub reference: &'a str,
    pub name: &'a str,
    pub target: &'a str,
    pub def_pass_on: &'a str,
    pub limiting: &'a str,
}

/// `addtype REF NAME IF [ITEM]..`
#[derive(Drop)]
pub struct TypeWords<'a> {
    pub reference: &'a str,
    pub name: &'a str,
    pub interface: &'a str,
    pub items: Vec<&'a str>,
}

/// What the words ask for.
#[derive(Drop)]
pub enum Wanted<'a> {
    Query(QueryWords<'a>),
    Export(ExportWords<'a>),
    /// `withdraw REF ID`
    Withdraw { reference: &'a str, id: &'a str },
    /// `describe REF ID`
    Describe { reference: &'a str, id: &'a str },
    Link(LinkWords<'a>),
    /// `links REF`
    Links { reference: &'a str },
    /// `types REF`
    Types { reference: &'a str },
    AddType(TypeWords<'a>),
}
