//! What is asked of a naming context, and what it answers.

ghost use Rattle.std.specs.Prelude.{◌≡◌};
ghost use Rattle.td_names.specs.Changing.{is_change, makes_context};

use crate::component::{NameBinding, NameComponent};
use std::alloc::Global;
use td_cdr::{List, Memory, Twin, copy_two};
use td_typecode::Ior;

/// A call of a naming context (OMG's Naming Service, interface CosNaming::NamingContext).
#[derive(Drop)]
pub enum NameAct {
    Bind {
        name: List<NameComponent>,
        object: Ior,
    },
    BindContext {
        name: List<NameComponent>,
        object: Ior,
    },
    Rebind {
        name: List<NameComponent>,
        object: Ior,
    },
    Resolve {
        name: List<NameComponent>,
    },
    Unbind {
        name: List<NameComponent>,
    },
    NewContext,
    BindNewContext {
        name: List<NameComponent>,
    },
    Destroy,
    List,
}

impl NameAct {
    /// Whether it changes what is bound or which contexts there are, where it isn't refused.
    pub fn is_change(&self) -> bool
        ensures { result ≡ is_change self.now }
    {
        match self {
            NameAct::Bind { .. }
            | NameAct::BindContext { .. }
            | NameAct::Rebind { .. }
            | NameAct::Unbind { .. }
            | NameAct::NewContext
            | NameAct::BindNewContext { .. }
            | NameAct::Destroy => true,
            NameAct::Resolve { .. } | NameAct::List => false,
        }
    }

    /// Whether it makes a context, where it isn't refused.
    pub fn makes_context(&self) -> bool
        ensures { result ≡ makes_context self.now }
    {
        match self {
            NameAct::NewContext | NameAct::BindNewContext { .. } => true,
            NameAct::Bind { .. }
            | NameAct::BindContext { .. }
            | NameAct::Rebind { .. }
            | NameAct::Resolve { .. }
            | NameAct::Unbind { .. }
            | NameAct::Destroy
            | NameAct::List => false,
        }
    }
}

impl Twin for NameAct {
    fn copy(&self, alloc: Global) -> Result<NameAct, Memory> {
        match self {
            NameAct::Bind { name, object } => {
                let (name, object) = copy_two(alloc, name, object)?;
                Ok(NameAct::Bind { name, object })
            }
            NameAct::BindContext { name, object } => {
                let (name, object) = copy_two(alloc, name, object)?;
                Ok(NameAct::BindContext { name, object })
            }
            NameAct::Rebind { name, object } => {
                let (name, object) = copy_two(alloc, name, object)?;
                Ok(NameAct::Rebind { name, object })
            }
            NameAct::Resolve { name } => Ok(NameAct::Resolve {
                name: name.copy(alloc)?,
            }),
            NameAct::Unbind { name } => Ok(NameAct::Unbind {
                name: name.copy(alloc)?,
            }),
            NameAct::NewContext => Ok(NameAct::NewContext),
            NameAct::BindNewContext { name } => Ok(NameAct::BindNewContext {
                name: name.copy(alloc)?,
            }),
            NameAct::Destroy => Ok(NameAct::Destroy),
            NameAct::List => Ok(NameAct::List),
        }
    }
}

/// What an accepted call gives.
#[derive(Drop)]
pub enum NameReply {
    Nothing,
    /// What a name is bound to, or the context that was made.
    Object(Ior),
    /// The bindings of a context, in the order of binding.
    Bindings(List<NameBinding>),
}

/// NotFoundReason `missing_node`: a component isn't bound.
pub const MISSING_NODE: u32 = 0;

/// NotFoundReason `not_context`: a component that others follow is bound to an object.
pub const NOT_CONTEXT: u32 = 1;

/// NotFoundReason `not_object`: what an object is to take the place of is bound as a context.
pub const NOT_OBJECT: u32 = 2;

/// A user exception of a naming context, with its members.
#[derive(Drop)]
pub enum NameException {
    NotFound {
        /// The NotFoundReason.
        why: u32,
        /// The rest of the name, from the component at fault on.
        rest: List<NameComponent>,
    },
    CannotProceed {
        /// The context where the walk along the name can't go on here.
        context: Ior,
        /// The rest of the name, which is to be resolved there.
        rest: List<NameComponent>,
    },
    InvalidName,
    AlreadyBound,
    NotEmpty,
}

/// A system exception of a naming context.
#[derive(Clone, Copy, Debug, PartialEq, Eq)]
pub enum NameRefusal {
    /// IMP_LIMIT: a limit would be passed.
    ImpLimit,
    /// NO_IMPLEMENT: the root isn't destroyed.
    NoImplement,
    /// OBJECT_NOT_EXIST: no context of this number is live.
    ObjectNotExist,
}

/// What a call comes to.
#[derive(Drop)]
pub enum NameAnswer {
    Done(NameReply),
    User(NameException),
    System(NameRefusal),
}
