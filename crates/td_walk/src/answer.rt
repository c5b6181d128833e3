//! The questions of a visit, and their answers.

use std::alloc::Global;
use td_cdr::{Boxed, List, Memory, Shared, Text, Twin};
use td_ops::Query;
use td_value::{Any, Ior, Offer, TypeCode};

/// What another trader answers to a query.
#[derive(Drop)]
pub struct SubAnswer {
    pub offers: List<Offer>,
    /// The names of the policies that limited the query (limits_applied).
    pub limits: List<Text>,
}

impl Twin for SubAnswer {
    fn copy(&self, alloc: Global) -> Result<SubAnswer, Memory> {
        Ok(SubAnswer {
            offers: self.offers.copy(alloc)?,
            limits: self.limits.copy(alloc)?,
        })
    }
}

/// The question that stands in a visit. Large parts stand in blocks of their own, so that a question is small;
/// contracts see the parts.
#[derive(Drop)]
pub enum Next {
    /// A dynamic property is evaluated (interface CosTradingDynamic::DynamicPropEval, evalDP).
    Evaluate {
        evaluator: Ior,
        name: Text,
        returned: Boxed<TypeCode>,
        extra: Boxed<Any>,
    },
    /// Another trader is asked (interface CosTrading::Lookup, query).
    Forward {
        target: Ior,
        query: Shared<Query>,
    },
    /// Nothing is left to ask.
    Done,
}

/// The answer to a question.
#[derive(Drop)]
pub enum StepAnswer {
    /// The value of a dynamic property.
    Evaluated(Boxed<Any>),
    /// What another trader answered.
    Offers(SubAnswer),
    /// There is no answer.
    Failed,
}
