//! What a proxy offer's recipe makes (OMG's Trading Object Service, interface Proxy).

ghost use Rattle.std.specs.Prelude.{◌≡◌, option_map, IfOk};
ghost use Rattle.td_lang.specs.Recipes.{recipe_of};
ghost use Rattle.td_walk.specs.SubQueries.{expansion_of};

use std::alloc::Global;
use td_cdr::{Memory, Text};
use td_eval::expand_recipe;
use td_lang::{LangFault, Recipe, read_recipe};
use td_store::{FoundOffer, ProxyPart};

/// The recipe that a text spells, where it spells one.
#[tactic(auto, using(td_lang::proofs::SpelledRecipes::spelled, td_lang::proofs::SpelledRecipes::too_long))]
fn recipe_of(alloc: Global, text: &[u8]) -> Result<Option<Recipe>, Memory>
    ensures { IfOk result (λ recipe. option_map (λ r. r.parts) recipe ≡ recipe_of text.now) }
{
    match read_recipe(alloc, text) {
        Ok(recipe) => Ok(Some(recipe)),
        Err(LangFault::TooLong) => Ok(None),
        Err(LangFault::Syntax(_)) => Ok(None),
        // No other fault comes of a recipe but running out of memory.
        Err(_) => Err(Memory),
    }
}

/// What the recipe makes of the importer's constraint and the offer's properties as they were exported.
///
/// # Errors
///
/// `Memory` only when out of memory.
#[tactic(auto, unfolding(td_walk::specs::SubQueries::expansion_of))]
pub(crate) fn expanded(
    alloc: Global,
    constraint: &Text,
    offer: &FoundOffer,
    part: &ProxyPart,
) -> Result<Option<Text>, Memory>
    ensures { IfOk result (λ text. text ≡ expansion_of constraint.now offer.now part.now) }
{
    match recipe_of(alloc, part.recipe.as_slice())? {
        None => Ok(None),
        Some(recipe) => expand_recipe(alloc, &recipe, constraint, offer.properties()),
    }
}
