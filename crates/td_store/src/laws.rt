//! What holds of offers, links and stores, as functions that do nothing: each one's contract is the law.

ghost use Rattle.std.specs.Prelude.{◌≡◌, ℕ, ◌<◌, true, false, codes, List, [], ◌∷◌, ◌++◌, Some, None};
ghost use Rattle.std.specs.Prelude.{length, map, filter};
ghost use Rattle.std.specs.List.{AllByRecursion};
ghost use Rattle.td_policy.specs.Stated.{nothing};
ghost use Rattle.td_policy.specs.declared.attributes.Attributes.{Attributes};
ghost use Rattle.td_policy.specs.declared.stated.Stated.{Stated};
ghost use Rattle.td_types.specs.declared.entry.ServiceType.{ServiceType};
ghost use Rattle.td_value.specs.declared.enumerations.FollowOption.{FollowOption};
ghost use Rattle.td_value.specs.declared.structures.Property.{Property};
ghost use Rattle.td_store.specs.Candidates.{candidates, has_conforming_type};
ghost use Rattle.td_store.specs.Examples.{device, dynamic_used, exactly, found, modifiable_used, printer};
ghost use Rattle.td_store.specs.Examples.{printer_masked, printer_renewed, proxies_used, scanner, types, usual};
ghost use Rattle.td_store.specs.Laws.{HasConformingType, IsStaticOffer};
ghost use Rattle.td_store.specs.LinkLists.{most_links, link_of, with_follow_rules, without_link};
ghost use Rattle.td_store.specs.OfferLists.{most_offers, offer_of, without_offer, with_properties, NumbersRise};
ghost use Rattle.td_store.specs.Stores.{AdmitsLink, IsOffer, IsStore};
ghost use Rattle.td_store.specs.declared.record.LinkRecord.{LinkRecord};
ghost use Rattle.td_store.specs.declared.record.OfferRecord.{OfferRecord};
ghost use Rattle.td_store.specs.declared.store.Store.{Store};

/// The type of an offer that a query searches is there with the incarnation that it had when the
/// offer came, and conforms to the asked type.
pub fn candidates_conform()
    ensures { (types : List ServiceType) (a : Attributes) (s : Stated) (asked : List ℕ) (count : ℕ)
        (offers : List OfferRecord)
        →
        AllByRecursion (HasConformingType types asked) (candidates types a s asked count offers) }
{}

/// Where no policy is stated and no offer is a proxy offer or has a dynamic property, a query searches
/// each offer whose type conforms.
pub fn plain_offers_are_searched()
    ensures { (types : List ServiceType) (a : Attributes) (asked : List ℕ)
        (offers : List OfferRecord)
        → AllByRecursion IsStaticOffer offers →
        candidates types a nothing asked (length offers) offers
        ≡ filter (has_conforming_type types asked) offers }
{}

/// The numbers of offers rise: of none, and after each call.
pub fn numbers_rise()
    ensures none { NumbersRise [] }
    ensures insert { (offers : List OfferRecord) (o : OfferRecord) → NumbersRise offers →
        AllByRecursion (λ x. x.number < o.number) offers → NumbersRise (offers ++ o ∷ []) }
    ensures remove { (offers : List OfferRecord) (number : ℕ) → NumbersRise offers
        → NumbersRise (without_offer number offers) }
    ensures modify { (offers : List OfferRecord) (number : ℕ) (properties : List Property)
        → NumbersRise offers → NumbersRise (with_properties number properties offers) }
{}

/// An offer that is removed is gone, and every other number leads to the same offer as before.
pub fn removing_leaves_the_others()
    ensures gone { (offers : List OfferRecord) (number : ℕ)
        → offer_of (without_offer number offers) number ≡ None }
    ensures others { (offers : List OfferRecord) (number other : ℕ) → (other ≡ number → ⊥) →
        offer_of (without_offer number offers) other ≡ offer_of offers other }
{}

/// A store stays within its limits, and can be written: with one more offer of a new number, with one
/// removed, with other properties of one, with one more link of a new name, with one removed, and with
/// other rules of one.
pub fn stores_stay_valid()
    ensures insert { (s : Store) (o : OfferRecord) → IsStore s → IsOffer o → s.last_offer < o.number
        → length s.offers < most_offers →
        IsStore (record s { offers = s.offers ++ o ∷ []; last_offer = o.number }) }
    ensures remove { (s : Store) (number : ℕ) → IsStore s
        → IsStore (record s { offers = without_offer number s.offers }) }
    ensures modify { (s : Store) (number : ℕ) (properties : List Property) → IsStore s →
        ((o : OfferRecord) → offer_of s.offers number ≡ Some o
        → IsOffer (record o { properties = properties }))
        → IsStore (record s { offers = with_properties number properties s.offers }) }
    ensures add_link { (s : Store) (l : LinkRecord) → IsStore s → AdmitsLink l
        → link_of s.links l.name ≡ None → length s.links < most_links
        → IsStore (record s { links = s.links ++ l ∷ [] }) }
    ensures remove_link { (s : Store) (name : List ℕ) → IsStore s
        → IsStore (record s { links = without_link name s.links }) }
    ensures set_rules { (s : Store) (name : List ℕ) (def_pass_on limiting : FollowOption)
        → IsStore s → IsStore
        (record s { links = map (with_follow_rules name def_pass_on limiting) s.links }) }
{}

/// Worked examples over the types Device, Printer below it, and Scanner, with six offers: 1 is of Device,
/// 2 to 5 are of Printer and 6 is of Scanner; 3 is a proxy offer, 4 has a dynamic property and a property
/// of mode normal, 5 has one of mode normal too.
pub fn worked_examples()
    ensures nothing_stated { found types usual nothing device 9 ≡ 1 ∷ 2 ∷ 3 ∷ 4 ∷ 5 ∷ [] }
    ensures sub_type { found types usual nothing printer 9 ≡ 2 ∷ 3 ∷ 4 ∷ 5 ∷ [] }
    ensures unrelated { found types usual nothing scanner 9 ≡ 6 ∷ [] }
    ensures unknown { found types usual nothing (codes "Plotter") 9 ≡ [] }
    ensures exact { found types usual (exactly true) device 9 ≡ 1 ∷ [] }
    ensures not_exact { found types usual (exactly false) device 9 ≡ 1 ∷ 2 ∷ 3 ∷ 4 ∷ 5 ∷ [] }
    ensures proxies { found types usual (proxies_used true) device 9 ≡ 1 ∷ 2 ∷ 3 ∷ 4 ∷ 5 ∷ [] }
    ensures no_proxies { found types usual (proxies_used false) device 9 ≡ 1 ∷ 2 ∷ 4 ∷ 5 ∷ [] }
    ensures proxies_unsupported { found types (record usual { supports_proxy_offers = false })
        nothing device 9 ≡ 1 ∷ 2 ∷ 4 ∷ 5 ∷ [] }
    ensures dynamic { found types usual (dynamic_used true) device 9 ≡ 1 ∷ 2 ∷ 3 ∷ 4 ∷ 5 ∷ [] }
    ensures no_dynamic { found types usual (dynamic_used false) device 9 ≡ 1 ∷ 2 ∷ 3 ∷ 5 ∷ [] }
    ensures dynamic_unsupported { found types (record usual { supports_dynamic_properties = false })
        nothing device 9 ≡ 1 ∷ 2 ∷ 3 ∷ 5 ∷ [] }
    ensures modifiable { found types usual (modifiable_used true) device 9 ≡ 1 ∷ 2 ∷ 3 ∷ 4 ∷ 5
        ∷ [] }
    ensures no_modifiable { found types usual (modifiable_used false) device 9 ≡ 1 ∷ 2 ∷ 3 ∷ [] }
    ensures modifiable_unsupported { found types
        (record usual { supports_modifiable_properties = false }) (modifiable_used false) device 9
        ≡ 1 ∷ 2 ∷ 3 ∷ 4 ∷ 5 ∷ [] }
    ensures cut { found types usual nothing device 4 ≡ 1 ∷ 2 ∷ 3 ∷ 4 ∷ [] }
    ensures cut_when_found { found types usual (proxies_used false) printer 2 ≡ 2 ∷ 4 ∷ [] }
    ensures none { found types usual nothing device 0 ≡ [] }
    ensures masked { found printer_masked usual nothing printer 9 ≡ 2 ∷ 3 ∷ 4 ∷ 5 ∷ [] }
    ensures renewed { found printer_renewed usual nothing printer 9 ≡ [] }
    ensures renewed_exact { found printer_renewed usual (exactly true) printer 9 ≡ [] }
    ensures renewed_above { found printer_renewed usual nothing device 9 ≡ 1 ∷ [] }
{}
