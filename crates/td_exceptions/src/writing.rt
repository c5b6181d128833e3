//! User exceptions to bytes.

ghost use Rattle.std.specs.Prelude.{◌≡◌};
ghost use Rattle.td_cdr.specs.Format.{Puts};
ghost use Rattle.td_exceptions.specs.Exceptions.{exception_piece, row_of};

use crate::exception::UserException;
use crate::ids::user_id;
use std::alloc::Global;
use td_cdr::{Memory, Spelled, Writer, put_four, put_three, put_two};

/// Appends the repository id and the members of an exception (CORBA, chapter on General Inter-ORB
/// Protocol, "Reply Body").
///
/// # Errors
///
/// `Memory` when out of memory or of room; some of it may then be written.
pub fn put_user(alloc: Global, w: &mut Writer, exception: &UserException) -> Result<(), Memory>
    ensures { Puts (exception_piece exception.now) w.old w.new result }
{
    w.string(user_id(exception))?;
    put_members(alloc, w, exception)
}

/// The members of an exception. Where it fails, some may be written.
fn put_members(alloc: Global, w: &mut Writer, exception: &UserException) -> Result<(), Memory>
    ensures { Puts ((row_of exception.now).members.format.writes exception.now) w.old w.new result }
{
    match exception {
        UserException::NotImplemented => Ok(()),
        UserException::IllegalServiceType { service_type } => service_type.write(alloc, w),
        UserException::UnknownServiceType { service_type } => service_type.write(alloc, w),
        UserException::IllegalPropertyName { name } => name.write(alloc, w),
        UserException::DuplicatePropertyName { name } => name.write(alloc, w),
        UserException::PropertyTypeMismatch {
            service_type,
            property,
        } => put_two(alloc, w, service_type, property.get()),
        UserException::MissingMandatoryProperty { service_type, name } => put_two(
            alloc,
            w,
            service_type,
            name,
        ),
        UserException::ReadonlyDynamicProperty { service_type, name } => put_two(
            alloc,
            w,
            service_type,
            name,
        ),
        UserException::IllegalConstraint { constraint } => constraint.write(alloc, w),
        UserException::InvalidLookupRef { target } => target.write(alloc, w),
        UserException::IllegalOfferId { id } => id.write(alloc, w),
        UserException::UnknownOfferId { id } => id.write(alloc, w),
        UserException::DuplicatePolicyName { name } => name.write(alloc, w),
        UserException::IllegalPreference { preference } => preference.write(alloc, w),
        UserException::IllegalPolicyName { name } => name.write(alloc, w),
        UserException::PolicyTypeMismatch { policy } => policy.get().write(alloc, w),
        UserException::InvalidPolicyValue { policy } => policy.get().write(alloc, w),
        UserException::InvalidObjectRef { reference } => reference.write(alloc, w),
        UserException::UnknownPropertyName { name } => name.write(alloc, w),
        UserException::InterfaceTypeMismatch {
            service_type,
            reference,
        } => put_two(alloc, w, service_type, reference),
        UserException::ProxyOfferId { id } => id.write(alloc, w),
        UserException::MandatoryProperty { service_type, name } => put_two(
            alloc,
            w,
            service_type,
            name,
        ),
        UserException::ReadonlyProperty { service_type, name } => put_two(
            alloc,
            w,
            service_type,
            name,
        ),
        UserException::NoMatchingOffers { constraint } => constraint.write(alloc, w),
        UserException::IllegalTraderName { name } => name.write(alloc, w),
        UserException::UnknownTraderName { name } => name.write(alloc, w),
        UserException::IllegalLinkName { name } => name.write(alloc, w),
        UserException::UnknownLinkName { name } => name.write(alloc, w),
        UserException::DuplicateLinkName { name } => name.write(alloc, w),
        UserException::DefaultFollowTooPermissive {
            def_pass_on_follow_rule,
            limiting_follow_rule,
        } => put_two(alloc, w, def_pass_on_follow_rule, limiting_follow_rule),
        UserException::LimitingFollowTooPermissive {
            limiting_follow_rule,
            max_link_follow_policy,
        } => put_two(alloc, w, limiting_follow_rule, max_link_follow_policy),
        UserException::IllegalRecipe { recipe } => recipe.write(alloc, w),
        UserException::NotProxyOfferId { id } => id.write(alloc, w),
        UserException::DPEvalFailure {
            name,
            returned_type,
            extra_info,
        } => put_three(alloc, w, name, returned_type.get(), extra_info.get()),
        UserException::ServiceTypeExists { name } => name.write(alloc, w),
        UserException::ReposInterfaceTypeMismatch {
            base_service,
            base_if,
            derived_service,
            derived_if,
        } => put_four(alloc, w, base_service, base_if, derived_service, derived_if),
        UserException::HasSubTypes { the_type, sub_type } => put_two(alloc, w, the_type, sub_type),
        UserException::AlreadyMasked { name } => name.write(alloc, w),
        UserException::NotMasked { name } => name.write(alloc, w),
        UserException::ValueTypeRedefinition {
            type_1,
            definition_1,
            type_2,
            definition_2,
        } => put_four(
            alloc,
            w,
            type_1,
            definition_1.get(),
            type_2,
            definition_2.get(),
        ),
        UserException::DuplicateServiceTypeName { name } => name.write(alloc, w),
    }
}
