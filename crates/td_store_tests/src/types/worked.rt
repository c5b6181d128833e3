//! Worked examples: calls in order, each with its answer.

use crate::lines::{EMPTY, Start, follows};
use std::test::Fail;

/// Below Device stands Printer, and Laser below that. A and B are each other's base.
const START: Start = Start {
    interfaces: "Printer:Device
Laser:Printer
A:B
B:A",
    offers: "",
    lines: "",
};

/// Three types, each below the one before: what they have, and how they conform in several steps.
/// A masked type conforms as before.
const LIFE: &str = "incarnation = 0
list = -
add Device Device Cost:long:normal,Serial:string:readonly - = 1
add Printer Printer Pages:long:normal Device = 2
add Laser Laser Cost:alias:mandatory Printer = 3
incarnation = 3
list = Device,Printer,Laser
describe Laser = Laser Cost:alias:mandatory Printer no 0 3
fully Laser = Laser Cost:alias:mandatory,Pages:long:normal,Serial:string:readonly Printer,Device no 0 3
fully Device = Device Cost:long:normal,Serial:string:readonly - no 0 1
full_properties Printer = Pages:long:normal,Cost:long:normal,Serial:string:readonly
full_properties Toaster = -
full_property Laser Cost = Cost:alias:mandatory
full_property Printer Serial = Serial:string:readonly
full_property Printer Color = none
full_property Toaster Cost = none
conforms Laser Device = yes
conforms Laser Laser = yes
conforms Device Laser = no
conforms Toaster Toaster = no
subtypes Printer = 2 3
subtypes Device = 1 2 3
subtypes Toaster =
interface_of Printer = Printer
interface_of Toaster = none
incarnation_of Laser = 3
incarnation_of Toaster = none
is_masked Printer = no
is_masked Toaster = none
judge_mask Printer = accepted
judge_unmask Printer = NotMasked
mask Printer = masked
is_masked Printer = yes
is_masked Laser = no
describe Printer = Printer Pages:long:normal Device yes 0 2
fully Printer = Printer Pages:long:normal,Cost:long:normal,Serial:string:readonly Device yes 0 2
conforms Laser Device = yes
subtypes Printer = 2 3
list = Device,Printer,Laser
judge_mask Printer = AlreadyMasked
judge_unmask Printer = accepted
unmask Printer = unmasked
is_masked Printer = no";

#[test]
fn types_conform_and_are_masked(rt: HostRuntime) -> Result<(), Fail> {
    follows(&rt, rt.alloc(), &START, LIFE)
}

/// A removed type leaves the others in their order. Added again it gets the next incarnation. The
/// oldest of several subtypes is named.
const REMOVALS: &str = "add Device - - - = 1
add Zebra - - Device = 2
add Ant - - Device,Zebra = 3
add Lamp - - - = 4
judge_remove Device = HasSubTypes Zebra
remove Device = HasSubTypes Device Zebra
remove Zebra = HasSubTypes Zebra Ant
judge_remove Lamp = accepted
add Chair - - - = 5
add Desk - - - = 6
remove Lamp = removed
list = Device,Zebra,Ant,Chair,Desk
remove Ant = removed
remove Zebra = removed
list = Device,Chair,Desk
incarnation = 6
add Zebra - - Device = 7
incarnation_of Zebra = 7
list = Device,Chair,Desk,Zebra
list 1 = Device,Chair,Desk,Zebra
list 2 = Chair,Desk,Zebra
list 6 = Desk,Zebra
list 7 = Zebra
list 8 = -
remove Device = HasSubTypes Device Zebra
conforms Ant Device = no
subtypes Device = 1 7";

#[test]
fn types_are_removed_and_added_again(rt: HostRuntime) -> Result<(), Fail> {
    follows(&rt, rt.alloc(), &EMPTY, REMOVALS)
}

/// Two supertypes give one name: the first one's value type, and the join of both modes. The join of
/// readonly and mandatory is both.
const JOINED: &str = "add Left - Cost:alias:readonly,Size:long:normal - = 1
add Right - Size:long:mandatory,Cost:long:mandatory - = 2
add Both - Color:long:normal Left,Right = 3
full_properties Both = Color:long:normal,Cost:alias:both,Size:long:mandatory
fully Both = - Color:long:normal,Cost:alias:both,Size:long:mandatory Left,Right no 0 3
add Turned - - Right,Left = 4
full_properties Turned = Size:long:mandatory,Cost:long:both
add Below - - Turned,Both = 5
fully Below = - Size:long:mandatory,Cost:long:both,Color:long:normal Turned,Right,Left,Both no 0 5
add Weak - Cost:long:mandatory Both = ValueTypeRedefinition Weak Cost:long:mandatory Both Cost:alias:both
add Strong - Cost:long:both Both = 6";

#[test]
fn modes_are_joined(rt: HostRuntime) -> Result<(), Fail> {
    follows(&rt, rt.alloc(), &EMPTY, JOINED)
}

/// Each exception with its members. A refused call changes nothing.
const REFUSALS: &str = "add Device Device Cost:long:normal,Serial:string:readonly - = 1
add Lamp - Cost:string:normal - = 2
add é - - - = IllegalServiceType é
add - - - - = IllegalServiceType -
remove é = IllegalServiceType é
mask é = IllegalServiceType é
unmask é = IllegalServiceType é
describe é = IllegalServiceType é
fully é = IllegalServiceType é
judge_remove é = IllegalServiceType
judge_mask é = IllegalServiceType
judge_unmask é = IllegalServiceType
remove Printer = UnknownServiceType Printer
mask Printer = UnknownServiceType Printer
unmask Printer = UnknownServiceType Printer
describe Printer = UnknownServiceType Printer
fully Printer = UnknownServiceType Printer
judge_remove Printer = UnknownServiceType
judge_mask Printer = UnknownServiceType
judge_unmask Printer = UnknownServiceType
add Device - - - = ServiceTypeExists Device
add Printer - 1st:long:normal - = IllegalPropertyName 1st
add Printer - Cost:long:normal,Cost:string:normal - = DuplicatePropertyName Cost
add Printer - - é = IllegalServiceType é
add Printer - - Toaster = UnknownServiceType Toaster
add Printer - - Printer = UnknownServiceType Printer
add Printer - - Device,Device = DuplicateServiceTypeName Device
add Printer Lamp - Device = InterfaceTypeMismatch Device Device Printer Lamp
add Printer Printer Cost:string:normal Device = ValueTypeRedefinition Printer Cost:string:normal Device Cost:long:normal
add Printer - Serial:string:normal Device = ValueTypeRedefinition Printer Serial:string:normal Device Serial:string:readonly
add Printer - - Device,Lamp = ValueTypeRedefinition Device Cost:long:normal Lamp Cost:string:normal
unmask Device = NotMasked Device
mask Device = masked
mask Device = AlreadyMasked Device
incarnation = 2
list = Device,Lamp
describe Device = Device Cost:long:normal,Serial:string:readonly - yes 0 1
describe Lamp = - Cost:string:normal - no 0 2";

#[test]
fn each_exception(rt: HostRuntime) -> Result<(), Fail> {
    follows(&rt, rt.alloc(), &START, REFUSALS)
}

/// Two causes stand together: which one is answered.
const ORDER: &str = "add Device Device Cost:long:normal - = 1
add Lamp - Cost:string:normal - = 2
add é - 1st:long:normal é = IllegalServiceType é
add Device - 1st:long:normal Toaster = ServiceTypeExists Device
add Printer - 1st:long:normal Toaster = IllegalPropertyName 1st
add Printer - A:long:normal,A:long:normal,1st:long:normal - = DuplicatePropertyName A
add Printer - 1st:long:normal,A:long:normal,A:long:normal - = IllegalPropertyName 1st
add Printer - A:long:normal,A:long:normal é = DuplicatePropertyName A
add Printer - - Toaster,é = UnknownServiceType Toaster
add Printer - - é,Toaster = IllegalServiceType é
add Printer - - Toaster,Toaster = UnknownServiceType Toaster
add Printer Lamp - Device,Device = InterfaceTypeMismatch Device Device Printer Lamp
add Printer Lamp - Lamp,Lamp,Device = DuplicateServiceTypeName Lamp
add Printer Lamp Cost:string:normal Device = InterfaceTypeMismatch Device Device Printer Lamp
add Printer - Cost:string:normal Device,Toaster = UnknownServiceType Toaster
add Printer - Cost:string:normal Lamp,Device = ValueTypeRedefinition Printer Cost:string:normal Device Cost:long:normal
add Printer - - Lamp,Device = ValueTypeRedefinition Lamp Cost:string:normal Device Cost:long:normal
list = Device,Lamp";

#[test]
fn the_first_cause_is_answered(rt: HostRuntime) -> Result<(), Fail> {
    follows(&rt, rt.alloc(), &START, ORDER)
}

/// Interfaces that conform, through a cycle and with an empty id too.
const CONFORMING: &str = "interface_conforms A B = yes
interface_conforms B A = yes
interface_conforms A A = yes
interface_conforms A Device = no
interface_conforms Laser Device = yes
interface_conforms Device Laser = no
interface_conforms Toaster Toaster = yes
interface_conforms Toaster Device = no
interface_conforms - Laser = yes
interface_conforms Laser - = yes
add First A - - = 1
add Second B - First = 2
add Third A - Second = 3
add Fourth Device - Third = InterfaceTypeMismatch Third A Fourth Device";

#[test]
fn interfaces_are_each_others_base(rt: HostRuntime) -> Result<(), Fail> {
    follows(&rt, rt.alloc(), &START, CONFORMING)
}
