//! The limits on types, and a repository of many layers.

use crate::lines::{EMPTY, follows};
use std::test::Fail;

/// 4,096 types and one more. A type that is refused for another cause isn't refused for the limit, and
/// a removal makes room.
const TYPES: &str = "each 0 4096 add T# - - - = 4096
incarnation = 4096
add More - - - = Full
add T0 - - - = ServiceTypeExists T0
incarnation = 4096
incarnation_of T4095 = 4096
remove T7 = removed
add More - - - = 4097
add Most - - - = Full
list 4096 = T4095,More";

#[test]
fn as_many_types_as_there_may_be(rt: HostRuntime) -> Result<(), Fail> {
    follows(&rt, rt.alloc(), &EMPTY, TYPES)
}

/// 256 full properties and one more, its own or a supertype's; a property that is defined again counts
/// once. A full description of 1 MiB, with an interface whose id has 1,048,551 bytes, and of one byte
/// more.
const SIZES: &str = "add Wide - P#:long:normal*256 - = 1
add Wider - P#:long:normal*257 - = Full
add Below - - Wide = 2
add Beside - Color:long:normal Wide = Full
add Again - P7:long:mandatory Wide = 3
how_many_properties Again = 256
full_property Again P7 = P7:long:mandatory
add Spare - Color:long:normal - = 4
add Joined - - Wide,Spare = Full
add Long I*1048551 - - = 5
add Longer I*1048552 - - = Full
list = Wide,Below,Again,Spare,Long";

#[test]
fn as_much_as_a_type_may_have(rt: HostRuntime) -> Result<(), Fail> {
    follows(&rt, rt.alloc(), &EMPTY, SIZES)
}

/// 60 layers of two types, each below both types of the layer before: 2^59 ways lead from the last
/// layer to each type of the first.
const LAYERS: &str = "add A0 - A0:long:normal - = 1
add B0 - B0:long:normal - = 2
each 1 60 add A# - A#:long:normal A<,B<|add B# - B#:long:normal A<,B< = 119 120
incarnation = 120
conforms A59 B0 = yes
conforms B0 A59 = no
conforms A59 B59 = no
how_many_properties A59 = 119
full_property A59 B0 = B0:long:normal
full_property A59 B59 = none
how_many_below A0 = 119
add Last - - A59,B59 = 121
how_many_properties Last = 120
mask A30 = masked
conforms Last A0 = yes
remove A0 = HasSubTypes A0 A1
remove B58 = HasSubTypes B58 A59
remove A59 = HasSubTypes A59 Last";

#[test]
fn sixty_layers(rt: HostRuntime) -> Result<(), Fail> {
    follows(&rt, rt.alloc(), &EMPTY, LAYERS)
}
