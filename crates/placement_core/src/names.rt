ghost use Rattle.std.specs.Prelude.{◌≡◌};
ghost use Rattle.std.specs.Ordering.{nat_cmp};
ghost use Rattle.std.specs.Cmp.Lexicographic.{slice_cmp};
ghost use Rattle.placement_core.specs.NodeNames.{name_of};

use m3_model::Instance;
use std::cmp::Ordering;

/// The name of the node of this number, empty where no instance has it.
fn name_of(instances: &[Instance], node: u8) -> &str
    ensures { result.now ≡ name_of instances.now node }
{
    match instances.get(node as usize) {
        None => "",
        Some(instance) => instance.name.as_str(),
    }
}

/// Compares the nodes by the bytes of their names.
pub fn compare_names(instances: &[Instance], a: u8, b: u8) -> Ordering
    ensures { result ≡ slice_cmp nat_cmp (name_of instances.now a) (name_of instances.now b) }
{
    name_of(instances, a).cmp(name_of(instances, b))
}
