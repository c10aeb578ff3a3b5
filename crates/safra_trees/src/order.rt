//! The order in which nodes may claim a state.

ghost use Rattle.std.specs.Prelude.{◌≡◌, ◌<◌, ◌≤◌, ℕ, All, IfOk, length};
ghost use Rattle.aut_base.specs.declared.limit.TheConstants.{MOST_NODES};
ghost use Rattle.safra_trees.specs.Flat.{at};
ghost use Rattle.safra_trees.specs.inner.Order.{IsOrder, IsShifted};

use std::alloc::AllocError;

/// For each name its number in the order: children before their parents, and an older sibling with its descendants before a
/// younger one.
pub(crate) fn claiming_order(room: Vec<u32>, parents: &[u8]) -> Result<Vec<u32>, AllocError>
    requires few { length parents.now ≤ MOST_NODES }
    requires lower { (x : ℕ) → 0 < x → x < length parents.now → at parents.now x < x }
    ensures size { IfOk result (λ order. length order.items ≡ length parents.now) }
    ensures order { IfOk result (λ order. IsOrder (length parents.now) (at parents.now) (at order.items)) }
{
    let mut order = room;
    order.clear();
    'names: for parent in parents {
        let number = if order.len() == 0 {
            0
        } else {
            order[*parent as usize]
        };
        make_room(&mut order, number);
        order.push(number)?;
    }
    Ok(order)
}

/// Adds one to each number that is `number` or above.
fn make_room(order: &mut [u32], number: u32)
    requires { All (λ x. x < MOST_NODES) order.old }
    ensures { (z : ℕ) → z < length order.old → IsShifted number (at order.old) (at order.new) z }
{
    'names: for one in order.iter_mut() {
        if *one < number {
            continue;
        }
        *one += 1;
    }
}
