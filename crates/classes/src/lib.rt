// What a class is: its fuel, whether it has a cold part, and where its values X stand in a run.
#![tactic(auto)]

ghost use Rattle.std.specs.Prelude.{◌≡◌, ◌<◌};
ghost use Rattle.classes.specs.Classes.{fuel_of, has_cold, x_place};

// Class and quantity stay numbers, in `has_cold` and `x_place` too: a caller may hand over any, and one that is none is refused
// with 3 or 11; an enum would only be made of them and turned back into a place.
//
// The fuel of a class: 0 gasoline, 1 diesel, 2 LPG. One arm for each fuel, as in specs/.
#[tactic(auto, unfolding(crate::specs::Classes::fuel_of))]
pub fn fuel_of(class: u64) -> usize
    ensures { result ≡ fuel_of class }
{
    match class {
        4 => 2,
        6.. => 1,
        _ => 0,
    }
}

// Whether a class has a cold part.
#[tactic(auto, unfolding(crate::specs::Classes::has_cold))]
pub fn has_cold(class: u64) -> bool
    ensures { result ≡ has_cold class }
{
    class != 5
}

// The place of the X of a class and a quantity in a run. The bound is one plain test, written out where it is asked.
#[tactic(auto, using(crate::proofs::Classes::fuel_below), unfolding(crate::specs::Classes::x_place, crate::specs::Classes::has_own_x))]
pub fn x_place(class: u64, quantity: usize) -> usize
    requires { quantity < 5 }
    ensures { result ≡ x_place class quantity }
{
    if class == 3 && quantity == 0 {
        return 15;
    }
    fuel_of(class) * 5 + quantity
}
