// Names of a record by the places of their length bytes, and numbers: looked for among earlier ones.
ghost use Rattle.std.specs.Prelude.{◌≡◌, ◌≤◌};
ghost use Rattle.std.specs.List.{list_any};
ghost use Rattle.model.specs.Names.{same_name, member_name};
ghost use Rattle.model.specs.Lists.{member};
ghost use Rattle.struo_ir.specs.Decoded.{name_at};
ghost use Rattle.netlist_checks.specs.Seen.{names_before, numbers_before};

use name_order::names::{name_of, same};

// Whether the name at a place is one of those at some places.
fn names_place(bytes: &[u8], places: &[u16], place: u16) -> bool
    ensures { result ≡ list_any (λ other. same_name (name_at bytes.now place) (name_at bytes.now other)) places.now }
{
    let name = name_of(bytes, usize::from(place));
    places
        .iter()
        .any(|&other| same(name, name_of(bytes, usize::from(other))))
}

// Whether the name at a place is one of those at the first places of a list.
pub fn repeated(bytes: &[u8], places: &[u16; 1024], count: usize, place: u16) -> bool
    requires { count ≤ 1024 }
    ensures { result ≡ member_name (name_at bytes.now place) (names_before bytes.now places.now count) }
{
    names_place(bytes, &places[..count], place)
}

// Whether the number is one of the first of a list.
pub fn taken(numbers: &[u16; 1024], count: usize, number: u16) -> bool
    requires { count ≤ 1024 }
    ensures { result ≡ member number (numbers_before numbers.now count) }
{
    numbers[..count].contains(&number)
}
