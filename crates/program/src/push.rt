ghost use Rattle.std.specs.Prelude.{◌≡◌, ◌≤◌, length, vec_capacity};
ghost use Rattle.std.specs.Result.{result_ok};
ghost use Rattle.program.specs.Edits.{next_number, and_one};

use crate::no_room::NoRoom;

// One more item at the end, and its number, where there are fewer than `most`.
pub(crate) fn push<T: Copy>(items: &mut Vec<T>, most: usize, item: T) -> Result<usize, NoRoom>
    requires room { most ≤ vec_capacity items.old }
    requires few { length items.old.items ≤ most }
    ensures number { result_ok result ≡ next_number items.old.items most }
    ensures after { items.new.items ≡ and_one items.old.items most item }
    ensures room { vec_capacity items.new ≡ vec_capacity items.old }
    ensures few { length items.new.items ≤ most }
{
    let number = items.len();
    if number >= most {
        return Err(NoRoom);
    }
    items.push_reserved(item);
    Ok(number)
}
