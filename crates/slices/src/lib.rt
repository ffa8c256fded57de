// Rows, copied to part of a lent list.
#![tactic(auto)]

ghost use Rattle.std.specs.Prelude.{◌≡◌, ◌+◌, ◌≤◌, length};
ghost use Rattle.lists.specs.Lists.{stored};

// Stores the rows in the list, from the place `at` on.
pub fn store<T: Copy>(list: &mut [T], at: usize, rows: &[T])
    requires { at + length rows.now ≤ length list.old }
    ensures { list.new ≡ stored list.old at rows.now }
{
    list[at..at + rows.len()].copy_from_slice(rows);
}
