// Searches among the first n keys of a table.
ghost use Rattle.std.specs.Prelude.{◌≤◌, length};
ghost use Rattle.ids.specs.Decides.{Decides};
ghost use Rattle.rows.specs.Apart.{Distinct};
ghost use Rattle.rows.specs.Finds.{Finds};

use crate::compare::same_key;

// The first place of a key: the break that ends the search yields it.
pub fn find(keys: &[[u8; 32]], n: usize, key: [u8; 32]) -> Option<usize>
    requires { n ≤ length keys.now }
    ensures { Finds n keys.now key result }
{
    'search: {
        for at in 0..n {
            if same_key(&keys[at], &key) {
                break 'search Some(at);
            }
        }
        None
    }
}

// Whether the first n keys are pairwise distinct: the first equal pair ends the search.
pub fn distinct(keys: &[[u8; 32]], n: usize) -> bool
    requires { n ≤ length keys.now }
    ensures { Decides result (Distinct n keys.now) }
{
    'search: {
        for i in 0..n {
            for j in i + 1..n {
                if same_key(&keys[i], &keys[j]) {
                    break 'search false;
                }
            }
        }
        true
    }
}
