// What names that are resolved keep: they lead to paths, stay below the top, and a path from the top leads to itself.
ghost use Rattle.std.specs.Prelude.{◌≡◌, ◌++◌, ◌∷◌, ◌<◌, ℕ, List, [], true, Some, None, codes, length, replicate};
ghost use Rattle.upon_store.specs.Paths.{folder_of, is_path, path_text, resolved, segments};

pub mod renderings;

/// States that a name that is resolved in the folder of a path leads to a path.
pub fn resolved_is_path()
    ensures { (path name p : List ℕ) → is_path path ≡ true → resolved path name ≡ Some p → is_path p ≡ true }
{}

/// Nothing lies above the top: a name that begins with more `..` than the path's folder is deep is refused.
pub fn stays_below_top()
    ensures { (path name : List ℕ) (k : ℕ) (ts : List (List ℕ)) → length (folder_of path) < k
        → segments name ≡ replicate k (codes "..") ++ ts → resolved path name ≡ None }
{}

/// From the top a path leads to itself, whatever the folder.
pub fn from_top()
    ensures { (path p : List ℕ) → is_path p ≡ true → resolved path (codes "/" ++ p) ≡ Some p }
{}

/// States that a name that is a path is the way down from the folder: its segments follow the folder's.
pub fn from_folder()
    ensures { (path name : List ℕ) → is_path name ≡ true
        → resolved path name ≡ path_text (folder_of path ++ segments name) }
{}

/// In the folder of a path of one segment a path leads to itself.
pub fn from_one_segment()
    ensures { (path p : List ℕ) → segments path ≡ path ∷ [] → is_path p ≡ true → resolved path p ≡ Some p }
{}
