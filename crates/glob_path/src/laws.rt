//! Laws of what tries find, each as the contract of a function that does nothing.

ghost use Rattle.glob_path.specs.Laws.{FindsExactly};

/// A trie finds an index for a path exactly if the path begins, or ends, with a text of that index.
pub fn finds_exactly()
    ensures { FindsExactly }
{}
