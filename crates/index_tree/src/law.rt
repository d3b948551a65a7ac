//! Laws of the definitions.
ghost use Rattle.std.specs.Prelude.{◌≡◌, ◌≢◌, ℕ, ◌/◌, List, [], ◌∷◌, All, Option, None, Some, codes};
ghost use Rattle.layout.specs.Sizes as sizes;
ghost use Rattle.regions.specs.declared.place.Place.{Place};
ghost use Rattle.index_tree.specs.Sizes.{node_room, most};
ghost use Rattle.regions.specs.Places.{HasRoom};
ghost use Rattle.index_tree.specs.Links.{Nodes};
ghost use Rattle.index_tree.specs.Trees.{AreLinked, IsBetween, IsSubtree, held_below, TreeState, IsTree, index_of, leaves_below, places_of, row_below};
ghost use Rattle.index_tree.specs.Indexes.{number_of, with_number, without};
ghost use Rattle.index_tree.specs.Scans.{scanned};
ghost use Rattle.index_tree.specs.Examples.{put_a, put_b, left_place, right_place, root_place, two_leaves, two_leaves_tree};
ghost use Rattle.index_tree.specs.Moves.{moved, moved_tree};

/// How many nodes 40 segments surely hold, and how many keys 40 segments, the most segments of a run, and the most segments take.
///
/// # Examples
/// A caller cites `sizes_are_as_worked();` for numbers: how many keys an index of 40 segments, or of the most, has room for.
pub fn sizes_are_as_worked()
    ensures nodes { node_room 40 ≡ 1027 }
    ensures keys { most 40 ≡ 7126 }
    ensures run { most (sizes.most_run_pages / sizes.segment_pages) ≡ 387254 }
    ensures greatest { most sizes.most_segments ≡ 3101147 }
{}

/// What a move makes of a tree's nodes is a tree again, and stands for the same index.
///
/// # Examples
/// A caller cites `a_move_keeps_the_index();` for the tree and the index that it has once a node was moved.
pub fn a_move_keeps_the_index()
    ensures tree { (nodes : Nodes) (t : TreeState) (from to : Place) → HasRoom from → HasRoom to → from ≢ to → nodes to ≡ None
        → IsTree nodes t → IsTree (moved from to nodes) (moved_tree from to t) }
    ensures index { (nodes : Nodes) (t : TreeState) (from to : Place) → HasRoom from → HasRoom to → from ≢ to → nodes to ≡ None
        → IsTree nodes t → index_of (moved from to nodes) (moved_tree from to t) ≡ index_of nodes t }
{}

/// What a put of `b`, then one of `a`, and the end of `a` make of an index with no key, and what is read meanwhile.
///
/// # Examples
/// A caller cites `an_index_is_as_worked();` for what the words on indexes come to, on one of at most two keys.
pub fn an_index_is_as_worked()
    ensures first { put_b ≡ (record { key = codes "b"; number = 1 }) ∷ [] }
    ensures second { put_a ≡ (record { key = codes "a"; number = 2 }) ∷ (record { key = codes "b"; number = 1 }) ∷ [] }
    ensures found { number_of (codes "b") put_a ≡ Some 1 }
    ensures scan { scanned (codes "a") 5 put_a ≡ 1 ∷ 0 ∷ 97 ∷ 1 ∷ 0 ∷ 98 ∷ [] }
    ensures from { scanned (codes "aa") 5 put_a ≡ 1 ∷ 0 ∷ 98 ∷ [] }
    ensures replaced { with_number (codes "b") 7 put_b ≡ (record { key = codes "b"; number = 7 }) ∷ [] }
    ensures erased { without (codes "a") put_a ≡ put_b }
    ensures missing { number_of (codes "a") put_b ≡ None }
{}

/// What two leaves under a root hold, which nodes they are, level by level too, and that they are linked in order.
///
/// # Examples
/// A caller cites `a_tree_is_as_worked();` for what the words on trees come to, on a root with two leaves.
pub fn a_tree_is_as_worked()
    ensures held { index_of two_leaves two_leaves_tree
        ≡ (record { key = codes "a"; number = 1 }) ∷ (record { key = codes "m"; number = 2 }) ∷ [] }
    ensures leaves { leaves_below two_leaves 1 (Some root_place) ≡ left_place ∷ right_place ∷ [] }
    ensures places { places_of two_leaves two_leaves_tree ≡ root_place ∷ left_place ∷ right_place ∷ [] }
    ensures row { row_below two_leaves 0 1 (Some root_place) ≡ left_place ∷ right_place ∷ [] }
    ensures top { row_below two_leaves 1 1 (Some root_place) ≡ root_place ∷ [] }
    ensures linked { AreLinked two_leaves (left_place ∷ right_place ∷ []) }
{}

/// What the leaves of a tree below a place hold lies between the bounds of the place.
///
/// # Examples
/// A caller cites `a_subtree_holds_what_lies_between();` for the bounds on every key below a node.
pub fn a_subtree_holds_what_lies_between()
    ensures { (nodes : Nodes) (level : ℕ) (parent : Option Place) (low high : Option (List ℕ)) (p : Place)
        → IsSubtree nodes level parent low high p → All (IsBetween low high) (held_below nodes level (Some p)) }
{}
