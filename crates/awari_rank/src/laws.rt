//! What the numbering is, as laws on its definitions.

ghost use Rattle.std.specs.Prelude.{◌≡◌, ℕ, ◌+◌, ◌<◌, ◌↔◌, List, [], ◌∷◌, ◌++◌, length, sum, map, replicate, All, count_by, true, slice_get};
ghost use Rattle.std.specs.List.{range_with_len};
ghost use Rattle.awari_board.specs.Rules.{IsBoard};
ghost use Rattle.awari_rank.specs.Tuples.{tuples, choose, IsTuple};
ghost use Rattle.awari_rank.specs.Rank.{rank_of, size_of, is_same, is_smaller};

/// The list of the tuples of a length and a sum has each of them once, and nothing else.
pub fn tuples_are_listed_once()
    ensures once { (t : List ℕ) → count_by (λ a. is_same a t) (tuples (length t) (sum t)) ≡ 1 }
    ensures nothing_else { (k n : ℕ) → All (IsTuple k n) (tuples k n) }
{}

/// Lists that the lexicographic comparison calls the same are equal.
pub fn same_lists_are_equal()
    ensures { (a b : List ℕ) → (is_same a b ≡ true) ↔ (a ≡ b) }
{}

/// There are as many ways to lay `n` stones in `k + 1` pits as the binomial coefficient says.
pub fn tuples_are_counted_by_binomials()
    ensures { (k n : ℕ) → length (tuples (k + 1) n) ≡ choose (n + k) k }
{}

/// The rank of a board is its place in the list of the boards of as many stones.
pub fn ranks_are_places()
    ensures { (b : List ℕ) → IsBoard b → slice_get (tuples 12 (sum b)) (rank_of b) ≡ Some b }
{}

/// The boards of as many stones are in lexicographic order: the smaller has the smaller rank.
pub fn ranks_keep_the_order()
    ensures { (b c : List ℕ) → IsBoard b → IsBoard c → sum b ≡ sum c
        → (is_smaller b c ≡ true) ↔ (rank_of b < rank_of c) }
{}

/// Boards of as many stones and of one rank are one board.
pub fn ranks_tell_boards_apart()
    ensures { (b c : List ℕ) → IsBoard b → IsBoard c → sum b ≡ sum c → rank_of b ≡ rank_of c → b ≡ c }
{}

/// What the definitions give for small levels, for the highest, and for a few boards.
pub fn worked_examples()
    ensures listed { tuples 3 2
        ≡ (0 ∷ 0 ∷ 2 ∷ []) ∷ (0 ∷ 1 ∷ 1 ∷ []) ∷ (0 ∷ 2 ∷ 0 ∷ []) ∷ (1 ∷ 0 ∷ 1 ∷ [])
        ∷ (1 ∷ 1 ∷ 0 ∷ []) ∷ (2 ∷ 0 ∷ 0 ∷ []) ∷ [] }

    // The sizes of the levels from 0 to 24.
    ensures sizes { map size_of (range_with_len 0 25)
        ≡ 1 ∷ 12 ∷ 78 ∷ 364 ∷ 1365 ∷ 4368 ∷ 12376 ∷ 31824 ∷ 75582 ∷ 167960 ∷ 352716 ∷ 705432
        ∷ 1352078 ∷ 2496144 ∷ 4457400 ∷ 7726160 ∷ 13037895 ∷ 21474180 ∷ 34597290 ∷ 54627300
        ∷ 84672315 ∷ 129024480 ∷ 193536720 ∷ 286097760 ∷ 417225900 ∷ [] }

    // The first and the last board of level 12, and the last of level 24.
    ensures first { rank_of (replicate 11 0 ++ 12 ∷ []) ≡ 0 }
    ensures last { rank_of (12 ∷ replicate 11 0) ≡ 1352077 }
    ensures highest_last { rank_of (24 ∷ replicate 11 0) ≡ 417225899 }

    ensures one_stone { rank_of (replicate 5 0 ++ 1 ∷ replicate 6 0) ≡ 6 }
    ensures two_beside { rank_of (replicate 5 0 ++ 1 ∷ 1 ∷ replicate 5 0) ≡ 26 }
    ensures two_apart { rank_of (1 ∷ replicate 5 0 ++ 1 ∷ replicate 5 0) ≡ 71 }
{}
