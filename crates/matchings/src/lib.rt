// What a perfect matching of a relation is, which one comes first, and which left members block every one
// (specs/Matchings), what regular counts are (specs/Regular), and the theorems that hold of every relation (specs/Theorems).
//
// The functions compute nothing: each promises one theorem. specs/Reaching and specs/Placing have the working vocabulary of
// the search in the crate `matching`, and proofs/ the lemmas about it that need none of its code, so that an edit of
// the search does not prove them anew. It rests on nothing but `std`.
#![tactic(auto)]

ghost use Rattle.matchings.specs.Theorems.{FirstIsUnique, PerfectExcludesBlocking, RegularNeverBlocks};

// A relation has at most one first perfect matching.
pub fn first_is_unique()
    ensures { FirstIsUnique }
{}

// A perfect matching and a blocking set exclude each other.
pub fn perfect_excludes_blocking()
    ensures { PerfectExcludesBlocking }
{}

// Regular counts always match, since no set can block.
pub fn regular_never_blocks()
    ensures { RegularNeverBlocks }
{}
