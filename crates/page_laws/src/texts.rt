// Laws of the texts and the tags of a page.
ghost use Rattle.std.specs.Prelude.{◌≡◌, [], ℕ, List, false, true};
ghost use Rattle.std.specs.List.{flat_map, list_any};
ghost use Rattle.markup.specs.Prelude.{Node, escaped, node_text};
ghost use Rattle.page_laws.specs.Pieces.{AreBalanced, piece_text, pieces};
ghost use Rattle.page_laws.specs.SafeTexts.{has_references_alone, is_mark};

/// In a text as a page has it no byte begins or ends a tag or a value, and each `&` begins one of the five references.
#[tactic(auto, using(crate::proofs::SafeLemmas::no_mark, crate::proofs::SafeLemmas::references_alone))]
pub fn no_text_adds_a_tag_or_a_reference()
    ensures marks { (text : List ℕ) → list_any is_mark (escaped text) ≡ false }
    ensures references { (text : List ℕ) → has_references_alone (escaped text) ≡ true }
{}

/// The text of a part of a page is that of its pieces. Of these each end closes the element that was opened last and is
/// not closed yet, and behind the last piece all are closed.
#[tactic(auto, using(crate::proofs::PieceLemmas::written_by_pieces, crate::proofs::PieceLemmas::balanced))]
pub fn tags_are_balanced()
    ensures pieces { (node : Node) → flat_map piece_text (pieces node) ≡ node_text node }
    ensures balanced { (node : Node) → AreBalanced [] (pieces node) }
{}
