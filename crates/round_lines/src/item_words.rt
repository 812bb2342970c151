// The words of the items that count against a choice (C.04.3 C.6 to C.19).
ghost use Rattle.std.specs.Prelude.{◌≡◌};
ghost use Rattle.round_lines.specs.ItemTexts.{item_words};

use dutch_bracket::Item;

/// The words of an item.
#[derive(Clone, Copy)]
pub(crate) struct ItemWords {
    /// Its article.
    pub article: &'static str,
    /// What it tells of a choice.
    pub said: &'static str,
    /// What it compares in two qualities.
    pub meaning: &'static str,
}

// The words of all items, in their order.
const WORDS: [ItemWords; 14] = [
    ItemWords {
        article: "C.6",
        said: "Score differences",
        meaning: "score differences",
    },
    ItemWords {
        article: "C.7",
        said: "Pairs that the next bracket can make",
        meaning: "pairs in the next bracket",
    },
    ItemWords {
        article: "C.8",
        said: "Get a colour difference over 2, in a pair with a topscorer",
        meaning: "colour differences of topscorers' pairs",
    },
    ItemWords {
        article: "C.9",
        said: "Get one colour three times in a row, in a pair with a topscorer",
        meaning: "colours three times in topscorers' pairs",
    },
    ItemWords {
        article: "C.10",
        said: "Do not get the colour they prefer",
        meaning: "colours preferred and not given",
    },
    ItemWords {
        article: "C.11",
        said: "Do not get the colour they strongly prefer",
        meaning: "colours strongly preferred and not given",
    },
    ItemWords {
        article: "C.12",
        said: "Go down, as in the last round",
        meaning: "players who go down again",
    },
    ItemWords {
        article: "C.13",
        said: "Go up, as in the last round",
        meaning: "players who go up again",
    },
    ItemWords {
        article: "C.14",
        said: "Go down, as two rounds ago",
        meaning: "players who go down again",
    },
    ItemWords {
        article: "C.15",
        said: "Go up, as two rounds ago",
        meaning: "players who go up again",
    },
    ItemWords {
        article: "C.16",
        said: "Score differences of those of C.12",
        meaning: "score differences of those players",
    },
    ItemWords {
        article: "C.17",
        said: "Score differences of those of C.13",
        meaning: "score differences of those players",
    },
    ItemWords {
        article: "C.18",
        said: "Score differences of those of C.14",
        meaning: "score differences of those players",
    },
    ItemWords {
        article: "C.19",
        said: "Score differences of those of C.15",
        meaning: "score differences of those players",
    },
];

/// The words of an item.
pub(crate) fn words_of(item: Item) -> ItemWords
    ensures article { result.article.now ≡ (item_words item).article }
    ensures said { result.said.now ≡ (item_words item).said }
    ensures meaning { result.meaning.now ≡ (item_words item).meaning }
{
    WORDS[item as usize]
}
