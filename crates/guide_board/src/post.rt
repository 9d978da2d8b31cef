// The history of posts, which exists in proofs alone. What runs is the word that counts it.
ghost use Rattle.std.specs.Prelude.{◌≡◌, ◌+◌, ◌<◌, ◌^◌, suc, ◌∷◌, ◌++◌, [], length, IsTrue};
ghost use Rattle.guide_board.specs.History.{word_of};
ghost use Rattle.guide_board.specs.Posts.{OneBegins, post};

use guide_model::Guide;
use logbook::{Gain, Opening, Plain, Play, Rule, Seen, Start, Word};
use page_share::PageGuide;

/// A post: its number and its guide. No value of it is made; contracts speak of it.
pub struct Post {
    pub number: u64,
    pub guide: Guide,
}

/// What is posted.
#[derive(Clone, Copy)]
pub(crate) struct Posting<'a> {
    pub number: u64,
    pub guide: &'a PageGuide,
}

/// The rule of the history.
pub(crate) struct Law;

impl Rule<Post, u64> for Law {
    ghost use Rattle.std.specs.Prelude.{[]};
    ghost use base.Fml.{ftrue};
    ghost use Rattle.guide_board.specs.History.{IsKept};

    ghost holds = { λ cells log. IsKept cells log };

    ghost first = { [] };

    ghost hinted = { λ n log. Unit {0} };

    ghost shows = { λ log. [] };

    ghost keeps = { λ names log. ftrue };

    ghost moves = { λ ask before after answer. Unit {0} };
}

/// The callers of the history trade nothing.
pub(crate) struct Nothing;

impl Gain<Post, u64> for Nothing {
    ghost use base.Fml.{ftrue};

    ghost after = { λ names about answer. ftrue };
}

/// The step that adds a post.
pub(crate) struct Adding;

impl Play<Post, u64> for Adding {
    ghost use Rattle.guide_board.specs.History.{Adds};

    ghost then = { Adds };
}

impl<'a> Plain<Posting<'a>, Post, u64> for Adding {
    ghost use Rattle.std.specs.Prelude.{None};
    ghost use Rattle.guide_board.specs.Posts.{post};

    ghost ask = { λ p. post p.number p.guide.now.guide };

    ghost state = { λ p. None };
}

/// The history at its opening.
pub(crate) struct Begun;

impl<'a> Opening<Posting<'a>, Post> for Begun {
    ghost use Rattle.std.specs.Prelude.{[], ◌∷◌};
    ghost use Rattle.guide_board.specs.Posts.{post};

    ghost log = { λ n p. post p.number p.guide.now.guide ∷ [] };
}

/// The word that counts the later posts of a history.
pub(crate) type Count = Word<Post, u64, Law>;

/// That a history has reached these posts. It has no bytes.
pub(crate) type History = Seen<Post, u64, Law>;

/// A history with its opening post, and the word that counts the later ones.
pub(crate) fn begin(opening: &Posting) -> (Count, History)
    ensures word { result.0 ≡ word_of result.1.book }
    ensures log { result.1.log ≡ post opening.now.number opening.now.guide.now.guide ∷ [] }
{
    let (history, mut pens) = Seen::open_row::<Posting, Begun>(opening, Start::alone(), 1);
    let mut pen = pens.take();
    (Word::tracked(0, &mut pen), history)
}

/// Adds a post behind all that was seen, and says whether it did: it did not where the history is longer than that.
pub(crate) fn add(count: &Count, history: &mut History, later: u64, posting: &Posting) -> bool
    requires word { count.now ≡ word_of history.old.book }
    requires size { length history.old.log ≡ suc later }
    requires room { later + 1 < 2 ^ 64 }
    ensures book { history.new.book ≡ history.old.book }
    ensures log { IsTrue result
        → history.new.log ≡ history.old.log ++ post posting.now.number posting.now.guide.now.guide ∷ [] }
{
    let mut offer = history.plain::<Nothing, Posting, Adding>(posting);
    let mut pen = history.no_pen();
    let found = count.compare_exchange::<Adding, Nothing>(
        later,
        later + 1,
        history,
        &mut offer,
        &mut pen,
    );
    found == later
}

/// Of the posts that two beginnings of a history have, one list begins the other. It does nothing when it runs.
pub(crate) fn agree(one: &History, other: &History)
    requires book { other.now.book ≡ one.now.book }
    ensures { OneBegins one.now.log other.now.log }
{
    let mut both = one.again();
    both.learn(other);
}
