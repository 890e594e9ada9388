// A list that is met stands in the store with the links between its places: by name, and by name and parent.
ghost use Rattle.std.specs.Prelude.{◌≡◌};
ghost use Rattle.selection.specs.Passes.{is_shape};
ghost use Rattle.selection.specs.Standing.{names_chain, pairs_chain, Stood};

use crate::arena::Arena;
use crate::links::Chain;
use crate::pass::Pass;
use lists::Span;

impl Arena {
    fn names_chain(self) -> Chain
        ensures { result ≡ names_chain self }
    {
        Chain {
            classes: self.names,
            lasts: self.lasts,
            links: self.links,
            store: self.store,
        }
    }

    // The second two of the four words of a place, as far as a word can say where they begin.
    fn pairs_chain(self) -> Chain
        ensures { result ≡ pairs_chain self }
    {
        Chain {
            classes: self.pairs,
            lasts: self.lasts,
            links: self.links.saturating_add(2),
            store: self.store,
        }
    }

    // By name and parent only where the shape pass is over, which goes by names alone.
    pub(crate) fn link_list(self, s: &mut [u32], list: Span, pass: Pass)
        ensures { Stood self (is_shape pass) s.old s.new list }
    {
        self.names_chain().link(s, list);
        if pass == Pass::Parents {
            self.pairs_chain().link(s, list);
        }
    }
}
