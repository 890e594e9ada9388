// Links between the places of a list: from each place to the next one of its class, and to the first. Every function is total;
// what the links are stands under `Linkable`. What stands among the last places before does not matter.
ghost use Rattle.std.specs.Prelude.{◌≡◌, ◌+◌, ◌*◌};
ghost use Rattle.selection.specs.Linking.{class_at, is_earlier, end_words, link_words, Links};

use lists::{Span, get, in_region, put};

// Where the words of one kind of links stand: the class of each row, the last place of each class, two words of links for each
// place (four words apart), and the store of rows.
#[derive(Clone, Copy)]
pub struct Chain {
    pub classes: u32,
    pub lasts: u32,
    pub links: u32,
    pub store: u32,
}

impl Chain {
    // The class of the row that stands at a place.
    pub fn class_at(self, s: &[u32], place: u32) -> u32
        ensures { result ≡ class_at s.now self place }
    {
        get(
            s,
            in_region(self.classes, get(s, in_region(self.store, place))),
        )
    }

    // Where the links of a place stand.
    pub fn links_at(self, place: u32) -> usize
        ensures { result ≡ self.links + 4 * place }
    {
        (self.links as usize) + 4 * (place as usize)
    }

    // Whether `before` is a place of the list, before another one, and has that class.
    fn is_earlier(self, s: &[u32], list: Span, before: u32, place: u32, class: u32) -> bool
        ensures { result ≡ is_earlier s.now self list before place class }
    {
        let inside = list.start <= before && before < place;
        inside && self.class_at(s, before) == class
    }

    // A place is the last of its class so far: it leads to the list's end.
    fn end_links(self, s: &mut [u32], list: Span, place: u32, class: u32, first: u32)
        ensures { s.new ≡ end_words s.old self list place class first }
    {
        let at = self.links_at(place);
        put(s, in_region(self.lasts, class), place);
        put(s, at, list.end);
        put(s, at + 1, first);
    }

    // A place is linked to the last one of its class, where there is one.
    fn link_place(self, s: &mut [u32], list: Span, place: u32)
        ensures { s.new ≡ link_words s.old self list place }
    {
        let class = self.class_at(&s[..], place);
        let before = get(&s[..], in_region(self.lasts, class));
        if self.is_earlier(&s[..], list, before, place, class) {
            let at = self.links_at(before);
            let first = get(&s[..], at + 1);
            put(s, at, place);
            self.end_links(s, list, place, class, first);
        } else {
            self.end_links(s, list, place, class, place);
        }
    }

    // The places of a list are linked, in one pass.
    pub fn link(self, s: &mut [u32], list: Span)
        ensures { Links s.old s.new self list }
    {
        for place in list.start..list.end {
            self.link_place(s, list, place);
        }
    }
}
