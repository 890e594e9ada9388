// Groups and subgroups of a list, told by places: a group by the place of its first field, a subgroup also by that of its own
// first field. They are read from the links between the list's places. Every function is total, whatever the words are; what it
// finds is said of a list that is linked.
ghost use Rattle.std.specs.Prelude.{◌≡◌, ◌<◌, get_or};
ghost use Rattle.selection.specs.Places.{row_in};
ghost use Rattle.selection.specs.Grouping.{has_object_parent, group_part, subgroup_part, part_in};
ghost use Rattle.selection.specs.Passes.{is_shape};
ghost use Rattle.selection.specs.Following.{link_column, link_at, column_of, followed, group_found, opens_at, FindsSubgroup, FindsOthers, FirstSubgroup, LaterSubgroup, NextSubgroup, Enters, FirstPart, NextPart};

use crate::arena::Arena;
use crate::parents::is_object;
use crate::pass::Pass;
use lists::{Span, get, in_region};
use tables::columns::response_name;

// Which parents a segment's fields have: any, one alone, or those that are no objects.
#[derive(Clone, Copy)]
pub enum Among {
    Every,
    One(u32),
    Abstract,
}

// Fields of one name, and of those parents.
#[derive(Clone, Copy)]
pub struct Segment {
    pub name: u32,
    pub among: Among,
}

// The four words of links of a place: the next and the first of its name, then of its name and parent.
#[derive(Clone, Copy)]
pub enum Link {
    NextOfName,
    FirstOfName,
    NextOfParent,
    FirstOfParent,
}

// What is compared, and whose sets are merged: the fields of a segment from a first one on, then those of another.
#[derive(Clone, Copy)]
pub struct Part {
    pub list: Span,
    pub first: u32,
    pub front: Segment,
    pub next: u32,
    pub back: Segment,
}

// A subgroup: the places of its group's first field, of its own, and of the group's first field whose parent is no object.
#[derive(Clone, Copy)]
pub struct Cursor {
    pub group: u32,
    pub first: u32,
    pub others: u32,
}

// A list that stands in the words, linked.
#[derive(Clone, Copy)]
pub struct Listed<'i, 'w, 'a> {
    pub image: &'i [u32],
    pub words: &'w [u32],
    pub arena: &'a Arena,
    pub list: Span,
}

impl Among {
    // Which link leads to the next of a segment.
    fn next(self) -> Link
        ensures { link_column result ≡ column_of self }
    {
        match self {
            Among::Every => Link::NextOfName,
            Among::One(_) | Among::Abstract => Link::NextOfParent,
        }
    }
}

impl Arena {
    pub(crate) fn row_at(self, s: &[u32], place: u32) -> u32
        ensures { result ≡ row_in s.now self.store place }
    {
        get(s, in_region(self.store, place))
    }

    // A word of a place's links.
    fn link_at(self, s: &[u32], place: u32, link: Link) -> u32
        ensures { result ≡ link_at s.now self place (link_column link) }
    {
        get(s, self.in_links(place, link as u32))
    }

    // The next place of a segment, from one of its places; the end where there is none, which is what the links say in place of a None.
    pub(crate) fn follow(self, s: &[u32], among: Among, place: u32, end: u32) -> u32
        ensures { result ≡ followed s.now self among place end }
    {
        let next = self.link_at(s, place, among.next());
        if place < next { next } else { end }
    }
}

// The parent of the set that a row stands in.
fn parent_of(s: &[u32], row: u32) -> u32
    ensures { result ≡ get_or s.now row 0 }
{
    get(s, row as usize)
}

fn has_object_parent(image: &[u32], s: &[u32], row: u32) -> bool
    ensures { result ≡ has_object_parent image.now s.now row }
{
    is_object(image, parent_of(s, row))
}

impl<'i, 'w, 'a> Listed<'i, 'w, 'a> {
    // Whether the field at a place has an object for its parent.
    fn has_object_parent(self, place: u32) -> bool
        ensures { result ≡ has_object_parent self.entry.image.now self.entry.words.now (row_in self.entry.words.now self.entry.arena.now.store place) }
    {
        has_object_parent(self.image, self.words, self.arena.row_at(self.words, place))
    }

    // The next place of the same name; the list's end where there is none.
    fn next_of_name(self, place: u32) -> u32
        ensures { result ≡ followed self.entry.words.now self.entry.arena.now Among.Every place self.entry.list.end }
    {
        self.arena
            .follow(self.words, Among::Every, place, self.list.end)
    }

    // The place of the first group from a place on; the list's end, or the place behind it, where there is none.
    fn find_group(self, from: u32) -> u32
        ensures { result ≡ group_found self.entry.words.now self.entry.arena.now from self.entry.list.end }
    {
        for place in from..self.list.end {
            if self.arena.link_at(self.words, place, Link::FirstOfName) == place {
                return place;
            }
        }
        from.max(self.list.end)
    }

    // Whether a field has an object for its parent, and is the first of its name and parent.
    fn opens_subgroup(self, place: u32) -> bool
        ensures { result ≡ opens_at self.entry.image.now self.entry.words.now self.entry.arena.now place }
    {
        self.has_object_parent(place)
            && self.arena.link_at(self.words, place, Link::FirstOfParent) == place
    }

    // The place of the first subgroup of an object parent in a group, from a place of the group on; the list's end, where links lead
    // to that. The loop follows links, and counts nothing. It differs from the next one in its test and its start.
    fn find_subgroup(self, from: u32) -> u32
        ensures { FindsSubgroup self.entry.image.now self.entry.words.now self.entry.arena.now self.entry.list from result }
    {
        let mut place = from;
        while place < self.list.end {
            if self.opens_subgroup(place) {
                return place;
            }
            place = self.next_of_name(place);
        }
        place
    }

    // The place of the first field of a group whose parent is no object; the list's end, where links lead to that. The loop follows
    // links, and counts nothing.
    fn find_others(self, group: u32) -> u32
        ensures { FindsOthers self.entry.image.now self.entry.words.now self.entry.arena.now self.entry.list group result }
    {
        let mut place = group;
        while place < self.list.end {
            if !self.has_object_parent(place) {
                return place;
            }
            place = self.next_of_name(place);
        }
        place
    }

    // A group's first subgroup: that of its first object parent, or all of it where there is none.
    fn first_subgroup(self, group: u32) -> Cursor
        ensures { FirstSubgroup self.entry.image.now self.entry.words.now self.entry.arena.now self.entry.list group result }
    {
        let others = self.find_others(group);
        let first = self.find_subgroup(group);
        Cursor {
            group,
            first: if first < self.list.end { first } else { group },
            others,
        }
    }

    // The place of the next subgroup of the same group; the list's end where there is none.
    fn later_subgroup(self, cursor: Cursor) -> u32
        ensures { LaterSubgroup self.entry.image.now self.entry.words.now self.entry.arena.now self.entry.list cursor result }
    {
        if self.has_object_parent(cursor.first) {
            self.find_subgroup(self.next_of_name(cursor.first))
        } else {
            self.list.end
        }
    }

    // The next subgroup of the group, if there is one, or the first of the next group.
    fn next_subgroup(self, cursor: Cursor) -> Cursor
        requires { cursor.group < self.list.end }
        ensures { NextSubgroup self.entry.image.now self.entry.words.now self.entry.arena.now self.entry.list cursor result }
    {
        let first = self.later_subgroup(cursor);
        if first < self.list.end {
            Cursor { first, ..cursor }
        } else {
            self.first_subgroup(self.find_group(cursor.group + 1))
        }
    }

    // A name group as a part: all fields of its name, from the first one on.
    fn group_part(self, group: u32) -> Part
        ensures { result ≡ group_part self.entry.image.now self.entry.words.now self.entry.arena.now.store self.entry.list group }
    {
        let name = response_name(self.image, self.arena.row_at(self.words, group));
        let front = Segment {
            name,
            among: Among::Every,
        };
        Part {
            list: self.list,
            first: group,
            front,
            next: self.list.end,
            back: front,
        }
    }

    // A subgroup as a part: the fields of its object parent, then those of interfaces and unions; or these alone.
    fn subgroup_part(self, cursor: Cursor) -> Part
        ensures { result ≡ subgroup_part self.entry.image.now self.entry.words.now self.entry.arena.now.store self.entry.list cursor }
    {
        let name = response_name(self.image, self.arena.row_at(self.words, cursor.group));
        let row = self.arena.row_at(self.words, cursor.first);
        let back = Segment {
            name,
            among: Among::Abstract,
        };
        if has_object_parent(self.image, self.words, row) {
            let parent = parent_of(self.words, row);
            let among = Among::One(parent);
            let next = cursor.others;
            Part {
                list: self.list,
                first: cursor.first,
                front: Segment { name, among },
                next,
                back,
            }
        } else {
            Part {
                list: self.list,
                first: cursor.first,
                front: back,
                next: self.list.end,
                back,
            }
        }
    }

    // A group as the pass goes over it: the shape pass takes it whole, the parent pass begins with its first subgroup.
    fn enter_group(self, pass: Pass, group: u32) -> Cursor
        ensures { Enters self.entry.image.now self.entry.words.now self.entry.arena.now (is_shape pass) self.entry.list group result }
    {
        match pass {
            Pass::Shape => Cursor {
                group,
                first: group,
                others: self.list.end,
            },
            Pass::Parents => self.first_subgroup(group),
        }
    }

    // The first part of the list.
    pub fn first_part(self, pass: Pass) -> Cursor
        ensures { FirstPart self.entry.image.now self.entry.words.now self.entry.arena.now (is_shape pass) self.entry.list result }
    {
        self.enter_group(pass, self.find_group(self.list.start))
    }

    // The part behind another one. Its group is the list's end where there is none, as the links have it: a loop over parts ends by
    // the test that this function requires.
    pub fn next_part(self, pass: Pass, cursor: Cursor) -> Cursor
        requires { cursor.group < self.list.end }
        ensures { NextPart self.entry.image.now self.entry.words.now self.entry.arena.now (is_shape pass) self.entry.list cursor result }
    {
        match pass {
            Pass::Shape => self.enter_group(pass, self.find_group(cursor.group + 1)),
            Pass::Parents => self.next_subgroup(cursor),
        }
    }

    // The part at a cursor.
    pub fn part_at(self, pass: Pass, cursor: Cursor) -> Part
        ensures { result ≡ part_in self.entry.image.now self.entry.words.now self.entry.arena.now.store self.entry.list (is_shape pass) cursor }
    {
        match pass {
            Pass::Shape => self.group_part(cursor.group),
            Pass::Parents => self.subgroup_part(cursor),
        }
    }
}
