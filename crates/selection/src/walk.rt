// A pass of the merge walk over one operation, and what it charges. Every function ends and stays inside its words on
// any image; what it yields is the merge theory's walk where the image is good and the operation's sets are sound.
ghost use Rattle.std.specs.Prelude.{◌≡◌, true, false, ◌+◌, ◌<◌, ◌≤◌};
ghost use Rattle.selection.specs.Passes.{is_shape};
ghost use Rattle.selection.specs.Grouping.{part_in};
ghost use Rattle.selection.specs.Following.{FirstPart, NextPart};
ghost use Rattle.merge_theory.specs.Document.{number_of};
ghost use Rattle.selection.specs.Refining.{charged, MeetsList, Ample, Begun, MeetsSets, MeetsPart, WalksList, pass_of, ended, ended_here, met_from, Stops, Ends, EndsMet};
ghost use Rattle.selection.specs.Validating.{at_start, MeetsOperation, Runs, Validates};
ghost use Rattle.selection.specs.Comparing.{cause_of, clash_shows, conflicted, ComparesSegment, ComparesPart, Bare, filled_set, field_next, field_words, QueuesSegment, QueuesPart};

use crate::arena::{Arena, MOST_WORK, Reply, Walk};
use crate::groups::{Cursor, Listed, Part, Segment};
use crate::pass::Pass;
use expand::Expansion;
use lists::{Span, clear};
use tables::columns::{field_arguments, field_name, field_type, is_empty_set, own_set};
use tables::{FRAGMENTS, count};
use values::same_arguments;
use values::shape::same_output_type_shape;

// One more than the links of the document: a set lies fewer links below the operation's.
const LEVELS: u32 = 502;

// What has been met, and the list that the walk goes into: one that is new and paid.
#[derive(Clone, Copy)]
pub struct Met {
    pub walk: Walk,
    pub below: Option<Span>,
}

// One pass over one operation: where its words lie, its budget, and which of the two it is.
#[derive(Clone, Copy)]
pub struct Run {
    pub arena: Arena,
    pub work: u32,
    pub pass: Pass,
}

// What two fields of one part conflict in.
#[derive(Clone, Copy)]
pub enum Clash {
    Shape = 14,
    Name = 15,
    Arguments = 16,
}

impl Walk {
    // Before an operation's passes.
    fn at_start(operation: u32, used: u32) -> Walk
        ensures { result ≡ at_start operation used }
    {
        Walk {
            reply: Reply {
                kind: 0,
                operation,
                a: 0,
                b: 0,
                used,
            },
            known: 0,
            expansions: 0,
        }
    }

    // One unit and as many as there are rows are charged, or the reply is 17 where that would pass the budget.
    fn charge(self, work: u32, rows: u32) -> Result<Walk, Reply>
        ensures charges { ended self result ≡ charged work (1 + rows) self }
        ensures ends { self.reply.kind ≡ 0 → Ends result }
    {
        let used = self.reply.used;
        let sum = (used as u64) + (1 + (rows as u64));
        if sum <= (work as u64) {
            Ok(Walk {
                reply: Reply {
                    used: sum as u32,
                    ..self.reply
                },
                ..self
            })
        } else {
            Err(Reply {
                kind: 17,
                ..self.reply
            })
        }
    }

    fn conflict(self, clash: Clash, a: u32, b: u32) -> Reply
        ensures { result ≡ (conflicted (number_of (cause_of clash)) a b self).reply }
    {
        Reply {
            kind: clash as u32,
            a,
            b,
            ..self.reply
        }
    }
}

// An expansion whose queue is empty yet.
fn begin_expansion(walk: Walk) -> Expansion
    requires { (walk.known ≤ 1000000) × (walk.expansions ≤ 1000000) }
    ensures { Begun walk result × (result.queued ≡ 0) }
{
    Expansion {
        queued: 0,
        listed: walk.known + 1,
        number: walk.expansions + 1,
    }
}

// Whether two fields differ in shape.
fn shape_clash(image: &[u32], a: u32, b: u32) -> Option<Clash>
    ensures { clash_shows result ≡ (pass_of image.now true).clash a b }
{
    if same_output_type_shape(image, field_type(image, a), field_type(image, b)) {
        None
    } else {
        Some(Clash::Shape)
    }
}

// Whether two fields differ in name or arguments.
fn same_name_and_arguments(image: &[u32], a: u32, b: u32) -> Option<Clash>
    ensures { clash_shows result ≡ (pass_of image.now false).clash a b }
{
    if field_name(image, a) != field_name(image, b) {
        return Some(Clash::Name);
    }
    if same_arguments(image, field_arguments(image, a), field_arguments(image, b)) {
        None
    } else {
        Some(Clash::Arguments)
    }
}

// What two fields of one part conflict in, in the shape pass or in the parent pass.
fn clash_of(image: &[u32], pass: Pass, a: u32, b: u32) -> Option<Clash>
    ensures { clash_shows result ≡ (pass_of image.now (is_shape pass)).clash a b }
{
    match pass {
        Pass::Shape => shape_clash(image, a, b),
        Pass::Parents => same_name_and_arguments(image, a, b),
    }
}

// The set of a field, if it has one that is not empty.
fn filled_set(image: &[u32], row: u32) -> Option<u32>
    ensures { result ≡ filled_set image.now row }
{
    let set = own_set(image, row)?;
    if is_empty_set(image, set) {
        None
    } else {
        Some(set)
    }
}

impl Run {
    // The list at hand is met: charged, and kept where it is new and paid.
    fn meet_list(&self, s: &mut [u32], walk: Walk, list: Span) -> Result<Met, Reply>
        requires { walk.reply.kind ≡ 0 }
        ensures meets { MeetsList s.old s.new self.now.arena self.now.work walk list (met_from walk result) }
        ensures ends { EndsMet result }
    {
        let registry = self.arena.registry();
        let slot = registry.slot_of(&s[..], list);
        if registry.is_known(&s[..], slot, list) {
            let paid = walk.charge(self.work, 0)?;
            return Ok(Met {
                walk: paid,
                below: None,
            });
        }
        let paid = walk.charge(self.work, list.len())?;
        let known = registry.keep(s, slot, walk.known, list);
        Ok(Met {
            walk: Walk { known, ..paid },
            below: Some(list),
        })
    }

    // The queued sets are expanded, and their list is met; one that is new and paid is linked.
    fn meet_sets(
        &self,
        image: &[u32],
        s: &mut [u32],
        walk: Walk,
        x: Expansion,
    ) -> Result<Met, Reply>
        requires { Ample self.now.work 0 walk × Begun walk x }
        ensures meets { MeetsSets image.now self.now.arena self.now.work s.old s.new walk x (is_shape self.now.pass) (met_from walk result) }
        ensures ends { EndsMet result }
    {
        let start = x.listed;
        let end = self.arena.area().expand_selections(image, s, x);
        let next = Walk {
            expansions: x.number,
            ..walk
        };
        let met = self.meet_list(s, next, Span { start, end })?;
        if let Some(list) = met.below {
            self.arena.link_list(s, list, self.pass);
        }
        Ok(met)
    }

    // A field against those of a segment, in order, from one of its places on. The loop follows links, and counts nothing.
    fn compare_segment(
        &self,
        image: &[u32],
        s: &[u32],
        walk: Walk,
        list: Span,
        segment: Segment,
        a: u32,
        from: u32,
    ) -> Result<(), Reply>
        ensures compares { ComparesSegment image.now s.now self.now.arena walk list segment (is_shape self.now.pass) a from (ended_here walk result) }
        ensures stops { Stops result }
    {
        let mut place = from;
        while place < list.end {
            let b = self.arena.row_at(s, place);
            if let Some(clash) = clash_of(image, self.pass, a, b) {
                return Err(walk.conflict(clash, a, b));
            }
            place = self.arena.follow(s, segment.among, place, list.end);
        }
        Ok(())
    }

    // The first field of a part against each other, in order.
    fn compare_part(&self, image: &[u32], s: &[u32], walk: Walk, part: Part) -> Result<(), Reply>
        ensures compares { ComparesPart image.now s.now self.now.arena walk part (is_shape self.now.pass) (ended_here walk result) }
        ensures stops { Stops result }
    {
        let a = self.arena.row_at(s, part.first);
        let among = part.front.among;
        let second = self.arena.follow(s, among, part.first, part.list.end);
        self.compare_segment(image, s, walk, part.list, part.front, a, second)?;
        self.compare_segment(image, s, walk, part.list, part.back, a, part.next)
    }

    // The set of a field is queued, if it has one that is not empty.
    fn queue_field(&self, image: &[u32], s: &mut [u32], x: Expansion, row: u32) -> Expansion
        ensures { (result ≡ field_next image.now self.now.arena x row) × (s.new ≡ field_words image.now self.now.arena x s.old row) }
    {
        match filled_set(image, row) {
            Some(set) => self.arena.area().queue_set(s, x, set),
            None => x,
        }
    }

    // The sets of a segment's fields are queued, from one of its places on. The loop follows links, and counts nothing.
    fn queue_segment(
        &self,
        image: &[u32],
        s: &mut [u32],
        x: Expansion,
        list: Span,
        segment: Segment,
        from: u32,
    ) -> Expansion
        ensures { QueuesSegment image.now self.now.arena s.old s.new x result list segment from }
    {
        let mut next = x;
        let mut place = from;
        while place < list.end {
            let row = self.arena.row_at(&s[..], place);
            next = self.queue_field(image, s, next, row);
            place = self.arena.follow(&s[..], segment.among, place, list.end);
        }
        next
    }

    // The sets of a part's fields are queued.
    fn queue_part(&self, image: &[u32], s: &mut [u32], x: Expansion, part: Part) -> Expansion
        ensures { QueuesPart image.now self.now.arena s.old s.new x result part }
    {
        let front = self.queue_segment(image, s, x, part.list, part.front, part.first);
        self.queue_segment(image, s, front, part.list, part.back, part.next)
    }

    // Whether a part is one field without a set, so that there is nothing to compare or to meet.
    fn is_bare(&self, image: &[u32], s: &[u32], part: Part) -> bool
        ensures { Bare image.now s.now self.now.arena part result }
    {
        let end = part.list.end;
        let among = part.front.among;
        let alone = end <= part.next && end <= self.arena.follow(s, among, part.first, end);
        alone && filled_set(image, self.arena.row_at(s, part.first)).is_none()
    }

    // One part: compared, and its sets met. Kept out of the walk, whose every level would have the words of its locals on the stack.
    #[inline(never)]
    fn meet_part(&self, image: &[u32], s: &mut [u32], walk: Walk, part: Part) -> Result<Met, Reply>
        requires { Ample self.now.work 0 walk }
        ensures meets { MeetsPart image.now self.now.arena self.now.work s.old s.new walk part (is_shape self.now.pass) (met_from walk result) }
        ensures ends { EndsMet result }
    {
        self.compare_part(image, &s[..], walk, part)?;
        let queued = self.queue_part(image, s, begin_expansion(walk), part);
        if queued.queued == 0 {
            return Ok(Met { walk, below: None });
        }
        self.meet_sets(image, s, walk, queued)
    }

    // A list as it stands in the words.
    fn listed<'i, 'w, 'a>(
        &'a self,
        image: &'i [u32],
        s: &'w [u32],
        list: Span,
    ) -> Listed<'i, 'w, 'a>
        ensures { (result.image.now ≡ image.now) × (result.words.now ≡ s.now) × (result.arena.now ≡ self.now.arena) × (result.list ≡ list) }
    {
        Listed {
            image,
            words: s,
            arena: &self.arena,
            list,
        }
    }

    // Where the pass over a list begins.
    fn first_part(&self, image: &[u32], s: &[u32], list: Span) -> Cursor
        ensures { FirstPart image.now s.now self.now.arena (is_shape self.now.pass) list result }
    {
        self.listed(image, s, list).first_part(self.pass)
    }

    fn part_at(&self, image: &[u32], s: &[u32], list: Span, cursor: Cursor) -> Part
        ensures { result ≡ part_in image.now s.now self.now.arena.store list (is_shape self.now.pass) cursor }
    {
        self.listed(image, s, list).part_at(self.pass, cursor)
    }

    fn next_part(&self, image: &[u32], s: &[u32], list: Span, cursor: Cursor) -> Cursor
        requires { cursor.group < list.end }
        ensures { NextPart image.now s.now self.now.arena (is_shape self.now.pass) list cursor result }
    {
        self.listed(image, s, list).next_part(self.pass, cursor)
    }

    // The pass over a list, part by part, each with all that is below it: groups in the shape pass, subgroups in the parent pass. `level`
    // falls.
    fn walk_list(
        &self,
        image: &[u32],
        s: &mut [u32],
        walk: Walk,
        list: Span,
        level: u32,
    ) -> Result<Walk, Reply>
        requires { Ample self.now.work 0 walk }
        ensures walks { WalksList image.now self.now.arena self.now.work s.old s.new walk list (is_shape self.now.pass) level (ended walk result) }
        ensures ends { Ends result }
    {
        if level == 0 {
            return Ok(walk);
        }
        let mut next = walk;
        let mut at = self.first_part(image, &s[..], list);
        while at.group < list.end {
            let part = self.part_at(image, &s[..], list, at);
            if !self.is_bare(image, &s[..], part) {
                let met = self.meet_part(image, s, next, part)?;
                next = met.walk;
                if let Some(below) = met.below {
                    next = self.walk_list(image, s, next, below, level - 1)?;
                }
            }
            at = self.next_part(image, &s[..], list, at);
        }
        Ok(next)
    }

    // The shape pass over a list, group by group.
    fn same_response_shape_by_name(
        &self,
        image: &[u32],
        s: &mut [u32],
        walk: Walk,
        list: Span,
        level: u32,
    ) -> Result<Walk, Reply>
        requires { Ample self.now.work 0 walk }
        ensures walks { WalksList image.now self.now.arena self.now.work s.old s.new walk list true level (ended walk result) }
        ensures ends { Ends result }
    {
        let run = Run {
            pass: Pass::Shape,
            ..*self
        };
        run.walk_list(image, s, walk, list, level)
    }

    // The parent pass over a list, subgroup by subgroup.
    fn same_for_common_parents_by_name(
        &self,
        image: &[u32],
        s: &mut [u32],
        walk: Walk,
        list: Span,
        level: u32,
    ) -> Result<Walk, Reply>
        requires { Ample self.now.work 0 walk }
        ensures walks { WalksList image.now self.now.arena self.now.work s.old s.new walk list false level (ended walk result) }
        ensures ends { Ends result }
    {
        let run = Run {
            pass: Pass::Parents,
            ..*self
        };
        run.walk_list(image, s, walk, list, level)
    }

    // The run's own pass over a list.
    fn walk_pass(
        &self,
        image: &[u32],
        s: &mut [u32],
        walk: Walk,
        list: Span,
        level: u32,
    ) -> Result<Walk, Reply>
        requires { Ample self.now.work 0 walk }
        ensures walks { WalksList image.now self.now.arena self.now.work s.old s.new walk list (is_shape self.now.pass) level (ended walk result) }
        ensures ends { Ends result }
    {
        match self.pass {
            Pass::Shape => self.same_response_shape_by_name(image, s, walk, list, level),
            Pass::Parents => self.same_for_common_parents_by_name(image, s, walk, list, level),
        }
    }

    // The operation's own set is met, with no words of known lists.
    fn meet_operation(
        &self,
        image: &[u32],
        s: &mut [u32],
        walk: Walk,
        operation: u32,
    ) -> Result<Met, Reply>
        requires { Ample self.now.work 0 walk }
        ensures meets { MeetsOperation image.now self.now.arena self.now.work operation s.old s.new walk (is_shape self.now.pass) (met_from walk result) }
        ensures ends { EndsMet result }
    {
        let next = Walk { known: 0, ..walk };
        let queued = self
            .arena
            .area()
            .queue_set(s, begin_expansion(next), operation);
        self.meet_sets(image, s, next, queued)
    }

    // The pass over the operation, with nothing known.
    fn walk_operation(
        &self,
        image: &[u32],
        s: &mut [u32],
        walk: Walk,
        operation: u32,
    ) -> Result<Walk, Reply>
        requires { Ample self.now.work 0 walk }
        ensures runs { Runs image.now self.now.arena self.now.work operation s.old s.new walk (is_shape self.now.pass) (ended walk result) }
        ensures ends { Ends result }
    {
        self.arena.registry().forget(s);
        let met = self.meet_operation(image, s, walk, operation)?;
        match met.below {
            Some(list) => self.walk_pass(image, s, met.walk, list, LEVELS),
            None => Ok(met.walk),
        }
    }
}

// The merge walk of one operation: a reply of kind 0, or 14 to 17. It can't fail, so it gives no Result. `used` goes on from the operations before.
pub fn validate_operation(
    image: &[u32],
    s: &mut [u32],
    work: u32,
    operation: u32,
    used: u32,
) -> Reply
    ensures { Validates image.now work operation used s.old s.new result }
{
    let budget = work.min(MOST_WORK);
    let arena = Arena::of(image, budget);
    clear(s, arena.marks as usize, count(image, FRAGMENTS) as usize);
    let run = Run {
        arena,
        work: budget,
        pass: Pass::Shape,
    };
    let start = Walk::at_start(operation, used);
    let shaped = match run.walk_operation(image, s, start, operation) {
        Ok(shaped) => shaped,
        Err(reply) => return reply,
    };
    let run = Run {
        pass: Pass::Parents,
        ..run
    };
    match run.walk_operation(image, s, shaped, operation) {
        Ok(end) => end.reply,
        Err(reply) => reply,
    }
}
