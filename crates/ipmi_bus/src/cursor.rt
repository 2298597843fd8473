//! Returns the records of a shelf one by one, following their next ids.
ghost use Rattle.std.specs.Prelude.{◌≡◌, ◌<◌, ◌≤◌, false, Ok, Err, Some, None, IfOk, IfSome, List, length};
ghost use Rattle.std.specs.FinSet as set;
ghost use Rattle.std.specs.Option.{ForSome};
ghost use Rattle.std.specs.Borrow.{sem};
ghost use Rattle.ipmi_bus.specs.Prelude.{End, IsHonest, StaysHonest, Row, whole_len, largest_len, place_after, StepAnswers, AsksNothing, StandsAt, IsStep, start_of, state_of, IsCursor, handed_result, handed_id, IsNext};

use crate::controller::{Controller, FIRST_RECORD_ID, LARGEST_SDR_LEN, NO_NEXT_ID, Shelf};
use crate::id_table::IdTable;
use crate::retrieval::{Found, Retrieval};
use crate::step::{Ended, Place, Record, record_id};
use std::alloc::{AllocError, Global};
use std::marker::Model;

/// A record in the buffer, ready to be returned. It is not a `Record`: that would borrow the buffer, which the
/// contract of `advance` has to mention.
#[derive(Clone, Copy)]
pub(crate) struct Handed {
    pub(crate) id: u16,
    pub(crate) next: u16,
    pub(crate) len: usize,
}

/// A cursor's retrieval, its place and the ids of the records that it has returned. It is a type of its own because
/// the view of `Cursor` has no buffer.
#[derive(Drop)]
pub(crate) struct Progress {
    pub(crate) retrieval: Retrieval,
    pub(crate) place: Place,
    pub(crate) ids: IdTable,
}

/// What a step does.
#[derive(Clone, Copy)]
pub(crate) enum Next {
    /// Nothing: the cursor is at the end.
    End,
    /// It reports a cycle at this id.
    Cycle(u16),
    /// It reads the record with this id.
    Asks(u16),
}

impl Progress {
    /// What the next step does.
    fn next(&self) -> Next
        ensures { IsNext self.now.place self.now.ids result }
    {
        match self.place {
            Place::End => Next::End,
            Place::First => Next::Asks(FIRST_RECORD_ID),
            Place::Id(id) => {
                if id == FIRST_RECORD_ID || self.ids.contains(id) {
                    Next::Cycle(id)
                } else {
                    Next::Asks(id)
                }
            }
        }
    }

    /// Returns the complete record in the buffer, and moves to the place after it.
    fn hand_out(&mut self, asked: u16) -> Handed
        requires within { self.old.retrieval.have ≤ 256 }
        requires some { 5 ≤ self.old.retrieval.have }
        ensures place { self.new.place ≡ place_after result.next }
        ensures ids { self.new.ids ≡ set.insert self.old.ids result.id }
        ensures at_most { set.len self.new.ids ≤ 65536 }
        ensures id { result.id ≡ handed_id self.old.place asked self.old.retrieval.buffer }
        ensures next { result.next ≡ self.old.retrieval.next }
        ensures next_fits { result.next < 65536 }
        ensures len { result.len ≡ self.old.retrieval.have }
        ensures retrieval { self.new.retrieval ≡ self.old.retrieval }
        ensures buffer_len { length self.new.retrieval.buffer ≡ 256 }
    {
        let id = match self.place {
            Place::First => record_id(&self.retrieval.buffer),
            Place::Id(_) | Place::End => asked,
        };
        self.ids.insert(id);
        let next = self.retrieval.next;
        self.place = if next == NO_NEXT_ID {
            Place::End
        } else {
            Place::Id(next)
        };
        Handed {
            id,
            next,
            len: self.retrieval.have,
        }
    }

    /// Drops the reservation. A later step requests a new one.
    fn fail(&mut self, ended: Ended) -> Result<Option<Handed>, Ended>
        ensures answers { result ≡ Err ended }
        ensures leaves { self.new ≡ record self.old
            { retrieval = record self.old.retrieval { reservation = None } } }
    {
        self.retrieval.reservation = None;
        Err(ended)
    }

    /// Makes a step. A record that it returns is in the buffer.
    #[tactic(auto, using(crate::proofs::CursorLemmas::empty_ids))]
    fn advance<C: Controller>(&mut self, ctl: &mut C) -> Result<Option<Handed>, Ended>
        requires { IsCursor self.old }
        ensures cursor { IsCursor self.new }
        ensures fits { IfOk result (λ o. IfSome o (λ handed. handed.len ≤ 256)) }
        ensures step { IsStep (state_of self.old) (state_of self.new) (C.seen ctl.old) (C.seen ctl.new)
            (handed_result self.new result) }
    {
        let asked = match self.next() {
            Next::End => return Ok(None),
            Next::Cycle(id) => return self.fail(Ended::Cycle(id)),
            Next::Asks(id) => id,
        };
        match self.retrieval.read(ctl, asked) {
            Ok(Found::Whole) => Ok(Some(self.hand_out(asked))),
            Ok(Found::Absent) => {
                if self.place == Place::First {
                    self.place = Place::End;
                    return Ok(None);
                }
                self.fail(Ended::Missing(asked))
            }
            Err(ended) => self.fail(ended),
        }
    }
}

/// Returns the records of a shelf, following their next ids.
#[derive(Drop)]
pub struct Cursor {
    progress: Progress,
}

impl Model for Cursor {
    ghost use Rattle.ipmi_bus.specs.Prelude.{CursorState, IsCursor, state_of};
    ghost use Rattle.std.specs.Coded.{codes, coded_ℕ};
    ghost use Rattle.std.specs.FinSet as set;
    ghost use Rattle.std.specs.Ordering.{nat_cmp};
    ghost use Rattle.ipmi_bus.specs.contracts.controller.Shelf as shelf;
    ghost use Rattle.ipmi_bus.specs.contracts.step.Place as place;

    ghost Value = { CursorState };

    ghost coded = { Prim.hlevel (codes, set.code {R = nat_cmp} coded_ℕ, shelf.the_row.coded, place.the_row.coded) };

    ghost view = { λ c. state_of c.progress };

    ghost invariant = { λ c. IsCursor c.progress };
}

impl Cursor {
    ghost use Rattle.ipmi_bus.specs.Lent.{CursorRests, as_rows};

    /// A cursor at the start of the shelf, or at the record with the id `from`. It asks for at most `part` bytes per
    /// request and allows `tries` troubles per record. It allocates all its memory here.
    pub fn start(
        alloc: Global,
        shelf: Shelf,
        from: Option<u16>,
        part: u8,
        tries: u8,
    ) -> Result<Cursor, AllocError>
        requires some { 0 < part }
        requires fits { part < 255 }
        requires from { ForSome from (λ id. (0 < id) × (id < 65535)) }
        ensures stands { IfOk result (λ cursor. (rows walk : List Row) →
            StandsAt rows (start_of from) walk 0 cursor) }
        ensures fresh { IfOk result (λ cursor. cursor ≡ record {
          shelf = shelf;
          place = start_of from;
          part = part;
          tries = tries;
          ahead = false;
          ids = set.empty;
          reservation = None;
        }) }
    {
        Ok(Cursor {
            progress: Progress {
                retrieval: Retrieval {
                    shelf,
                    part,
                    tries,
                    ahead: false,
                    reservation: None,
                    id: 0,
                    troubles: 0,
                    have: 0,
                    next: 0,
                    buffer: [0; LARGEST_SDR_LEN],
                },
                place: match from {
                    None => Place::First,
                    Some(id) => Place::Id(id),
                },
                ids: IdTable::new(alloc)?,
            },
        })
    }

    /// Sets whether the cursor reads ahead. Then it doesn't ask for the header of a sensor data record alone, but for up
    /// to 64 bytes at once, as the longest record of the standard has. So a record costs one request if the controller
    /// gives it whole.
    ///
    /// A refusal of such a request is kept from the caller, whatever its code, since controllers have several for one that
    /// is too long. Then parts are half as long, nothing more is read ahead, and the header is asked for. After a code for
    /// a smaller part too parts are half as long, but more is read ahead, unless at most 32 bytes were too many.
    /// Troubles and CBh mean what they always do: by table 5-2 of IPMI v2.0 they are not about the length.
    pub fn read_ahead(&mut self, ahead: bool)
        ensures { self.new ≡ record self.old { ahead = ahead } }
    {
        self.progress.retrieval.ahead = ahead;
    }

    /// The place where the next step begins.
    pub fn resume_at(&self) -> Place
        ensures { result ≡ self.now.place }
    {
        self.progress.place
    }

    /// Returns the next record, which borrows from the cursor until the next step, or None if there are no more.
    /// After an `Err` the cursor is where it was and holds no reservation, so a later step tries again.
    // Answers in proofs/ are for the exits of this body. The lemmas are for those of another, as in a must-fail edit.
    #[tactic(auto, using(crate::proofs::WalkLemmas::follows_walks, crate::proofs::WalkLemmas::asks_along))]
    pub fn step<C: Controller>(&mut self, ctl: &mut C) -> Result<Option<Record<'_>>, Ended>
        ensures* after { sem 𝓛 (CursorRests self.entry
            (λ new. IsStep self.old new (C.seen ctl.old) (C.seen ctl.new) (as_rows result))) }
        // the clauses below hold at once, while the record is still borrowed
        ensures at_end { self.old.place ≡ End → as_rows result ≡ Ok None }
        ensures no_call { AsksNothing self.old → C.seen ctl.new ≡ C.seen ctl.old }
        ensures whole { IfOk result (λ o. IfSome o
            (λ record_. length record_.bytes.now ≡ whole_len self.old.shelf record_.bytes.now)) }
        ensures fits { IfOk result (λ o. IfSome o (λ record_. length record_.bytes.now ≤ largest_len
            self.old.shelf)) }
        ensures answers { IsHonest (C.seen ctl.old) →
            StaysHonest (C.seen ctl.old) (C.seen ctl.new) × StepAnswers self.old (C.seen ctl.old)
            (C.seen ctl.new) (as_rows result) }
    {
        match self.progress.advance(ctl)? {
            None => Ok(None),
            Some(handed) => Ok(Some(Record {
                id: handed.id,
                next: handed.next,
                bytes: &self.progress.retrieval.buffer[..handed.len],
            })),
        }
    }
}
